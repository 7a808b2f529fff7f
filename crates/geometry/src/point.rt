// Points: they go by component, as vectors do.
#![tactic(auto, unfolding(crate::specs::Point::point_from, crate::specs::Point::difference2, crate::specs::Point::plus, crate::specs::Point::moved, crate::specs::Point::difference, crate::specs::Point::point_scaled, crate::specs::Point::point_divided, crate::specs::Point::least_of, crate::specs::Point::greatest_of, crate::specs::Point::point_lerp))]

ghost use Rattle.std.specs.Prelude.{◌≡◌, ◌+◌, ◌≤◌, length};
ghost use Rattle.std.proofs.Common.{rules};
ghost use Rattle.geometry.specs.Pbrt.{lerp_of};
ghost use Rattle.geometry.specs.Point.{point_from, difference2, plus, moved, difference, point_scaled, point_divided, least_of, greatest_of, point_lerp};

use crate::pbrt::Interpolate;
use crate::vector::{Vector2f, Vector3f};
use std::ops::{Add, Mul, Sub};

#[derive(Clone, Copy, Debug, PartialEq)]
pub struct Point2f {
    pub x: f32,
    pub y: f32,
}

impl Sub for Point2f {
    type Output = Vector2f;

    ghost sub_gives = { λ p q r. r ≡ difference2 p q };

    fn sub(self, p: Point2f) -> Vector2f {
        Vector2f {
            x: self.x - p.x,
            y: self.y - p.y,
        }
    }
}

// Equal points are equal in each coordinate: -0 equals 0, and a NaN equals nothing.
#[derive(Clone, Copy, Debug, PartialEq)]
pub struct Point3f {
    pub x: f32,
    pub y: f32,
    pub z: f32,
}

// How many floats a point or a vector is.
pub const POINT_FLOATS: usize = 3;

// The point whose coordinates start at a place among floats. It asks that they are there: it reads for other crates, and a
// TryFrom could fail. By a place and not from a slice's rest, as the definitions read a list: `ray_from` over `&s[at..]` has no
// proof without a lemma that place i of the rest is place at + i.
pub fn point_from(s: &[f32], at: usize) -> Point3f
    requires { at + 3 ≤ length s.now }
    ensures { result ≡ point_from s.now at }
{
    Point3f {
        x: s[at],
        y: s[at + 1],
        z: s[at + 2],
    }
}

impl Add for Point3f {
    type Output = Point3f;

    ghost add_gives = { λ p q r. r ≡ plus p q };

    fn add(self, p: Point3f) -> Point3f {
        Point3f {
            x: self.x + p.x,
            y: self.y + p.y,
            z: self.z + p.z,
        }
    }
}

impl Add<Vector3f> for Point3f {
    type Output = Point3f;

    ghost add_gives = { λ p v r. r ≡ moved p v };

    fn add(self, v: Vector3f) -> Point3f {
        Point3f {
            x: self.x + v.x,
            y: self.y + v.y,
            z: self.z + v.z,
        }
    }
}

impl Sub for Point3f {
    type Output = Vector3f;

    ghost sub_gives = { λ p q r. r ≡ difference p q };

    fn sub(self, p: Point3f) -> Vector3f {
        Vector3f {
            x: self.x - p.x,
            y: self.y - p.y,
            z: self.z - p.z,
        }
    }
}

impl Mul<f32> for Point3f {
    type Output = Point3f;

    ghost mul_gives = { λ p k r. r ≡ point_scaled p k };

    fn mul(self, k: f32) -> Point3f {
        Point3f {
            x: self.x * k,
            y: self.y * k,
            z: self.z * k,
        }
    }
}

impl Interpolate for Point3f {
    ghost lerp_of = { point_lerp };

    ghost may_scale = { λ _ _. tt };

    ghost may_add = { λ _ _. tt };

    ghost comes_to = { unfold point_lerp lerp_of plus point_scaled in Prim.search rules };
}

impl Point3f {
    // One reciprocal, and three products. There is none for a zero: there the Rust panics. As of a vector, which says why
    // there are two.
    pub fn div(self, k: f32) -> Option<Point3f>
        ensures { result ≡ point_divided self k }
    {
        if k == 0.0 {
            None
        } else {
            Some(self * (1.0 / k))
        }
    }

    // With `max` side by side, as the Rust has them: one method over a closure would say its result by the closure's clause, and
    // be as long.
    pub fn min(self, p: Point3f) -> Point3f
        ensures { result ≡ least_of self p }
    {
        Point3f {
            x: float::min(self.x, p.x),
            y: float::min(self.y, p.y),
            z: float::min(self.z, p.z),
        }
    }

    pub fn max(self, p: Point3f) -> Point3f
        ensures { result ≡ greatest_of self p }
    {
        Point3f {
            x: float::max(self.x, p.x),
            y: float::max(self.y, p.y),
            z: float::max(self.z, p.z),
        }
    }
}
