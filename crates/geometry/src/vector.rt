// Vectors: core/geometry/vector.rs.
#![tactic(auto, unfolding(crate::specs::Vector::vector_from, crate::specs::Point::point_from, crate::specs::Vector::negated2, crate::specs::Vector::dot2, crate::specs::Vector::length_squared2, crate::specs::Vector::negated, crate::specs::Vector::scaled, crate::specs::Vector::divided, crate::specs::Vector::dot_of, crate::specs::Vector::absolute, crate::specs::Vector::length_squared, crate::specs::Vector::length_of, crate::specs::Vector::normalized, crate::specs::Vector::minor_of, crate::specs::Vector::cross_of, crate::specs::Vector::crossed_of, crate::specs::Vector::axes_of, crate::specs::Vector::coordinate_system))]

ghost use Rattle.std.specs.Prelude.{◌≡◌, ◌+◌, ◌≤◌, length};
ghost use Rattle.geometry.specs.Vector.{vector_from, negated2, dot2, length_squared2, negated, scaled, divided, dot_of, absolute, length_squared, length_of, normalized, minor_of, vector_of, cross_of, crossed_of, coordinate_system};

use crate::point::{Point3f, point_from};
use std::ops::{Mul, Neg};

#[derive(Clone, Copy, Debug, PartialEq)]
pub struct Vector2f {
    pub x: f32,
    pub y: f32,
}

impl Neg for Vector2f {
    type Output = Vector2f;

    ghost neg_gives = { λ v r. r ≡ negated2 v };

    fn neg(self) -> Vector2f {
        Vector2f {
            x: -self.x,
            y: -self.y,
        }
    }
}

// Beside those of a Vector3f: over arrays of two or three they would be a loop that begins with the first product, for three
// lines.
impl Vector2f {
    pub fn dot(self, v: Vector2f) -> f32
        ensures { result ≡ dot2 self v }
    {
        self.x * v.x + self.y * v.y
    }

    pub fn length_squared(self) -> f32
        ensures { result ≡ length_squared2 self }
    {
        self.x * self.x + self.y * self.y
    }
}

#[derive(Clone, Copy, Debug, PartialEq)]
pub struct Vector3f {
    pub x: f32,
    pub y: f32,
    pub z: f32,
}

// The vector whose components start at a place among floats. It asks that they are there: it reads for other crates. By a
// place, as `point_from`.
pub fn vector_from(s: &[f32], at: usize) -> Vector3f
    requires { at + 3 ≤ length s.now }
    ensures { result ≡ vector_from s.now at }
{
    Vector3f::from(point_from(s, at))
}

// A point's vector from the origin.
impl From<Point3f> for Vector3f {
    ghost from_gives = { λ p v. v ≡ vector_of p.x p.y p.z };

    fn from(p: Point3f) -> Vector3f {
        Vector3f {
            x: p.x,
            y: p.y,
            z: p.z,
        }
    }
}

impl Neg for Vector3f {
    type Output = Vector3f;

    ghost neg_gives = { λ v r. r ≡ negated v };

    fn neg(self) -> Vector3f {
        Vector3f {
            x: -self.x,
            y: -self.y,
            z: -self.z,
        }
    }
}

impl Mul<f32> for Vector3f {
    type Output = Vector3f;

    ghost mul_gives = { λ v k r. r ≡ scaled v k };

    fn mul(self, k: f32) -> Vector3f {
        Vector3f {
            x: self.x * k,
            y: self.y * k,
            z: self.z * k,
        }
    }
}

impl Vector3f {
    // One reciprocal, and three products. There is none for a zero: there the Rust panics. It stands for a point too, as one
    // for both would need a trait that says what its product is, for this one line.
    pub fn div(self, k: f32) -> Option<Vector3f>
        ensures { result ≡ divided self k }
    {
        if k == 0.0 {
            None
        } else {
            Some(self * (1.0 / k))
        }
    }

    pub fn dot(self, v: Vector3f) -> f32
        ensures { result ≡ dot_of self v }
    {
        self.x * v.x + self.y * v.y + self.z * v.z
    }

    pub fn abs(self) -> Vector3f
        ensures { result ≡ absolute self }
    {
        Vector3f {
            x: float::abs(self.x),
            y: float::abs(self.y),
            z: float::abs(self.z),
        }
    }

    pub fn length_squared(self) -> f32
        ensures { result ≡ length_squared self }
    {
        self.x * self.x + self.y * self.y + self.z * self.z
    }

    pub fn length(self) -> f32
        ensures { result ≡ length_of self }
    {
        float::sqrt(self.length_squared())
    }

    pub fn normalize(self) -> Option<Vector3f>
        ensures { result ≡ normalized self }
    {
        self.div(self.length())
    }

    pub fn cross(self, v: Vector3f) -> Vector3f
        ensures { result ≡ cross_of self v }
    {
        self.cross_squared(v).v
    }

    pub fn cross_squared(self, v: Vector3f) -> Crossed
        ensures { result ≡ crossed_of self v }
    {
        cross_parts(self.x, self.y, self.z, v.x, v.y, v.z)
    }
}

// A cross product with the square of its length, summed while its parts are in registers: what is read back right after
// it was written costs more than the sum.
#[derive(Clone, Copy, Debug, PartialEq)]
pub struct Crossed {
    pub v: Vector3f,
    pub length_squared: f32,
}

// A vector by its parts, with the square of its length.
fn squared(x: f32, y: f32, z: f32) -> Crossed
    ensures v_value { result.v ≡ vector_of x y z }
    ensures length_squared_value { result.length_squared ≡ length_squared (vector_of x y z) }
{
    Crossed {
        v: Vector3f { x, y, z },
        length_squared: x * x + y * y + z * z,
    }
}

// The cross product of two vectors by their parts, which stay in registers: a vector that is handed over in memory
// and read whole right after it was written by parts costs more than the products (7 % of a hit's time, docs/PERFORMANCE.md).
// One test finds whether a NaN is among them; a number is widened without one.
fn cross_parts(ax: f32, ay: f32, az: f32, bx: f32, by: f32, bz: f32) -> Crossed
    ensures { result ≡ crossed_of (vector_of ax ay az) (vector_of bx by bz) }
{
    if ax.is_nan() | ay.is_nan() | az.is_nan() | bx.is_nan() | by.is_nan() | bz.is_nan() {
        squared(
            minor(ay, bz, az, by),
            minor(az, bx, ax, bz),
            minor(ax, by, ay, bx),
        )
    } else {
        // By `as`, since f64::from tests for a NaN.
        let x1 = ax as f64;
        let y1 = ay as f64;
        let z1 = az as f64;
        let x2 = bx as f64;
        let y2 = by as f64;
        let z2 = bz as f64;
        squared(
            float::narrow(y1 * z2 - z1 * y2),
            float::narrow(z1 * x2 - x1 * z2),
            float::narrow(x1 * y2 - y1 * x2),
        )
    }
}

// a * b - c * d. The products and their difference are taken at f64, and the result is rounded.
fn minor(a: f32, b: f32, c: f32, d: f32) -> f32
    ensures { result ≡ minor_of a b c d }
{
    let p = float::widen(a) * float::widen(b);
    let q = float::widen(c) * float::widen(d);
    float::narrow(p - q)
}

// The second and the third axis beside a first one. There are none where the second has length zero: there the
// Rust panics.
pub fn vec3_coordinate_system(v1: Vector3f) -> Option<(Vector3f, Vector3f)>
    ensures { result ≡ coordinate_system v1 }
{
    let x = float::abs(v1.x);
    let y = float::abs(v1.y);
    let v2 = if x > y {
        let v2 = Vector3f {
            x: -v1.z,
            y: 0.0,
            z: v1.x,
        };
        v2.div(float::sqrt(v1.x * v1.x + v1.z * v1.z))?
    } else {
        let v2 = Vector3f {
            x: 0.0,
            y: v1.z,
            z: -v1.y,
        };
        v2.div(float::sqrt(v1.y * v1.y + v1.z * v1.z))?
    };
    // By its parts: with one caller fewer `cross_parts` is put into `cross_squared`, which takes its vectors from memory.
    let crossed = cross_parts(v1.x, v1.y, v1.z, v2.x, v2.y, v2.z);
    Some((v2, crossed.v))
}
