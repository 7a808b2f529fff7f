// Rays: core/geometry/ray.rs, without its medium and its differentials.
#![tactic(auto, unfolding(crate::specs::Ray::ray_from, crate::specs::Ray::flat_ray, crate::specs::Ray::point_at))]

ghost use Rattle.std.specs.Prelude.{◌≡◌, ◌+◌, ◌≤◌, length};
ghost use Rattle.geometry.specs.Ray.{ray_floats, ray_from, flat_ray, point_at};

use crate::point::{Point3f, point_from};
use crate::vector::{Vector3f, vector_from};

#[derive(Clone, Copy, Debug, PartialEq)]
pub struct Ray {
    pub o: Point3f,
    pub d: Vector3f,
    pub t_max: f32,
    pub time: f32,
}

// How many floats a ray is: origin, direction, t_max, time.
pub const RAY_FLOATS: usize = 8;

// The ray whose floats start at a place. It asks that they are there: it reads for other crates, and a TryFrom could fail. By
// a place, as `point_from`.
pub fn ray_from(s: &[f32], at: usize) -> Ray
    requires { at + ray_floats ≤ length s.now }
    ensures { result ≡ ray_from s.now at }
{
    Ray {
        o: point_from(s, at),
        d: vector_from(s, at + 3),
        t_max: s[at + 6],
        time: s[at + 7],
    }
}

// As floats: ray_from reads it back.
impl From<Ray> for [f32; RAY_FLOATS] {
    ghost from_gives = { λ r v. v ≡ flat_ray r };

    fn from(r: Ray) -> [f32; RAY_FLOATS] {
        [r.o.x, r.o.y, r.o.z, r.d.x, r.d.y, r.d.z, r.t_max, r.time]
    }
}

impl Ray {
    pub fn find_point(self, t: f32) -> Point3f
        ensures { result ≡ point_at self t }
    {
        self.o + self.d * t
    }
}
