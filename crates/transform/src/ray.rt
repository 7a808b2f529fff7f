// Rays with the bounds on their errors.
#![tactic(auto, unfolding(crate::specs::Ray::offset_origin, crate::specs::Ray::transform_ray_error))]

ghost use Rattle.std.specs.Prelude.{◌≡◌};
ghost use Rattle.transform.specs.Ray.{offset_origin, transform_ray_error};

use crate::point::transform_point_error;
use crate::vector::transform_vector_error;
use geometry::{Point3f, Ray, Vector3f};
use matrix::Matrix4x4;

#[derive(Clone, Copy, Debug, PartialEq)]
pub struct RayWithError {
    pub ray: Ray,
    pub o_error: Vector3f,
    pub d_error: Vector3f,
}

// The origin, moved along d to the edge of its error's bounds. A d whose square is zero or a NaN
// moves nothing.
fn offset_origin(o: Point3f, o_error: Vector3f, d: Vector3f) -> Point3f
    ensures { result ≡ offset_origin o o_error d }
{
    let length_squared = d.length_squared();
    if length_squared > 0.0 {
        let dt = d.abs().dot(o_error) / length_squared;
        o + d * dt
    } else {
        o
    }
}

// There is none where the weight of the ray's origin is zero: there the Rust panics.
pub fn transform_ray_error(m: Matrix4x4, r: Ray) -> Option<RayWithError>
    ensures { result ≡ transform_ray_error m r }
{
    let (o, o_error) = transform_point_error(m, r.o)?;
    let d = transform_vector_error(m, r.d);
    let ray = Ray {
        o: offset_origin(o, o_error, d.v),
        d: d.v,
        t_max: r.t_max,
        time: r.time,
    };
    Some(RayWithError {
        ray,
        o_error,
        d_error: d.error,
    })
}
