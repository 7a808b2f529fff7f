// Boxes.
#![tactic(auto, unfolding(crate::specs::Bounds::starting_at, crate::specs::Bounds::including, crate::specs::Bounds::point_of, crate::specs::Bounds::transform_bounds))]

ghost use Rattle.std.specs.Prelude.{◌≡◌};
ghost use Rattle.transform.specs.Bounds.{point_of, transform_bounds};

use crate::point::transform_point;
use geometry::{Bounds3f, Point3f};
use matrix::Matrix4x4;

fn point(x: f32, y: f32, z: f32) -> Point3f
    ensures { result ≡ point_of x y z }
{
    Point3f { x, y, z }
}

// The box around the eight transformed corners. There is none where a corner's weight is zero.
pub fn transform_bounds(m: Matrix4x4, b: Bounds3f) -> Option<Bounds3f>
    ensures { result ≡ transform_bounds m b }
{
    let low = b.p_min;
    let high = b.p_max;
    // Corner after corner: a loop over an array of them takes a tenth longer for the hall box.
    let b0 = Bounds3f::from(transform_point(m, low)?);
    let b1 = b0.union_point(transform_point(m, point(high.x, low.y, low.z))?);
    let b2 = b1.union_point(transform_point(m, point(low.x, high.y, low.z))?);
    let b3 = b2.union_point(transform_point(m, point(low.x, low.y, high.z))?);
    let b4 = b3.union_point(transform_point(m, point(low.x, high.y, high.z))?);
    let b5 = b4.union_point(transform_point(m, point(high.x, high.y, low.z))?);
    let b6 = b5.union_point(transform_point(m, point(high.x, low.y, high.z))?);
    Some(b6.union_point(transform_point(m, high)?))
}
