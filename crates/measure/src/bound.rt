// Boxes: object_bound and world_bound.
#![tactic(auto, unfolding(crate::specs::Bound::bounds_in, crate::specs::Bound::larger_width, crate::specs::Bound::bound_of, crate::specs::Bound::object_bound, crate::specs::Bound::world_bound_of, crate::specs::Bound::world_bound_refusals, crate::specs::Bound::world_bound, limits::specs::Refused::first_of, curve::specs::Curve::lent_refusals))]

ghost use Rattle.std.specs.Prelude.{◌≡◌};
ghost use Rattle.bezier.specs.Points.{cubic_in};
ghost use Rattle.transform.specs.Bounds.{transform_bounds};
ghost use Rattle.measure.specs.Bound.{bounds_in, widened, larger_width, bound_of, object_bound, world_bound};

use bezier::{POINTS, corners_of};
use curve::CurveRef;
use geometry::{Bounds3f, point_from};
use limits::{Refusal, is_matrix_within};
use matrix::Matrix4x4;
use transform::transform_bounds;

// The larger end width.
fn larger_width(curve: &CurveRef<'_>) -> f32
    ensures { result ≡ larger_width curve.now }
{
    float::max(curve.width_at(curve.umin()), curve.width_at(curve.umax()))
}

// Both corners of a box, four floats each as the points have them: so they are widened and written as one. A Bounds3f
// here takes 38 instructions more of a box's 353.
const CORNERS: usize = 8;

const LOWER: usize = 0;

const UPPER: usize = 4;

// The box of control points, widened by half a width. It is given these and not the curve, which would be waited for.
fn widened_corners(p: &[f32; POINTS], width: f32) -> [f32; CORNERS]
    ensures { bounds_in result ≡ widened (cubic_in p.now) width }
{
    let c = corners_of(p);
    let delta = width * 0.5;
    [
        c.x.least - delta,
        c.y.least - delta,
        c.z.least - delta,
        c.fourth.least - delta,
        c.x.greatest + delta,
        c.y.greatest + delta,
        c.z.greatest + delta,
        c.fourth.greatest + delta,
    ]
}

fn bounds_in(c: &[f32; CORNERS]) -> Bounds3f
    ensures { result ≡ bounds_in c.now }
{
    Bounds3f {
        p_min: point_from(c, LOWER),
        p_max: point_from(c, UPPER),
    }
}

// The box of a curve within the limits. As a call it takes 46 instructions more.
#[inline(always)]
fn bound_of(curve: &CurveRef<'_>) -> Bounds3f
    ensures { result ≡ bound_of curve.now }
{
    bounds_in(&widened_corners(&curve.control_points(), larger_width(curve)))
}

pub fn object_bound(curve: &[f32]) -> Result<Bounds3f, Refusal>
    ensures { result ≡ object_bound curve.now }
{
    let curve = CurveRef::try_from(curve)?;
    Ok(bound_of(&curve))
}

// A function of its own, to which both are lent: without it a hall box takes 984 instructions for 893, and 632 bytes of stack
// for 440.
fn in_world(object_to_world: &Matrix4x4, b: &Bounds3f) -> Option<Bounds3f>
    ensures { result ≡ transform_bounds object_to_world.now b.now }
{
    transform_bounds(*object_to_world, *b)
}

pub fn world_bound(curve: &[f32], object_to_world: Matrix4x4) -> Result<Bounds3f, Refusal>
    ensures { result ≡ world_bound curve.now object_to_world }
{
    let curve = CurveRef::try_from(curve)?;
    if !is_matrix_within(object_to_world) {
        return Err(Refusal::Matrix);
    }
    let bound = bound_of(&curve);
    in_world(&object_to_world, &bound).ok_or(Refusal::ZeroWeight)
}
