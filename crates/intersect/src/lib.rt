// The ray and the flat curve: `intersect` of Curve in src/shapes/curve.rs of pbrt-rust, by its names
// and in its order of operations. Nothing is asked of a caller.
#![tactic(auto)]

ghost use Rattle.std.specs.Prelude.{◌≡◌};
ghost use Rattle.frame.specs.Frame.{framed_along};
ghost use Rattle.intersect.specs.Intersect.{intersect_framed, intersect_of};

use curve::CurveRef;
use frame::{Aim, aim_ray};
use geometry::Ray;
pub use interaction::SurfaceInteraction;
use leaf::{flips, record_at};
use limits::{Refusal, check_ray};
use matrix::Matrix4x4;
use walk::{Reached, Rule, walk_aimed};

// A hit with its record, or a miss, each with the number of subcurves looked at. An Option of a record beside the number
// would say the same with no names.
#[derive(Clone, Copy, Debug, PartialEq)]
pub enum Intersection {
    Hit(SurfaceInteraction, u32),
    Miss(u32),
}

fn intersect_along(curve: &CurveRef<'_>, flip: bool, a: Aim) -> Result<Intersection, Refusal>
    ensures { result ≡ intersect_framed curve.now flip (framed_along curve.now a) }
{
    let mut reached = Reached::default();
    walk_aimed(curve, a, Rule::Last, &mut reached)?;
    let Some(met) = reached.leaf else {
        return Ok(Intersection::Miss(reached.looked));
    };
    let record = record_at(curve, a.ray, flip, met.at, met.frame?);
    Ok(Intersection::Hit(record, reached.looked))
}

// Where a ray meets a curve. The matrices and the ray come one by one, as a caller of the Rust has them: a struct would be
// taken apart again by each call below.
#[tactic(auto, unfolding(crate::specs::Intersect::intersect_of, crate::specs::Intersect::intersect_refusals, crate::specs::Intersect::intersect_framed, limits::specs::Refused::first_of, frame::specs::Frame::framed_curve, curve::specs::Curve::lent_refusals))]
pub fn intersect(
    curve: &[f32],
    object_to_world: Matrix4x4,
    world_to_object: Matrix4x4,
    reverse_orientation: bool,
    ray: Ray,
) -> Result<Intersection, Refusal>
    ensures { result ≡ intersect_of curve.now object_to_world world_to_object reverse_orientation ray }
{
    let curve = CurveRef::try_from(curve)?;
    check_ray(object_to_world, world_to_object, ray)?;
    let flip = flips(reverse_orientation, object_to_world);
    let aim = aim_ray(world_to_object, ray).ok_or(Refusal::ZeroWeight)?;
    intersect_along(&curve, flip, aim)
}
