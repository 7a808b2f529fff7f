// The nearest crossing of a ray with a list of curves, where `intersect` tells the last of one curve. There is nothing of
// it in pbrt-rust but the walk. Nothing is asked of a caller.
#![tactic(auto)]

ghost use Rattle.std.specs.Prelude.{◌≡◌, [], get_or, length};
ghost use Rattle.frame.specs.Frame.{framed_along};
ghost use Rattle.nearest.specs.Nearest.{nearer_of, among, framed_answer, answer_of, nearest_of};

use curve::{CurveRef, FLOATS};
use frame::{Aim, aim_ray};
use geometry::Ray;
pub use interaction::SurfaceInteraction;
use leaf::{flips, record_at};
use limits::{Refusal, check_ray};
use matrix::Matrix4x4;
use walk::{Reached, Rule, walk_aimed};

// A hit with its record, and the number of its curve in the list, from 0.
pub type Hit = (SurfaceInteraction, usize);

// The nearest crossing of a curve, as number k of a list. With `intersect_along` of the crate intersect it shares `walk_aimed`:
// the answers differ, since that one tells the count, with a miss too, and this one the curve's number.
#[tactic(auto, unfolding(crate::specs::Nearest::framed_answer, crate::specs::Nearest::leaf_answer))]
fn meet_along(curve: &CurveRef<'_>, flip: bool, a: Aim, k: usize) -> Result<Option<Hit>, Refusal>
    ensures { result ≡ framed_answer curve.now flip k (framed_along curve.now a) }
{
    let mut reached = Reached::default();
    walk_aimed(curve, a, Rule::Nearest, &mut reached)?;
    let Some(met) = reached.leaf else {
        return Ok(None);
    };
    Ok(Some((record_at(curve, a.ray, flip, met.at, met.frame?), k)))
}

// The same of its floats. Where the ray's origin has no place in the object's frame there is no aim, and floats that are no
// curve are refused before that.
fn meet_curve(
    floats: &[f32; FLOATS],
    flip: bool,
    aim: Option<Aim>,
    k: usize,
) -> Result<Option<Hit>, Refusal>
    ensures { result ≡ answer_of flip aim k floats.now }
{
    let curve = CurveRef::try_from(floats.as_slice())?;
    let a = aim.ok_or(Refusal::ZeroWeight)?;
    meet_along(&curve, flip, a, k)
}

// Of two hits, one behind the other: the first, as long as the second is not nearer.
#[tactic(auto, unfolding(crate::specs::Nearest::nearer_of))]
fn nearer_of(first: Option<Hit>, second: Option<Hit>) -> Option<Hit>
    ensures { result ≡ nearer_of first second }
{
    match (first, second) {
        (Some((h, _)), Some((g, _))) => if g.t_hit < h.t_hit { second } else { first },
        (Some(_), None) => first,
        (None, _) => second,
    }
}

// Curve by curve. The first refusal ends it.
fn nearest_among(
    curves: &[[f32; FLOATS]],
    flip: bool,
    aim: Option<Aim>,
) -> Result<Option<Hit>, Refusal>
    ensures { result ≡ among (λ k. answer_of flip aim k (get_or curves.now k [])) (length curves.now) }
{
    let mut best = None;
    for (k, floats) in curves.iter().enumerate() {
        best = nearer_of(best, meet_curve(floats, flip, aim, k)?);
    }
    Ok(best)
}

// Where a ray first meets a list of curves. The matrices and the ray come one by one, as to `intersect`.
pub fn nearest(
    list: &[f32],
    object_to_world: Matrix4x4,
    world_to_object: Matrix4x4,
    reverse_orientation: bool,
    ray: Ray,
) -> Result<Option<Hit>, Refusal>
    ensures { result ≡ nearest_of list.now object_to_world world_to_object reverse_orientation ray }
{
    let (curves, rest) = list.as_chunks::<FLOATS>();
    if !rest.is_empty() {
        return Err(Refusal::ListLength);
    }
    check_ray(object_to_world, world_to_object, ray)?;
    let flip = flips(reverse_orientation, object_to_world);
    nearest_among(curves, flip, aim_ray(world_to_object, ray))
}
