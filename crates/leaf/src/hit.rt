// The hit's record: SurfaceInteraction::new.
ghost use Rattle.std.specs.Prelude.{◌≡◌};
ghost use Rattle.leaf.specs.Record.{flips_of, oriented_of, record_of};

use crate::leaf::{Crossing, Frame};
use curve::CurveRef;
use geometry::{Normal3f, Ray, Vector3f};
use interaction::SurfaceInteraction;
use matrix::Matrix4x4;
use transform::swaps_handedness;

// Whether normals turn: the flag and the matrix differ.
#[tactic(auto, unfolding(crate::specs::Record::flips_of))]
pub fn flips(reverse_orientation: bool, object_to_world: Matrix4x4) -> bool
    ensures { result ≡ flips_of reverse_orientation object_to_world }
{
    reverse_orientation ^ swaps_handedness(object_to_world)
}

#[tactic(auto, unfolding(crate::specs::Record::oriented_of))]
fn oriented(n: Vector3f, flip: bool) -> Normal3f
    ensures { result ≡ oriented_of n flip }
{
    let normal = Normal3f::from(n);
    if flip { normal * -1.0 } else { normal }
}

// Here alone the time and the flag come in. The ray is in the object's frame.
#[tactic(auto, unfolding(crate::specs::Record::record_of))]
pub fn record_at(
    curve: &CurveRef<'_>,
    ray: Ray,
    flip: bool,
    at: Crossing,
    f: Frame,
) -> SurfaceInteraction
    ensures { result ≡ record_of curve.now ray flip at f }
{
    let error = 2.0 * curve.width_at(at.u);
    SurfaceInteraction {
        t_hit: at.t,
        u: at.u,
        v: at.v,
        p: ray.find_point(at.t),
        p_error: Vector3f {
            x: error,
            y: error,
            z: error,
        },
        time: ray.time,
        wo: f.wo,
        n: oriented(f.n, flip),
        dpdu: f.dpdu,
        dpdv: f.dpdv,
    }
}
