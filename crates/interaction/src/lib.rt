// What a ray meets: SurfaceInteraction of src/core/interaction.rs of pbrt-rust, as far as a flat curve fills it.
#![tactic(auto, unfolding(crate::specs::Floats::record_floats, crate::specs::Floats::record_from))]

ghost use Rattle.std.specs.Prelude.{◌≡◌, ◌≤◌, length};
ghost use Rattle.interaction.specs.Floats.{record_size, record_floats, record_from};

use geometry::{Normal3f, Point3f, Vector3f, point_from, vector_from};

// Where a ray meets a curve, in the object's frame: a hit's record. The Rust hands the distance out beside its
// SurfaceInteraction and has u and v in a point.
#[derive(Clone, Copy, Debug, PartialEq)]
pub struct SurfaceInteraction {
    pub t_hit: f32,
    pub u: f32,
    pub v: f32,
    pub p: Point3f,
    pub p_error: Vector3f,
    pub time: f32,
    pub wo: Vector3f,
    pub n: Normal3f,
    pub dpdu: Vector3f,
    pub dpdv: Vector3f,
}

// How many floats a record is.
pub const RECORD_FLOATS: usize = 22;

impl From<SurfaceInteraction> for [f32; RECORD_FLOATS] {
    ghost from_gives = { λ h floats. floats ≡ record_floats h };

    fn from(h: SurfaceInteraction) -> [f32; RECORD_FLOATS] {
        [
            h.t_hit,
            h.u,
            h.v,
            h.p.x,
            h.p.y,
            h.p.z,
            h.p_error.x,
            h.p_error.y,
            h.p_error.z,
            h.time,
            h.wo.x,
            h.wo.y,
            h.wo.z,
            h.n.x,
            h.n.y,
            h.n.z,
            h.dpdu.x,
            h.dpdu.y,
            h.dpdu.z,
            h.dpdv.x,
            h.dpdv.y,
            h.dpdv.z,
        ]
    }
}

// The record whose floats stand at the start of a slice. It asks that they are there: it reads for other crates. Its parts are
// read by their places in it, as `point_from` says.
pub fn record_from(s: &[f32]) -> SurfaceInteraction
    requires { record_size ≤ length s.now }
    ensures { result ≡ record_from s.now }
{
    SurfaceInteraction {
        t_hit: s[0],
        u: s[1],
        v: s[2],
        p: point_from(s, 3),
        p_error: vector_from(s, 6),
        time: s[9],
        wo: vector_from(s, 10),
        n: Normal3f::from(vector_from(s, 13)),
        dpdu: vector_from(s, 16),
        dpdv: vector_from(s, 19),
    }
}
