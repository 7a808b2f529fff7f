// What several operations ask of what they are given: floats, matrices and rays within limits. The refusals as a table
// (specs/Refused) and a list that is written over (specs/List) are definitions alone.
#![tactic(auto)]

ghost use Rattle.std.specs.Prelude.{◌≡◌, Ok};
ghost use Rattle.limits.specs.Ray.{ray_refusals};
ghost use Rattle.limits.specs.Refused.{first_of, told};
ghost use Rattle.limits.specs.Within.{within, width_within, row_within, matrix_within, ray_within};

mod refusal;

use geometry::Ray;
use matrix::{Matrix4x4, Row};
pub use refusal::Refusal;

// How far a coordinate, a matrix entry or a time may be from zero.
pub const LARGEST: f32 = 1048576.0;

// Whether x is finite and at most the limit away from zero: two comparisons, and no sign is taken off.
#[tactic(auto, using(crate::proofs::Interval::interval), unfolding(crate::specs::Within::within))]
pub fn is_within(x: f32, limit: f32) -> bool
    ensures { result ≡ within x limit }
{
    (-limit <= x) & (x <= limit)
}

#[tactic(auto, unfolding(crate::specs::Within::width_within))]
pub fn is_width_within(w: f32, least: f32, most: f32) -> bool
    ensures { result ≡ width_within w least most }
{
    (least <= w) & (w <= most)
}

#[tactic(auto, unfolding(crate::specs::Within::row_within))]
fn is_row_within(r: Row) -> bool
    ensures { result ≡ row_within r }
{
    is_within(r.c0, LARGEST)
        & is_within(r.c1, LARGEST)
        & is_within(r.c2, LARGEST)
        & is_within(r.c3, LARGEST)
}

// Whether a matrix passes refusal 10.
#[tactic(auto, unfolding(crate::specs::Within::matrix_within))]
pub fn is_matrix_within(m: Matrix4x4) -> bool
    ensures { result ≡ matrix_within m }
{
    is_row_within(m.r0) & is_row_within(m.r1) & is_row_within(m.r2) & is_row_within(m.r3)
}

// Whether a ray passes refusal 11.
#[tactic(auto, unfolding(crate::specs::Within::ray_within))]
fn is_ray_within(r: Ray) -> bool
    ensures { result ≡ ray_within r }
{
    is_within(r.o.x, LARGEST)
        & is_within(r.o.y, LARGEST)
        & is_within(r.o.z, LARGEST)
        & is_within(r.d.x, LARGEST)
        & is_within(r.d.y, LARGEST)
        & is_within(r.d.z, LARGEST)
        & is_within(r.time, LARGEST)
        & (0.0 <= r.t_max)
}

// The matrices and the ray come one by one, as a caller of the Rust's `intersect` has them: a struct of them would be made for
// this call alone, since what follows takes one matrix and the ray.
/// Whether the matrices, then the ray, are within the limits: refusal 10 or 11 where they are not.
#[tactic(auto, unfolding(crate::specs::Ray::ray_refusals, crate::specs::Refused::first_of))]
pub fn check_ray(
    object_to_world: Matrix4x4,
    world_to_object: Matrix4x4,
    ray: Ray,
) -> Result<(), Refusal>
    ensures { result ≡ told (first_of (ray_refusals object_to_world world_to_object ray)) (Ok tt) }
{
    if !(is_matrix_within(object_to_world) & is_matrix_within(world_to_object)) {
        return Err(Refusal::Matrix);
    }
    if !is_ray_within(ray) {
        return Err(Refusal::Ray);
    }
    Ok(())
}
