// Points, vectors, rays and boxes under a matrix, and the camera's frame: src/core/transform.rs of
// pbrt-rust, by its names and in its order of operations. The Rust's methods read the matrix `m` of
// a `Transform` alone, so here they are functions of the matrix. Where the Rust panics there is no answer.
#![tactic(auto)]

ghost use Rattle.std.specs.Prelude.{◌≡◌};
ghost use Rattle.transform.specs.Handedness.{swaps_handedness};

mod bounds;
mod camera;
mod point;
mod ray;
mod row;
mod vector;

pub use bounds::transform_bounds;
pub use camera::{Transform, look_at};
use matrix::Matrix4x4;
pub use point::{transform_point, transform_point_error};
pub use ray::{RayWithError, transform_ray_error};
pub use vector::{VectorWithError, transform_vector, transform_vector_error};

// Whether the determinant of the upper left 3x3 part is below zero.
#[tactic(auto, unfolding(crate::specs::Handedness::swaps_handedness))]
pub fn swaps_handedness(m: Matrix4x4) -> bool
    ensures { result ≡ swaps_handedness m }
{
    let det = m.r0.c0 * (m.r1.c1 * m.r2.c2 - m.r1.c2 * m.r2.c1)
        - m.r0.c1 * (m.r1.c0 * m.r2.c2 - m.r1.c2 * m.r2.c0)
        + m.r0.c2 * (m.r1.c0 * m.r2.c1 - m.r1.c1 * m.r2.c0);
    det < 0.0
}
