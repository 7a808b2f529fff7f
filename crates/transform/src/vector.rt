// Vectors, with and without the bound on their error.
#![tactic(auto, unfolding(crate::specs::Vector::transform_vector, crate::specs::Vector::vector_error, crate::specs::Vector::transform_vector_error))]

ghost use Rattle.std.specs.Prelude.{◌≡◌};
ghost use Rattle.transform.specs.Vector.{transform_vector, vector_error, transform_vector_error};

use crate::row::{row_vector, row_vector_abs};
use geometry::Vector3f;
use matrix::Matrix4x4;

pub fn transform_vector(m: Matrix4x4, v: Vector3f) -> Vector3f
    ensures { result ≡ transform_vector m v }
{
    Vector3f {
        x: row_vector(m.r0, v),
        y: row_vector(m.r1, v),
        z: row_vector(m.r2, v),
    }
}

#[derive(Clone, Copy, Debug, PartialEq)]
pub struct VectorWithError {
    pub v: Vector3f,
    pub error: Vector3f,
}

fn vector_error(m: Matrix4x4, v: Vector3f) -> Vector3f
    ensures { result ≡ vector_error m v }
{
    let gamma = geometry::gamma(3);
    Vector3f {
        x: gamma * row_vector_abs(m.r0, v),
        y: gamma * row_vector_abs(m.r1, v),
        z: gamma * row_vector_abs(m.r2, v),
    }
}

pub fn transform_vector_error(m: Matrix4x4, v: Vector3f) -> VectorWithError
    ensures { result ≡ transform_vector_error m v }
{
    VectorWithError {
        v: transform_vector(m, v),
        error: vector_error(m, v),
    }
}
