// A row of a matrix times a point or a vector.
#![tactic(auto, unfolding(crate::specs::Row::row_point, crate::specs::Row::row_vector, crate::specs::Row::row_point_abs, crate::specs::Row::row_vector_abs))]

ghost use Rattle.std.specs.Prelude.{◌≡◌};
ghost use Rattle.transform.specs.Row.{row_point, row_vector, row_point_abs, row_vector_abs};

use geometry::{Point3f, Vector3f};
use matrix::Row;

pub fn row_point(r: Row, p: Point3f) -> f32
    ensures { result ≡ row_point r p }
{
    row_vector(r, Vector3f::from(p)) + r.c3
}

pub fn row_vector(r: Row, v: Vector3f) -> f32
    ensures { result ≡ row_vector r v }
{
    v.x * r.c0 + v.y * r.c1 + v.z * r.c2
}

// The sum of the products' magnitudes, by which the error is bounded.
pub fn row_point_abs(r: Row, p: Point3f) -> f32
    ensures { result ≡ row_point_abs r p }
{
    row_vector_abs(r, Vector3f::from(p)) + float::abs(r.c3)
}

pub fn row_vector_abs(r: Row, v: Vector3f) -> f32
    ensures { result ≡ row_vector_abs r v }
{
    float::abs(v.x * r.c0) + float::abs(v.y * r.c1) + float::abs(v.z * r.c2)
}
