// Points, with and without the bound on their error.
#![tactic(auto, unfolding(crate::specs::Point::projected, crate::specs::Point::transform_point, crate::specs::Point::point_error, crate::specs::Point::transform_point_error))]

ghost use Rattle.std.specs.Prelude.{◌≡◌};
ghost use Rattle.transform.specs.Point.{projected, transform_point, point_error, transform_point_error};

use crate::row::{row_point, row_point_abs};
use geometry::{Point3f, Vector3f};
use matrix::Matrix4x4;

// The point of the weight w. The weight 1.0 divides nothing, and a zero divides no point.
fn project(p: Point3f, w: f32) -> Option<Point3f>
    ensures { result ≡ projected p w }
{
    if w == 1.0 { Some(p) } else { p.div(w) }
}

// There is none where the point's weight is zero: there the Rust panics.
pub fn transform_point(m: Matrix4x4, p: Point3f) -> Option<Point3f>
    ensures { result ≡ transform_point m p }
{
    let q = Point3f {
        x: row_point(m.r0, p),
        y: row_point(m.r1, p),
        z: row_point(m.r2, p),
    };
    project(q, row_point(m.r3, p))
}

fn point_error(m: Matrix4x4, p: Point3f) -> Vector3f
    ensures { result ≡ point_error m p }
{
    let abs_sum = Vector3f {
        x: row_point_abs(m.r0, p),
        y: row_point_abs(m.r1, p),
        z: row_point_abs(m.r2, p),
    };
    abs_sum * geometry::gamma(3)
}

// A point with the bound on its error.
pub fn transform_point_error(m: Matrix4x4, p: Point3f) -> Option<(Point3f, Vector3f)>
    ensures { result ≡ transform_point_error m p }
{
    let q = transform_point(m, p)?;
    Some((q, point_error(m, p)))
}
