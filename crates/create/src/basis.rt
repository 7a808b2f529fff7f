// The cubic Bezier control points of a segment, for both degrees and both bases: the conversions of
// create_curve_shape.
ghost use Rattle.std.specs.Prelude.{◌≡◌, ◌+◌, ◌*◌, ◌≤◌, length};
ghost use Rattle.create.specs.Basis.{elevated, quadratic_spline, cubic_spline, segment_at};
ghost use Rattle.create.specs.Shape.{degree_number, basis_number};

use crate::shape::{Basis, Degree, Shape};
use bezier::Cubic;
use geometry::{Point3f, lerp, point_from};

// A quadratic curve as a cubic one.
#[tactic(auto, unfolding(crate::specs::Basis::elevated))]
fn elevate(p0: Point3f, p1: Point3f, p2: Point3f) -> Cubic
    ensures { result ≡ elevated p0 p1 p2 }
{
    Cubic {
        p0,
        p1: lerp(2.0 / 3.0, p0, p1),
        p2: lerp(1.0 / 3.0, p1, p2),
        p3: p2,
    }
}

// The uniform B-spline of three points.
#[tactic(auto, unfolding(crate::specs::Basis::quadratic_spline))]
fn quadratic_spline(p01: Point3f, p12: Point3f, p23: Point3f) -> Cubic
    ensures { result ≡ quadratic_spline p01 p12 p23 }
{
    let p11 = lerp(0.5, p01, p12);
    let p22 = lerp(0.5, p12, p23);
    elevate(p11, p12, p22)
}

// The uniform B-spline of four points.
#[tactic(auto, unfolding(crate::specs::Basis::cubic_spline))]
fn cubic_spline(p012: Point3f, p123: Point3f, p234: Point3f, p345: Point3f) -> Cubic
    ensures { result ≡ cubic_spline p012 p123 p234 p345 }
{
    let p122 = lerp(2.0 / 3.0, p012, p123);
    let p223 = lerp(1.0 / 3.0, p123, p234);
    let p233 = lerp(2.0 / 3.0, p123, p234);
    let p334 = lerp(1.0 / 3.0, p234, p345);
    let p222 = lerp(0.5, p122, p223);
    let p333 = lerp(0.5, p233, p334);
    Cubic {
        p0: p222,
        p1: p223,
        p2: p233,
        p3: p333,
    }
}

// The segment whose first coordinate is the float `at`. The points go with a place, and not as their rest, `points[at..]`:
// the definitions read one list by places, and a rest would owe for each point that it is read alike.
#[tactic(auto, unfolding(crate::specs::Basis::segment_at, crate::specs::Basis::bezier_segment, crate::specs::Basis::spline_segment))]
pub fn segment(points: &[f32], shape: Shape, at: usize) -> Cubic
    requires { at + 3 * degree_number shape.degree + 3 ≤ length points.now }
    ensures { result ≡ segment_at points.now (degree_number shape.degree) (basis_number shape.basis) at }
{
    let p0 = point_from(points, at);
    let p1 = point_from(points, at + 3);
    let p2 = point_from(points, at + 6);
    match shape.degree {
        Degree::Quadratic => match shape.basis {
            Basis::Bezier => elevate(p0, p1, p2),
            Basis::BSpline => quadratic_spline(p0, p1, p2),
        },
        Degree::Cubic => {
            let p3 = point_from(points, at + 9);
            match shape.basis {
                Basis::Bezier => Cubic { p0, p1, p2, p3 },
                Basis::BSpline => cubic_spline(p0, p1, p2, p3),
            }
        }
    }
}
