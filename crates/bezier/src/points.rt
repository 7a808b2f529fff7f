// Control points as floats that are lent: four a point, x, y, z and one that nothing asks for. The fourth goes through the
// arithmetic with the others, so that a point is one load, one instruction and one store; points of three floats would be
// taken apart and put together at every step (a `Cubic` that is lent in its place: a beam thrown out and deep +4 %, box
// +9 %). Nothing else knows the places.
#![tactic(auto, unfolding(crate::specs::Points::axis_in, crate::specs::Points::padded_in, crate::specs::Points::cubic_in, crate::specs::Polygon::cubic_of, geometry::specs::Point::point_from))]

ghost use Rattle.std.specs.Prelude.{◌≡◌, ◌+◌, ◌≤◌, if◌then◌else◌};
ghost use Rattle.float.specs.Arith.{◌⊗◌, 3f};
ghost use Rattle.bezier.specs.Cubic.{low_of, high_of, eval_of};
ghost use Rattle.bezier.specs.Points.{axis_in, coordinate_number, cubic_in, padded_in};
ghost use Rattle.bezier.specs.Polygon.{cubic_of};

use crate::axis::{Axis, Coordinate, Step, eval_at, subdivide};
use crate::cubic::{Cubic, Eval};
use geometry::{Point3f, Vector3f, point_from};

pub const POINTS: usize = 16;

pub const P0: usize = 0;

pub const P1: usize = 4;

pub const P2: usize = 8;

pub const P3: usize = 12;

// One of the points, with its fourth float.
#[derive(Clone, Copy, Debug, PartialEq)]
pub struct PaddedPoint {
    pub x: f32,
    pub y: f32,
    pub z: f32,
    pub fourth: f32,
}

// The point whose floats start at a place. `row_from` of `matrix` reads four floats too, but a row is no point, and neither
// crate stands on the other.
pub fn padded_in(p: &[f32; POINTS], at: usize) -> PaddedPoint
    requires { at + 4 ≤ 16 }
    ensures { result ≡ padded_in p.now at }
{
    PaddedPoint {
        x: p[at],
        y: p[at + 1],
        z: p[at + 2],
        fourth: p[at + 3],
    }
}

// The points of three coordinates. The fourth may be anything.
pub fn points_by(x: Axis, y: Axis, z: Axis, fourth: Axis) -> [f32; POINTS]
    ensures { cubic_in result ≡ cubic_of x y z }
{
    [
        x.p0, y.p0, z.p0, fourth.p0, x.p1, y.p1, z.p1, fourth.p1, x.p2, y.p2, z.p2, fourth.p2,
        x.p3, y.p3, z.p3, fourth.p3,
    ]
}

// A coordinate of the points. (`axis_in` of `curve`, of points of three floats, says why there are two.)
pub fn axis_in(p: &[f32; POINTS], c: Coordinate) -> Axis
    ensures { result ≡ axis_in p.now (coordinate_number c) }
{
    let k = c.number();
    Axis {
        p0: p[P0 + k],
        p1: p[P1 + k],
        p2: p[P2 + k],
        p3: p[P3 + k],
    }
}

impl From<Cubic> for [f32; POINTS] {
    ghost from_gives = { λ cp p. cubic_in p ≡ cp };

    fn from(cp: Cubic) -> [f32; POINTS] {
        [
            cp.p0.x, cp.p0.y, cp.p0.z, 0.0, cp.p1.x, cp.p1.y, cp.p1.z, 0.0, cp.p2.x, cp.p2.y, cp
                .p2
                .z, 0.0, cp.p3.x, cp.p3.y, cp.p3.z, 0.0,
        ]
    }
}

impl From<&[f32; POINTS]> for Cubic {
    ghost from_gives = { λ p cp. cp ≡ cubic_in p.now };

    fn from(p: &[f32; POINTS]) -> Cubic {
        Cubic {
            p0: point_from(p, P0),
            p1: point_from(p, P1),
            p2: point_from(p, P2),
            p3: point_from(p, P3),
        }
    }
}

// subdivide_bezier: the half at the start, cp_split[0..4], and the half at the end, cp_split[3..7].
pub fn subdivide_bezier(p: &[f32; POINTS]) -> ([f32; POINTS], [f32; POINTS])
    ensures low { cubic_in result.0 ≡ low_of (cubic_in p.now) }
    ensures high { cubic_in result.1 ≡ high_of (cubic_in p.now) }
{
    let x = subdivide(axis_in(p, Coordinate::X));
    let y = subdivide(axis_in(p, Coordinate::Y));
    let z = subdivide(axis_in(p, Coordinate::Z));
    let fourth = subdivide(axis_in(p, Coordinate::Fourth));
    (
        points_by(x.0, y.0, z.0, fourth.0),
        points_by(x.1, y.1, z.1, fourth.1),
    )
}

// A coordinate of the derivative, by whether the last two points of the construction differ.
fn derivative(s: Step, moves: bool) -> f32
    ensures { result ≡ (if moves then s.d ⊗ 3f else s.chord) }
{
    if moves { s.d * 3.0 } else { s.chord }
}

// The derivative comes from the last two points of the construction. Where they coincide it is the chord.
pub fn eval_bezier(p: &[f32; POINTS], u: f32) -> Eval
    ensures { result ≡ eval_of (cubic_in p.now) u }
{
    let x = eval_at(axis_in(p, Coordinate::X), u);
    let y = eval_at(axis_in(p, Coordinate::Y), u);
    let z = eval_at(axis_in(p, Coordinate::Z), u);
    let moves = x.d * x.d + y.d * y.d + z.d * z.d > 0.0;
    Eval {
        p: Point3f {
            x: x.p,
            y: y.p,
            z: z.p,
        },
        d: Vector3f {
            x: derivative(x, moves),
            y: derivative(y, moves),
            z: derivative(z, moves),
        },
    }
}
