// One coordinate of a curve's control points. Each goes through the arithmetic on its own: no coordinate asks for another,
// and four of them side by side (`points`) become one instruction.
#![tactic(auto, unfolding(crate::specs::Axis::blossom_at, crate::specs::Axis::between, crate::specs::Axis::average_at2, crate::specs::Axis::average_at3, crate::specs::Axis::average_at4, crate::specs::Axis::low_at, crate::specs::Axis::high_at, crate::specs::Axis::eval_at))]

ghost use Rattle.std.specs.Prelude.{◌≡◌, ◌≤◌};
ghost use Rattle.bezier.specs.Axis.{blossom_at, between, average_at2, average_at3, average_at4, low_at, high_at, eval_at};
ghost use Rattle.bezier.specs.Points.{coordinate_number};

use geometry::lerp;

// Which of a point's floats: the fourth is the one that nothing asks for.
#[derive(Clone, Copy, Debug, PartialEq, Eq, Hash)]
pub enum Coordinate {
    X = 0,
    Y = 1,
    Z = 2,
    Fourth = 3,
}

impl Coordinate {
    // How far behind a point's first float it lies.
    pub fn number(self) -> usize
        ensures value { result ≡ coordinate_number self }
        ensures within { result ≤ 3 }
    {
        self as usize
    }
}

#[derive(Clone, Copy, Debug, PartialEq)]
pub struct Axis {
    pub p0: f32,
    pub p1: f32,
    pub p2: f32,
    pub p3: f32,
}

fn blossom_bezier(p: Axis, u0: f32, u1: f32, u2: f32) -> f32
    ensures { result ≡ blossom_at p u0 u1 u2 }
{
    let a0 = lerp(u0, p.p0, p.p1);
    let a1 = lerp(u0, p.p1, p.p2);
    let a2 = lerp(u0, p.p2, p.p3);
    let b0 = lerp(u1, a0, a1);
    let b1 = lerp(u1, a1, a2);
    lerp(u2, b0, b1)
}

// The control points of the part from umin to umax, by four blossoms.
pub fn part(p: Axis, umin: f32, umax: f32) -> Axis
    ensures { result ≡ between p umin umax }
{
    Axis {
        p0: blossom_bezier(p, umin, umin, umin),
        p1: blossom_bezier(p, umin, umin, umax),
        p2: blossom_bezier(p, umin, umax, umax),
        p3: blossom_bezier(p, umax, umax, umax),
    }
}

// The control points of a half are averages of the whole's, weighted 1 1, 1 2 1 and 1 3 3 1: three formulas: a loop
// over the weights would multiply by 1 as well, and owe that this changes nothing.
fn average2(a: f32, b: f32) -> f32
    ensures { result ≡ average_at2 a b }
{
    (a + b) * (1.0 / 2.0)
}

fn average3(a: f32, b: f32, c: f32) -> f32
    ensures { result ≡ average_at3 a b c }
{
    (a + b * 2.0 + c) * (1.0 / 4.0)
}

fn average4(a: f32, b: f32, c: f32, d: f32) -> f32
    ensures { result ≡ average_at4 a b c d }
{
    (a + b * 3.0 + c * 3.0 + d) * (1.0 / 8.0)
}

// The half at the start, and the half at the end.
pub fn subdivide(p: Axis) -> (Axis, Axis)
    ensures { result ≡ (low_at p, high_at p) }
{
    let middle = average4(p.p0, p.p1, p.p2, p.p3);
    let low = Axis {
        p0: p.p0,
        p1: average2(p.p0, p.p1),
        p2: average3(p.p0, p.p1, p.p2),
        p3: middle,
    };
    let high = Axis {
        p0: middle,
        p1: average3(p.p1, p.p2, p.p3),
        p2: average2(p.p2, p.p3),
        p3: p.p3,
    };
    (low, high)
}

// The curve's coordinate at a parameter, the step between the last two points of the construction, and that from the
// first control point to the last.
#[derive(Clone, Copy, Debug, PartialEq)]
pub struct Step {
    pub p: f32,
    pub d: f32,
    pub chord: f32,
}

// Its steps are those of blossom_bezier at u, u, u, as the Rust writes both: what they would share is two of the values.
pub fn eval_at(p: Axis, u: f32) -> Step
    ensures { result ≡ eval_at p u }
{
    let a0 = lerp(u, p.p0, p.p1);
    let a1 = lerp(u, p.p1, p.p2);
    let a2 = lerp(u, p.p2, p.p3);
    let b0 = lerp(u, a0, a1);
    let b1 = lerp(u, a1, a2);
    Step {
        p: lerp(u, b0, b1),
        d: b1 - b0,
        chord: p.p3 - p.p0,
    }
}
