// The layout of a curve's record: which of its floats is what, and how many there are. Everything else goes by these
// names (specs/Layout has them for the definitions).
ghost use Rattle.std.specs.Prelude.{◌≡◌, ◌≤◌, length};
ghost use Rattle.bezier.specs.Points.{coordinate_number};
ghost use Rattle.curve.specs.Layout.{axis_from, cubic_from, curve_from, curve_floats};
ghost use Rattle.curve.specs.Curve.{is_curve, coordinate_of};

use crate::curve::{Curve, is_in_limits};
use bezier::{Axis, Coordinate, Cubic, POINTS, part, points_by};
use geometry::{lerp, point_from};
use limits::Refusal;
use std::marker::Model;

pub const FLOATS: usize = 16;

// The segment's control points, three floats each.
const P0: usize = 0;

const P1: usize = 3;

const P2: usize = 6;

const P3: usize = 9;

// The widths at the segment's ends.
const WIDTH0: usize = 12;

const WIDTH1: usize = 13;

// The part of the segment that is the curve.
const UMIN: usize = 14;

const UMAX: usize = 15;

// A coordinate of the segment's control points. The fourth is what comes behind each point, for the place that nothing
// asks for. The points lie three floats apart, and those of `bezier`'s `axis_in` four: one function for both would be told
// how many, and ask that they are four at most, so that it stays within the sixteen.
#[tactic(auto, unfolding(crate::specs::Layout::axis_from))]
fn axis_in(floats: &[f32; FLOATS], c: Coordinate) -> Axis
    ensures { result ≡ axis_from floats.now (coordinate_number c) }
{
    let k = c.number();
    Axis {
        p0: floats[P0 + k],
        p1: floats[P1 + k],
        p2: floats[P2 + k],
        p3: floats[P3 + k],
    }
}

// The same of the part from umin to umax.
#[tactic(auto, unfolding(crate::specs::Curve::coordinate_of))]
fn part_in(floats: &[f32; FLOATS], c: Coordinate) -> Axis
    ensures { result ≡ coordinate_of floats.now (coordinate_number c) }
{
    part(axis_in(floats, c), floats[UMIN], floats[UMAX])
}

// `Cubic::from` of `bezier` reads points of four floats, and this those of three. What they share is `point_from`.
#[tactic(auto, unfolding(crate::specs::Layout::cubic_from))]
fn cubic_in(floats: &[f32; FLOATS]) -> Cubic
    ensures { result ≡ cubic_from floats.now }
{
    Cubic {
        p0: point_from(floats, P0),
        p1: point_from(floats, P1),
        p2: point_from(floats, P2),
        p3: point_from(floats, P3),
    }
}

#[tactic(auto, unfolding(crate::specs::Layout::curve_from))]
impl From<&[f32; FLOATS]> for Curve {
    ghost from_gives = { λ floats c. c ≡ curve_from floats.now };

    fn from(floats: &[f32; FLOATS]) -> Curve {
        Curve {
            cp: cubic_in(floats),
            width0: floats[WIDTH0],
            width1: floats[WIDTH1],
            umin: floats[UMIN],
            umax: floats[UMAX],
        }
    }
}

/// The floats of a curve.
#[tactic(auto, unfolding(crate::specs::Layout::curve_floats))]
impl From<Curve> for [f32; FLOATS] {
    ghost from_gives = { λ c floats. floats ≡ curve_floats c };

    fn from(c: Curve) -> [f32; FLOATS] {
        [
            c.cp.p0.x, c.cp.p0.y, c.cp.p0.z, c.cp.p1.x, c.cp.p1.y, c.cp.p1.z, c.cp.p2.x, c.cp.p2.y,
            c.cp.p2.z, c.cp.p3.x, c.cp.p3.y, c.cp.p3.z, c.width0, c.width1, c.umin, c.umax,
        ]
    }
}

/// A curve's record where it lies, which a walk lends to every step: to read the floats into a `Curve` costs a box and a
/// beam that is thrown out 3 to 8 % more. A clause sees the `Curve` that they are; no `PartialEq` is derived where it does.
#[derive(Debug, Drop)]
pub struct CurveRef<'a> {
    floats: &'a [f32; FLOATS],
}

impl<'a> Model for CurveRef<'a> {
    ghost use Rattle.curve.specs.declared.curve.Curve.{Curve};
    ghost use Rattle.curve.specs.Layout.{curve_from};

    ghost Value = { Curve };

    ghost view = { λ r. curve_from r.floats.now };
}

impl<'a> CurveRef<'a> {
    ghost use Rattle.curve.specs.Layout.{floats};

    /// The record at the start of a slice: any sixteen floats, also such that are no curve within the limits.
    #[tactic(auto, using(crate::proofs::Records::curve_at_start))]
    pub fn new(s: &'a [f32]) -> CurveRef<'a>
        requires { floats ≤ length s.now }
        ensures { result ≡ curve_from s.now }
    {
        match s.first_chunk() {
            Some(floats) => CurveRef { floats },
            None => unreachable!(),
        }
    }
}

#[tactic(auto, unfolding(crate::specs::Layout::curve_from, crate::specs::Curve::width_at))]
impl CurveRef<'_> {
    ghost use Rattle.bezier.specs.Points.{cubic_in};
    ghost use Rattle.curve.specs.Curve.{control_points, width_at};

    pub fn umin(&self) -> f32
        ensures { result ≡ self.now.umin }
    {
        self.floats[UMIN]
    }

    pub fn umax(&self) -> f32
        ensures { result ≡ self.now.umax }
    {
        self.floats[UMAX]
    }

    pub fn width0(&self) -> f32
        ensures { result ≡ self.now.width0 }
    {
        self.floats[WIDTH0]
    }

    pub fn width1(&self) -> f32
        ensures { result ≡ self.now.width1 }
    {
        self.floats[WIDTH1]
    }

    pub fn width_at(&self, u: f32) -> f32
        ensures { result ≡ width_at self.now u }
    {
        lerp(u, self.floats[WIDTH0], self.floats[WIDTH1])
    }

    /// The segment's control points, as floats that are lent.
    #[tactic(auto, using(crate::proofs::Records::segment_by_axes), unfolding(crate::specs::Layout::curve_from))]
    pub fn segment_points(&self) -> [f32; POINTS]
        ensures { cubic_in result ≡ self.now.cp }
    {
        let floats = self.floats;
        points_by(
            axis_in(floats, Coordinate::X),
            axis_in(floats, Coordinate::Y),
            axis_in(floats, Coordinate::Z),
            axis_in(floats, Coordinate::Fourth),
        )
    }

    /// Those of the part from umin to umax, in the same form: the Rust's cpobj. One function for both would take which
    /// coordinates as a flag or a closure, and its clause would choose by that: longer than the call that they share.
    #[tactic(auto, using(crate::proofs::Records::curve_by_axes))]
    pub fn control_points(&self) -> [f32; POINTS]
        ensures { cubic_in result ≡ control_points self.now }
    {
        let floats = self.floats;
        points_by(
            part_in(floats, Coordinate::X),
            part_in(floats, Coordinate::Y),
            part_in(floats, Coordinate::Z),
            part_in(floats, Coordinate::Fourth),
        )
    }
}

/// The record within the limits that a slice is, or refusal 9.
#[tactic(auto, unfolding(crate::specs::Curve::lent_refusals, crate::specs::Curve::is_curve, limits::specs::Refused::first_of))]
impl<'a> TryFrom<&'a [f32]> for CurveRef<'a> {
    ghost use Rattle.std.specs.Prelude.{Ok};
    ghost use Rattle.limits.specs.Refused.{first_of, told};
    ghost use Rattle.curve.specs.Curve.{lent_refusals};

    type Error = Refusal;

    ghost try_from_gives = { λ s r. r ≡ told (first_of (lent_refusals s.now)) (Ok (curve_from s.now)) };

    // Where it is called the limits are asked in registers: 60 instructions fewer an area.
    #[inline(always)]
    fn try_from(floats: &'a [f32]) -> Result<CurveRef<'a>, Refusal> {
        match <&[f32; FLOATS]>::try_from(floats) {
            Ok(floats) if is_in_limits(Curve::from(floats)) => Ok(CurveRef { floats }),
            _ => Err(Refusal::Curve),
        }
    }
}

/// Whether a slice is a curve within the limits: what passes refusal 9.
#[tactic(auto, unfolding(crate::specs::Curve::lent_refusals, limits::specs::Refused::first_of))]
pub fn is_curve(s: &[f32]) -> bool
    ensures { result ≡ is_curve s.now }
{
    CurveRef::try_from(s).is_ok()
}
