// The two corners of the box of four points, found in one pass over them.
#![tactic(auto, unfolding(crate::specs::Corners::corners_at, crate::specs::Corners::corners_with))]

ghost use Rattle.std.specs.Prelude.{◌≡◌, IsTrue};
ghost use Rattle.bezier.specs.Points.{cubic_in};
ghost use Rattle.bezier.specs.Corners.{corners_at, corners_with, AllNumbers, lower_in, upper_in, lower_corner, upper_corner};

use crate::extent::{ANY, Extent, NUMBERS};
use crate::points::{P0, P1, P2, P3, POINTS, PaddedPoint, padded_in};

// Both corners, coordinate by coordinate. The fourth is that of the points.
#[derive(Clone, Copy, Debug, PartialEq)]
pub struct Corners {
    pub x: Extent,
    pub y: Extent,
    pub z: Extent,
    pub fourth: Extent,
}

// Of one point.
impl From<PaddedPoint> for Corners {
    ghost from_gives = { λ p c. c ≡ corners_at p };

    fn from(p: PaddedPoint) -> Corners {
        Corners {
            x: Extent::from(p.x),
            y: Extent::from(p.y),
            z: Extent::from(p.z),
            fourth: Extent::from(p.fourth),
        }
    }
}

impl Corners {
    fn union_point<const ARE_NUMBERS: bool>(self, p: PaddedPoint) -> Corners
        requires { IsTrue ARE_NUMBERS → AllNumbers self }
        ensures { result ≡ corners_with self p }
    {
        Corners {
            x: self.x.union_value::<ARE_NUMBERS>(p.x),
            y: self.y.union_value::<ARE_NUMBERS>(p.y),
            z: self.z.union_value::<ARE_NUMBERS>(p.z),
            fourth: self.fourth.union_value::<ARE_NUMBERS>(p.fourth),
        }
    }
}

// Each point is visited once, from the first to the last, and both corners are carried along. Where the first has no NaN,
// nothing that is carried is one: this is asked once, for all coordinates and steps. The points are read before: behind
// the test they would be read in parts.
pub fn corners_of(p: &[f32; POINTS]) -> Corners
    ensures result_value { lower_in result ≡ lower_corner (cubic_in p.now) }
    ensures result_value_2 { upper_in result ≡ upper_corner (cubic_in p.now) }
{
    let p0 = padded_in(p, P0);
    let p1 = padded_in(p, P1);
    let p2 = padded_in(p, P2);
    let p3 = padded_in(p, P3);
    let first = Corners::from(p0);
    if p0.x.is_nan() | p0.y.is_nan() | p0.z.is_nan() | p0.fourth.is_nan() {
        first
            .union_point::<ANY>(p1)
            .union_point::<ANY>(p2)
            .union_point::<ANY>(p3)
    } else {
        let third = first.union_point::<NUMBERS>(p1).union_point::<NUMBERS>(p2);
        third.union_point::<NUMBERS>(p3)
    }
}
