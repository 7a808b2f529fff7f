// The least and the greatest of some values, carried along together from one value to the next.
#![tactic(auto, unfolding(float::specs::Basic::min_of, float::specs::Basic::max_of, crate::specs::Axis::least_in, crate::specs::Axis::greatest_in, crate::specs::Extent::extent_at, crate::specs::Extent::extent_union, crate::specs::Extent::extent_with))]

ghost use Rattle.std.specs.Prelude.{◌≡◌, false, IsTrue};
ghost use Rattle.std.specs.Float.Ieee.{is_nan};
ghost use Rattle.float.specs.Basic.{max_of, min_of};
ghost use Rattle.bezier.specs.Axis.{least_in, greatest_in};
ghost use Rattle.bezier.specs.Extent.{extent_at, extent_with, extent_union, Numbers};

use crate::axis::Axis;

#[derive(Clone, Copy, Debug, PartialEq)]
pub struct Extent {
    pub least: f32,
    pub greatest: f32,
}

// `min` and `max`. Where the first is known to be a number, one comparison is enough. One function for both would be told
// which, and turn the comparison and the call by it: no line fewer.
fn min<const IS_NUMBER: bool>(a: f32, b: f32) -> f32
    requires { IsTrue IS_NUMBER → is_nan a ≡ false }
    ensures { result ≡ min_of a b }
{
    if IS_NUMBER {
        if b < a { b } else { a }
    } else {
        float::min(a, b)
    }
}

pub fn max<const IS_NUMBER: bool>(a: f32, b: f32) -> f32
    requires { IsTrue IS_NUMBER → is_nan a ≡ false }
    ensures { result ≡ max_of a b }
{
    if IS_NUMBER {
        if a < b { b } else { a }
    } else {
        float::max(a, b)
    }
}

// Of values that are known to be numbers, or that may be anything. A type for numbers would be no plainer: it would stand
// beside f32 in all that is below, with a way there and back.
pub const NUMBERS: bool = true;

pub const ANY: bool = false;

// Of one value.
impl From<f32> for Extent {
    ghost from_gives = { λ v e. e ≡ extent_at v };

    fn from(v: f32) -> Extent {
        Extent {
            least: v,
            greatest: v,
        }
    }
}

impl Extent {
    // Of two together.
    fn union_extent<const ARE_NUMBERS: bool>(self, e: Extent) -> Extent
        requires { IsTrue ARE_NUMBERS → Numbers self }
        ensures { result ≡ extent_union self e }
    {
        Extent {
            least: min::<ARE_NUMBERS>(self.least, e.least),
            greatest: max::<ARE_NUMBERS>(self.greatest, e.greatest),
        }
    }

    pub fn union_value<const ARE_NUMBERS: bool>(self, v: f32) -> Extent
        requires { IsTrue ARE_NUMBERS → Numbers self }
        ensures { result ≡ extent_with self v }
    {
        self.union_extent::<ARE_NUMBERS>(Extent::from(v))
    }
}

// That of a coordinate, by pairs: neither waits for the other. Where the first of each pair is a number, so is all that is
// carried, and no other NaN matters. Where not, a pass finds the same: by pairs there too, each test of a subcurve takes
// five instructions more.
pub fn extent_of(a: Axis) -> Extent
    ensures least_value { result.least ≡ least_in a }
    ensures greatest_value { result.greatest ≡ greatest_in a }
{
    if a.p0.is_nan() | a.p2.is_nan() {
        let first = Extent::from(a.p0);
        first
            .union_value::<ANY>(a.p1)
            .union_value::<ANY>(a.p2)
            .union_value::<ANY>(a.p3)
    } else {
        let first = Extent::from(a.p0).union_value::<NUMBERS>(a.p1);
        let second = Extent::from(a.p2).union_value::<NUMBERS>(a.p3);
        first.union_extent::<NUMBERS>(second)
    }
}
