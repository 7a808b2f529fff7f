// Float tools: what the operators of `f32` and `f64` lack. Each contract is one equation with a
// definition of `specs/`, and no public function asks anything of its caller.
#![tactic(auto)]

ghost use Rattle.std.specs.Prelude.{◌≡◌, from_bits, to_bits};
ghost use Rattle.std.specs.Float.{binary32};
ghost use Rattle.float.specs.Basic.{abs_of, max_of, min_of};
ghost use Rattle.float.specs.Narrow.{narrow_of, narrow_rest};
ghost use Rattle.float.specs.Root.{sqrt_of};

mod rounding;

use rounding::shift_nearest;
pub use rounding::{Ties, round_product};

// The value with the bits b. Every pattern of a NaN gives a NaN. With `to_bits` it is the library's, by the name that callers
// have: `f32::from_bits` and `f32::to_bits` ask that there is no NaN.
pub fn of_bits(b: u32) -> f32
    ensures { result ≡ from_bits binary32 b }
{
    std::num::f32_from_bits_with_nan(b)
}

// The bits of x. A NaN has the bits 7fc00000, whatever it was made of.
pub fn to_bits(x: f32) -> u32
    ensures { result ≡ to_bits binary32 x }
{
    std::num::f32_to_bits_with_nan(x)
}

// x without its sign: -0.0 gives 0.0, and a NaN a NaN. It is the greater of x and 0.0 - x, which
// compiles to no jump: the sign would often be mispredicted. By the library's abs, which tests the
// sign, a hit takes a third more time.
#[tactic(auto, using(crate::proofs::Opposite::greater, crate::proofs::Opposite::not_greater))]
pub fn abs(x: f32) -> f32
    ensures { result ≡ abs_of x }
{
    let opposite = 0.0 - x;
    if opposite < x { x } else { opposite }
}

// The larger of the two. Where one is a NaN it is the other, and of equal values it is the first: the
// library's max does not say which, so that a zero's sign would be open.
#[tactic(auto, unfolding(crate::specs::Basic::max_of))]
pub fn max(a: f32, b: f32) -> f32
    ensures { result ≡ max_of a b }
{
    if a.is_nan() || a < b { b } else { a }
}

// The smaller of the two. Where one is a NaN it is the other, and of equal values it is the first: the
// library's min does not say which, so that a zero's sign would be open.
#[tactic(auto, unfolding(crate::specs::Basic::min_of))]
pub fn min(a: f32, b: f32) -> f32
    ensures { result ≡ min_of a b }
{
    if a.is_nan() || b < a { b } else { a }
}

// x at the wider format, which holds every f32. A NaN gives a NaN. As f64::from, by the name that callers have.
pub fn widen(x: f32) -> f64
    ensures { result ≡ x }
{
    std::num::f32_to_f64_with_nan(x)
}

// x at the narrower format, rounded to the nearest value, and at a tie to the even one. The library's
// rounding to f32 takes longer: a beam that is thrown out whole takes a sixth more instructions by it.
pub fn narrow(x: f64) -> f32
    ensures { result ≡ narrow_of x }
{
    if x.is_nan() {
        return f32::NAN;
    }
    let bits = x.to_bits();
    let sign = (bits >> 63) << 31;
    let magnitude = bits % 0x8000_0000_0000_0000;
    let exponent = magnitude >> 52;
    // the same exponent has a field that is 896 more in f64, and f64 has 29 digits more
    let rounded = match exponent {
        // a normal value, or an infinity where the rounding carries that far: the field and the
        // digits are cut as one number
        897..=1150 => shift_nearest(magnitude - (896 << 52), 29),
        _ => narrow_rest(magnitude),
    };
    f32::from_bits((sign + rounded) as u32)
}

// The rounded pattern of `narrow` for what is no normal value of f32, by its pattern, without signs.
#[tactic(auto, using(crate::proofs::Narrowing::rest_zero, crate::proofs::Narrowing::rest_subnormal, crate::proofs::Narrowing::rest_infinite))]
fn narrow_rest(magnitude: u64) -> u64
    ensures { result ≡ narrow_rest magnitude }
{
    let exponent = magnitude >> 52;
    match exponent {
        // below half of the least subnormal
        0..=872 => 0,
        // a subnormal, or the least normal value
        873..=896 => shift_nearest(
            magnitude % 0x10_0000_0000_0000 + 0x10_0000_0000_0000,
            926 - exponent,
        ),
        // an infinity
        _ => 0x7f80_0000,
    }
}

// The square root of x, rounded to the nearest value. A zero gives itself, and what is below zero a NaN.
#[tactic(auto, using(crate::proofs::StdRoot::root_by_std))]
pub fn sqrt(x: f32) -> f32
    ensures { result ≡ sqrt_of x }
{
    x.sqrt()
}
