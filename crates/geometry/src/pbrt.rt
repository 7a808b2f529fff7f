// Numbers: core/pbrt.rs.
#![tactic(auto, unfolding(crate::specs::Pbrt::lerp_of, crate::specs::Pbrt::clamp_of, crate::specs::Pbrt::gamma_of))]

ghost use Rattle.std.specs.Prelude.{◌≡◌, Float};
ghost use Rattle.std.proofs.Common.{rules};
ghost use Rattle.float.specs.Arith.{◌⊖◌, 1f};
ghost use Rattle.geometry.specs.Pbrt.{lerp_of, clamp_of, gamma_of};

use std::ops::{Add, Mul};

// What `lerp` goes between: numbers, and points. The law says what its two products and their sum come to.
pub trait Interpolate: Copy + Mul<f32, Output = Self> + Add<Output = Self> {
    ghost lerp_of: { Float → Self → Self → Self };

    ghost may_scale: { (x : Self) (k : Float) → Self.Mul.can_mul x k };

    ghost may_add: { (x y : Self) → Self.Add.can_add x y };

    ghost comes_to: { (t : Float) (x y a b r : Self) → Self.Mul.mul_gives x (1f ⊖ t) a → Self.Mul.mul_gives y t b → Self.Add.add_gives a b r → r ≡ lerp_of t x y };
}

impl Interpolate for f32 {
    ghost lerp_of = { lerp_of };

    ghost may_scale = { λ _ _. tt };

    ghost may_add = { λ _ _. tt };

    ghost comes_to = { unfold lerp_of in Prim.search rules };
}

// From `x` at 0 to `y` at 1.
pub fn lerp<T: Interpolate>(t: f32, x: T, y: T) -> T
    ensures { result ≡ T.lerp_of t x y }
{
    x * (1.0 - t) + y * t
}

// A NaN passes through. It is not the library's f32::clamp, which asks that `low` is no more than `high`.
pub fn clamp(val: f32, low: f32, high: f32) -> f32
    ensures { result ≡ clamp_of val low high }
{
    if val < low {
        low
    } else if val > high {
        high
    } else {
        val
    }
}

// Half the distance from 1.0 to the next float.
const MACHINE_EPSILON: f32 = 5.9604645e-8;

// The bound on the relative error of n operations.
pub fn gamma(n: u16) -> f32
    ensures { result ≡ gamma_of n }
{
    let error = f32::from(n) * MACHINE_EPSILON;
    error / (1.0 - error)
}
