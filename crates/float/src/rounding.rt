// Whole numbers that are nearest to a fraction: what `narrow` rounds by, and a float times a whole number.
ghost use Rattle.std.specs.Prelude.{◌≡◌, ◌^◌, ◌<◌, ◌≤◌};
ghost use Rattle.std.specs.Float.Ieee.Nearest.{closest};
ghost use Rattle.float.specs.Narrow.{spare};
ghost use Rattle.float.specs.Whole.{at_half, nearest_to, size_held, product_of};

// Where an exact half goes: to the greater whole number, or to the even one.
#[derive(Clone, Copy, Debug, PartialEq, Eq, Hash)]
pub enum Ties {
    Up,
    Even,
}

// What an exact half adds to the size q of a number with a sign: below zero the greater number is the one
// that is nearer to zero.
fn at_half(ties: Ties, negative: bool, q: u64) -> u64
    ensures { result ≡ at_half ties negative q }
{
    match ties {
        Ties::Up => { if negative { 0 } else { 1 } }
        Ties::Even => q % 2,
    }
}

// m / 2^s to the nearest whole number, where an exact half adds `tie`, which is 0 or 1. Half of 2^s, less
// one, is added before the shift, and then `tie`, which an exact half alone lacks to carry.
fn shift_with_tie(m: u64, s: u64, tie: u64) -> u64
    requires m_bound { m < 2 ^ spare }
    requires le_s { 1 ≤ s }
    requires s_lt_spare { s < spare }
    requires tie_bound { tie ≤ 1 }
    ensures { result ≡ nearest_to (λ _. tie) m (2 ^ s) }
{
    let half = 1u64 << (s - 1);
    (m + (half - 1) + tie) >> s
}

// m / 2^s to the nearest whole number, and at a tie to the even one.
pub fn shift_nearest(m: u64, s: u64) -> u64
    requires m_bound { m < 2 ^ spare }
    requires le_s { 1 ≤ s }
    requires s_lt_spare { s < spare }
    ensures { result ≡ closest m (2 ^ s) }
{
    shift_with_tie(m, s, (m >> s) % 2)
}

// n, where a u32 holds it.
fn hold(n: u64) -> Option<u32>
    ensures { result ≡ size_held n }
{
    u32::try_from(n).ok()
}

// The whole number nearest to x times k, by its size: its sign is that of x. The product is exact, of whole
// numbers: 24 digits and 32 make 56, and the field of the exponent says how far they are shifted. An infinity
// and a NaN are beyond every number. By `as` and not `u64::from`, by which the proof does not close.
pub fn round_product(x: f32, k: u32, ties: Ties) -> Option<u32>
    ensures { result ≡ product_of ties k x }
{
    let bits = crate::to_bits(x);
    let exponent = (bits % 0x8000_0000 >> 23) as u64;
    let product = (bits % 0x80_0000 + 0x80_0000) as u64 * k as u64;
    match exponent {
        // less than a half
        0..=93 => Some(0),
        94..=149 => {
            let s = 150 - exponent;
            let tie = at_half(ties, 0x8000_0000 <= bits, product >> s);
            hold(shift_with_tie(product, s, tie))
        }
        // x is a whole number
        150..=158 => hold(product << (exponent - 150)),
        // the digits alone are more than a u32 holds, unless the factor is 0
        159..=254 if product == 0 => Some(0),
        _ => None,
    }
}
