// The price of a curve's area.
#![tactic(auto, unfolding(crate::specs::Price::price_of, crate::specs::Price::price_refusals, crate::specs::Price::price_in, limits::specs::Refused::first_of, curve::specs::Curve::lent_refusals))]

ghost use Rattle.std.specs.Prelude.{◌≡◌};
ghost use Rattle.measure.specs.Price.{price_of, price_in};

use crate::areas::area_of;
use curve::CurveRef;
use float::Ties;
use limits::Refusal;

// In cents for a unit of area.
const MOST_RATE: u32 = 1_000_000;

const MOST_CENTS: u32 = 1_000_000_000;

// The price of an area. No product of floats is made: that would round before the cents do.
fn price_of(area: f32, rate: u32) -> Result<u32, Refusal>
    ensures { result ≡ price_of area rate }
{
    match float::round_product(area, rate, Ties::Up) {
        Some(cents) if cents <= MOST_CENTS => Ok(cents),
        _ => Err(Refusal::Price),
    }
}

pub fn price(curve: &[f32], rate: u32) -> Result<u32, Refusal>
    ensures { result ≡ price_in curve.now rate }
{
    let curve = CurveRef::try_from(curve)?;
    if rate > MOST_RATE {
        return Err(Refusal::Rate);
    }
    price_of(area_of(&curve), rate)
}
