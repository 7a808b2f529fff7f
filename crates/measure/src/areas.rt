// The area of a curve.
#![tactic(auto, unfolding(crate::specs::Area::mean_width, crate::specs::Area::area_of, crate::specs::Area::area_in))]

ghost use Rattle.std.specs.Prelude.{◌≡◌};
ghost use Rattle.measure.specs.Area.{mean_width, area_of, area_in};

use bezier::chords;
use curve::CurveRef;
use limits::Refusal;

// The mean of the end widths.
fn mean_width(curve: &CurveRef<'_>) -> f32
    ensures { result ≡ mean_width curve.now }
{
    (curve.width_at(curve.umin()) + curve.width_at(curve.umax())) * 0.5
}

// Of a curve within the limits.
pub fn area_of(curve: &CurveRef<'_>) -> f32
    ensures { result ≡ area_of curve.now }
{
    chords(&curve.control_points()) * mean_width(curve)
}

pub fn area(curve: &[f32]) -> Result<f32, Refusal>
    ensures { result ≡ area_in curve.now }
{
    let curve = CurveRef::try_from(curve)?;
    Ok(area_of(&curve))
}
