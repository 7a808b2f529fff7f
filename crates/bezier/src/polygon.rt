// The control polygon of a curve.
#![tactic(auto, unfolding(crate::specs::Cubic::chords_of, geometry::specs::Point::distance_of))]

ghost use Rattle.std.specs.Prelude.{◌≡◌};
ghost use Rattle.bezier.specs.Points.{cubic_in};
ghost use Rattle.bezier.specs.Cubic.{chords_of};

use crate::cubic::Cubic;
use crate::points::POINTS;

// The lengths of the three chords from control point to control point, summed from 0 up.
pub fn chords(p: &[f32; POINTS]) -> f32
    ensures { result ≡ chords_of (cubic_in p.now) }
{
    let cp = Cubic::from(p);
    0.0 + (cp.p0 - cp.p1).length() + (cp.p1 - cp.p2).length() + (cp.p2 - cp.p3).length()
}
