// The tests that throw a subcurve out: no point of it, as wide as it is, can be on the ray.
#![tactic(auto, unfolding(crate::specs::Thrown::is_off, crate::specs::Thrown::is_off_z_whole))]

ghost use Rattle.std.specs.Prelude.{◌≡◌, if◌then◌else◌};
ghost use Rattle.bezier.specs.Points.{cubic_in};
ghost use Rattle.overlap.specs.Thrown.{is_off, is_off_z_whole, is_thrown_by, is_whole_thrown_by};

use bezier::{Axis, Coordinate, POINTS, axis_in, extent_of};

// For a half's tests, and for the whole's: in z `intersect` has a plus where recursive_intersect has a minus.
pub const HALF: bool = false;

pub const WHOLE: bool = true;

// Whether a coordinate of four points lies below zero or above the limit in all of them, by more than w.
fn is_off<const HAS_PLUS: bool>(a: Axis, w: f32, limit: f32) -> bool
    ensures { result ≡ (if HAS_PLUS then is_off_z_whole a w limit else is_off a w limit) }
{
    let e = extent_of(a);
    let least = if HAS_PLUS { e.least + w } else { e.least - w };
    (e.greatest + w < 0.0) | (least > limit)
}

// Whether a half is thrown out, or the whole, with half its width. First y, the extent of which is the smallest as a rule.
pub fn is_thrown_by<const IS_WHOLE: bool>(w: f32, zmax: f32, p: &[f32; POINTS]) -> bool
    ensures { result ≡ (if IS_WHOLE then is_whole_thrown_by w zmax (cubic_in p.now) else is_thrown_by w zmax (cubic_in p.now)) }
{
    is_off::<HALF>(axis_in(p, Coordinate::Y), w, 0.0)
        || is_off::<HALF>(axis_in(p, Coordinate::X), w, 0.0)
        || is_off::<IS_WHOLE>(axis_in(p, Coordinate::Z), w, zmax)
}
