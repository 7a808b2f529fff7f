// Parts of a curve in the ray's frame.
#![tactic(auto, unfolding(crate::specs::Subcurve::middle_of, crate::specs::Subcurve::subcurve_in))]

ghost use Rattle.std.specs.Prelude.{◌≡◌};
ghost use Rattle.overlap.specs.Subcurve.{whole_of, middle_of};

use crate::thrown::is_thrown_by;
use bezier::{Cubic, Eval, POINTS, eval_bezier, subdivide_bezier};
use curve::CurveRef;
use geometry::{clamp, lerp};
use std::marker::Model;

// The control points in the ray's frame, and the parameters at the ends: a piece of the walk, and after the last cut a
// sliver.
#[derive(Clone, Copy, Debug, PartialEq)]
pub struct Subcurve {
    pub cp: Cubic,
    pub u0: f32,
    pub u1: f32,
}

// All of a curve.
#[tactic(auto, unfolding(crate::specs::Subcurve::whole_of))]
pub fn whole(curve: &CurveRef<'_>, cp: Cubic) -> Subcurve
    ensures { result ≡ whole_of curve.now cp }
{
    Subcurve {
        cp,
        u0: curve.umin(),
        u1: curve.umax(),
    }
}

// Where a subcurve is cut in two.
fn middle(u0: f32, u1: f32) -> f32
    ensures { result ≡ middle_of u0 u1 }
{
    (u0 + u1) / 2.0
}

// A subcurve as a walk lends it to its steps, with the control points as floats, four a point. A clause sees the
// `Subcurve` that it is.
#[derive(Debug, Drop)]
pub struct PaddedSubcurve {
    points: [f32; POINTS],
    u0: f32,
    u1: f32,
}

impl Model for PaddedSubcurve {
    ghost use Rattle.overlap.specs.declared.subcurve.Subcurve.{Subcurve};
    ghost use Rattle.overlap.specs.Subcurve.{subcurve_in};

    ghost Value = { Subcurve };

    ghost view = { λ s. subcurve_in s.points s.u0 s.u1 };
}

impl From<Subcurve> for PaddedSubcurve {
    ghost from_gives = { λ s p. p ≡ s };

    fn from(s: Subcurve) -> PaddedSubcurve {
        PaddedSubcurve {
            points: s.cp.into(),
            u0: s.u0,
            u1: s.u1,
        }
    }
}

impl PaddedSubcurve {
    ghost use Rattle.std.specs.Prelude.{if◌then◌else◌};
    ghost use Rattle.geometry.specs.Pbrt.{lerp_of, clamp_of};
    ghost use Rattle.bezier.specs.Cubic.{eval_of};
    ghost use Rattle.overlap.specs.Subcurve.{low_half, high_half};
    ghost use Rattle.overlap.specs.Thrown.{half_width, is_thrown, is_whole_thrown};

    // The control points in the ray's frame.
    pub fn control_points(&self) -> Cubic
        ensures { result ≡ self.now.cp }
    {
        Cubic::from(&self.points)
    }

    // The curve's parameter at w of the way from this end to the other.
    pub fn parameter_at(&self, w: f32) -> f32
        ensures { result ≡ clamp_of (lerp_of w self.now.u0 self.now.u1) self.now.u0 self.now.u1 }
    {
        clamp(lerp(w, self.u0, self.u1), self.u0, self.u1)
    }

    // The point and the derivative there.
    pub fn eval_bezier(&self, w: f32) -> Eval
        ensures { result ≡ eval_of self.now.cp w }
    {
        eval_bezier(&self.points, w)
    }

    // Half the larger of the widths at the ends.
    #[tactic(auto, unfolding(crate::specs::Subcurve::subcurve_in, crate::specs::Thrown::half_width))]
    fn half_width(&self, curve: &CurveRef<'_>) -> f32
        ensures { result ≡ half_width curve.now self.now.u0 self.now.u1 }
    {
        0.5 * float::max(curve.width_at(self.u0), curve.width_at(self.u1))
    }

    // Whether it is thrown out, as a half or as the whole.
    #[tactic(auto, unfolding(crate::specs::Subcurve::subcurve_in, crate::specs::Thrown::is_thrown, crate::specs::Thrown::is_whole_thrown))]
    pub fn is_thrown<const IS_WHOLE: bool>(&self, curve: &CurveRef<'_>, zmax: f32) -> bool
        ensures { result ≡ (if IS_WHOLE then is_whole_thrown curve.now zmax self.now else is_thrown curve.now zmax self.now) }
    {
        is_thrown_by::<IS_WHOLE>(self.half_width(curve), zmax, &self.points)
    }

    // The half at the start, and the half at the end.
    #[tactic(auto, unfolding(crate::specs::Subcurve::subcurve_in, crate::specs::Subcurve::low_half, crate::specs::Subcurve::high_half))]
    pub fn halves(&self) -> (PaddedSubcurve, PaddedSubcurve)
        ensures low { result.0 ≡ low_half self.now }
        ensures high { result.1 ≡ high_half self.now }
    {
        let u = middle(self.u0, self.u1);
        let (low, high) = subdivide_bezier(&self.points);
        (
            PaddedSubcurve {
                points: low,
                u0: self.u0,
                u1: u,
            },
            PaddedSubcurve {
                points: high,
                u0: u,
                u1: self.u1,
            },
        )
    }
}
