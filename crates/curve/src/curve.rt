// A curve's values and their limits.
#![tactic(auto, unfolding(crate::specs::Curve::point_within, crate::specs::Curve::cubic_within, crate::specs::Curve::in_limits))]

ghost use Rattle.std.specs.Prelude.{◌≡◌};
ghost use Rattle.curve.specs.Curve.{point_within, cubic_within, in_limits};

use bezier::Cubic;
use geometry::Point3f;
use limits::{is_width_within, is_within};

// The segment's control points and widths, and the part of it that is the curve.
#[derive(Clone, Copy, Debug, PartialEq)]
pub struct Curve {
    pub cp: Cubic,
    pub width0: f32,
    pub width1: f32,
    pub umin: f32,
    pub umax: f32,
}

fn is_point_within(p: Point3f, limit: f32) -> bool
    ensures { result ≡ point_within p limit }
{
    is_within(p.x, limit) & is_within(p.y, limit) & is_within(p.z, limit)
}

fn is_cubic_within(c: Cubic, limit: f32) -> bool
    ensures { result ≡ cubic_within c limit }
{
    is_point_within(c.p0, limit)
        & is_point_within(c.p1, limit)
        & is_point_within(c.p2, limit)
        & is_point_within(c.p3, limit)
}

// Whether it passes refusal 9.
pub fn is_in_limits(c: Curve) -> bool
    ensures { result ≡ in_limits c }
{
    is_cubic_within(c.cp, 2097152.0)
        & is_width_within(c.width0, 0.00048828125, 2048.0)
        & is_width_within(c.width1, 0.00048828125, 2048.0)
        & (0.0 <= c.umin)
        & (c.umin < c.umax)
        & (c.umax <= 1.0)
}
