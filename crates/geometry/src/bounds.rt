// Boxes: core/geometry/bounds.rs.
#![tactic(auto, unfolding(crate::specs::Bounds::bounds_at, crate::specs::Bounds::with_point, crate::specs::Bounds::bounds_floats))]

ghost use Rattle.std.specs.Prelude.{◌≡◌};
ghost use Rattle.geometry.specs.Bounds.{bounds_at, with_point, bounds_floats};

use crate::point::Point3f;

#[derive(Clone, Copy, Debug, PartialEq)]
pub struct Bounds3f {
    pub p_min: Point3f,
    pub p_max: Point3f,
}

// The box of a point alone.
impl From<Point3f> for Bounds3f {
    ghost from_gives = { λ p b. b ≡ bounds_at p };

    fn from(p: Point3f) -> Bounds3f {
        Bounds3f { p_min: p, p_max: p }
    }
}

// How many floats a box is: the lower corner, then the upper.
pub const BOUNDS_FLOATS: usize = 6;

impl From<Bounds3f> for [f32; BOUNDS_FLOATS] {
    ghost from_gives = { λ b v. v ≡ bounds_floats b };

    fn from(b: Bounds3f) -> [f32; BOUNDS_FLOATS] {
        [
            b.p_min.x, b.p_min.y, b.p_min.z, b.p_max.x, b.p_max.y, b.p_max.z,
        ]
    }
}

impl Bounds3f {
    pub fn union_point(self, p: Point3f) -> Bounds3f
        ensures { result ≡ with_point self p }
    {
        Bounds3f {
            p_min: self.p_min.min(p),
            p_max: self.p_max.max(p),
        }
    }
}
