// Normals.
#![tactic(auto, unfolding(crate::specs::Normal::normal_of, crate::specs::Normal::normal_scaled))]

ghost use Rattle.std.specs.Prelude.{◌≡◌};
ghost use Rattle.geometry.specs.Normal.{normal_of, normal_scaled};

use crate::vector::Vector3f;
use std::ops::Mul;

#[derive(Clone, Copy, Debug, PartialEq)]
pub struct Normal3f {
    pub x: f32,
    pub y: f32,
    pub z: f32,
}

impl From<Vector3f> for Normal3f {
    ghost from_gives = { λ v n. n ≡ normal_of v };

    fn from(v: Vector3f) -> Normal3f {
        Normal3f {
            x: v.x,
            y: v.y,
            z: v.z,
        }
    }
}

impl Mul<f32> for Normal3f {
    type Output = Normal3f;

    ghost mul_gives = { λ n k r. r ≡ normal_scaled n k };

    fn mul(self, k: f32) -> Normal3f {
        Normal3f {
            x: self.x * k,
            y: self.y * k,
            z: self.z * k,
        }
    }
}
