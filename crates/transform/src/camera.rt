// The transform to a camera's frame.
#![tactic(auto, unfolding(crate::specs::LookAt::identity_transform, crate::specs::LookAt::camera_to_world, crate::specs::LookAt::framed, crate::specs::LookAt::upward, crate::specs::LookAt::look_at))]

ghost use Rattle.std.specs.Prelude.{◌≡◌};
ghost use Rattle.transform.specs.LookAt.{identity_transform, camera_to_world, framed, look_at};

use geometry::{Point3f, Vector3f};
use matrix::{Matrix4x4, Row};

#[derive(Clone, Copy, Debug, PartialEq)]
pub struct Transform {
    pub m: Matrix4x4,
    pub m_inv: Matrix4x4,
}

// The identity.
impl Default for Transform {
    ghost is_default = { λ t. t ≡ identity_transform };

    fn default() -> Transform {
        let m = Matrix4x4::default();
        Transform { m, m_inv: m }
    }
}

fn camera_to_world(pos: Point3f, right: Vector3f, new_up: Vector3f, dir: Vector3f) -> Matrix4x4
    ensures { result ≡ camera_to_world pos right new_up dir }
{
    let r0 = Row {
        c0: right.x,
        c1: new_up.x,
        c2: dir.x,
        c3: pos.x,
    };
    let r1 = Row {
        c0: right.y,
        c1: new_up.y,
        c2: dir.y,
        c3: pos.y,
    };
    let r2 = Row {
        c0: right.z,
        c1: new_up.z,
        c2: dir.z,
        c3: pos.z,
    };
    let r3 = Row {
        c0: 0.0,
        c1: 0.0,
        c2: 0.0,
        c3: 1.0,
    };
    Matrix4x4 { r0, r1, r2, r3 }
}

// The frame at pos along dir, for an up vector of length one.
#[tactic(auto, unfolding(crate::specs::LookAt::framed, geometry::specs::Vector::normalized, geometry::specs::Vector::divided, geometry::specs::Vector::length_of, geometry::specs::Vector::crossed_of))]
fn frame(pos: Point3f, dir: Vector3f, up: Vector3f) -> Transform
    ensures { result ≡ framed pos dir up }
{
    let crossed = up.cross_squared(dir);
    let length = float::sqrt(crossed.length_squared);
    if length == 0.0 {
        return Transform::default();
    }
    let across = crossed.v;
    let right = across * (1.0 / length);
    let new_up = dir.cross(right);
    let m_inv = camera_to_world(pos, right, new_up, dir);
    let m = m_inv.inverse();
    Transform { m, m_inv }
}

// There is none where the viewing direction or the up vector has length zero: there the Rust panics.
pub fn look_at(pos: Point3f, look: Point3f, up: Vector3f) -> Option<Transform>
    ensures { result ≡ look_at pos look up }
{
    let dir = (look - pos).normalize()?;
    let up = up.normalize()?;
    Some(frame(pos, dir, up))
}
