// The ray in the object's frame, and the curve in the ray's.
#![tactic(auto, unfolding(crate::specs::Frame::ray_frame, crate::specs::Frame::projected_cubic, crate::specs::Frame::aim_of, crate::specs::Frame::aimed_of, crate::specs::Frame::view_of, crate::specs::Frame::in_ray_frame, crate::specs::Frame::framed_points, crate::specs::Frame::framed_along))]

ghost use Rattle.std.specs.Prelude.{◌≡◌};
ghost use Rattle.frame.specs.Frame.{up_vector, ray_frame, projected_cubic, aim_of, aimed_of, view_of, framed_points, framed_along};

use bezier::Cubic;
use curve::CurveRef;
use geometry::{Ray, Vector3f, vec3_coordinate_system};
use limits::Refusal;
use matrix::Matrix4x4;
use transform::{Transform, look_at, transform_point, transform_ray_error};

// What a leaf needs of the ray: its direction in the object's frame, how long that is, how far the ray reaches in its
// own frame, and the transform from the object to it. The ray's time has no part in it.
#[derive(Clone, Copy, Debug, PartialEq)]
pub struct View {
    pub d: Vector3f,
    pub ray_length: f32,
    pub zmax: f32,
    pub o2r: Transform,
}

// A ray in the object's frame, how long its direction is, and how far it reaches in its own frame: what is the same for
// every curve.
#[derive(Clone, Copy, Debug, PartialEq)]
pub struct Aim {
    pub ray: Ray,
    pub ray_length: f32,
    pub zmax: f32,
}

// The ray in the object's frame with its view, and the curve's control points in the ray's frame.
#[derive(Clone, Copy, Debug, PartialEq)]
pub struct Framed {
    pub ray: Ray,
    pub view: View,
    pub cubic: Cubic,
}

// The up vector for look_at, across the ray and the chord. Where they are parallel any will do.
#[tactic(auto, unfolding(crate::specs::Frame::up_vector, geometry::specs::Vector::crossed_of))]
fn up_vector(d: Vector3f, chord: Vector3f) -> Option<Vector3f>
    ensures { result ≡ up_vector d chord }
{
    let crossed = d.cross_squared(chord);
    if crossed.length_squared == 0.0 {
        let (dx, _) = vec3_coordinate_system(d)?;
        Some(dx)
    } else {
        Some(crossed.v)
    }
}

// The transform from the object to the ray's frame.
fn ray_frame(ray: Ray, cp: Cubic) -> Option<Transform>
    ensures { result ≡ ray_frame ray cp }
{
    let dx = up_vector(ray.d, cp.p3 - cp.p0)?;
    look_at(ray.o, ray.o + ray.d, dx)
}

// The control points under a matrix.
fn project(m: Matrix4x4, cp: Cubic) -> Option<Cubic>
    ensures { result ≡ projected_cubic m cp }
{
    Some(Cubic {
        p0: transform_point(m, cp.p0)?,
        p1: transform_point(m, cp.p1)?,
        p2: transform_point(m, cp.p2)?,
        p3: transform_point(m, cp.p3)?,
    })
}

fn aim_along(ray: Ray) -> Aim
    ensures { result ≡ aim_of ray }
{
    let ray_length = ray.d.length();
    Aim {
        ray,
        ray_length,
        zmax: ray_length * ray.t_max,
    }
}

// The ray in the object's frame. There is none where the weight of the ray's origin is zero.
pub fn aim_ray(world_to_object: Matrix4x4, r: Ray) -> Option<Aim>
    ensures { result ≡ aimed_of world_to_object r }
{
    let transformed = transform_ray_error(world_to_object, r)?;
    Some(aim_along(transformed.ray))
}

fn view_of(a: Aim, o2r: Transform) -> View
    ensures { result ≡ view_of a o2r }
{
    View {
        d: a.ray.d,
        ray_length: a.ray_length,
        zmax: a.zmax,
        o2r,
    }
}

// The control points cp in the frame of a ray of the object's frame.
fn frame_points(cp: Cubic, a: Aim) -> Result<Framed, Refusal>
    ensures { result ≡ framed_points cp a }
{
    let o2r = ray_frame(a.ray, cp).ok_or(Refusal::NoFrame)?;
    let cubic = project(o2r.m, cp).ok_or(Refusal::ZeroWeight)?;
    Ok(Framed {
        ray: a.ray,
        view: view_of(a, o2r),
        cubic,
    })
}

// There is no frame where a length is zero, and a control point has none where its weight is zero.
pub fn frame_aimed(curve: &CurveRef<'_>, a: Aim) -> Result<Framed, Refusal>
    ensures { result ≡ framed_along curve.now a }
{
    frame_points(Cubic::from(&curve.control_points()), a)
}
