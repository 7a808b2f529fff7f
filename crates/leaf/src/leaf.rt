// The leaf: recursive_intersect at depth 0.
ghost use Rattle.std.specs.Prelude.{◌≡◌};
ghost use Rattle.leaf.specs.Leaf.{segment_dir, edge_at, line_at, v_of, crossing_at, crossing_of, crosswise_of, along_of, frame_of, leaf_of};

use bezier::{Cubic, Eval, eval_bezier};
use curve::CurveRef;
use frame::View;
use geometry::{Point2f, Point3f, Vector2f, Vector3f, clamp};
use limits::Refusal;
use overlap::PaddedSubcurve;
use transform::transform_vector;

// The distance along the ray, and the parameters along and across the curve.
#[derive(Clone, Copy, Debug, PartialEq)]
pub struct Crossing {
    pub t: f32,
    pub u: f32,
    pub v: f32,
}

// From the first control point to the last, across the ray.
#[tactic(auto, unfolding(crate::specs::Leaf::segment_dir))]
fn segment_dir(cp: Cubic) -> Vector2f
    ensures { result ≡ segment_dir cp }
{
    let start = Point2f {
        x: cp.p0.x,
        y: cp.p0.y,
    };
    let end = Point2f {
        x: cp.p3.x,
        y: cp.p3.y,
    };
    end - start
}

// On which side of the perpendicular at one of the curve's ends the ray lies. Next to the end is the control point `next`.
#[tactic(auto, unfolding(crate::specs::Leaf::edge_at))]
fn edge_at(end: Point3f, next: Point3f) -> f32
    ensures { result ≡ edge_at end next }
{
    (next.y - end.y) * -end.y + end.x * (end.x - next.x)
}

// Where on the line from start to end the ray is nearest.
#[tactic(auto, unfolding(crate::specs::Leaf::line_at))]
fn line_at(cp: Cubic, dir: Vector2f, denom: f32) -> f32
    ensures { result ≡ line_at cp dir denom }
{
    let start = Vector2f {
        x: cp.p0.x,
        y: cp.p0.y,
    };
    (-start).dot(dir) / denom
}

#[tactic(auto, unfolding(crate::specs::Leaf::v_of))]
fn v_of(pc: Eval, dist2: f32, hit_width: f32) -> f32
    ensures { result ≡ v_of pc dist2 hit_width }
{
    let part = float::sqrt(dist2) / hit_width;
    if pc.d.x * -pc.p.y + pc.p.x * pc.d.y > 0.0 {
        0.5 + part
    } else {
        0.5 - part
    }
}

// The partial derivatives, the normal before it is turned, and the direction back along the ray.
#[derive(Clone, Copy, Debug, PartialEq)]
pub struct Frame {
    pub dpdu: Vector3f,
    pub dpdv: Vector3f,
    pub n: Vector3f,
    pub wo: Vector3f,
}

// dpdv: across dpdu as the ray sees it, as long as the curve is wide.
#[tactic(auto, unfolding(crate::specs::Leaf::crosswise_of))]
fn crosswise(view: &View, dpdu: Vector3f, hit_width: f32) -> Option<Vector3f>
    ensures { result ≡ crosswise_of view.now.o2r dpdu hit_width }
{
    let plane = transform_vector(view.o2r.m, dpdu);
    let across = Vector3f {
        x: -plane.y,
        y: plane.x,
        z: 0.0,
    };
    let across = across.normalize()?;
    Some(transform_vector(view.o2r.m_inv, across * hit_width))
}

#[tactic(auto, unfolding(crate::specs::Leaf::along_of, crate::specs::Leaf::outward_of, geometry::specs::Vector::normalized, geometry::specs::Vector::length_of, geometry::specs::Vector::crossed_of))]
fn along(d: Vector3f, dpdu: Vector3f, dpdv: Vector3f) -> Result<Frame, Refusal>
    ensures { result ≡ along_of d dpdu dpdv }
{
    let crossed = dpdu.cross_squared(dpdv);
    let n = crossed
        .v
        .div(float::sqrt(crossed.length_squared))
        .ok_or(Refusal::ZeroNormal)?;
    let wo = (-d).normalize().ok_or(Refusal::ZeroNormal)?;
    Ok(Frame { dpdu, dpdv, n, wo })
}

// Where a leaf meets the ray, and the frame there or why there is none.
#[derive(Clone, Copy, Debug, PartialEq)]
pub struct Met {
    pub at: Crossing,
    pub frame: Result<Frame, Refusal>,
}

// What a leaf answers: nothing where a test fails.
pub type Leaf = Option<Met>;

// A curve as a ray sees it: what a walk holds fixed.
#[derive(Clone, Copy, Debug)]
pub struct SeenCurve<'a> {
    pub curve: &'a CurveRef<'a>,
    pub view: View,
}

impl SeenCurve<'_> {
    // The tests of the curve's point nearest the ray.
    #[tactic(auto, unfolding(crate::specs::Leaf::crossing_at))]
    fn cross_at(&self, s: &PaddedSubcurve, w: f32) -> Option<Crossing>
        ensures { result ≡ crossing_at self.now.curve.now self.now.view s.now w }
    {
        let u = s.parameter_at(w);
        let hit_width = self.curve.width_at(u);
        let pc = s.eval_bezier(clamp(w, 0.0, 1.0));
        let dist2 = pc.p.x * pc.p.x + pc.p.y * pc.p.y;
        if (dist2 > hit_width * hit_width * 0.25) | (pc.p.z < 0.0) | (pc.p.z > self.view.zmax) {
            None
        } else {
            Some(Crossing {
                t: pc.p.z / self.view.ray_length,
                u,
                v: v_of(pc, dist2, hit_width),
            })
        }
    }

    #[tactic(auto, unfolding(crate::specs::Leaf::crossing_of))]
    fn cross_leaf(&self, s: &PaddedSubcurve) -> Option<Crossing>
        ensures { result ≡ crossing_of self.now.curve.now self.now.view s.now }
    {
        let cp = s.control_points();
        let dir = segment_dir(cp);
        let denom = dir.length_squared();
        if (edge_at(cp.p0, cp.p1) < 0.0) | (edge_at(cp.p3, cp.p2) < 0.0) | (denom == 0.0) {
            None
        } else {
            self.cross_at(s, line_at(cp, dir, denom))
        }
    }

    // The frame at u. The derivative is that of the Bezier segment's own control points.
    #[tactic(auto, unfolding(crate::specs::Leaf::frame_of))]
    fn frame_at(&self, u: f32) -> Result<Frame, Refusal>
        ensures { result ≡ frame_of self.now.curve.now self.now.view u }
    {
        let at = eval_bezier(&self.curve.segment_points(), u);
        let zero = Vector3f {
            x: 0.0,
            y: 0.0,
            z: 0.0,
        };
        if at.d == zero {
            return Err(Refusal::ZeroDerivative);
        }
        let dpdv = crosswise(&self.view, at.d, self.curve.width_at(u)).ok_or(Refusal::ZeroAcross)?;
        along(self.view.d, at.d, dpdv)
    }

    // The answer of a subcurve that is cut no further.
    #[tactic(auto, unfolding(crate::specs::Leaf::leaf_of))]
    pub fn run_leaf(&self, s: &PaddedSubcurve) -> Leaf
        ensures { result ≡ leaf_of self.now.curve.now self.now.view s.now }
    {
        let at = self.cross_leaf(s)?;
        let frame = self.frame_at(at.u);
        Some(Met { at, frame })
    }
}
