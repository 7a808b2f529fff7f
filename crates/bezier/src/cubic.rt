// A cubic Bezier curve by its control points, and what eval_bezier gives.
use geometry::{Point3f, Vector3f};

// The four control points.
#[derive(Clone, Copy, Debug, PartialEq)]
pub struct Cubic {
    pub p0: Point3f,
    pub p1: Point3f,
    pub p2: Point3f,
    pub p3: Point3f,
}

// A curve's point at a parameter, and its derivative there.
#[derive(Clone, Copy, Debug, PartialEq)]
pub struct Eval {
    pub p: Point3f,
    pub d: Vector3f,
}
