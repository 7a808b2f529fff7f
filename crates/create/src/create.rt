// create_curve_shape and create_curve: the curves of all segments, into a lent list. Counts widen by `as`: by `From` the proofs of
// the places do not close.
ghost use Rattle.std.specs.Prelude.{◌≡◌, ◌+◌, ◌*◌, ◌≤◌, length, pos};
ghost use Rattle.std.specs.Float.{binary32};
ghost use Rattle.std.specs.Float.Ieee.{of_int};
ghost use Rattle.float.specs.Arith.{◌⊘◌};
ghost use Rattle.geometry.specs.Pbrt.{lerp_of};
ghost use Rattle.limits.specs.List.{over};
ghost use Rattle.curve.specs.Layout.{floats, curve_floats};
ghost use Rattle.create.specs.Basis.{stride_of, segment_at};
ghost use Rattle.create.specs.Create.{part_floats, part_count, created_floats, params_of, created_of, list_after};
ghost use Rattle.create.specs.Shape.{degree_number, basis_number, params_in};

use crate::basis::segment;
use crate::refusal::check;
use crate::shape::Shape;
use bezier::Cubic;
use curve::{Curve, FLOATS};
use geometry::lerp;
use limits::Refusal;

// What a curve is made of, beside its points, as C gives it: basis 0 is Bezier, 1 is B-spline, and type 0 is flat. The
// numbers are kept, since which of them is refused first is told; what they mean is a `Shape`.
#[derive(Clone, Copy, Debug, PartialEq)]
pub struct Params {
    pub degree: u32,
    pub basis: u32,
    pub ty: u32,
    pub width0: f32,
    pub width1: f32,
    pub splitdepth: u32,
}

// A segment with the widths at its ends, and how many curves it is split into.
#[derive(Clone, Copy, Debug, PartialEq)]
struct Segment {
    cp: Cubic,
    width0: f32,
    width1: f32,
    parts: u16,
}

// A count as a float.
fn float_of(n: u16) -> f32
    ensures { result ≡ of_int binary32 (pos n) }
{
    f32::from(n)
}

// a / b of two counts.
fn quotient(a: f32, b: f32) -> f32
    ensures { result ≡ a ⊘ b }
{
    a / b
}

// The part of a segment between two values of u.
fn part(s: Segment, umin: f32, umax: f32) -> Curve
    ensures { result ≡ record { cp = s.cp; width0 = s.width0; width1 = s.width1; umin = umin; umax = umax } }
{
    Curve {
        cp: s.cp,
        width0: s.width0,
        width1: s.width1,
        umin,
        umax,
    }
}

// Float by float: copy_from_slice takes 14 instructions a curve more, where all of a curve's part takes 20.
fn put_curve(list: &mut [f32], at: usize, curve: Curve)
    requires { at + floats ≤ length list.old }
    ensures { list.new ≡ over list.old at (curve_floats curve) }
{
    let values = <[f32; FLOATS]>::from(curve);
    for (i, x) in values.iter().enumerate() {
        list[at + i] = *x;
    }
}

// The Rust's create_curve: all parts of a segment. A count is made a float once, at the end of a part, and is carried to the
// start of the next: made at both, laying takes a quarter longer. The list goes with a place, and not as its rest, since the
// clauses say what becomes of all of it: `over` of a rest would owe what stands before.
fn create_curve(list: &mut [f32], at: usize, s: Segment)
    requires { at + floats * s.parts ≤ length list.old }
    ensures { list.new ≡ over list.old at (part_floats s.cp s.width0 s.width1 s.parts) }
{
    let n = float_of(s.parts);
    let mut from = float_of(0);
    for i in 0..s.parts {
        let to = float_of(i + 1);
        let umin = quotient(from, n);
        let umax = quotient(to, n);
        put_curve(list, at + i as usize * FLOATS, part(s, umin, umax));
        from = to;
    }
}

// The width at the end of seg segments of n.
fn end_width(shape: Shape, n: f32, seg: f32) -> f32
    ensures { result ≡ lerp_of (seg ⊘ n) shape.width0 shape.width1 }
{
    lerp(quotient(seg, n), shape.width0, shape.width1)
}

// A segment by its number, between two widths.
fn segment_of(points: &[f32], shape: Shape, seg: u16, width0: f32, width1: f32) -> Segment
    requires { seg * stride_of (degree_number shape.degree) (basis_number shape.basis) + 3 * degree_number shape.degree + 3 ≤ length points.now }
    ensures { result ≡ record {
      cp = segment_at points.now (degree_number shape.degree) (basis_number shape.basis)
          (seg * stride_of (degree_number shape.degree) (basis_number shape.basis));
      width0 = width0;
      width1 = width1;
      parts = part_count shape.splitdepth;
    } }
{
    Segment {
        cp: segment(points, shape, seg as usize * shape.stride()),
        width0,
        width1,
        parts: shape.part_count(),
    }
}

fn put_segments(list: &mut [f32], points: &[f32], shape: Shape, n: u16)
    requires points { n * stride_of (degree_number shape.degree) (basis_number shape.basis) + 3 * degree_number shape.degree + 3 ≤ length points.now + stride_of (degree_number shape.degree) (basis_number shape.basis) }
    requires room { floats * (n * part_count shape.splitdepth) ≤ length list.old }
    ensures { list.new ≡ over list.old 0 (created_floats points.now (params_in shape) n) }
{
    let size = FLOATS * shape.part_count() as usize;
    let count = float_of(n);
    let mut from = float_of(0);
    for seg in 0..n {
        let to = float_of(seg + 1);
        let width0 = end_width(shape, count, from);
        let width1 = end_width(shape, count, to);
        create_curve(
            list,
            seg as usize * size,
            segment_of(points, shape, seg, width0, width1),
        );
        from = to;
    }
}

// Points are three floats each, and the list takes FLOATS floats a curve. Answers how many curves were written. The
// parameters are the Rust's, one by one as its callers and C have them.
pub fn create_curve_shape(
    points: &[f32],
    degree: u32,
    basis: u32,
    ty: u32,
    width0: f32,
    width1: f32,
    splitdepth: u32,
    list: &mut [f32],
) -> Result<u32, Refusal>
    ensures value { result ≡ created_of points.now (params_of degree basis ty width0 width1 splitdepth) (length list.old) }
    ensures list_after { list.new ≡ list_after points.now (params_of degree basis ty width0 width1 splitdepth) list.old }
{
    let p = Params {
        degree,
        basis,
        ty,
        width0,
        width1,
        splitdepth,
    };
    let shape = check(points, p, list.len())?;
    let n = shape.segment_count(points.len() / 3);
    put_segments(list, points, shape, n as u16);
    Ok(n as u32 * shape.part_count() as u32)
}
