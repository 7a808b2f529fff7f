// The depth of refinement: how often a curve is cut in two.
#![tactic(auto, unfolding(crate::specs::Depth::bend, crate::specs::Depth::bends_at, crate::specs::Depth::greatest_bend, crate::specs::Depth::exponent_of, crate::specs::Depth::log_of, crate::specs::Depth::depth_at))]

ghost use Rattle.std.specs.Prelude.{◌≡◌, false, IsTrue};
ghost use Rattle.std.specs.Float.Ieee.{is_nan};
ghost use Rattle.float.specs.Basic.{max_of};
ghost use Rattle.overlap.specs.Depth.{bend, bends_at, greatest_bend, flatness, log_of, depth_at, depth_of};

use bezier::{ANY, Cubic, NUMBERS, max};
use curve::CurveRef;
use geometry::Point3f;

// A second difference without its sign.
fn second_difference(a: f32, b: f32, c: f32) -> f32
    ensures { result ≡ bend a b c }
{
    float::abs(a - 2.0 * b + c)
}

// Where the first is a number, no other NaN matters.
fn largest_of_three<const IS_NUMBER: bool>(x: f32, y: f32, z: f32) -> f32
    requires { IsTrue IS_NUMBER → is_nan x ≡ false }
    ensures { result ≡ max_of (max_of x y) z }
{
    max::<IS_NUMBER>(max::<IS_NUMBER>(x, y), z)
}

fn largest_of(a: Point3f, b: Point3f, c: Point3f) -> f32
    ensures { result ≡ bends_at a b c }
{
    let x = second_difference(a.x, b.x, c.x);
    let y = second_difference(a.y, b.y, c.y);
    let z = second_difference(a.z, b.z, c.z);
    if x.is_nan() {
        largest_of_three::<ANY>(x, y, z)
    } else {
        largest_of_three::<NUMBERS>(x, y, z)
    }
}

// The Rust's L0.
fn largest_second_difference(cp: Cubic) -> f32
    ensures { result ≡ greatest_bend cp }
{
    let first = max::<NUMBERS>(0.0, largest_of(cp.p0, cp.p1, cp.p2));
    max::<NUMBERS>(first, largest_of(cp.p1, cp.p2, cp.p3))
}

#[tactic(auto, unfolding(crate::specs::Depth::flatness))]
fn flatness_ratio(curve: &CurveRef<'_>, cp: Cubic) -> f32
    ensures { result ≡ flatness curve.now cp }
{
    let eps = float::max(curve.width0(), curve.width1()) * 0.05;
    1.41421356237 * 6.0 * largest_second_difference(cp) / (8.0 * eps)
}

// 0 below 1, else the exponent plus the lowest bit of the pattern.
fn log2(v: f32) -> u32
    ensures { result ≡ log_of v }
{
    if v < 1.0 {
        0
    } else {
        let bits = float::to_bits(v);
        (bits / 8388608).saturating_sub(127) + bits % 2
    }
}

// Half the log, at most 10.
fn depth_at(v: f32) -> u32
    ensures { result ≡ depth_at v }
{
    (log2(v) / 2).min(10)
}

// The points cp are the curve's control points in the ray's frame.
#[tactic(auto, unfolding(crate::specs::Depth::depth_of))]
pub fn max_depth(curve: &CurveRef<'_>, cp: Cubic) -> u32
    ensures { result ≡ depth_of curve.now cp }
{
    depth_at(flatness_ratio(curve, cp))
}
