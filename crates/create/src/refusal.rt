// What create_curve_shape refuses, in its order.
ghost use Rattle.std.specs.Prelude.{◌≡◌, ◌+◌, ◌*◌, ◌≤◌, length, Some, None, Ok, IfOk, IfErr};
ghost use Rattle.create.specs.Create.{count_wrong, equals_next, neighbours_differ, all_within, limit_wrong, limit_refusals, create_refusals};
ghost use Rattle.create.specs.Shape.{degree_number, basis_number, params_in};
ghost use Rattle.limits.specs.Refused.{first_of, told};

use crate::create::Params;
use crate::shape::{Basis, Degree, Shape};
use curve::FLOATS;
use geometry::point_from;
use limits::{LARGEST, Refusal, is_width_within, is_within};

// The most points and the most curves of a call.
const MOST_POINTS: usize = 256;

pub const MOST_CURVES: usize = 1024;

// The most cuts of a segment.
const MOST_SPLITDEPTH: u32 = 10;

// Whether the floats are not in threes, or the points do not make whole segments.
#[tactic(auto, using(crate::proofs::Divisible::unsigned), unfolding(crate::specs::Create::count_wrong))]
fn is_count_wrong(floats: usize, degree: Degree, basis: Basis) -> bool
    ensures { result ≡ count_wrong floats (degree_number degree) (basis_number basis) }
{
    let n = floats / 3;
    let step = degree.number();
    if floats % 3 != 0 {
        return true;
    }
    match basis {
        Basis::Bezier => (n + step - 1) % step != 0,
        Basis::BSpline => n <= step,
    }
}

// Whether point i equals the next one. By its number, as the definition has it: see `segment` for the rest of a slice.
#[tactic(auto, unfolding(crate::specs::Create::equals_next, geometry::specs::Point::points_equal))]
fn equals_next(points: &[f32], i: usize) -> bool
    requires { 3 * i + 6 ≤ length points.now }
    ensures { result ≡ equals_next points.now i }
{
    let at = 3 * i;
    point_from(points, at) == point_from(points, at + 3)
}

// Whether no point equals the next one.
fn neighbours_differ(points: &[f32]) -> bool
    ensures { result ≡ neighbours_differ points.now }
{
    let pairs = (points.len() / 3).saturating_sub(1);
    (0..pairs).all(|i| !equals_next(points, i))
}

// Of at most 256 points. All are asked: with a way out at each, by `all`, laying many points takes a fifth longer.
fn is_all_within(points: &[f32]) -> bool
    ensures { result ≡ all_within points.now }
{
    points
        .iter()
        .fold(true, |within, &x| within & is_within(x, LARGEST))
}

// Whether a coordinate or a width is off its limits.
#[tactic(auto, unfolding(crate::specs::Create::limit_wrong))]
fn is_limit_wrong(points: &[f32], width0: f32, width1: f32) -> bool
    ensures { result ≡ limit_wrong points.now width0 width1 }
{
    let points_within = is_all_within(points);
    let width0_within = is_width_within(width0, 0.0009765625, 1024.0);
    let width1_within = is_width_within(width1, 0.0009765625, 1024.0);
    !(points_within & width0_within & width1_within)
}

// 6, 7 and 8. `room` is the length of the list to fill.
#[tactic(auto, unfolding(crate::specs::Create::limit_refusals, limits::specs::Refused::first_of))]
fn check_limits(points: &[f32], shape: Shape, room: usize) -> Result<(), Refusal>
    ensures { result ≡ told (first_of (limit_refusals points.now (params_in shape) room)) (Ok tt) }
{
    let n = points.len() / 3;
    if n > MOST_POINTS {
        return Err(Refusal::TooMany);
    }
    let curves = shape.curve_count(n);
    if curves > MOST_CURVES {
        return Err(Refusal::TooMany);
    }
    if is_limit_wrong(points, shape.width0, shape.width1) {
        return Err(Refusal::PointsOrWidths);
    }
    if room < FLOATS * curves {
        return Err(Refusal::ListTooShort);
    }
    Ok(())
}

// The shape, or the first refusal of its table.
#[tactic(auto, unfolding(crate::specs::Create::create_refusals, limits::specs::Refused::first_of))]
pub fn check(points: &[f32], p: Params, room: usize) -> Result<Shape, Refusal>
    ensures accepted { IfOk result (λ s. (params_in s ≡ p) × (first_of (create_refusals points.now p room) ≡ None)) }
    ensures refused { IfErr result (λ r. first_of (create_refusals points.now p room) ≡ Some r) }
{
    let degree = Degree::try_from(p.degree)?;
    let basis = Basis::try_from(p.basis)?;
    if is_count_wrong(points.len(), degree, basis) {
        return Err(Refusal::PointCount);
    }
    if !neighbours_differ(points) {
        return Err(Refusal::EqualNeighbours);
    }
    if p.ty != 0 {
        return Err(Refusal::Type);
    }
    if p.splitdepth > MOST_SPLITDEPTH {
        return Err(Refusal::SplitDepth);
    }
    let shape = Shape {
        degree,
        basis,
        width0: p.width0,
        width1: p.width1,
        splitdepth: p.splitdepth,
    };
    check_limits(points, shape, room)?;
    Ok(shape)
}
