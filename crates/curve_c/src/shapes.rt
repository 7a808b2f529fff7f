// Curves into a list, their boxes, areas and prices.
ghost use Rattle.std.specs.Prelude.{◌≡◌, length};
ghost use Rattle.matrix.specs.Matrix.{matrix_from};
ghost use Rattle.limits.specs.Refused.{status_of};
ghost use Rattle.create.specs.Create.{params_of, created_of, list_after};
ghost use Rattle.measure.specs.Bound.{object_bound, world_bound};
ghost use Rattle.measure.specs.Area.{area_in};
ghost use Rattle.measure.specs.Price.{price_in};
ghost use Rattle.curve_c.specs.Calls.{after, bound_after};

use crate::outputs::put;
use geometry::BOUNDS_FLOATS;
use matrix::{MATRIX_FLOATS, Matrix4x4};

// Degree, basis and type are C's numbers.
#[unsafe(no_mangle)]
pub extern "C" fn curve_create(
    points: &[f32],
    degree: u32,
    basis: u32,
    ty: u32,
    width0: f32,
    width1: f32,
    splitdepth: u32,
    list: &mut [f32],
    pieces: &mut u32,
) -> u32
    ensures value { result ≡ status_of (created_of points.now (params_of degree basis ty width0 width1 splitdepth) (length list.old)) }
    ensures list_after { list.new ≡ list_after points.now (params_of degree basis ty width0 width1 splitdepth) list.old }
    ensures pieces_after { pieces.new ≡ after (created_of points.now (params_of degree basis ty width0 width1 splitdepth) (length list.old)) pieces.old }
{
    let created = create::create_curve_shape(
        points, degree, basis, ty, width0, width1, splitdepth, list,
    );
    put(created, pieces)
}

#[unsafe(no_mangle)]
pub extern "C" fn curve_object_bound(piece: &[f32], out: &mut [f32; BOUNDS_FLOATS]) -> u32
    ensures value { result ≡ status_of (object_bound piece.now) }
    ensures out_after { out.new ≡ bound_after (object_bound piece.now) out.old }
{
    let bound = measure::object_bound(piece);
    put(bound.map(<[f32; BOUNDS_FLOATS]>::from), out)
}

#[unsafe(no_mangle)]
pub extern "C" fn curve_world_bound(
    piece: &[f32],
    object_to_world: &[f32; MATRIX_FLOATS],
    out: &mut [f32; BOUNDS_FLOATS],
) -> u32
    ensures value { result ≡ status_of (world_bound piece.now (matrix_from object_to_world.now 0)) }
    ensures out_after { out.new ≡ bound_after (world_bound piece.now (matrix_from object_to_world.now 0)) out.old }
{
    let bound = measure::world_bound(piece, Matrix4x4::from(object_to_world));
    put(bound.map(<[f32; BOUNDS_FLOATS]>::from), out)
}

#[unsafe(no_mangle)]
pub extern "C" fn curve_area(piece: &[f32], out: &mut f32) -> u32
    ensures value { result ≡ status_of (area_in piece.now) }
    ensures out_after { out.new ≡ after (area_in piece.now) out.old }
{
    put(measure::area(piece), out)
}

#[unsafe(no_mangle)]
pub extern "C" fn curve_price(piece: &[f32], rate: u32, cents: &mut u32) -> u32
    ensures value { result ≡ status_of (price_in piece.now rate) }
    ensures cents_after { cents.new ≡ after (price_in piece.now rate) cents.old }
{
    put(measure::price(piece, rate), cents)
}
