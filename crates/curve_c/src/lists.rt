// Where a ray first meets a list of curves.
ghost use Rattle.std.specs.Prelude.{◌≡◌};
ghost use Rattle.nearest.specs.Answer.{nearest_number};
ghost use Rattle.curve_c.specs.Calls.{nearest_by, nearest_after, piece_after};

use crate::outputs::put_hit;
use geometry::{RAY_FLOATS, ray_from};
use interaction::RECORD_FLOATS;
use matrix::{MATRIX_FLOATS, Matrix4x4};

// Answers 0 with a hit and 1 with a miss, or its refusal.
#[tactic(auto, unfolding(crate::specs::Calls::nearest_by))]
#[unsafe(no_mangle)]
pub extern "C" fn curve_nearest(
    list: &[f32],
    object_to_world: &[f32; MATRIX_FLOATS],
    world_to_object: &[f32; MATRIX_FLOATS],
    reverse: u32,
    ray: &[f32; RAY_FLOATS],
    record: &mut [f32; RECORD_FLOATS],
    piece: &mut usize,
) -> u32
    ensures value { result ≡ nearest_number (nearest_by list.now object_to_world.now world_to_object.now reverse ray.now) }
    ensures record_after { «record».new ≡ nearest_after (nearest_by list.now object_to_world.now world_to_object.now reverse ray.now) «record».old }
    ensures piece_after { piece.new ≡ piece_after (nearest_by list.now object_to_world.now world_to_object.now reverse ray.now) piece.old }
{
    let met = nearest::nearest(
        list,
        Matrix4x4::from(object_to_world),
        Matrix4x4::from(world_to_object),
        0 < reverse,
        ray_from(ray, 0),
    );
    match met {
        Ok(hit) => put_hit(hit, record, piece),
        Err(refusal) => refusal.number(),
    }
}
