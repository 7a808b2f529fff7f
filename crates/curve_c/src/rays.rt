// Where a ray meets a curve.
ghost use Rattle.std.specs.Prelude.{◌≡◌};
ghost use Rattle.intersect.specs.Answer.{met_number};
ghost use Rattle.curve_c.specs.Calls.{met_by, record_after, looked_after};

use geometry::{RAY_FLOATS, ray_from};
use interaction::RECORD_FLOATS;
use intersect::Intersection;
use matrix::{MATRIX_FLOATS, Matrix4x4};

// Answers 0 with a hit and 1 with a miss, or its refusal. A miss tells how many were looked at too, so this is no `put_hit`.
#[tactic(auto, unfolding(crate::specs::Calls::met_by))]
#[unsafe(no_mangle)]
pub extern "C" fn curve_intersect(
    piece: &[f32],
    object_to_world: &[f32; MATRIX_FLOATS],
    world_to_object: &[f32; MATRIX_FLOATS],
    reverse: u32,
    ray: &[f32; RAY_FLOATS],
    record: &mut [f32; RECORD_FLOATS],
    looked: &mut u32,
) -> u32
    ensures value { result ≡ met_number (met_by piece.now object_to_world.now world_to_object.now reverse ray.now) }
    ensures record_after { «record».new ≡ record_after (met_by piece.now object_to_world.now world_to_object.now reverse ray.now) «record».old }
    ensures looked_after { looked.new ≡ looked_after (met_by piece.now object_to_world.now world_to_object.now reverse ray.now) looked.old }
{
    let met = intersect::intersect(
        piece,
        Matrix4x4::from(object_to_world),
        Matrix4x4::from(world_to_object),
        0 < reverse,
        ray_from(ray, 0),
    );
    match met {
        Ok(Intersection::Hit(interaction, n)) => {
            *record = interaction.into();
            *looked = n;
            0
        }
        Ok(Intersection::Miss(n)) => {
            *looked = n;
            1
        }
        Err(refusal) => refusal.number(),
    }
}
