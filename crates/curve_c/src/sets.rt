// A kept set of curves under one ray, in two arrays that the caller lends.
ghost use Rattle.std.specs.Prelude.{◌≡◌};
ghost use Rattle.limits.specs.Refused.{status_of};
ghost use Rattle.curve_set.specs.Set.{open_answer, open_floats, open_words, add_answer, add_floats, add_words, remove_answer, remove_floats, remove_words, nearest_in};
ghost use Rattle.curve_c.specs.Calls.{head_given, hit_number, hit_record, hit_place};

use crate::outputs::{put_hit, status};
use curve_set::{Head, SET_FLOATS, SET_WORDS, Set, SetMut};
use geometry::{RAY_FLOATS, ray_from};
use interaction::RECORD_FLOATS;
use matrix::{MATRIX_FLOATS, Matrix4x4};

#[tactic(auto, unfolding(crate::specs::Calls::head_given))]
#[unsafe(no_mangle)]
pub extern "C" fn curve_set_open(
    floats: &mut [f32; SET_FLOATS],
    words: &mut [u32; SET_WORDS],
    object_to_world: &[f32; MATRIX_FLOATS],
    world_to_object: &[f32; MATRIX_FLOATS],
    reverse: u32,
    ray: &[f32; RAY_FLOATS],
) -> u32
    ensures value { result ≡ status_of (open_answer (head_given object_to_world.now world_to_object.now reverse ray.now)) }
    ensures floats_after { floats.new ≡ open_floats floats.old (head_given object_to_world.now world_to_object.now reverse ray.now) }
    ensures words_after { words.new ≡ open_words words.old (head_given object_to_world.now world_to_object.now reverse ray.now) }
{
    let head = Head {
        object_to_world: Matrix4x4::from(object_to_world),
        world_to_object: Matrix4x4::from(world_to_object),
        reverse: 0 < reverse,
        ray: ray_from(ray, 0),
    };
    status(SetMut { floats, words }.open(head))
}

#[unsafe(no_mangle)]
pub extern "C" fn curve_set_add(
    floats: &mut [f32; SET_FLOATS],
    words: &mut [u32; SET_WORDS],
    number: u32,
    piece: &[f32],
) -> u32
    ensures value { result ≡ status_of (add_answer floats.old words.old number piece.now) }
    ensures floats_after { floats.new ≡ add_floats floats.old words.old number piece.now }
    ensures words_after { words.new ≡ add_words floats.old words.old number piece.now }
{
    status(SetMut { floats, words }.add(number, piece))
}

#[unsafe(no_mangle)]
pub extern "C" fn curve_set_remove(
    floats: &mut [f32; SET_FLOATS],
    words: &mut [u32; SET_WORDS],
    number: u32,
) -> u32
    ensures value { result ≡ status_of (remove_answer floats.old words.old number) }
    ensures floats_after { floats.new ≡ remove_floats floats.old words.old number }
    ensures words_after { words.new ≡ remove_words floats.old words.old number }
{
    status(SetMut { floats, words }.remove(number))
}

#[unsafe(no_mangle)]
pub extern "C" fn curve_set_nearest(
    floats: &[f32; SET_FLOATS],
    words: &[u32; SET_WORDS],
    record: &mut [f32; RECORD_FLOATS],
    number: &mut u32,
) -> u32
    ensures value { result ≡ hit_number (nearest_in floats.now words.now) }
    ensures record_after { «record».new ≡ hit_record (nearest_in floats.now words.now) «record».old }
    ensures number_after { number.new ≡ hit_place (nearest_in floats.now words.now) number.old }
{
    put_hit(Set { floats, words }.nearest(), record, number)
}
