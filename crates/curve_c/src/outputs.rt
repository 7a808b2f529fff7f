// How an answer is told to C: 0 and its value through a pointer, or the refusal's number, which leaves what is there.
ghost use Rattle.std.specs.Prelude.{◌≡◌};
ghost use Rattle.limits.specs.Refused.{status_of};
ghost use Rattle.curve_c.specs.Calls.{after, hit_number, hit_record, hit_place};

use interaction::{RECORD_FLOATS, SurfaceInteraction};
use limits::Refusal;

// The number of an answer that has no value.
pub fn status(answer: Result<(), Refusal>) -> u32
    ensures { result ≡ status_of answer }
{
    put(answer, &mut ())
}

pub fn put<T: Drop>(answer: Result<T, Refusal>, out: &mut T) -> u32
    ensures value { result ≡ status_of answer }
    ensures out_after { out.new ≡ after answer out.old }
{
    match answer {
        Ok(value) => {
            *out = value;
            0
        }
        Err(refusal) => refusal.number(),
    }
}

// A hit's record and the number beside it, which says where; a miss is 1.
pub fn put_hit<N: Drop>(
    hit: Option<(SurfaceInteraction, N)>,
    record: &mut [f32; RECORD_FLOATS],
    place: &mut N,
) -> u32
    ensures value { result ≡ hit_number hit }
    ensures record_after { «record».new ≡ hit_record hit «record».old }
    ensures place_after { place.new ≡ hit_place hit place.old }
{
    let Some((interaction, number)) = hit else {
        return 1;
    };
    *record = interaction.into();
    *place = number;
    0
}
