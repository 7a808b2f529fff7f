// How many rays were answered, and how.
ghost use Rattle.std.specs.Prelude.{◌≡◌, cond};
ghost use Rattle.tally.specs.Tally.{tally_of, can_grow, counters_after};

use tally::add_status;

#[unsafe(no_mangle)]
pub extern "C" fn curve_tally_add(tally: &mut [u32; 4], status: u32) -> u32
    ensures value { result ≡ cond (can_grow (tally_of tally.old)) 1 0 }
    ensures tally_after { tally.new ≡ counters_after status tally.old }
{
    u32::from(add_status(tally, status))
}
