// Bytes handed to a writer's write, or asked of a reader's read, until all have moved. A call may move fewer than it is
// handed, and a signal may interrupt it before it moves any: the next call takes up where it broke off. A call that
// fails ends the transfer, and whoever asked for it is told why.
#![tactic(auto)]

ghost use Rattle.std.specs.Prelude.{◌≡◌, ◌+◌, ◌-◌, ◌≤◌, ◌<◌, ◌^◌, IfOk, Err, length, take};
ghost use Rattle.std.specs.Io.KnownBytes.{Appends, Consumes, IsAtEnd};
ghost use Rattle.transfer.specs.Transfer.{most_interruptions, stopped_at, interrupted_again, after_call, start, is_due, Ended, Skips};
ghost use Rattle.transfer.specs.declared.Stop.TheVariants.{Nothing};

use std::io;
use std::io::{Read, Write};

mod failure;

pub use failure::{Sentences, Text, fail, tell, tell_sentence};

// The number of the system's error for a call that a signal interrupted.
const EINTR: i32 = 4;

// So many calls in a row that a signal interrupted are one failure. `tell` and the sentences of `printer` and `beltbeam` say
// the number.
const MOST_INTERRUPTIONS: usize = 100;

// Why a transfer ended before all bytes were moved: a call moved nothing, which for a read is the end of the input;
// calls were interrupted too often in a row; a call failed.
#[derive(Clone, Copy, Debug)]
pub enum Stop {
    Nothing,
    Interrupted,
    Failed(io::Error),
}

// How many bytes were moved, how many calls in a row were interrupted last, and what ended the transfer, if anything did.
#[derive(Clone, Copy, Debug)]
pub struct Transfer {
    pub done: usize,
    pub interrupted: usize,
    pub outcome: Result<(), Stop>,
}

impl Transfer {
    fn start() -> Transfer
        ensures { result ≡ start }
    {
        Transfer {
            done: 0,
            interrupted: 0,
            outcome: Ok(()),
        }
    }

    // Whether a call is due: nothing ended the transfer, and of so many bytes some are left.
    fn is_due(&self, n: usize) -> bool
        ensures { result ≡ is_due n self.now }
    {
        self.outcome.is_ok() && self.done < n
    }

    // The transfer behind a call that ended it.
    fn stopped(self, stop: Stop) -> Transfer
        ensures { result ≡ stopped_at self.done (Err stop) }
    {
        Transfer {
            done: self.done,
            interrupted: 0,
            outcome: Err(stop),
        }
    }

    // The transfer behind a call that was interrupted.
    #[tactic(auto, unfolding(crate::specs::Transfer::interrupted_again))]
    fn interrupted_again(self) -> Transfer
        requires { self.interrupted < most_interruptions }
        ensures { result ≡ interrupted_again self.done (self.interrupted + 1) }
    {
        let interrupted = self.interrupted + 1;
        let outcome = if interrupted < MOST_INTERRUPTIONS {
            Ok(())
        } else {
            Err(Stop::Interrupted)
        };
        Transfer {
            done: self.done,
            interrupted,
            outcome,
        }
    }

    // The transfer behind a call, by its answer.
    #[tactic(auto, unfolding(crate::specs::Transfer::after_call, crate::specs::Transfer::after_failure))]
    fn after_call(self, answer: io::Result<usize>) -> Transfer
        requires fits { IfOk answer (λ moved. self.done + moved < 2 ^ 64) }
        requires not_often { self.interrupted < most_interruptions }
        ensures { result ≡ after_call self answer }
    {
        match answer {
            Ok(0) => self.stopped(Stop::Nothing),
            Ok(moved) => Transfer {
                done: self.done + moved,
                interrupted: 0,
                outcome: Ok(()),
            },
            // By the number and not by the kind, which an error of a writer's or a reader's own may have too.
            Err(error) if error.raw_os_error() == Some(EINTR) => self.interrupted_again(),
            Err(error) => self.stopped(Stop::Failed(error)),
        }
    }
}

// No count ends the three loops below: a call moves as much as it likes. They differ in their call. As a closure that is
// passed to one loop it was tried: then nothing says what became of the writer or the reader that it borrows, and its
// bound holds of its own slice alone.

// Writes all bytes of a slice, or those before a call that failed.
pub fn write<W: Write>(out: &mut W, buf: &[u8]) -> Transfer
    ensures ended { Ended (length buf.now) result }
    ensures within { result.done ≤ length buf.now }
    ensures bytes { Appends (W.contents out.old) (W.contents out.new) (take result.done buf.now) }
{
    let mut t = Transfer::start();
    while t.is_due(buf.len()) {
        let answer = out.write(&buf[t.done..]);
        t = t.after_call(answer);
    }
    t
}

// Reads until a slice is full, the input ends or a call fails.
pub fn read<R: Read>(input: &mut R, buf: &mut [u8]) -> Transfer
    ensures ended { Ended (length buf.old) result }
    ensures within { result.done ≤ length buf.new }
    ensures bytes { Consumes (R.remaining input.old) (R.remaining input.new) (take result.done buf.new) }
    ensures end { result.outcome ≡ Err Nothing → IsAtEnd (R.remaining input.new) }
{
    let mut t = Transfer::start();
    while t.is_due(buf.len()) {
        let answer = input.read(&mut buf[t.done..]);
        t = t.after_call(answer);
    }
    t
}

// Reads at most n bytes off, by way of a slice, until the input ends or a call fails.
pub fn skip<R: Read>(input: &mut R, buf: &mut [u8], n: usize) -> Transfer
    ensures ended { Ended n result }
    ensures within { result.done ≤ n }
    ensures bytes { Skips (R.remaining input.old) (R.remaining input.new) result.done }
{
    let mut t = Transfer::start();
    while t.is_due(n) {
        let room = buf.len().min(n - t.done);
        let answer = input.read(&mut buf[..room]);
        t = t.after_call(answer);
    }
    t
}
