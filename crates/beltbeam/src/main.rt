// Reads a belt sheet on standard input and prints, for each beam and each piece of the belt, where they
// meet. A refused sheet prints its number and line, and a sentence on standard error. Where a read fails
// nothing is printed, and where a write fails nothing more: a sentence on standard error says which.
#![tactic(auto)]

ghost use Rattle.std.specs.Prelude.{IfSome};
ghost use Rattle.beltbeam.specs.Beltbeam.{Prints};

use printer::print_sheet;
use std::io::{Read, Write};
use transfer::{Sentences, Stop, tell_sentence};

// So much is read off behind a sheet that is too long, so that whoever writes it into a pipe can finish.
const READ_OFF: usize = 1048576;

// Why a sheet is not read. The first of these is never told: a read that takes nothing is the end of the sheet.
const NOT_READ: Sentences = Sentences {
    nothing: "the sheet is not read, a read took nothing\n",
    interrupted: "the sheet is not read, 100 reads in a row were interrupted\n",
    failed: "the sheet is not read, a read failed",
};

// One byte more than a sheet may have tells that it is too long: then the bytes are all full, and the end of
// the input has not come.
fn run<R: Read, W: Write, E: Write>(input: &mut R, out: &mut W, err: &mut E)
    ensures { IfSome (R.remaining input.old) (λ sheet. Prints sheet (W.contents out.old) (W.contents out.new)) }
{
    let mut bytes = [0u8; 65537];
    let t = transfer::read(input, &mut bytes);
    let n = t.done;
    match t.outcome {
        Ok(()) => {
            print_sheet(out, err, &bytes[..n]);
            transfer::skip(input, &mut bytes, READ_OFF);
        }
        Err(Stop::Nothing) => {
            print_sheet(out, err, &bytes[..n]);
        }
        Err(stop) => tell_sentence(err, NOT_READ, stop),
    }
}

fn main(rt: HostRuntime) {
    run(&mut rt.stdin(), &mut rt.stdout(), &mut rt.stderr());
}
