// The report of a sheet, written block by block. The first write that fails is the last.
ghost use Rattle.std.specs.Prelude.{◌≡◌, ◌+◌, ◌-◌, ◌<◌, ◌≤◌, ◌^◌, length, take};
ghost use Rattle.std.specs.Io.KnownBytes.{Appends};
ghost use Rattle.blocks.specs.Lines.{Sound};
ghost use Rattle.blocks.specs.Blocks.{rest_of};
ghost use Rattle.blocks.specs.Report.{report_of};
ghost use Rattle.printer.specs.Printed.{goes_on, Follows, Writes};

use crate::explain::{explain, tell_cut};
use blocks::{ROOM, Rest};
use std::io::Write;
use transfer::Stop;

// How many bytes of a report were written, and what ended it before its end, if anything did.
#[derive(Clone, Copy, Debug)]
pub struct Printed {
    pub bytes: usize,
    pub outcome: Result<(), Stop>,
}

// Whether there is more to write, and no write failed.
fn goes_on(printed: Printed, left: Rest) -> bool
    ensures { result ≡ goes_on printed left }
{
    printed.outcome.is_ok() && !left.is_done()
}

// The one place where the report is written.
fn write_block<W: Write>(out: &mut W, printed: Printed, block: &[u8]) -> Printed
    requires { printed.bytes + length block.now < 2 ^ 64 }
    ensures follows { Follows printed block.now result }
    ensures more { printed.bytes ≤ result.bytes }
    ensures bytes { Appends (W.contents out.old) (W.contents out.new) (take (result.bytes - printed.bytes) block.now) }
{
    let t = transfer::write(out, block);
    Printed {
        bytes: printed.bytes + t.done,
        outcome: t.outcome,
    }
}

// What is left of a report, by way of a buffer that is lent. No count ends the loop: a block has as many lines as fit.
fn write_report<W: Write>(out: &mut W, buf: &mut [u8], list: &[f32; ROOM], rest: Rest) -> Printed
    requires { Sound rest × (length buf.old ≡ 65536) }
    ensures writes { Writes (rest_of list.now rest) result }
    ensures bytes { Appends (W.contents out.old) (W.contents out.new) (take result.bytes (rest_of list.now rest)) }
{
    let mut left = rest;
    let mut printed = Printed {
        bytes: 0,
        outcome: Ok(()),
    };
    while goes_on(printed, left) {
        let block = left.put_block(buf, list);
        printed = write_block(out, printed, &buf[..block.end]);
        left = block.rest;
    }
    printed
}

// Prints the report of a sheet's bytes, and says on the other writer what is amiss.
pub fn print_sheet<W: Write, E: Write>(out: &mut W, err: &mut E, bytes: &[u8]) -> Printed
    ensures writes { Writes (report_of bytes.now) result }
    ensures bytes { Appends (W.contents out.old) (W.contents out.new) (take result.bytes (report_of bytes.now)) }
{
    let mut list = [0.0f32; ROOM];
    let mut buf = [0u8; 65536];
    let rest = blocks::open(bytes, &mut list);
    let printed = write_report(out, &mut buf, &list, rest);
    tell_cut(err, printed);
    explain(err, rest.refusal(), bytes);
    printed
}
