// What failed, and why a transfer or a call failed, in plain words. A sentence, or a part of a line, is handed to `write`
// once and whole, and also where what stands before it was not written; `tell` puts a text together, which ends at a write
// that fails.
ghost use Rattle.std.specs.Prelude.{◌≡◌, ◌≤◌, ℕ, List, [], ◌∷◌, length};
ghost use Rattle.std.specs.Io.KnownBytes.{Appends};
ghost use Rattle.transfer.specs.Told.{Says, line_of, told_of, failure_told, line_told};

use crate::{Stop, write};
use std::io::Write;
use std::{fmt, io};

// Room for what std prints of an error: its text, and "(os error N)" behind. The clauses below say the number.
const ROOM: usize = 256;

// A writer that text goes to by way of `write`, which gives up where calls are interrupted too often in a row. A text
// ends at a write that fails.
#[derive(Debug, Drop)]
pub struct Text<'a, W>(pub &'a mut W);

impl<W: Write> fmt::Write for Text<'_, W> {
    ghost write_str_gives = { λ s bytes t. (t.0.ghost_name ≡ s.0.ghost_name)
        × Appends (W.contents s.0.now) (W.contents t.0.now) bytes };

    fn write_str(&mut self, s: &str) -> fmt::Result {
        write(self.0, s.as_bytes()).outcome.map_err(|_| fmt::Error)
    }
}

// What is told of reads or of writes that came to no more: where one moved nothing, where they were interrupted too often in
// a row, and where one failed. The first two are whole lines, and behind the third stands why.
#[derive(Clone, Copy, Debug)]
pub struct Sentences {
    pub nothing: &'static str,
    pub interrupted: &'static str,
    pub failed: &'static str,
}

// How many bytes stand before the last space and opening bracket.
fn end_of_text(printed: &[u8]) -> usize
    ensures { result ≤ length printed.now }
{
    printed
        .iter()
        .rposition(|b| *b == b'(')
        .map_or(0, |at| at.saturating_sub(1))
}

// Puts the text of an error's number, which is 0 where the error is not the system's, and answers its length.
fn put_why(printed: &mut [u8; ROOM], error: &io::Error) -> usize
    ensures { result ≤ 256 }
{
    let number = error.raw_os_error().unwrap_or(0);
    let mut rest = &mut printed[..];
    let _ = write!(rest, "{}", io::Error::from_raw_os_error(number));
    end_of_text(printed)
}

// Writes a line: what failed, a colon and why.
fn write_line<W: Write>(out: &mut W, what: &[u8], why: &[u8])
    ensures { Says (line_of what.now why.now) (W.contents out.old) (W.contents out.new) }
{
    write(out, what);
    write(out, b": ");
    write(out, why);
    write(out, b"\n");
}

// Writes a line: what failed, a colon and the error's text.
pub fn fail<W: Write>(out: &mut W, what: &[u8], error: &io::Error)
    ensures { (why : List ℕ) × (length why ≤ 256)
        × Says (line_of what.now why) (W.contents out.old) (W.contents out.new) }
{
    let mut printed = [0u8; ROOM];
    let n = put_why(&mut printed, error);
    write_line(out, what, &printed[..n]);
}

// Writes why reads or writes came to no more: the sentence for it, and of a failure the error's text.
pub fn tell_sentence<W: Write>(out: &mut W, sentences: Sentences, stop: Stop)
    ensures { (why : List ℕ) × (length why ≤ 256)
        × Says (told_of sentences stop why) (W.contents out.old) (W.contents out.new) }
{
    match stop {
        Stop::Nothing => {
            write(out, sentences.nothing.as_bytes());
        }
        Stop::Interrupted => {
            write(out, sentences.interrupted.as_bytes());
        }
        Stop::Failed(error) => fail(out, sentences.failed.as_bytes(), &error),
    }
}

// Writes a text in four parts, and ends at a write that fails: by std's `write!` nothing would be known of the writer then.
// `tell` drops the answer, since there is nowhere to tell it.
fn write_text<W: Write>(out: &mut W, a: &str, b: &str, c: &str, d: &str) -> Result<(), Stop>
    ensures { Says (a.now ∷ b.now ∷ c.now ∷ d.now ∷ []) (W.contents out.old) (W.contents out.new) }
{
    write(out, a.as_bytes()).outcome?;
    write(out, b.as_bytes()).outcome?;
    write(out, c.as_bytes()).outcome?;
    write(out, d.as_bytes()).outcome
}

// Writes a line of a failure. Why is written also where what stands before it was not.
fn tell_failed<W: Write>(out: &mut W, what: &str, call: &str, why: &[u8])
    ensures { Says (failure_told what.now call.now why.now) (W.contents out.old) (W.contents out.new) }
{
    let _ = write_text(out, what, ", a ", call, " failed");
    write_line(out, b"", why);
}

// Writes a line: what is not done, and why the calls, reads or writes, came to no more. For a caller whose words are not
// `'static`, in several writes.
pub fn tell<W: Write>(out: &mut W, what: &str, call: &str, stop: Stop)
    ensures { (why : List ℕ) × (length why ≤ 256)
        × Says (line_told what.now call.now stop why) (W.contents out.old) (W.contents out.new) }
{
    match stop {
        Stop::Nothing => {
            let _ = write_text(out, what, ", a ", call, " took nothing\n");
        }
        Stop::Interrupted => {
            let _ = write_text(out, what, ", 100 ", call, "s in a row were interrupted\n");
        }
        Stop::Failed(error) => {
            let mut printed = [0u8; ROOM];
            let n = put_why(&mut printed, &error);
            tell_failed(out, what, call, &printed[..n]);
        }
    }
}

#[cfg(test)]
mod tests {
    use super::*;

    // The line that is told with no write failing.
    #[test]
    fn tells_by_which_call(rt: HostRuntime) {
        let failed = Stop::Failed(io::Error::from_raw_os_error(9));
        for (stop, line) in [
            (
                Stop::Nothing,
                "the sheet is not read, a read took nothing\n",
            ),
            (
                Stop::Interrupted,
                "the sheet is not read, 100 reads in a row were interrupted\n",
            ),
            (
                failed,
                "the sheet is not read, a read failed: Bad file descriptor\n",
            ),
        ] {
            let mut out = Vec::new(rt.alloc());
            tell(&mut out, "the sheet is not read", "read", stop);
            assert_eq!(rt; out.as_slice(), line.as_bytes(), "{line}");
        }
    }
}
