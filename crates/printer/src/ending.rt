// How a line of a sheet ends.
use std::fmt;

// What is wrong with a line's end.
#[derive(Clone, Copy, Debug, PartialEq, Eq)]
pub enum WrongEnding {
    CrLf,
    NoLf,
}

// What is said of it in front of what the line should be, as one text.
impl fmt::Display for WrongEnding {
    fn fmt<W: fmt::Write>(&self, f: &mut fmt::Formatter<W>) -> fmt::Result {
        f.write_str(match self {
            WrongEnding::CrLf => "it ends in CR LF, and a line ends in LF alone; ",
            WrongEnding::NoLf => "the last line has no LF at its end; ",
        })
    }
}

// What is wrong with the end of a line, by its number from 1. Of a line that is not there nothing is.
pub fn wrong_ending_of(sheet: &[u8], line: usize) -> Option<WrongEnding> {
    let mut lines = sheet.split_inclusive(|b| *b == b'\n');
    match lines.nth(line.saturating_sub(1))? {
        [.., b'\r', b'\n'] => Some(WrongEnding::CrLf),
        [.., b'\n'] => None,
        _ => Some(WrongEnding::NoLf),
    }
}
