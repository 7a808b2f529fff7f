// A reader over a sheet that is lent: it takes a line, and stands behind it.
ghost use Rattle.std.specs.Prelude.{◌≡◌, ◌+◌, ◌*◌, ◌^◌, ◌<◌, ◌≤◌, ◌&&◌, length, max, IsTrue, IfSome};
ghost use Rattle.limits.specs.List.{over};
ghost use Rattle.grammar.specs.Grammar.{decimal_digit_at, decimal_at, word_line_at, decimal_line, word_line, either_line, type_line, float_size, separator, is_floats, float_at, floats_at, row_size, row_key, row_floats, row_line, field_line, line_at, rows_from, floats_from};
ghost use Rattle.grammar.specs.Reader.{reader_behind, reader_after};
ghost use Rattle.text.specs.Bytes.{byte_is, is_word};

use geometry::{POINT_FLOATS, RAY_FLOATS};
use text::{digit_at, is_byte, stands_at, word_at};

// A float's digits, and what stands behind them.
const FLOAT_SIZE: usize = 9;

/// The rows: a key, floats with commas between, and LF.
#[derive(Clone, Copy, Debug, PartialEq, Eq)]
pub enum Row {
    Point,
    Beam,
}

impl Row {
    #[tactic(auto, unfolding(text::specs::Ascii::ascii))]
    fn key(self) -> &'static [u8]
        ensures value { result.now ≡ row_key self }
        ensures some { 0 < length result.now }
    {
        match self {
            Row::Point => b"point=",
            Row::Beam => b"beam=",
        }
    }

    fn floats(self) -> usize
        ensures value { result ≡ row_floats self }
        ensures few { result ≤ 8 }
        ensures some { 0 < result }
    {
        match self {
            Row::Point => POINT_FLOATS,
            Row::Beam => RAY_FLOATS,
        }
    }
}

/// The lines of the head. The number of each is how many lines stand before it.
// `Field`, `Kind` and `Line` are `pub` for the proofs of the crate above, which name them; no code outside does.
#[derive(Clone, Copy, Debug, PartialEq, Eq)]
pub enum Field {
    Degree = 0,
    Basis = 1,
    Type = 2,
    Width0 = 3,
    Width1 = 4,
    SplitDepth = 5,
    Reverse = 6,
}

/// The kinds of lines.
#[derive(Clone, Copy, Debug, PartialEq, Eq)]
pub enum Kind {
    Field(Field),
    Row(Row),
}

/// A line that is right: its value, and the place behind its LF. A row's value is how many floats it has.
#[derive(Clone, Copy, Debug, PartialEq, Eq)]
pub struct Line {
    pub value: u32,
    pub next: usize,
}

/// The sheet that is lent, and the place where its next line starts.
// Not the rest of the sheet from there: places in the whole are what a wrong line tells and what the contracts speak of.
#[derive(Clone, Copy, Debug, PartialEq, Eq)]
pub struct Reader<'a> {
    pub src: &'a [u8],
    pub at: usize,
}

#[tactic(auto, unfolding(crate::specs::Grammar::decimal_digit_at))]
fn decimal_digit(s: &[u8], i: usize) -> Option<u32>
    ensures value { result ≡ decimal_digit_at s.now i }
    ensures small { IfSome result (λ d. d < 10) }
    ensures within { IfSome result (λ _. i < length s.now) }
{
    digit_at(s, i).filter(|d| *d < 10)
}

// What stands behind float i of n.
#[tactic(auto, unfolding(crate::specs::Grammar::separator))]
fn separator(n: usize, i: usize) -> u8
    requires { i < n }
    ensures { result ≡ separator n i }
{
    if i + 1 == n { b'\n' } else { b',' }
}

// Whether a float stands at a place, with a byte behind it.
#[tactic(auto, unfolding(text::specs::Bytes::is_word))]
fn is_float(s: &[u8], at: usize, behind: u8) -> bool
    ensures value { result ≡ (is_word s.now at && byte_is s.now (at + 8) behind) }
    ensures within { IsTrue result → at + float_size ≤ length s.now }
{
    word_at(s, at).is_some() && is_byte(s, at + 8, behind)
}

// Puts the floats whose digits start at a place.
fn put_floats(s: &[u8], at: usize, out: &mut [f32])
    requires { at + length out.old * float_size < 2 ^ 64 }
    ensures { out.new ≡ floats_at s.now at (length out.old) }
{
    for (i, x) in out.iter_mut().enumerate() {
        *x = float::of_bits(word_at(s, at + i * FLOAT_SIZE).unwrap_or(0));
    }
}

impl<'a> Reader<'a> {
    // The reader behind a word that stands here.
    #[tactic(auto, unfolding(crate::specs::Reader::reader_behind))]
    fn behind(self, word: &[u8]) -> Option<Reader<'a>>
        ensures value { result ≡ reader_behind self.entry word.now }
        ensures within { 0 < length word.now → IfSome result (λ r. r.at ≤ length self.entry.src.now) }
    {
        if stands_at(self.src, self.at, word) {
            Some(Reader {
                at: self.at + word.len(),
                ..self
            })
        } else {
            None
        }
    }

    // One or two decimal digits and LF.
    #[tactic(auto, unfolding(crate::specs::Grammar::decimal_at))]
    fn decimal(self) -> Option<Line>
        ensures { result ≡ decimal_at self.entry.src.now self.entry.at }
    {
        let a = decimal_digit(self.src, self.at)?;
        if is_byte(self.src, self.at + 1, b'\n') {
            return Some(Line {
                value: a,
                next: self.at + 2,
            });
        }
        let b = decimal_digit(self.src, self.at + 1)?;
        if is_byte(self.src, self.at + 2, b'\n') {
            Some(Line {
                value: a * 10 + b,
                next: self.at + 3,
            })
        } else {
            None
        }
    }

    // Eight hexadecimal digits and LF.
    #[tactic(auto, unfolding(crate::specs::Grammar::word_line_at))]
    fn word(self) -> Option<Line>
        ensures { result ≡ word_line_at self.entry.src.now self.entry.at }
    {
        let value = word_at(self.src, self.at)?;
        if is_byte(self.src, self.at + 8, b'\n') {
            Some(Line {
                value,
                next: self.at + 9,
            })
        } else {
            None
        }
    }

    // A key, a decimal number and LF.
    #[tactic(auto, unfolding(crate::specs::Grammar::decimal_line, crate::specs::Reader::reader_behind))]
    fn decimal_line(self, key: &[u8]) -> Option<Line>
        ensures { result ≡ decimal_line self.entry.src.now self.entry.at key.now }
    {
        self.behind(key)?.decimal()
    }

    // A key, eight hexadecimal digits and LF.
    #[tactic(auto, unfolding(crate::specs::Grammar::word_line, crate::specs::Reader::reader_behind))]
    fn word_line(self, key: &[u8]) -> Option<Line>
        ensures { result ≡ word_line self.entry.src.now self.entry.at key.now }
    {
        self.behind(key)?.word()
    }

    // One of two whole lines, which stand for 0 and 1.
    #[tactic(auto, unfolding(crate::specs::Grammar::either_line, crate::specs::Reader::reader_behind))]
    fn either_line(self, first: &[u8], second: &[u8]) -> Option<Line>
        ensures { result ≡ either_line self.entry.src.now self.entry.at first.now second.now }
    {
        if let Some(next) = self.behind(first) {
            return Some(Line {
                value: 0,
                next: next.at,
            });
        }
        let next = self.behind(second)?;
        Some(Line {
            value: 1,
            next: next.at,
        })
    }

    #[tactic(auto, unfolding(text::specs::Ascii::ascii, crate::specs::Grammar::type_line, crate::specs::Reader::reader_behind))]
    fn type_line(self) -> Option<Line>
        ensures { result ≡ type_line self.entry.src.now self.entry.at }
    {
        if let Some(next) = self.behind(b"type=cylinder\n") {
            return Some(Line {
                value: 2,
                next: next.at,
            });
        }
        self.either_line(b"type=flat\n", b"type=ribbon\n")
    }

    // Whether n floats stand here, each with what stands behind it.
    fn are_floats(self, n: usize) -> bool
        requires { self.at + n * float_size < 2 ^ 64 }
        ensures { result ≡ is_floats self.entry.src.now self.entry.at n }
    {
        (0..n).all(|i| is_float(self.src, self.at + i * FLOAT_SIZE, separator(n, i)))
    }

    #[tactic(auto, unfolding(crate::specs::Grammar::row_line, crate::specs::Grammar::row_at, crate::specs::Grammar::is_row, crate::specs::Grammar::row_size, crate::specs::Reader::reader_behind))]
    fn row_line(self, row: Row) -> Option<Line>
        ensures { result ≡ row_line self.entry.src.now row self.entry.at }
    {
        let floats = self.behind(row.key())?;
        let n = row.floats();
        if floats.are_floats(n) {
            Some(Line {
                value: n as u32,
                next: floats.at + n * FLOAT_SIZE,
            })
        } else {
            None
        }
    }

    // A match, since each has its own form.
    #[tactic(auto, unfolding(text::specs::Ascii::ascii))]
    fn field_line(self, field: Field) -> Option<Line>
        ensures { result ≡ field_line self.entry.src.now field self.entry.at }
    {
        match field {
            Field::Degree => self.decimal_line(b"degree="),
            Field::Basis => self.either_line(b"basis=bezier\n", b"basis=bspline\n"),
            Field::Type => self.type_line(),
            Field::Width0 => self.word_line(b"width0="),
            Field::Width1 => self.word_line(b"width1="),
            Field::SplitDepth => self.decimal_line(b"splitdepth="),
            Field::Reverse => self.either_line(b"reverse=0\n", b"reverse=1\n"),
        }
    }

    // The line of a kind that starts here.
    fn line(self, kind: Kind) -> Option<Line>
        ensures { result ≡ line_at self.entry.src.now kind self.entry.at }
    {
        match kind {
            Kind::Field(field) => self.field_line(field),
            Kind::Row(row) => self.row_line(row),
        }
    }

    // Takes the line of a kind, and then stands behind it; before a wrong one it stays.
    pub(crate) fn take(&mut self, kind: Kind) -> Option<Line>
        ensures value { result ≡ line_at self.old.src.now kind self.old.at }
        ensures reader { self.new ≡ reader_after self.old result }
    {
        let line = self.line(kind)?;
        self.at = line.next;
        Some(line)
    }

    /// Takes the rows of a kind that follow each other, at most so many, puts their floats, and answers how many there are.
    pub fn read_rows(&mut self, row: Row, most: usize, out: &mut [f32]) -> usize
        requires { most * row_floats row ≤ length out.old }
        ensures value { result ≡ rows_from self.old.src.now self.old.at (row_key row) (row_floats row) most }
        ensures most { result ≤ most }
        ensures reader { self.new
            ≡ record self.old { at = self.old.at + result * row_size (row_key row) (row_floats row) } }
        ensures out_after { out.new
            ≡ over out.old 0 (floats_from self.old.src.now self.old.at (row_key row) (row_floats row) result) }
    {
        let n = row.floats();
        // By ranges: of the parts that `chunks_exact_mut` lends a proof knows how long they are, and not what was put into
        // them.
        for j in 0..most {
            let Some(line) = self.take(Kind::Row(row)) else {
                return j;
            };
            put_floats(
                self.src,
                line.next - n * FLOAT_SIZE,
                &mut out[j * n..j * n + n],
            );
        }
        most
    }
}
