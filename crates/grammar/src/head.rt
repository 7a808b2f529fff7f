// A sheet's head: seven lines in a fixed order.
ghost use Rattle.std.specs.Prelude.{◌≡◌, ◌<◌, IfOk, IfErr};
ghost use Rattle.grammar.specs.Head.{lines_before, field_at, head_of};

use crate::reader::{Field, Kind, Line, Reader};

/// What the lines say, widths as their bits, and the place behind them.
// Numbers, as create_curve_shape is given them, which tells those that it refuses.
#[derive(Clone, Copy, Debug, PartialEq, Eq, Default)]
pub struct Head {
    pub degree: u32,
    pub basis: u32,
    pub ty: u32,
    pub width0: u32,
    pub width1: u32,
    pub splitdepth: u32,
    pub reverse: u32,
    pub end: usize,
}

/// Where a wrong line starts, how many right lines stand before it, and what they say, the rest 0.
#[derive(Clone, Copy, Debug, PartialEq, Eq)]
pub struct WrongLine {
    pub at: usize,
    pub lines: usize,
    pub read: Head,
}

// A line behind those that stand before it, which are right. What they say goes with one that is wrong.
#[tactic(auto, unfolding(crate::specs::Head::field_at))]
fn take_field(reader: &mut Reader<'_>, field: Field, head: Head) -> Result<Line, WrongLine>
    ensures value { result ≡ field_at reader.old.src.now field (record head { end = reader.old.at }) reader.old.at }
    ensures src { reader.new.src.now ≡ reader.old.src.now }
    ensures next { IfOk result (λ line. reader.new.at ≡ line.next) }
    ensures lines { IfErr result (λ wrong. wrong.lines ≡ lines_before field) }
{
    let at = reader.at;
    let lines = field as usize;
    let read = Head { end: at, ..head };
    reader
        .take(Kind::Field(field))
        .ok_or(WrongLine { at, lines, read })
}

/// Reads the head of a sheet.
#[tactic(auto, unfolding(crate::specs::Head::head_of))]
pub fn read_head(s: &[u8]) -> Result<Head, WrongLine>
    ensures value { result ≡ head_of s.now }
    ensures few { IfErr result (λ wrong. wrong.lines < 7) }
{
    let mut reader = Reader { src: s, at: 0 };
    let mut head = Head::default();
    head.degree = take_field(&mut reader, Field::Degree, head)?.value;
    head.basis = take_field(&mut reader, Field::Basis, head)?.value;
    head.ty = take_field(&mut reader, Field::Type, head)?.value;
    head.width0 = take_field(&mut reader, Field::Width0, head)?.value;
    head.width1 = take_field(&mut reader, Field::Width1, head)?.value;
    head.splitdepth = take_field(&mut reader, Field::SplitDepth, head)?.value;
    head.reverse = take_field(&mut reader, Field::Reverse, head)?.value;
    head.end = reader.at;
    Ok(head)
}
