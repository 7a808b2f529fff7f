// All that is printed of a sheet: its report, by lines that are numbered from 0, in blocks of whole lines that are put
// into a buffer that is lent. Whoever writes the blocks, one behind the other, has written the report.
#![tactic(auto)]

ghost use Rattle.std.specs.Prelude.{◌≡◌, ◌≤◌, ◌<◌, eqb, length};
ghost use Rattle.std.specs.Result.{result_err};
ghost use Rattle.text.specs.Put.{Puts};
ghost use Rattle.create.specs.Create.{most_curves};
ghost use Rattle.sheet.specs.Sheet.{most_rays};
ghost use Rattle.report.specs.Printed.{longest};
ghost use Rattle.blocks.specs.Report.{met_text, report_in};
ghost use Rattle.blocks.specs.Lines.{line_count, line_text, Sound};
ghost use Rattle.blocks.specs.Blocks.{lines_left, rest_of, IsBlock};

use create::MOST_CURVES;
use curve::FLOATS;
use geometry::{RAY_FLOATS, ray_from};
use matrix::Matrix4x4;
use report::{LONGEST, Place, put_answer, put_pieces, put_refused_sheet};
use sheet::{Sheet, SheetRefusal};
use std::marker::Model;
use text::Buffer;

/// The floats of the most curves.
pub const ROOM: usize = MOST_CURVES * FLOATS;

/// What is left of a sheet's report: what was read of the sheet, but for its curves, and the line that is next. The sheet's
/// numbers are small, and of a report that is printed whole the line behind the last is next (`Sound`).
#[derive(Clone, Copy, Debug, PartialEq)]
pub struct Rest {
    sheet: Result<Sheet, SheetRefusal>,
    next: usize,
}

impl Model for Rest {
    ghost use Rattle.blocks.specs.Lines.{Left, Sound};

    ghost Value = { Left };

    ghost view = { λ r. record { sheet = r.sheet; next = r.next } };

    ghost invariant = { λ r. Sound (record { sheet = r.sheet; next = r.next }) };

    ghost inverse = { λ left. record { sheet = left.sheet; next = left.next } };
}

/// The place behind a block's bytes, and what is left behind it.
#[derive(Clone, Copy, Debug, PartialEq)]
pub struct Block {
    pub end: usize,
    pub rest: Rest,
}

// A ray of the sheet against a curve of the list.
fn put_met(out: &mut Buffer<'_>, list: &[f32; ROOM], sheet: &Sheet, place: Place)
    requires { (place.ray < most_rays) × (place.piece < most_curves) }
    ensures { Puts out.old out.new (met_text sheet.now.rays list.now sheet.now.reverse place.ray place.piece) }
{
    let identity = Matrix4x4::default();
    let from = place.piece as usize * FLOATS;
    let met = intersect::intersect(
        &list[from..from + FLOATS],
        identity,
        identity,
        sheet.reverse,
        ray_from(&sheet.rays, place.ray as usize * RAY_FLOATS),
    );
    put_answer(out, place, met);
}

impl Rest {
    /// The rest from a line on, of what was read of a sheet.
    pub fn new(sheet: Result<Sheet, SheetRefusal>, next: usize) -> Rest
        requires { Sound (record { sheet = sheet; next = next }) }
        ensures { result ≡ record { sheet = sheet; next = next } }
    {
        Rest { sheet, next }
    }

    /// What was read of the sheet.
    pub fn sheet(&self) -> &Result<Sheet, SheetRefusal>
        ensures { result.now ≡ self.now.sheet }
    {
        &self.sheet
    }

    /// The line that is next, by its number from 0.
    pub fn next(&self) -> usize
        ensures { result ≡ self.now.next }
    {
        self.next
    }

    // How many lines the report has.
    fn line_count(&self) -> usize
        ensures value { result ≡ line_count self.now.sheet }
        ensures few { result ≤ 65537 }
    {
        match &self.sheet {
            Ok(sheet) => 1 + sheet.ray_count * sheet.pieces as usize,
            Err(_) => 1,
        }
    }

    // A line, by its number. That number and that of a wrong line fit in 32 bits; `From` does not narrow, so `as` does.
    fn put_line(&self, out: &mut Buffer<'_>, list: &[f32; ROOM], line: usize)
        requires { line < line_count self.now.sheet }
        ensures { Puts out.old out.new (line_text list.now self.now.sheet line) }
    {
        match &self.sheet {
            Ok(sheet) => {
                if line == 0 {
                    put_pieces(out, sheet.pieces);
                } else {
                    let k = (line - 1) as u32;
                    let place = Place {
                        ray: k / sheet.pieces,
                        piece: k % sheet.pieces,
                    };
                    put_met(out, list, sheet, place);
                }
            }
            Err(refused) => put_refused_sheet(out, refused.refusal.number(), refused.line as u32),
        }
    }

    /// Why the sheet is refused, if it is.
    pub fn refusal(&self) -> Option<SheetRefusal>
        ensures { result ≡ result_err self.now.sheet }
    {
        self.sheet.err()
    }

    /// Whether nothing is left.
    #[tactic(auto, unfolding(crate::specs::Blocks::lines_left))]
    pub fn is_done(&self) -> bool
        ensures { result ≡ eqb (lines_left self.now) 0 }
    {
        self.line_count() - self.next == 0
    }

    // The next lines, as long as there is room for the longest, and what is left behind them.
    fn put_lines(&self, buffer: &mut Buffer<'_>, list: &[f32; ROOM]) -> Rest
        requires { buffer.old.end ≡ 0 }
        ensures same_buffer { buffer.new.bytes.ghost_name ≡ buffer.old.bytes.ghost_name }
        ensures block { IsBlock list.now self.now buffer.old.bytes.now buffer.new.bytes.now
            (record { end = buffer.new.end; rest = result }) }
        ensures rest_bound { 0 < lines_left self.now → longest ≤ length buffer.old.bytes.now
            → lines_left result < lines_left self.now }
    {
        let count = self.line_count();
        for line in self.next..count {
            if buffer.room() < LONGEST {
                return Rest {
                    sheet: self.sheet,
                    next: line,
                };
            }
            self.put_line(buffer, list, line);
        }
        Rest {
            sheet: self.sheet,
            next: count,
        }
    }

    /// Puts the next lines into the buffer: one at least, where there is room for the longest.
    pub fn put_block(&self, out: &mut [u8], list: &[f32; ROOM]) -> Block
        ensures block { IsBlock list.now self.now out.old out.new result }
        ensures rest_bound { 0 < lines_left self.now → longest ≤ length out.old
            → lines_left result.rest < lines_left self.now }
    {
        let mut buffer = Buffer::new(out);
        let rest = self.put_lines(&mut buffer, list);
        Block {
            end: buffer.end,
            rest,
        }
    }
}

/// Reads a sheet, its curves into the list, and stands before the first line of its report.
pub fn open(bytes: &[u8], list: &mut [f32; ROOM]) -> Rest
    ensures sound { Sound result }
    ensures result_after { rest_of list.new result ≡ report_in bytes.now list.old }
{
    let sheet = sheet::read_sheet(bytes, list);
    Rest { sheet, next: 0 }
}
