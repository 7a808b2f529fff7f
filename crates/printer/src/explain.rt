// Plain sentences on standard error: why a sheet is refused, and that a report is not whole. What follows a write that
// failed is written all the same. `line 12: ` and `40 bytes of it are written` go to the writer itself: std's `write!` puts
// the number's text, and tries an interrupted write again for ever. The others go by `Text`, which gives up: each is one
// text, and so one write.
use crate::ending::wrong_ending_of;
use crate::print::Printed;
use limits::Refusal;
use sheet::SheetRefusal;
use std::fmt::Write as _;
use std::io::Write;
use transfer::{Sentences, Text, tell_sentence};

// What stands on a line of a sheet, by its number: a refusal tells no more of a line.
fn expected_on(line: usize) -> &'static str {
    match line {
        1 => "expected degree= and one or two decimal digits\n",
        2 => "expected basis=bezier or bspline\n",
        3 => "expected type=flat, ribbon or cylinder\n",
        4 => "expected width0= and eight hexadecimal digits\n",
        5 => "expected width1= and eight hexadecimal digits\n",
        6 => "expected splitdepth= and one or two decimal digits\n",
        7 => "expected reverse=0 or 1\n",
        8 => "expected point= and three floats of eight hexadecimal digits\n",
        _ => "expected a point, one of at most 64 beams, or the end\n",
    }
}

fn say_wrong_line<E: Write>(err: &mut E, line: usize, sheet: &[u8]) {
    let _ = write!(err, "line {line}: ");
    if let Some(ending) = wrong_ending_of(sheet, line) {
        let _ = write!(Text(err), "{ending}");
    }
    let _ = Text(err).write_str(expected_on(line));
}

// Which limit a refused sheet breaks, in the program's words. They stay, and those that `Refusal` displays are others.
fn limit_of(refusal: Refusal) -> &'static str {
    match refusal {
        Refusal::Degree => "the degree is not 2 or 3\n",
        Refusal::PointCount => "the points do not make whole segments\n",
        Refusal::Type => "only the type flat can be laid\n",
        Refusal::SplitDepth => "the split depth is over 10\n",
        Refusal::TooMany => "there are over 256 points or over 1,024 pieces\n",
        Refusal::PointsOrWidths => "a coordinate or a width is off limits\n",
        Refusal::SheetTooLong => "the sheet has over 65,536 bytes\n",
        Refusal::EqualNeighbours => "two neighbouring points are equal\n",
        _ => "the sheet is refused\n",
    }
}

// Says why a sheet is refused, if it is.
pub fn explain<E: Write>(err: &mut E, refused: Option<SheetRefusal>, sheet: &[u8]) {
    match refused {
        Some(refused) if refused.refusal == Refusal::WrongLine => {
            say_wrong_line(err, refused.line, sheet);
        }
        Some(refused) => {
            let _ = Text(err).write_str(limit_of(refused.refusal));
        }
        None => {}
    }
}

// Why a report is cut short.
const CUT_SHORT: Sentences = Sentences {
    nothing: "the report is cut short, a write took nothing\n",
    interrupted: "the report is cut short, 100 writes in a row were interrupted\n",
    failed: "the report is cut short, a write failed",
};

// Says that a report is cut short, where and why.
pub fn tell_cut<E: Write>(err: &mut E, printed: Printed) {
    if let Err(stop) = printed.outcome {
        tell_sentence(err, CUT_SHORT, stop);
        let _ = writeln!(err, "{} bytes of it are written", printed.bytes);
    }
}
