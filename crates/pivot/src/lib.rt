// The pivot of a turn of Matrix4x4::inverse of pbrt-rust (src/core/transform.rs), in a matrix of sixteen floats row by row: its
// largest entry in a row and a column that are not taken, by the marks of ipiv. A NaN is never taken for it, and the later
// of two equal entries is.
#![tactic(auto)]

ghost use Rattle.std.specs.Prelude.{◌≡◌};
ghost use Rattle.pivot.specs.Pivot.{look_entry, look_along, pivot_of};

mod line;
mod marks;

pub use line::Line;
pub use marks::{FIRST, LATER, Marks};

// The pivot found so far: big, irow and icol.
#[derive(Clone, Copy, Debug, PartialEq)]
pub struct Pivot {
    pub big: f32,
    pub row: Line,
    pub col: Line,
}

// The entry x, which is not taken, after the best so far. A NaN is told apart first: nothing that follows
// has to reckon with one.
fn look(best: Pivot, row: Line, col: Line, x: f32) -> Pivot
    ensures { result ≡ look_entry best 0 row col x }
{
    if x.is_nan() {
        return best;
    }
    let big = float::abs(x);
    if big >= best.big {
        return Pivot { big, row, col };
    }
    best
}

// A row's entries after the best so far.
fn look_along<const TURN: usize>(p: Pivot, m: &[f32; 16], ipiv: &Marks<TURN>, row: Line) -> Pivot
    ensures { result ≡ look_along p m.now ipiv.now row }
{
    let mut best = p;
    for k in 0..4 {
        let col = Line::new(k);
        if ipiv.mark(col) == 0 {
            best = look(best, row, col, m[4 * row.at() + k]);
        }
    }
    best
}

// The pivot of a turn.
pub fn find_pivot<const TURN: usize>(m: &[f32; 16], ipiv: &Marks<TURN>) -> Pivot
    ensures { result ≡ pivot_of m.now ipiv.now }
{
    let mut best = Pivot {
        big: 0.0,
        row: Line::new(0),
        col: Line::new(0),
    };
    for j in 0..4 {
        let row = Line::new(j);
        if ipiv.mark(row) != 1 {
            best = look_along(best, m, ipiv, row);
        }
    }
    best
}
