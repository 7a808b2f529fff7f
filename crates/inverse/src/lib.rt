// The inverse of a 4x4 matrix, sixteen floats row by row: Gauss-Jordan elimination with full pivoting, operation by
// operation as Matrix4x4::inverse of pbrt-rust (src/core/transform.rs). A singular matrix is inverted onward, to infinities
// and NaNs.
#![tactic(auto)]

ghost use Rattle.std.specs.Prelude.{◌≡◌, ◌≢◌, ◌<◌, ◌+◌, ◌*◌, EachIndex, slice_index_or, if◌then◌else◌};
ghost use Rattle.std.specs.Float.{nan};
ghost use Rattle.pivot.specs.Pivot.{pivot_of};
ghost use Rattle.inverse.specs.Inverse.{entry_at, swap_at, swap_rows, swap_columns, but_at, scale_row, cleared, reduced, turned, inverse_flat};

use pivot::{Line, Marks, Pivot, find_pivot};

// For lines that are rows, and for columns.
const ROWS: bool = true;

const COLUMNS: bool = false;

// Where entry k of a line stands.
fn entry_at<const ARE_ROWS: bool>(line: Line, k: usize) -> usize
    requires { k < 4 }
    ensures value { result ≡ entry_at ARE_ROWS line k }
    ensures bound { result < 16 }
{
    if ARE_ROWS {
        4 * line.at() + k
    } else {
        4 * k + line.at()
    }
}

// By hand, since the library's `swap` asks which place comes first: that takes 2 % of a beam thrown out.
#[tactic(auto, unfolding(crate::specs::Inverse::swap_at))]
fn swap_at(m: &mut [f32; 16], i: usize, j: usize)
    requires { (i < 16) × (j < 16) }
    ensures { m.new ≡ swap_at m.old i j }
{
    let x = m[i];
    m[i] = m[j];
    m[j] = x;
}

// Exchanges the rows of a pivot's two numbers, or the columns.
fn swap_lines<const ARE_ROWS: bool>(m: &mut [f32; 16], p: &Pivot)
    ensures { m.new ≡ (if ARE_ROWS then swap_rows m.old p.now.row p.now.col else swap_columns m.old p.now.row p.now.col) }
{
    let i = p.row;
    let j = p.col;
    if i == j {
        return;
    }
    for k in 0..4 {
        swap_at(m, entry_at::<ARE_ROWS>(i, k), entry_at::<ARE_ROWS>(j, k));
    }
}

// A row, but x in a column. What changes a row reads it whole before it writes any of it: a write of one entry right
// before the row is read costs more than all the arithmetic.
#[tactic(auto, unfolding(crate::specs::Inverse::but_at))]
fn row_with(m: &[f32; 16], row: Line, col: Line, x: f32) -> [f32; 4]
    ensures { EachIndex result (λ k. slice_index_or result k nan ≡ but_at (slice_index_or m.now (4 * row + k) nan) k col x) }
{
    let mut entries = [0.0f32; 4];
    for k in 0..4 {
        entries[k] = if k == col.at() {
            x
        } else {
            m[4 * row.at() + k]
        };
    }
    entries
}

// The pivot's row, divided by the pivot.
fn scale_row(m: &mut [f32; 16], col: Line)
    ensures { m.new ≡ scale_row m.old col }
{
    let c = col.at();
    let v = 1.0 / m[4 * c + c];
    let row = row_with(m, col, col, 1.0);
    for k in 0..4 {
        m[4 * c + k] = row[k] * v;
    }
}

// Row j less the pivot's row times what row j has in the pivot's column.
fn clear(m: &mut [f32; 16], col: Line, j: Line)
    requires { j ≢ col }
    ensures { m.new ≡ cleared m.old col j }
{
    let c = col.at();
    let r = 4 * j.at();
    let save = m[r + c];
    let row = row_with(m, j, col, 0.0);
    for k in 0..4 {
        m[r + k] = row[k] - m[4 * c + k] * save;
    }
}

// The pivot's row divided by the pivot, and taken from the others.
fn reduce(m: &mut [f32; 16], col: Line)
    ensures { m.new ≡ reduced m.old col }
{
    scale_row(m, col);
    for j in 0..4 {
        if j != col.at() {
            clear(m, col, Line::new(j));
        }
    }
}

// A call for each column: in each every index is a constant, and no test of the column is left. An inverse takes 928
// instructions so, and 1,080 where `reduce` is given the pivot's column.
fn reduce_by_column(m: &mut [f32; 16], col: Line)
    ensures { m.new ≡ reduced m.old col }
{
    match col.at() {
        0 => reduce(m, Line::new(0)),
        1 => reduce(m, Line::new(1)),
        2 => reduce(m, Line::new(2)),
        _ => reduce(m, Line::new(3)),
    }
}

// What a turn of the outer loop does with its pivot.
#[tactic(auto, unfolding(crate::specs::Inverse::turned))]
fn turn_about(m: &mut [f32; 16], p: &Pivot)
    ensures { m.new ≡ turned m.old p.now }
{
    swap_lines::<ROWS>(m, p);
    reduce_by_column(m, p.col);
}

// A turn of the outer loop: its indxr and indxc.
fn turn<const TURN: usize>(m: &mut [f32; 16], ipiv: &Marks<TURN>) -> Pivot
    ensures pivot { result ≡ pivot_of m.old ipiv.now }
    ensures left { m.new ≡ turned m.old result }
{
    let p = find_pivot(m, ipiv);
    turn_about(m, &p);
    p
}

// The inverse of what is lent, in its place.
pub fn invert(v: &mut [f32; 16])
    ensures { v.new ≡ inverse_flat v.old }
{
    let first = turn(v, &Marks::none());
    let mut ipiv = Marks::after(first.col);
    let mut pivots = [first; 4];
    for k in 1..4 {
        let p = turn(v, &ipiv);
        ipiv.take(p.col);
        pivots[k] = p;
    }
    for p in pivots.iter().rev() {
        swap_lines::<COLUMNS>(v, p);
    }
}
