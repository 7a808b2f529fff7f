// How often each column was taken.
ghost use Rattle.std.specs.Prelude.{◌≡◌, ◌+◌, ◌<◌, slice_index, slice_set};
ghost use Rattle.pivot.specs.Pivot.{none_taken};

use crate::line::Line;
use std::marker::Model;

// The first turn: no column is taken, and it is quicker where no mark is asked for. A bool here could have no invariant.
pub const FIRST: usize = 0;

// A later turn, by its marks.
pub const LATER: usize = 1;

// The Rust's ipiv before a turn. Contracts see its four numbers, which are zeros before the first.
#[derive(Clone, Copy, Debug, PartialEq, Eq, Hash)]
pub struct Marks<const TURN: usize> {
    taken: [usize; 4],
}

impl<const TURN: usize> Model for Marks<TURN> {
    ghost use Rattle.std.specs.Prelude.{◌≡◌, ℕ, List};
    ghost use Rattle.pivot.specs.Pivot.{none_taken};

    ghost Value = { List ℕ };

    ghost view = { λ m. m.taken };

    ghost invariant = { λ m. TURN ≡ 0 → m.taken ≡ none_taken };

    ghost inverse = { λ l. record { taken = l } };
}

impl Marks<FIRST> {
    pub fn none() -> Marks<FIRST>
        ensures { result ≡ none_taken }
    {
        Marks { taken: [0; 4] }
    }
}

impl<const TURN: usize> Marks<TURN> {
    // How often a column, or a row, was taken. In the first turn the marks are not read.
    pub fn mark(&self, line: Line) -> usize
        ensures { result ≡ slice_index self.now line }
    {
        if TURN == FIRST {
            0
        } else {
            self.taken[line.at()]
        }
    }
}

// Any four numbers.
impl From<[usize; 4]> for Marks<LATER> {
    ghost from_gives = { λ taken m. m ≡ taken };

    fn from(taken: [usize; 4]) -> Marks<LATER> {
        Marks { taken }
    }
}

impl Marks<LATER> {
    // After the first turn, which takes a column.
    pub fn after(col: Line) -> Marks<LATER>
        ensures { result ≡ slice_set none_taken col 1 }
    {
        let mut taken = [0; 4];
        taken[col.at()] = 1;
        Marks::from(taken)
    }

    // A turn takes a column.
    pub fn take(&mut self, col: Line)
        requires { slice_index self.old col < 4 }
        ensures { self.new ≡ slice_set self.old col (slice_index self.old col + 1) }
    {
        self.taken[col.at()] += 1;
    }
}
