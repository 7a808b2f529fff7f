// The number of a row or a column.
ghost use Rattle.std.specs.Prelude.{◌≡◌, ◌<◌};

use std::marker::Model;

// A row or a column, counted from 0. Contracts see the number, which is below 4.
#[derive(Clone, Copy, Debug, PartialEq, Eq, Hash)]
pub struct Line {
    at: usize,
}

impl Model for Line {
    ghost use Rattle.std.specs.Prelude.{ℕ, ◌<◌};

    ghost Value = { ℕ };

    ghost view = { λ l. l.at };

    ghost invariant = { λ l. l.at < 4 };

    ghost inverse = { λ n. record { at = n } };
}

impl Line {
    pub fn new(at: usize) -> Line
        requires { at < 4 }
        ensures { result ≡ at }
    {
        Line { at }
    }

    pub fn at(self) -> usize
        ensures value { result ≡ self }
        ensures bound { result < 4 }
    {
        self.at
    }
}
