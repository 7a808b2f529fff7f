// The words of a line or of an answer, in memory that is fixed.
ghost use Rattle.std.specs.Prelude.{◌≡◌, ℕ, ◌-◌, ◌<◌, ◌≤◌, ◌↔◌, List, [], ◌∷◌, ◌++◌, length, take, drop, replicate, IsSome, OnSome, IfNone};
ghost use Rattle.std.proofs.Common.{ap, sym, subst, ◌∙◌, length-take-le, take-append-drop};

use std::marker::Model;

// Room for the words of any line.
pub const LINE_WORDS: usize = 4096;

// At most N words. Behind them stand zeros, so that the same words are one value, which can be copied and compared.
#[derive(Clone, Copy, Debug, PartialEq, Eq)]
pub struct Words<const N: usize> {
    words: [u32; N],
    len: usize,
}

impl<const N: usize> Model for Words<N> {
    ghost Value = { List ℕ };

    ghost view = { λ w. take w.len w.words };

    ghost invariant = { λ w. (w.len ≤ N) × (length w.words ≡ N) × (drop w.len w.words ≡ replicate (N - w.len) 0) };

    ghost inverse = { λ xs. record { words = xs ++ replicate (N - length xs) 0; len = length xs } };

    ghost inverse_ok = { λ w h i.
        let counted = length-take-le w.len w.words (subst (λ n. w.len ≤ n) (sym h.1) h.0) in
        let filled = ap (λ k. take w.len w.words ++ replicate (N - k) 0) counted
        ∙ ap (λ zeros. take w.len w.words ++ zeros) (sym h.2)
        ∙ take-append-drop w.len w.words in
        record { words = filled i; len = counted i } };
}

impl<const N: usize> Words<N> {
    pub fn new() -> Self
        ensures { result ≡ [] }
    {
        Words {
            words: [0; N],
            len: 0,
        }
    }

    // Adds a word behind the others, where there is room. It answers an `Option` and no `Result`, so that one `?` ends an
    // answer here as at an input that its line has no more of.
    pub fn push(&mut self, word: u32) -> Option<()>
        ensures room { IsSome result ↔ (length self.old < N) }
        ensures pushed { OnSome result (self.new ≡ self.old ++ word ∷ []) }
        ensures full { IfNone result (self.new ≡ self.old) }
    {
        if self.len == N {
            return None;
        }
        self.words[self.len] = word;
        self.len += 1;
        Some(())
    }

    pub fn as_slice(&self) -> &[u32]
        ensures { result.now ≡ self.now }
    {
        &self.words[..self.len]
    }

    pub fn clear(&mut self)
        ensures { self.new ≡ [] }
    {
        self.words[..self.len].fill(0);
        self.len = 0;
    }
}
