// What the programs that run the oracle's lines share: words of a line or of an answer, and the list of
// create_curve_shape.
#![tactic(auto)]

mod list;
mod words;

pub use list::{fill, hash};
pub use words::{LINE_WORDS, Words};
