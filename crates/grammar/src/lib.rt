// The lines of a belt sheet: its head of seven lines, and rows of floats.
#![tactic(auto)]

mod head;
mod reader;

pub use head::{Head, WrongLine, read_head};
pub use reader::{Reader, Row};
