// A kept set: up to 64 curves under one ray, each under a number of its user's, with its own nearest crossing,
// and which of them is the nearest. Curves come and go; an add walks its own curve and nothing else does. The set lives in
// two arrays that the caller lends (src/layout.rt), and every content of them is an input.
#![tactic(auto)]

mod edits;
mod layout;
mod view;

pub use edits::SetMut;
pub use layout::{Head, SET_FLOATS, SET_WORDS};
pub use view::Set;
