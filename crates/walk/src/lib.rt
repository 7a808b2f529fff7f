// The walk through a curve's subcurves, cut in two again and again: `recursive_intersect` of src/shapes/curve.rs of
// pbrt-rust, by its names and in its order of operations. Which leaf decides is a rule of its own.
#![tactic(auto)]

mod rule;
mod walk;

pub use rule::Rule;
pub use walk::{Reached, walk_aimed};
