// The leaf of the walk through a curve: where a subcurve that is cut no further meets the ray. recursive_intersect of
// src/shapes/curve.rs of pbrt-rust at depth 0, by its names and in its order of operations.
#![tactic(auto)]

mod hit;
mod leaf;

pub use hit::{flips, record_at};
pub use leaf::{Crossing, Frame, Leaf, Met, SeenCurve};
