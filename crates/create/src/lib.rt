// create_curve_shape and create_curve of src/shapes/curve.rs of pbrt-rust, by their names and in their order
// of operations: the curves of all segments, into a list that is lent.
#![tactic(auto)]

mod basis;
mod create;
mod refusal;
mod shape;

pub use create::create_curve_shape;
pub use refusal::MOST_CURVES;
