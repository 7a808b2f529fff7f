// The record of a flat curve: Curve and CurveCommon of src/shapes/curve.rs of pbrt-rust. It is lent where its floats lie,
// whose layout stands in one module.
#![tactic(auto)]

mod curve;
mod layout;

pub use curve::Curve;
pub use layout::{CurveRef, FLOATS, is_curve};
