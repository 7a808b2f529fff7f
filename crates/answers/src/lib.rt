// The library's answers to the oracle's lines, by operation, for the program `replay`.
#![tactic(auto)]

mod answer;
mod create_kind;
mod curve_kinds;
mod geometry_kinds;
mod inputs;
mod operation;
mod ray_kinds;
mod transform_kinds;

pub use answer::Answer;
pub use create_kind::CreateCurveShape;
pub use curve_kinds::{Area, Corners, ObjectBound, Price, WorldBound};
pub use geometry_kinds::{CoordinateSystem, Cross, Narrow, Normalize, RoundProduct, Sqrt};
pub use inputs::Inputs;
pub use operation::Operation;
pub use ray_kinds::{Intersect, Nearest};
pub use transform_kinds::{
    Inverse, LookAt, SwapsHandedness, TransformBounds, TransformPoint, TransformRayError,
};
