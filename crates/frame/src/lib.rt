// A flat curve as a ray sees it: the ray in the object's frame, and the curve in the ray's. The part of `intersect` of
// src/shapes/curve.rs of pbrt-rust up to its first test, by its names and in its order of operations.
#![tactic(auto)]

mod frame;

pub use frame::{Aim, Framed, View, aim_ray, frame_aimed};
