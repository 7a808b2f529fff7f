// What is measured of a flat curve: object_bound, world_bound and area of src/shapes/curve.rs of pbrt-rust, by their
// names and in their order of operations, and the price of an area.
#![tactic(auto)]

mod areas;
mod bound;
mod prices;

pub use areas::area;
pub use bound::{object_bound, world_bound};
pub use prices::price;
