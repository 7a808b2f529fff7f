// Which parts of a curve a ray can meet: how often a curve is cut in two, its halves, and the tests that throw one out.
// Parts of `intersect` and recursive_intersect of src/shapes/curve.rs of pbrt-rust, by their names and in their order of
// operations.
#![tactic(auto)]

mod depth;
mod subcurve;
mod thrown;

pub use depth::max_depth;
pub use subcurve::{PaddedSubcurve, Subcurve, whole};
pub use thrown::{HALF, WHOLE};
