// Cubic Bezier curves: blossom_bezier, subdivide_bezier and eval_bezier of src/shapes/curve.rs of pbrt-rust, by their
// names and in their order of operations; and how far their control points reach.
#![tactic(auto)]

mod axis;
mod corners;
mod cubic;
mod extent;
mod points;
mod polygon;

pub use axis::{Axis, Coordinate, part};
pub use corners::{Corners, corners_of};
pub use cubic::{Cubic, Eval};
pub use extent::{ANY, Extent, NUMBERS, extent_of, max};
pub use points::{POINTS, axis_in, eval_bezier, points_by, subdivide_bezier};
pub use polygon::chords;
