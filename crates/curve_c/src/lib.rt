// The curves for callers in C and Rust (include/curve.h): each function answers 0, a refusal's number, or of
// curve_intersect and curve_nearest 1 for a miss, and writes its values through the pointers it is given. A refusal
// leaves what they point to, but for the line that curve_sheet writes with every reply. The header has no struct: both
// matrices, the flag and the ray come one by one, and so do the parameters of laying.
#![tactic(auto)]

mod lists;
mod outputs;
mod rays;
mod sets;
mod shapes;
mod sheets;
mod tallies;

pub use lists::curve_nearest;
pub use rays::curve_intersect;
pub use sets::{curve_set_add, curve_set_nearest, curve_set_open, curve_set_remove};
pub use shapes::{curve_area, curve_create, curve_object_bound, curve_price, curve_world_bound};
pub use sheets::curve_sheet;
pub use tallies::curve_tally_add;
