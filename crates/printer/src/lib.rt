// What the program `beltbeam` prints of a sheet: where each ray meets each curve, or why the sheet is
// refused.
#![tactic(auto)]

mod ending;
mod explain;
mod print;

pub use print::{Printed, print_sheet};
