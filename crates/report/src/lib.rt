// The lines that are printed of a sheet: where a ray meets a curve, or why the sheet is refused.
#![tactic(auto)]

mod line;

pub use line::{LONGEST, Place, put_answer, put_pieces, put_refused, put_refused_sheet};
