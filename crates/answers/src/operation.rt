// What the oracle has lines of: an operation of the library (oracle/README.md). Two operations may differ in the function they
// call alone: with that as a parameter neither is plainer, since each names its file and its inputs.
use crate::answer::Answer;
use crate::inputs::Inputs;

pub trait Operation {
    // The file of its lines.
    const FILE: &'static str;

    // Whether its answer is a box, in which -0.0 equals 0.0.
    const IS_BOX: bool = false;

    // Reads the inputs that a line starts with, and puts the library's answer to them, which has no words where the Rust
    // panics. None where the line is too short for its inputs, or the answer too long for its room.
    fn answer(inputs: &mut Inputs<'_>, out: &mut Answer) -> Option<()>;
}
