// Whether a line's answer is the library's.
use answers::{Answer, Inputs, Operation};
use lines::Words;

// The word by which a word is compared: in boxes -0.0 equals 0.0.
fn compared<O: Operation>(word: u32) -> u32 {
    if O::IS_BOX && word == 0x8000_0000 {
        0
    } else {
        word
    }
}

// Whether a line is inputs with the library's answer to them behind.
pub fn holds<O: Operation>(line: &[u32]) -> bool {
    let mut inputs = Inputs { rest: line };
    let mut answer = Answer {
        words: Words::new(),
    };
    if O::answer(&mut inputs, &mut answer).is_none() {
        return false;
    }
    let given = inputs.rest;
    let wanted = answer.words.as_slice();
    given.len() == wanted.len()
        && given
            .iter()
            .zip(wanted)
            .all(|(a, b)| compared::<O>(*a) == compared::<O>(*b))
}
