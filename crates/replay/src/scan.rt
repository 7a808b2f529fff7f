// Lines of words in hexadecimal, a byte at a time.
use lines::{LINE_WORDS, Words};
use std::io::Write;
use text::digit;

// A line as far as it is read: its words, the word that is being read, and whether one had no room. A line that is too long
// is printed too, so its words stay.
#[derive(Debug, Drop)]
pub struct Scan {
    words: Words<LINE_WORDS>,
    word: u32,
    is_over: bool,
}

impl Scan {
    pub fn new() -> Scan {
        Scan {
            words: Words::new(),
            word: 0,
            is_over: false,
        }
    }

    // Takes a byte, and answers whether it ends the line.
    pub fn take(&mut self, byte: u8) -> bool {
        if let Some(d) = digit(byte) {
            self.word = self.word % 0x1000_0000 * 16 + d;
            return false;
        }
        if self.words.push(self.word).is_none() {
            self.is_over = true;
        }
        self.word = 0;
        byte == b'\n'
    }

    // The words of the line, where all had room.
    pub fn line(&self) -> Option<&[u32]> {
        if self.is_over {
            None
        } else {
            Some(self.words.as_slice())
        }
    }

    // Prints a line that differs. A write that fails is not told: what stands on standard output is short of it.
    pub fn print<W: Write>(&self, out: &mut W) {
        for word in self.words.as_slice() {
            let _ = write!(out, "{word:08x} ");
        }
        let _ = out.write_all(b"differs\n");
    }

    // Goes on to the next line.
    pub fn clear(&mut self) {
        self.words.clear();
        self.word = 0;
        self.is_over = false;
    }
}
