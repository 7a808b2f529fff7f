// Text as bytes: digits and words, read by place and put into a buffer that is lent.
#![tactic(auto)]

mod buffer;
mod read;

pub use buffer::Buffer;
pub use read::{digit, digit_at, is_byte, stands_at, word_at};
