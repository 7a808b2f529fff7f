// Reading by place in the whole text, as the definitions say it and as a wrong line is told. A place past the end has no
// byte, so that nothing is asked about it; the rest of a slice from there, `s[at..]`, asks that the place is no further
// than the end.
ghost use Rattle.std.specs.Prelude.{◌≡◌, ◌+◌, ◌<◌, ◌≤◌, max, length, IsTrue, IfSome};
ghost use Rattle.text.specs.Bytes.{byte_is, stands_at, digit_of, digit_at, word_at};

#[tactic(auto, unfolding(crate::specs::Bytes::byte_is))]
pub fn is_byte(s: &[u8], i: usize, b: u8) -> bool
    ensures value { result ≡ byte_is s.now i b }
    ensures within { IsTrue result → i < length s.now }
{
    s.get(i) == Some(&b)
}

/// Whether the bytes of a word stand at a place.
pub fn stands_at(s: &[u8], at: usize, word: &[u8]) -> bool
    ensures value { result ≡ stands_at s.now at word.now }
    ensures within { IsTrue result → at + length word.now ≤ max at (length s.now) }
{
    s[at.min(s.len())..].starts_with(word)
}

/// The value of a hexadecimal digit in lower case.
// std's `to_digit` takes upper case too.
#[tactic(auto, unfolding(crate::specs::Bytes::digit_of))]
pub fn digit(b: u8) -> Option<u32>
    ensures value { result ≡ digit_of b }
    ensures small { IfSome result (λ d. d < 16) }
{
    match b {
        b'0'..=b'9' => Some(u32::from(b - b'0')),
        b'a'..=b'f' => Some(u32::from(b - b'a') + 10),
        _ => None,
    }
}

#[tactic(auto, unfolding(crate::specs::Bytes::digit_at))]
pub fn digit_at(s: &[u8], i: usize) -> Option<u32>
    ensures value { result ≡ digit_at s.now i }
    ensures small { IfSome result (λ d. d < 16) }
    ensures within { IfSome result (λ _. i < length s.now) }
{
    digit(*s.get(i)?)
}

/// The number that eight digits at a place are.
pub fn word_at(s: &[u8], at: usize) -> Option<u32>
    ensures value { result ≡ word_at s.now at }
    ensures within { IfSome result (λ _. at + 8 ≤ length s.now) }
{
    let mut word = 0;
    for i in 0..8 {
        word = word * 16 + digit_at(s, at + i)?;
    }
    Some(word)
}
