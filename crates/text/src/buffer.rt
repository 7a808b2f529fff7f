// Text put into a buffer that is lent, as much as fits.
ghost use Rattle.std.specs.Prelude.{◌≡◌, [], ◌∷◌, ◌-◌, ◌<◌, length};
ghost use Rattle.text.specs.Digits.{digit_char, decimal_text, float_text};
ghost use Rattle.text.specs.Put.{Puts};

/// A buffer that is lent, and the place behind what was put into it.
// No writer of std's: it fails at a full buffer, and here a text is cut. No `fmt::Write` of its own: std says what `write!` put
// where that answers Ok, and never that it does so, not even where each `write_str` does; what is put here cannot fail.
#[derive(Debug, Drop)]
pub struct Buffer<'a> {
    pub bytes: &'a mut [u8],
    pub end: usize,
}

impl<'a> Buffer<'a> {
    /// From the start of the bytes on.
    pub fn new(bytes: &'a mut [u8]) -> Buffer<'a>
        ensures same_buffer { result.bytes.ghost_name ≡ bytes.entry.ghost_name }
        ensures bytes { result.bytes.now ≡ bytes.old }
        ensures end { result.end ≡ 0 }
    {
        Buffer { bytes, end: 0 }
    }

    /// How many bytes there is room for.
    pub fn room(&self) -> usize
        ensures { result ≡ length self.now.bytes.now - self.now.end }
    {
        self.bytes.len().saturating_sub(self.end)
    }

    pub fn put_word(&mut self, word: &[u8])
        ensures { Puts self.old self.new word.now }
    {
        let from = self.end.min(self.bytes.len());
        let n = word.len().min(self.bytes.len() - from);
        self.bytes[from..from + n].copy_from_slice(&word[..n]);
        self.end += n;
    }

    // One byte is stored where it goes: `put_word` would call the library to copy it.
    fn put_digit(&mut self, d: u32)
        requires { d < 16 }
        ensures { Puts self.old self.new (digit_char d ∷ []) }
    {
        if self.end < self.bytes.len() {
            self.bytes[self.end] = digit_char(d);
            self.end += 1;
        }
    }

    /// A number in decimal: what is before its last digit, and that digit.
    pub fn put_decimal(&mut self, n: u32)
        ensures { Puts self.old self.new (decimal_text n) }
    {
        if n < 10 {
            self.put_digit(n);
        } else {
            self.put_decimal(n / 10);
            self.put_digit(n % 10);
        }
    }

    /// The bits of a float, in hexadecimal: all eight digits by one copy.
    pub fn put_float(&mut self, x: f32)
        ensures { Puts self.old self.new (float_text x) }
    {
        let bits = float::to_bits(x);
        let mut digits = [0; 8];
        for i in (0..8).rev() {
            digits[7 - i] = digit_char((bits >> (4 * i)) % 16);
        }
        self.put_word(&digits);
    }
}

// The character of a digit, decimal or hexadecimal, as a byte: `char::from_digit` gives a char in an Option.
#[tactic(auto, unfolding(crate::specs::Digits::digit_char))]
fn digit_char(d: u32) -> u8
    requires { d < 16 }
    ensures { result ≡ digit_char d }
{
    if d < 10 {
        b'0' + d as u8
    } else {
        b'a' - 10 + d as u8
    }
}
