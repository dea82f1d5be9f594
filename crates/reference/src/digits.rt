//! Hexadecimal digits of bytes, and the percent-encoding of names.
//!
//! Distinct names have distinct encodings, so a tree is determined by its image.
ghost use Rattle.std.specs.Prelude.{◌≡◌, ◌∷◌, [], ◌<◌, MatchOption};
ghost use Rattle.reference.specs.Image.{digit as digit_of, percent, two_digits};

/// A byte as two lower-case hexadecimal digits.
pub fn lower_digits(byte: u8) -> [u8; 2]
    ensures { result ≡ two_digits 87 byte }
{
    [digit(b'a' - 10, byte / 16), digit(b'a' - 10, byte % 16)]
}

/// The percent-encoding of a byte that is reserved in a name: a percent sign and two upper-case digits. `None` if the byte is
/// written as itself.
pub fn escape(byte: u8) -> Option<[u8; 3]>
    ensures { MatchOption result (percent byte ≡ byte ∷ []) (λ form. percent byte ≡ form) }
{
    if byte < 33 || byte == b'%' || byte > 126 {
        return Some([
            b'%',
            digit(b'A' - 10, byte / 16),
            digit(b'A' - 10, byte % 16),
        ]);
    }
    None
}

// A hexadecimal digit, of which `letter` is the first letter less ten.
fn digit(letter: u8, value: u8) -> u8
    requires value { value < 16 }
    requires letter { letter < 240 }
    ensures { result ≡ digit_of letter value }
{
    if value < 10 {
        return b'0' + value;
    }
    letter + value
}
