//! Hexadecimal digits.

ghost use Rattle.std.specs.Prelude.{◌≡◌, ◌<◌, ◌≤◌, false, drop};
ghost use Rattle.std.specs.Fmt.{digit_glyph, digits};

/// How many digits a number of 64 bits has at most.
pub(crate) const MOST_DIGITS: usize = 16;

/// Writes the lower-case digits of the number at the end of the buffer, and answers where they
/// begin.
pub(crate) fn hex_digits(number: u64, buffer: &mut [u8; MOST_DIGITS]) -> usize
    ensures within { result ≤ 16 }
    ensures digits { drop result buffer.new ≡ digits 16 false number }
{
    let mut rest = number;
    let mut start = MOST_DIGITS;
    while rest >= 16 {
        start -= 1;
        buffer[start] = hex_digit(rest % 16);
        rest /= 16;
    }
    start -= 1;
    buffer[start] = hex_digit(rest);
    start
}

/// The digit of this value.
fn hex_digit(value: u64) -> u8
    requires { value < 16 }
    ensures { result ≡ digit_glyph false value }
{
    match value {
        0..10 => b'0' + value as u8,
        _ => b'a' + (value as u8 - 10),
    }
}
