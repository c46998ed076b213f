//! The classes of bytes, and how far runs and comments go.

ghost use Rattle.std.specs.Prelude.{◌≡◌, ◌+◌, ◌<◌, ◌≤◌, length, drop, take, IfNone, IfSome};
ghost use Rattle.litmus_lex.specs.Bytes.{belongs, EndsAtPair, IsRun, LacksPair};

/// A class of bytes.
#[derive(Clone, Copy)]
pub enum Class {
    /// What separates tokens: blank, tab, CR, LF.
    Blank,
    /// What a test's name has: 0x21 to 0x7E.
    Graphic,
    /// What begins a name: a letter or `_`.
    NameStart,
    /// What a name has: letters, digits and `_`.
    NamePart,
    Digit,
    HexDigit,
    /// What a line has: all but LF.
    InLine,
    /// What stands in double quotes: all but `"`.
    InQuotes,
}

impl Class {
    /// Whether the byte is of the class.
    pub fn has(self, byte: u8) -> bool
        ensures { result ≡ belongs self byte }
    {
        match self {
            Class::Blank => matches!(byte, b'\t' | b'\n' | b'\r' | b' '),
            Class::Graphic => matches!(byte, 0x21..=0x7E),
            Class::NameStart => byte == b'_' || byte.is_ascii_alphabetic(),
            Class::NamePart => byte == b'_' || byte.is_ascii_alphanumeric(),
            Class::Digit => byte.is_ascii_digit(),
            Class::HexDigit => byte.is_ascii_hexdigit(),
            Class::InLine => byte != b'\n',
            Class::InQuotes => byte != b'"',
        }
    }
}

/// How many bytes at the front are of the class.
pub fn run_len(bytes: &[u8], class: Class) -> usize
    ensures within { result ≤ length bytes.now }
    ensures run { IsRun class (take result bytes.now) (drop result bytes.now) }
{
    let mut len = 0;
    while len < bytes.len() && class.has(bytes[len]) {
        len += 1;
    }
    len
}

/// How many bytes at the front end with the first pair of these two.
pub fn pair_len(bytes: &[u8], first: u8, second: u8) -> Option<usize>
    ensures within { IfSome result (λ len. (0 < len) × (len ≤ length bytes.now)) }
    ensures found { IfSome result (λ len. EndsAtPair first second (take len bytes.now)) }
    ensures none { IfNone result (LacksPair first second bytes.now) }
{
    for at in 1..bytes.len() {
        if bytes[at - 1] == first && bytes[at] == second {
            return Some(at + 1);
        }
    }
    None
}
