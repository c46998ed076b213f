//! The signs of litmus texts, and which one begins at a place.

ghost use Rattle.std.specs.Prelude.{◌≡◌, ◌≢◌, ◌<◌, [], ◌∷◌, length, IfNone, IfSome};
ghost use Rattle.litmus_lex.specs.Sign.{sign_bytes, Begins, IsLongestSign};

/// A sign: of the grammar, or one of C that no expression takes (`/ % << >> && || ?`).
#[derive(Clone, Copy, Debug, PartialEq, Eq)]
pub enum Sign {
    /// `{`
    OpenBrace,
    /// `}`
    CloseBrace,
    /// `(`
    OpenParen,
    /// `)`
    CloseParen,
    /// `[`
    OpenBracket,
    /// `]`
    CloseBracket,
    /// `;`
    Semicolon,
    /// `,`
    Comma,
    /// `:`
    Colon,
    /// `=`
    Assign,
    /// `+=`
    AddAssign,
    /// `++`
    Increment,
    /// `+`
    Plus,
    /// `-`
    Minus,
    /// `*`
    Star,
    /// `~`
    Tilde,
    /// `!`
    Not,
    /// `&`
    Ampersand,
    /// `^`
    Caret,
    /// `|`
    Bar,
    /// `<`
    Less,
    /// `>`
    Greater,
    /// `<=`
    LessEqual,
    /// `>=`
    GreaterEqual,
    /// `==`
    Equal,
    /// `!=`
    NotEqual,
    /// `/\`
    Conjunction,
    /// `\/`
    Disjunction,
    /// `/`
    Slash,
    /// `%`
    Percent,
    /// `<<`
    ShiftLeft,
    /// `>>`
    ShiftRight,
    /// `&&`
    LogicalAnd,
    /// `||`
    LogicalOr,
    /// `?`
    Question,
}

/// The sign of two bytes that these are.
fn long_sign(first: u8, second: u8) -> Option<Sign>
    ensures found { IfSome result (λ sign. sign_bytes sign ≡ first ∷ second ∷ []) }
    ensures none { IfNone result ((sign : Sign) → sign_bytes sign ≢ first ∷ second ∷ []) }
{
    match (first, second) {
        (b'+', b'=') => Some(Sign::AddAssign),
        (b'+', b'+') => Some(Sign::Increment),
        (b'<', b'=') => Some(Sign::LessEqual),
        (b'>', b'=') => Some(Sign::GreaterEqual),
        (b'=', b'=') => Some(Sign::Equal),
        (b'!', b'=') => Some(Sign::NotEqual),
        (b'/', b'\\') => Some(Sign::Conjunction),
        (b'\\', b'/') => Some(Sign::Disjunction),
        (b'<', b'<') => Some(Sign::ShiftLeft),
        (b'>', b'>') => Some(Sign::ShiftRight),
        (b'&', b'&') => Some(Sign::LogicalAnd),
        (b'|', b'|') => Some(Sign::LogicalOr),
        _ => None,
    }
}

/// The sign of one byte that this is.
fn short_sign(byte: u8) -> Option<Sign>
    ensures found { IfSome result (λ sign. sign_bytes sign ≡ byte ∷ []) }
    ensures none { IfNone result ((sign : Sign) → sign_bytes sign ≢ byte ∷ []) }
{
    match byte {
        b'{' => Some(Sign::OpenBrace),
        b'}' => Some(Sign::CloseBrace),
        b'(' => Some(Sign::OpenParen),
        b')' => Some(Sign::CloseParen),
        b'[' => Some(Sign::OpenBracket),
        b']' => Some(Sign::CloseBracket),
        b';' => Some(Sign::Semicolon),
        b',' => Some(Sign::Comma),
        b':' => Some(Sign::Colon),
        b'=' => Some(Sign::Assign),
        b'+' => Some(Sign::Plus),
        b'-' => Some(Sign::Minus),
        b'*' => Some(Sign::Star),
        b'~' => Some(Sign::Tilde),
        b'!' => Some(Sign::Not),
        b'&' => Some(Sign::Ampersand),
        b'^' => Some(Sign::Caret),
        b'|' => Some(Sign::Bar),
        b'<' => Some(Sign::Less),
        b'>' => Some(Sign::Greater),
        b'/' => Some(Sign::Slash),
        b'%' => Some(Sign::Percent),
        b'?' => Some(Sign::Question),
        _ => None,
    }
}

/// The sign of two bytes at the front.
fn long_sign_of(bytes: &[u8]) -> Option<Sign>
    ensures found { IfSome result (λ sign. Begins sign bytes.now × (length (sign_bytes sign) ≡ 2)) }
    ensures none { IfNone result
        ((sign : Sign) → Begins sign bytes.now → length (sign_bytes sign) < 2) }
{
    match bytes {
        [first, second, ..] => long_sign(*first, *second),
        _ => None,
    }
}

/// The sign of one byte at the front.
fn short_sign_of(bytes: &[u8]) -> Option<Sign>
    ensures found { IfSome result (λ sign. Begins sign bytes.now × (length (sign_bytes sign) ≡ 1)) }
    ensures none { IfNone result
        ((sign : Sign) → Begins sign bytes.now → 1 < length (sign_bytes sign)) }
{
    match bytes {
        [first, ..] => short_sign(*first),
        [] => None,
    }
}

/// The longest sign at the front, and how many bytes it has.
pub fn sign_of(bytes: &[u8]) -> Option<(Sign, usize)>
    ensures found { IfSome result
        (λ found. IsLongestSign found.0 bytes.now × (found.1 ≡ length (sign_bytes found.0))) }
    ensures none { IfNone result ((sign : Sign) → ¬ Begins sign bytes.now) }
{
    match long_sign_of(bytes) {
        Some(sign) => Some((sign, 2)),
        None => match short_sign_of(bytes) {
            Some(sign) => Some((sign, 1)),
            None => None,
        },
    }
}
