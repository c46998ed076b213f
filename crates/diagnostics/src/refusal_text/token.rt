//! The token that a message names: the one that the text goes on with at a place.

ghost use Rattle.std.specs.Prelude.{◌≡◌, ◌≤◌, length};
ghost use Rattle.std.specs.List.{position_or_len};
ghost use Rattle.litmus_lex.specs.Sign.{sign_bytes};
ghost use Rattle.litmus_lex.specs.Token.{terminal_of};
ghost use Rattle.diagnostics.specs.refusal_text.Token as spec;
ghost use Rattle.diagnostics.specs.refusal_text.Token.{IsTokenAt};

use litmus_lex::{Part, Sign, SourcePosition, Token, next_token};

/// The bytes of a sign.
pub(crate) fn sign_words(sign: Sign) -> &'static str
    ensures { result.now ≡ sign_bytes sign }
{
    match sign {
        Sign::OpenBrace => "{",
        Sign::CloseBrace => "}",
        Sign::OpenParen => "(",
        Sign::CloseParen => ")",
        Sign::OpenBracket => "[",
        Sign::CloseBracket => "]",
        Sign::Semicolon => ";",
        Sign::Comma => ",",
        Sign::Colon => ":",
        Sign::Assign => "=",
        Sign::AddAssign => "+=",
        Sign::Increment => "++",
        Sign::Plus => "+",
        Sign::Minus => "-",
        Sign::Star => "*",
        Sign::Tilde => "~",
        Sign::Not => "!",
        Sign::Ampersand => "&",
        Sign::Caret => "^",
        Sign::Bar => "|",
        Sign::Less => "<",
        Sign::Greater => ">",
        Sign::LessEqual => "<=",
        Sign::GreaterEqual => ">=",
        Sign::Equal => "==",
        Sign::NotEqual => "!=",
        Sign::Conjunction => "/\\",
        Sign::Disjunction => "\\/",
        Sign::Slash => "/",
        Sign::Percent => "%",
        Sign::ShiftLeft => "<<",
        Sign::ShiftRight => ">>",
        Sign::LogicalAnd => "&&",
        Sign::LogicalOr => "||",
        Sign::Question => "?",
    }
}

/// A letter, a digit or `_`.
pub(crate) fn is_name_byte(byte: u8) -> bool
    ensures { result ≡ spec.is_name_byte byte }
{
    byte == b'_' || byte.is_ascii_alphanumeric()
}

/// How many bytes at the front are letters, digits and `_`.
fn name_len(bytes: &[u8]) -> usize
    ensures exact { result ≡ position_or_len spec.is_no_name_byte bytes.now }
    ensures within { result ≤ length bytes.now }
{
    for (len, byte) in bytes.iter().enumerate() {
        if !is_name_byte(*byte) {
            return len;
        }
    }
    bytes.len()
}

/// The bytes of a number: digits, and the letters behind them.
fn number_at(bytes: &[u8]) -> &[u8]
    ensures { result.now ≡ spec.number_at bytes.now }
{
    &bytes[..name_len(bytes)]
}

/// The bytes of a token that stands at the front of these.
fn bytes_of<'a>(bytes: &'a [u8], token: Token<'a>) -> &'a [u8]
    ensures { result.now ≡ spec.bytes_of bytes.now (terminal_of token.entry) }
{
    match token {
        Token::Name(name) => name,
        Token::Number(_) | Token::TooLarge => number_at(bytes),
        Token::Sign(sign) => sign_words(sign).as_bytes(),
        Token::Stray => &bytes[..bytes.len().min(1)],
        Token::Unclosed | Token::End => &[],
    }
}

/// The token at a place of a text: none at its end.
pub(crate) fn token_at(text: &[u8], at: usize) -> &[u8]
    requires { at ≤ length text.now }
    ensures { IsTokenAt text.now at result.now }
{
    // A body's part, in which `(*` begins no comment. Where a comment begins no token is refused.
    let place = SourcePosition {
        at,
        part: Part::Body(0),
    };
    bytes_of(&text[at..], next_token(text, place).token)
}
