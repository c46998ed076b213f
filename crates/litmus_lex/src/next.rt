//! The token that a text goes on with.

ghost use Rattle.std.specs.Prelude.{◌≡◌, ◌+◌, ◌*◌, ◌^◌, ◌<◌, ◌≤◌, IfNone, IfSome, OnSome, length, drop, take};
ghost use Rattle.std.specs.Str.Parse.{digits_value};
ghost use Rattle.litmus_lex.specs.Part.{closed, depth_of, opened};
ghost use Rattle.litmus_lex.specs.Token.{terminal_of, BeginsHexadecimal};
ghost use Rattle.litmus_lex.specs.Tokens.{part_behind, IsNext};
ghost use Rattle.litmus_lex.specs.Found.{AreDigits, BeginsWith, IsEnding, FollowsPrefix, number_is};

use crate::bytes::{Class, run_len};
use crate::gap::{Gap, gap_of};
use crate::sign::{Sign, sign_of};
use crate::token::{Lexeme, Part, SourcePosition, Token};

/// The token that the text goes on with from the place: blanks and comments are passed over.
///
/// Every text has its tokens, one after the other, up to `End`: what can't be a token is one of
/// `TooLarge`, `Stray` and `Unclosed`.
pub fn next_token(text: &[u8], place: SourcePosition) -> Lexeme<'_>
    requires { place.at ≤ length text.now }
    ensures within { result.after.at ≤ length text.now }
    ensures placed { result.at ≤ result.after.at }
    ensures moves { OnSome (terminal_of result.token) (place.at < result.after.at) }
    ensures next { IsNext text.now place result }
{
    let bytes = &text[place.at..];
    match gap_of(bytes, place.part) {
        Gap::Before(len) => {
            let Ending { token, len: more } = token_of(&bytes[len..]);
            Lexeme {
                token,
                at: place.at + len,
                after: SourcePosition {
                    at: place.at + len + more,
                    part: part_after(place.part, token),
                },
            }
        }
        Gap::Unclosed => Lexeme {
            token: Token::Unclosed,
            at: text.len(),
            after: SourcePosition {
                at: text.len(),
                part: place.part,
            },
        },
    }
}

/// A token, and how many bytes it has.
#[derive(Clone, Copy)]
struct Ending<'a> {
    token: Token<'a>,
    len: usize,
}

/// The part of the text after the token.
fn part_after(part: Part, token: Token<'_>) -> Part
    requires { depth_of part + 1 < 2 ^ 64 }
    ensures { result ≡ part_behind part (terminal_of token.entry) }
{
    match token {
        Token::Sign(Sign::OpenBrace) => opened(part),
        Token::Sign(Sign::CloseBrace) => closed(part),
        _ => part,
    }
}

/// The part of the text after a `{`.
fn opened(part: Part) -> Part
    requires { depth_of part + 1 < 2 ^ 64 }
    ensures { result ≡ opened part }
{
    match part {
        Part::Between => Part::Body(1),
        Part::Body(depth) => Part::Body(depth + 1),
        Part::Head | Part::Init => Part::Init,
    }
}

/// The part of the text after a `}`.
fn closed(part: Part) -> Part
    ensures { result ≡ closed part }
{
    match part {
        Part::Body(depth) if depth > 1 => Part::Body(depth - 1),
        _ => Part::Between,
    }
}

/// The token that the bytes begin with, where no blank and no comment does.
fn token_of(bytes: &[u8]) -> Ending<'_>
    ensures { IsEnding bytes.now result }
{
    match bytes {
        [] => Ending {
            token: Token::End,
            len: 0,
        },
        [first, ..] if Class::Digit.has(*first) => number_of(bytes),
        [first, others @ ..] if Class::NameStart.has(*first) => {
            let len = 1 + run_len(others, Class::NamePart);
            Ending {
                token: Token::Name(&bytes[..len]),
                len,
            }
        }
        _ => match sign_of(bytes) {
            Some((sign, len)) => Ending {
                token: Token::Sign(sign),
                len,
            },
            None => Ending {
                token: Token::Stray,
                len: 1,
            },
        },
    }
}

/// The number that the bytes begin with: `0x` and hexadecimal digits, or decimal digits.
fn number_of(bytes: &[u8]) -> Ending<'_>
    requires { BeginsWith Class.Digit bytes.now }
    ensures { IsEnding bytes.now result }
{
    match hexadecimal_digits(bytes) {
        Some(digits) => Ending {
            token: number_token(digits, 16),
            len: 2 + digits.len(),
        },
        None => {
            let len = run_len(bytes, Class::Digit);
            Ending {
                token: number_token(&bytes[..len], 10),
                len,
            }
        }
    }
}

/// The hexadecimal digits that follow a `0x` at the front, if there is one.
fn hexadecimal_digits(bytes: &[u8]) -> Option<&[u8]>
    ensures found { IfSome result (λ digits. FollowsPrefix bytes.now digits.now) }
    ensures none { IfNone result (¬ BeginsHexadecimal bytes.now) }
{
    let [b'0', b'x', digits @ ..] = bytes else {
        return None;
    };
    match run_len(digits, Class::HexDigit) {
        // `0x` without a digit is the number 0 and a name.
        0 => None,
        len => Some(&digits[..len]),
    }
}

/// The number that the digits spell.
fn number_token(digits: &[u8], radix: u32) -> Token<'_>
    requires low { 2 ≤ radix }
    requires high { radix ≤ 36 }
    requires digits { AreDigits radix digits.now }
    ensures { result ≡ number_is (digits_value radix digits.now) }
{
    match value_of(digits, radix) {
        Some(value) => Token::Number(value),
        // It offends only where the parser comes to it, since the first token that has no place decides.
        None => Token::TooLarge,
    }
}

/// The value of the digits, if it is below 2^64.
fn value_of(digits: &[u8], radix: u32) -> Option<u64>
    requires low { 2 ≤ radix }
    requires high { radix ≤ 36 }
    requires digits { AreDigits radix digits.now }
    ensures value { IfSome result (λ value. value ≡ digits_value radix digits.now) }
    ensures large { IfNone result (2 ^ 64 ≤ digits_value radix digits.now) }
{
    let mut value: u64 = 0;
    for digit in digits {
        let digit = char::from(*digit).to_digit(radix)?;
        value = with_digit(value, radix, digit)?;
    }
    Some(value)
}

/// The value with one digit more, if it is below 2^64.
fn with_digit(value: u64, radix: u32, digit: u32) -> Option<u64>
    ensures found { IfSome result (λ more. more ≡ value * radix + digit) }
    ensures none { IfNone result (2 ^ 64 ≤ value * radix + digit) }
{
    value
        .checked_mul(u64::from(radix))?
        .checked_add(u64::from(digit))
}
