//! Escapes in the texts of rows: `\n`, `\t`, `\r`, `\\`, `\x7f` for a character by its number, and `\15[..]` for a
//! piece fifteen times.

use std::alloc::{AllocError, Global};

/// What the characters before say of the next.
#[derive(Drop)]
enum State {
    /// It stands for itself.
    Plain,
    /// It follows a `\`.
    Escaped,
    /// It is the first or, after this one, the second digit of a character's number.
    Digit(Option<u32>),
    /// It follows a number of repetitions.
    Counted(u32),
    /// It belongs to a piece that is repeated so often.
    Repeated(u32, String),
}

/// A text, its escapes read.
pub fn unescaped(alloc: Global, text: &str) -> Result<String, AllocError> {
    let mut whole = String::new(alloc);
    let mut state = State::Plain;
    for next in text.chars() {
        state = after(alloc, &mut whole, state, next)?;
    }
    Ok(whole)
}

/// Adds what a character stands for, and says what the next is.
fn after(alloc: Global, whole: &mut String, state: State, next: char) -> Result<State, AllocError> {
    match state {
        State::Plain if next == '\\' => Ok(State::Escaped),
        State::Plain => {
            whole.push(next)?;
            Ok(State::Plain)
        }
        State::Escaped if next == 'x' => Ok(State::Digit(None)),
        State::Digit(None) => Ok(State::Digit(next.to_digit(16))),
        State::Digit(Some(first)) => {
            let number = first
                .saturating_mul(16)
                .saturating_add(next.to_digit(16).unwrap_or(0));
            whole.push(char::from_u32(number).unwrap_or(next))?;
            Ok(State::Plain)
        }
        State::Escaped => match next.to_digit(10) {
            Some(digit) => Ok(State::Counted(digit)),
            None => {
                whole.push(escape_of(next))?;
                Ok(State::Plain)
            }
        },
        State::Counted(count) => match next.to_digit(10) {
            Some(digit) => Ok(State::Counted(count.saturating_mul(10).saturating_add(digit))),
            None => Ok(State::Repeated(count, String::new(alloc))),
        },
        State::Repeated(count, mut piece) => {
            if next == ']' {
                for _ in 0..count {
                    whole.push_str(&piece)?;
                }
                return Ok(State::Plain);
            }
            piece.push(next)?;
            Ok(State::Repeated(count, piece))
        }
    }
}

/// The character that one after a `\` stands for.
fn escape_of(letter: char) -> char {
    match letter {
        'n' => '\n',
        't' => '\t',
        'r' => '\r',
        _ => letter,
    }
}
