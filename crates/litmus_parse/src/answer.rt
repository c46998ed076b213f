//! What is answered of a text: what is read of it, or why it is refused.

ghost use Rattle.std.specs.Prelude.{◌≡◌, ◌≤◌, length};
ghost use Rattle.litmus_parse.specs.Answer.{error_of, limit_of};

use litmus_lex::{Excess, Expected, Fault, Unread, line_of};
use litmus_syntax::{Limit, ParseError, Program};

/// What is read of a text.
#[derive(Drop)]
pub struct Reading {
    pub program: Program,
    /// For each task, where the access of each of its sites begins: how many bytes stand before it.
    pub places: Vec<Vec<usize>>,
}

/// Why a text is refused.
#[derive(Clone, Copy, Debug, PartialEq, Eq)]
pub enum Reason {
    OutOfMemory,
    /// It has more bytes than a text can have.
    File,
    /// It has a byte that no text has.
    NotAscii,
    Limit(Excess),
    Syntax { fault: Fault, expected: Expected },
    Unsupported { unread: Unread, expected: Expected },
}

/// A text that is refused: the error, how many bytes stand before what offends, and why it does. Where memory is
/// refused, nothing offends.
#[derive(Clone, Copy)]
pub struct Refused {
    pub error: ParseError,
    pub at: usize,
    pub reason: Reason,
}

impl Refused {
    /// The text is refused at the place.
    pub fn new(text: &[u8], at: usize, reason: Reason) -> Refused
        requires { at ≤ length text.now }
        ensures at { result.at ≡ at }
        ensures reason { result.reason ≡ reason }
        ensures error { result.error ≡ error_of text.now at reason }
    {
        Refused {
            error: error_of(text, at, reason),
            at,
            reason,
        }
    }
}

/// The error for a text that is refused at the place.
fn error_of(text: &[u8], at: usize, reason: Reason) -> ParseError
    requires { at ≤ length text.now }
    ensures { result ≡ error_of text.now at reason }
{
    match reason {
        Reason::OutOfMemory => ParseError::OutOfMemory,
        Reason::File => ParseError::Limit(Limit::File),
        Reason::NotAscii => ParseError::NotAscii,
        Reason::Limit(excess) => ParseError::Limit(limit_of(excess)),
        Reason::Syntax { .. } => ParseError::Syntax {
            line: line_of(text, at) as u64,
        },
        Reason::Unsupported { .. } => ParseError::Unsupported {
            line: line_of(text, at) as u64,
        },
    }
}

/// The limit that is passed.
fn limit_of(excess: Excess) -> Limit
    ensures { result ≡ limit_of excess }
{
    match excess {
        Excess::Tasks => Limit::Tasks,
        Excess::Statements => Limit::Statements,
        Excess::Variables => Limit::Variables,
        Excess::Registers => Limit::Registers,
        Excess::Nesting => Limit::Nesting,
        Excess::Operators => Limit::Operators,
        Excess::Scoped => Limit::Scoped,
        Excess::Number => Limit::Number,
        Excess::Check => Limit::Check,
        Excess::Turns | Excess::Repeats => Limit::Repeats,
    }
}
