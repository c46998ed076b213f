//! Why a litmus text is refused.

use std::alloc::{AllocError, AllocFailed};
use std::fmt;
use thiserror::Error;

/// What a litmus text can have too much of.
#[derive(Clone, Copy, Debug, PartialEq, Eq)]
pub enum Limit {
    /// Bytes: at most 65,536.
    File,
    /// Tasks: at most 16.
    Tasks,
    /// Statements of a task: at most 256.
    Statements,
    /// Variables: at most 32.
    Variables,
    /// Registers of a task: at most 32.
    Registers,
    /// Open blocks and parentheses: at most 16.
    Nesting,
    /// Operators of one expression or proposition: at most 256.
    Operators,
    /// Scoped assertions open at one place: at most 8.
    Scoped,
    /// The value of a number: below 2^64.
    Number,
    /// The size of a check: at most 1,048,576.
    Check,
    /// Turns of loops in loops: at most 256 a statement, and 1,024 over a task's statements with an
    /// access.
    Repeats,
}

impl fmt::Display for Limit {
    fn fmt<W: fmt::Write>(&self, f: &mut fmt::Formatter<W>) -> fmt::Result {
        f.write_str(match self {
            Limit::File => "file",
            Limit::Tasks => "tasks",
            Limit::Statements => "statements",
            Limit::Variables => "variables",
            Limit::Registers => "registers",
            Limit::Nesting => "nesting",
            Limit::Operators => "operators",
            Limit::Scoped => "scoped",
            Limit::Number => "number",
            Limit::Check => "check",
            Limit::Repeats => "repeats",
        })
    }
}

/// Why a litmus text is not read or not printed: the first token that offends, or the end, with its
/// line from 1.
#[derive(Clone, Copy, Debug, PartialEq, Eq, Error)]
pub enum ParseError {
    #[error("out of memory")]
    OutOfMemory,
    /// The format doesn't have this.
    #[error("line {line}: syntax")]
    Syntax { line: u64 },
    /// The litmus format of the kernel may have this, and this one doesn't.
    #[error("line {line}: unsupported")]
    Unsupported { line: u64 },
    #[error("limit: {0}")]
    Limit(Limit),
    #[error("not ascii")]
    NotAscii,
}

impl From<AllocError> for ParseError {
    ghost use Rattle.std.specs.Prelude.{◌≡◌};
    ghost use Rattle.litmus_syntax.specs.declared.error.ParseError.TheVariants.{OutOfMemory};

    ghost from_gives = { λ _ e. e ≡ OutOfMemory };

    fn from(_: AllocError) -> ParseError {
        ParseError::OutOfMemory
    }
}

impl<T: Drop> From<AllocFailed<T>> for ParseError {
    ghost use Rattle.std.specs.Prelude.{◌≡◌};
    ghost use Rattle.litmus_syntax.specs.declared.error.ParseError.TheVariants.{OutOfMemory};

    ghost from_gives = { λ _ e. e ≡ OutOfMemory };

    fn from(_: AllocFailed<T>) -> ParseError {
        ParseError::OutOfMemory
    }
}
