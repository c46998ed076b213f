//! Why nothing is shown of a row.

use litmus_parse::ParseError;
use std::alloc::{AllocError, AllocFailed};

/// Why nothing is shown of a row.
#[derive(Clone, Copy)]
pub enum Fault {
    /// It is none.
    NoRow,
    /// Its litmus text is refused.
    Refused(ParseError),
    /// Its rules or places make no task, or memory was refused to it.
    NoTask,
    OutOfMemory,
}

impl From<AllocError> for Fault {
    fn from(_: AllocError) -> Fault {
        Fault::OutOfMemory
    }
}

impl<T: Drop> From<AllocFailed<T>> for Fault {
    fn from(_: AllocFailed<T>) -> Fault {
        Fault::OutOfMemory
    }
}

impl From<ParseError> for Fault {
    fn from(error: ParseError) -> Fault {
        match error {
            ParseError::OutOfMemory => Fault::OutOfMemory,
            refusal => Fault::Refused(refusal),
        }
    }
}
