//! Why nothing comes of a row.

use access_types::AccessError;
use litmus_parse::ParseError;
use prepared_program::program_layout::LayoutError;
use setup_access::CheckerError;
use slot_table::BoardError;
use std::alloc::{AllocError, AllocFailed};

/// Why nothing comes of a row.
#[derive(Clone, Copy)]
pub enum Fault {
    /// It doesn't say what a row has to say.
    NoRow,
    /// Memory is refused.
    OutOfMemory,
}

/// What came of writing something.
pub fn written(pushed: Result<(), AllocError>) -> Result<(), Fault> {
    Ok(pushed?)
}

impl From<AllocError> for Fault {
    fn from(_: AllocError) -> Fault {
        Fault::OutOfMemory
    }
}

impl<T: Drop> From<AllocFailed<T>> for Fault {
    fn from(_: AllocFailed<T>) -> Fault {
        Fault::OutOfMemory
    }
}

impl From<BoardError> for Fault {
    fn from(error: BoardError) -> Fault {
        match error {
            BoardError::OutOfMemory => Fault::OutOfMemory,
            BoardError::BadSlots => Fault::NoRow,
        }
    }
}

impl From<CheckerError> for Fault {
    fn from(error: CheckerError) -> Fault {
        match error {
            CheckerError::OutOfMemory => Fault::OutOfMemory,
            CheckerError::BadSlots => Fault::NoRow,
        }
    }
}

impl From<AccessError> for Fault {
    fn from(_: AccessError) -> Fault {
        Fault::NoRow
    }
}

impl From<LayoutError> for Fault {
    fn from(error: LayoutError) -> Fault {
        match error {
            LayoutError::OutOfMemory => Fault::OutOfMemory,
            LayoutError::BadPlace => Fault::NoRow,
        }
    }
}

impl From<ParseError> for Fault {
    fn from(error: ParseError) -> Fault {
        match error {
            ParseError::OutOfMemory => Fault::OutOfMemory,
            _ => Fault::NoRow,
        }
    }
}
