//! Why nothing comes of a row.

use setup_access::CheckerError;
use slot_table::BoardError;
use std::alloc::{AllocError, AllocFailed};

/// Why nothing comes of a row.
#[derive(Clone, Copy)]
pub enum Refusal {
    OutOfMemory,
    /// Its words say nothing.
    NoRow,
    /// It bends a list, and there is none above it.
    NoList,
    /// What it bends isn't there.
    NothingToBend,
    /// An access has no bytes.
    NoBytes,
    /// Two accesses have one ticket.
    EqualTickets,
    /// A task is asked for a step, and has none.
    NoStep,
    /// A step names a word that the board hasn't.
    OffBoard,
    /// The rules make no board or no checker.
    BadRules,
    /// The tasks go on for too long.
    NoEnd,
}

impl Refusal {
    /// That in words.
    pub fn words(self) -> &'static str {
        match self {
            Refusal::OutOfMemory => "out of memory",
            Refusal::NoRow => "no row",
            Refusal::NoList => "no list above it",
            Refusal::NothingToBend => "nothing to bend",
            Refusal::NoBytes => "an access without bytes",
            Refusal::EqualTickets => "two accesses with one ticket",
            Refusal::NoStep => "a task that has no step",
            Refusal::OffBoard => "a step off the board",
            Refusal::BadRules => "rules without a checker",
            Refusal::NoEnd => "no end",
        }
    }
}

impl From<AllocError> for Refusal {
    fn from(_: AllocError) -> Refusal {
        Refusal::OutOfMemory
    }
}

impl<T: Drop> From<AllocFailed<T>> for Refusal {
    fn from(_: AllocFailed<T>) -> Refusal {
        Refusal::OutOfMemory
    }
}

impl From<BoardError> for Refusal {
    fn from(error: BoardError) -> Refusal {
        match error {
            BoardError::BadSlots => Refusal::BadRules,
            BoardError::OutOfMemory => Refusal::OutOfMemory,
        }
    }
}

impl From<CheckerError> for Refusal {
    fn from(error: CheckerError) -> Refusal {
        match error {
            CheckerError::BadSlots => Refusal::BadRules,
            CheckerError::OutOfMemory => Refusal::OutOfMemory,
        }
    }
}
