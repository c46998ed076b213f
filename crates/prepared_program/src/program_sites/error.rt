//! Why a program can't be made ready, and why a run of it doesn't come to its end.

ghost use Rattle.std.specs.Prelude.{◌≡◌};

use crate::program_layout::LayoutError;
use std::alloc::AllocError;
use thiserror::Error;

/// Why a program can't be run under some settings, or why a run of it doesn't come to its end.
#[derive(Clone, Copy, Debug, PartialEq, Eq, Error)]
pub enum RunError {
    /// There are fewer than 3 page slots, or more than 1,024.
    #[error("there are 3 to 1024 slots")]
    BadSlots,
    /// A place is no multiple of its variable's size or is above 2^62, its name is unknown, a lock's,
    /// or placed twice.
    #[error("bad place")]
    BadPlace,
    #[error("out of memory")]
    OutOfMemory,
    /// A wait of the task had as many failed tries as are allowed. Of several such tasks on threads it is the smallest.
    #[error("task {task} is stuck")]
    Stuck { task: usize },
    /// The schedule names a task that isn't there.
    #[error("bad schedule")]
    BadSchedule,
    /// A thread couldn't be started.
    #[error("no thread")]
    NoThread,
}

impl From<AllocError> for RunError {
    ghost use Rattle.prepared_program.specs.declared.program_sites.error.RunError.TheVariants.{OutOfMemory};

    ghost from_gives = { λ _ e. e ≡ OutOfMemory };

    fn from(_: AllocError) -> RunError {
        RunError::OutOfMemory
    }
}

impl From<LayoutError> for RunError {
    ghost use Rattle.prepared_program.specs.program_sites.Errors.{of_layout};

    ghost from_gives = { λ error e. e ≡ of_layout error };

    fn from(error: LayoutError) -> RunError {
        match error {
            LayoutError::BadPlace => RunError::BadPlace,
            LayoutError::OutOfMemory => RunError::OutOfMemory,
        }
    }
}
