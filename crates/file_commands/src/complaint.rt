//! What standard error is told.

ghost use Rattle.std.specs.Prelude.{◌≡◌};
ghost use Rattle.file_commands.specs.Statuses.{complaint_status_of};
ghost use Rattle.file_commands.specs.declared.failure.Failure.TheVariants.{OutOfMemory};
ghost use Rattle.file_commands.specs.declared.complaint.Complaint.TheVariants as complaints;

use crate::failure::{Failure, NO_REPORT, REFUSED, USAGE};
use diagnostics::check_output::Lines;
use std::alloc::AllocError;
use thiserror::Error;

/// Why the program doesn't do what it is asked, or what it warns of. Its text goes to standard error.
#[derive(Debug, Drop, Error)]
pub enum Complaint {
    /// What is wrong with the words.
    #[error("{0}")]
    Usage(clap::Error),
    /// Why the program does not end well.
    #[error("kcsan_litmus: {0}\n")]
    Failure(Failure),
    /// So, with lines that say more of it.
    #[error("kcsan_litmus: {0}\n{1}")]
    Explained(Failure, Lines),
    /// What comes of a file would be written over it, as this line says.
    #[error("kcsan_litmus: {0}")]
    Overwrites(Lines),
    /// Parts of a search are no whole one, as this line says.
    #[error("kcsan_litmus: {0}")]
    Unjoined(Lines),
    /// The warnings on a file that is read, a line each.
    #[error("{0}")]
    Warned(Lines),
}

impl From<AllocError> for Complaint {
    ghost from_gives = { λ _ said. said ≡ complaints.Failure OutOfMemory };

    fn from(_error: AllocError) -> Complaint {
        Complaint::Failure(Failure::OutOfMemory)
    }
}

impl Complaint {
    /// The status that it comes with.
    pub fn status(&self) -> u8
        ensures { result ≡ complaint_status_of self.now }
    {
        match self {
            Complaint::Usage(_) | Complaint::Overwrites(_) => USAGE,
            Complaint::Failure(failure) | Complaint::Explained(failure, _) => failure.status(),
            Complaint::Unjoined(_) => REFUSED,
            Complaint::Warned(_) => NO_REPORT,
        }
    }
}
