//! What is answered of a trace.

use std::alloc::AllocError;
use thiserror::Error;

/// Why a trace is not accepted. Lines are numbered from 1, and a file above the limit fails at 0.
#[derive(Clone, Copy, Debug, PartialEq, Eq, Error)]
pub enum TraceError {
    /// Memory ran out.
    #[error("out of memory")]
    OutOfMemory,
    /// The first line that fails has no form of a line, or may not stand there.
    #[error("line {line}: bad trace")]
    BadTrace { line: u64 },
    /// The first line that fails may stand there, and is not true.
    #[error("line {line}: false report")]
    FalseReport { line: u64 },
}

impl From<AllocError> for TraceError {
    ghost use Rattle.std.specs.Prelude.{◌≡◌};
    ghost use Rattle.trace_replay.specs.declared.accepted.TraceError.TheVariants.{OutOfMemory};

    ghost from_gives = { λ _ error. error ≡ OutOfMemory };

    fn from(_error: AllocError) -> TraceError {
        TraceError::OutOfMemory
    }
}

/// How many lines of each kind a true trace has, by its version.
#[derive(Clone, Copy, Debug, PartialEq, Eq)]
pub enum Accepted {
    /// Version 1.
    First {
        accesses: usize,
        reports: usize,
    },
    /// Version 2.
    Second {
        accesses: usize,
        arms: usize,
        takes: usize,
        reports: usize,
    },
}
