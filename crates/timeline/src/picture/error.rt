//! Why there is no picture.

use std::alloc::AllocError;
use thiserror::Error;
use trace_replay::TraceError;

/// Why there is no picture of a trace.
#[derive(Clone, Copy, Debug, PartialEq, Eq, Error)]
pub enum PictureError {
    /// The trace is not accepted, or memory ran out.
    #[error("{0}")]
    Trace(TraceError),
    /// The trace has more than 10,000 accesses.
    #[error("limit: picture")]
    TooLong,
}

impl From<AllocError> for PictureError {
    ghost use Rattle.std.specs.Prelude.{◌≡◌};
    ghost use Rattle.timeline.specs.declared.picture.error.PictureError.TheVariants.{Trace};
    ghost use Rattle.trace_replay.specs.declared.accepted.TraceError.TheVariants.{OutOfMemory};

    ghost from_gives = { λ _ error. error ≡ Trace OutOfMemory };

    fn from(_error: AllocError) -> PictureError {
        PictureError::Trace(TraceError::OutOfMemory)
    }
}

impl From<TraceError> for PictureError {
    ghost use Rattle.std.specs.Prelude.{◌≡◌};
    ghost use Rattle.timeline.specs.declared.picture.error.PictureError.TheVariants.{Trace};

    ghost from_gives = { λ fault error. error ≡ Trace fault };

    fn from(fault: TraceError) -> PictureError {
        PictureError::Trace(fault)
    }
}
