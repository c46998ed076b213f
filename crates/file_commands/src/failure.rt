//! Why the program does not end well, and the statuses that it ends with.

ghost use Rattle.std.specs.Prelude.{◌≡◌};
ghost use Rattle.file_commands.specs.Failures.{read_failure};
ghost use Rattle.file_commands.specs.Statuses.{engine_status_of, picture_status_of, run_status_of, status_of, text_status_of, trace_status_of};
ghost use Rattle.file_commands.specs.declared.failure.Failure.TheVariants.{Engine, OutOfMemory, Picture, Trace};

use crate::desk::ReadFault;
use litmus_parse::ParseError;
use litmus_step::RunError;
use run_output::EngineError;
use std::alloc::AllocError;
use thiserror::Error;
use timeline::picture::PictureError;
use trace_replay::TraceError;

/// The program ran, and there was no report; or it has no race, or nothing was to be run.
pub const NO_REPORT: u8 = 0;

/// The program ran, and there was a report; or it has a race.
pub const REPORTED: u8 = 2;

/// The words make no sense.
pub const USAGE: u8 = 64;

/// A file is refused.
pub(crate) const REFUSED: u8 = 65;

/// A file can't be read.
pub const UNREADABLE: u8 = 66;

/// A task is stuck.
const STUCK: u8 = 70;

/// Memory ran out.
pub const OUT_OF_MEMORY: u8 = 71;

/// Output can't be written.
const UNWRITABLE: u8 = 74;

/// A search was stopped, and there was no report, or no race, so far.
pub const STOPPED: u8 = 75;

/// Why the program does not end well. Its text goes to standard error.
#[derive(Clone, Copy, Debug, PartialEq, Eq, Error)]
pub enum Failure {
    #[error("bad schedule")]
    BadSchedule,
    #[error("bad place")]
    BadPlace,
    #[error("cannot read")]
    CannotRead,
    #[error("cannot write")]
    CannotWrite,
    #[error("out of memory")]
    OutOfMemory,
    #[error("{0}")]
    Engine(EngineError),
    #[error("{0}")]
    Trace(TraceError),
    #[error("{0}")]
    Picture(PictureError),
    /// The program of the source can't have made the accesses of the trace.
    #[error("source does not fit the trace")]
    OtherSource,
}

impl From<AllocError> for Failure {
    ghost from_gives = { λ _ failure. failure ≡ OutOfMemory };

    fn from(_error: AllocError) -> Failure {
        Failure::OutOfMemory
    }
}

impl From<ReadFault> for Failure {
    ghost from_gives = { λ fault failure. failure ≡ read_failure fault };

    fn from(fault: ReadFault) -> Failure {
        match fault {
            ReadFault::OutOfMemory => Failure::OutOfMemory,
            ReadFault::CannotRead => Failure::CannotRead,
        }
    }
}

impl From<EngineError> for Failure {
    ghost from_gives = { λ error failure. failure ≡ Engine error };

    fn from(error: EngineError) -> Failure {
        Failure::Engine(error)
    }
}

impl From<TraceError> for Failure {
    ghost from_gives = { λ error failure. failure ≡ Trace error };

    fn from(error: TraceError) -> Failure {
        Failure::Trace(error)
    }
}

impl From<PictureError> for Failure {
    ghost from_gives = { λ error failure. failure ≡ Picture error };

    fn from(error: PictureError) -> Failure {
        Failure::Picture(error)
    }
}

impl Failure {
    /// The status that the program ends with.
    pub fn status(self) -> u8
        ensures { result ≡ status_of self }
    {
        match self {
            Failure::BadSchedule | Failure::BadPlace => USAGE,
            Failure::CannotRead => UNREADABLE,
            Failure::CannotWrite => UNWRITABLE,
            Failure::OutOfMemory => OUT_OF_MEMORY,
            Failure::Engine(error) => engine_status(error),
            Failure::Trace(error) => trace_status(error),
            Failure::Picture(error) => picture_status(error),
            Failure::OtherSource => REFUSED,
        }
    }
}

/// The status for a litmus text that is refused.
fn text_status(error: ParseError) -> u8
    ensures { result ≡ text_status_of error }
{
    match error {
        ParseError::OutOfMemory => OUT_OF_MEMORY,
        ParseError::Syntax { .. }
        | ParseError::Unsupported { .. }
        | ParseError::Limit(_)
        | ParseError::NotAscii => REFUSED,
    }
}

/// The status for a program that can't be run, or whose run doesn't come to its end.
fn run_status(error: RunError) -> u8
    ensures { result ≡ run_status_of error }
{
    match error {
        // Slots, places and schedules come from the words, and the file has no fault.
        RunError::BadSlots | RunError::BadPlace | RunError::BadSchedule => USAGE,
        RunError::OutOfMemory | RunError::NoThread => OUT_OF_MEMORY,
        RunError::Stuck { .. } => STUCK,
    }
}

/// The status for a file that has no output.
fn engine_status(error: EngineError) -> u8
    ensures { result ≡ engine_status_of error }
{
    match error {
        EngineError::Text(error) => text_status(error),
        EngineError::Run(error) => run_status(error),
        EngineError::SinkFailed => UNWRITABLE,
    }
}

/// The status for a trace that is not accepted.
fn trace_status(error: TraceError) -> u8
    ensures { result ≡ trace_status_of error }
{
    match error {
        TraceError::OutOfMemory => OUT_OF_MEMORY,
        TraceError::BadTrace { .. } | TraceError::FalseReport { .. } => REFUSED,
    }
}

/// The status for a trace that is not drawn.
fn picture_status(error: PictureError) -> u8
    ensures { result ≡ picture_status_of error }
{
    match error {
        PictureError::Trace(error) => trace_status(error),
        PictureError::TooLong => REFUSED,
    }
}
