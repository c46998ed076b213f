//! Why the runs of a litmus text have no output.

ghost use Rattle.std.specs.Prelude.{◌≡◌};
ghost use Rattle.prepared_program.specs.declared.program_sites.error.RunError.TheVariants.{OutOfMemory};
ghost use Rattle.run_output.specs.declared.error.EngineError.TheVariants.{Run, Text};

use litmus_step::RunError;
use litmus_syntax::ParseError;
use std::alloc::AllocError;
use thiserror::Error;

/// Why the runs of a litmus text have no whole output.
#[derive(Clone, Copy, Debug, PartialEq, Eq, Error)]
pub enum EngineError {
    /// The text is refused.
    #[error("{0}")]
    Text(ParseError),
    /// The program that it spells can't be run, or a run of it doesn't come to its end.
    #[error("{0}")]
    Run(RunError),
    /// The sink failed, and holds a beginning of the output.
    #[error("cannot write")]
    SinkFailed,
}

impl From<AllocError> for EngineError {
    ghost from_gives = { λ _ e. e ≡ Run OutOfMemory };

    fn from(_error: AllocError) -> EngineError {
        EngineError::Run(RunError::OutOfMemory)
    }
}

impl From<ParseError> for EngineError {
    ghost from_gives = { λ error e. e ≡ Text error };

    fn from(error: ParseError) -> EngineError {
        EngineError::Text(error)
    }
}

impl From<RunError> for EngineError {
    ghost from_gives = { λ error e. e ≡ Run error };

    fn from(error: RunError) -> EngineError {
        EngineError::Run(error)
    }
}
