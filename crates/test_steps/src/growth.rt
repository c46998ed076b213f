//! Makes a task of a program, and says by the status where memory was refused. With each growth of memory refused in
//! turn it shows that the task, whose room is taken as it is made, answers each by want of memory.

ghost use Rattle.litmus_syntax.specs.Limits.{KeepsLimits};
ghost use Rattle.litmus_syntax.specs.Views.{program_of};

use crate::play::parsed;
use litmus_parse::{ParseError, Program};
use prepared_program::program_sites::{RunError, Settings};
use std::alloc::Global;
use std::process::ExitCode;
use task_run::TaskRun;
use watch_word::Layout;

/// The status where the task's own room is refused.
const OUT_OF_MEMORY: u8 = 71;

/// The status where memory is refused before.
pub const BEFORE: u8 = 75;

/// The status of all else.
const OTHERWISE: u8 = 1;

/// Loops, conditions and a scoped assertion in each other.
const TEXT: &str =
    "C t\n{}\nP0(int *x, spinlock_t *l) { int r0; int i; ASSERT_EXCLUSIVE_WRITER_SCOPED(*x); \
    for (i = 0; i < 3; i++) { spin_lock(l); if (*x) { r0 = READ_ONCE(*x); } spin_unlock(l); } }\nexists (0:r0=1)\n";

/// Where it ended.
#[derive(Clone, Copy)]
enum End {
    Before,
    Task(RunError),
}

impl From<ParseError> for End {
    fn from(_: ParseError) -> End {
        End::Before
    }
}

impl From<RunError> for End {
    fn from(error: RunError) -> End {
        End::Task(error)
    }
}

/// Each access is watched that may be.
fn settings(alloc: Global) -> Settings {
    Settings {
        slots: 64,
        skip: 0,
        randomize: false,
        seed: 1,
        value_change_only: true,
        plain_writes_atomic: true,
        layout: Layout::W64,
        turns: 1000,
        places: Vec::new(alloc),
    }
}

/// Whether the task has a first step.
fn has_step(alloc: Global, program: &Program) -> Result<bool, RunError>
    requires { KeepsLimits (program_of program.now) }
{
    if program.tasks.as_slice().is_empty() {
        return Ok(false);
    }
    let run = TaskRun::new(alloc, program, &settings(alloc), 0)?;
    Ok(run.next().is_some())
}

/// Reads the text, and makes its task.
fn made(alloc: Global) -> Result<bool, End> {
    let program = parsed(alloc, TEXT)?;
    Ok(has_step(alloc, &program)?)
}

/// The status of the task that is made.
pub fn status_of_growth(alloc: Global) -> ExitCode {
    match made(alloc) {
        Ok(true) => ExitCode::SUCCESS,
        Err(End::Task(RunError::OutOfMemory)) => ExitCode::from(OUT_OF_MEMORY),
        Err(End::Before) => ExitCode::from(BEFORE),
        Ok(false) | Err(_) => ExitCode::from(OTHERWISE),
    }
}
