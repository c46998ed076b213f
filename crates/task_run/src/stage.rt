//! The part of its text that a task is in.

ghost use Rattle.std.specs.Prelude.{◌≡◌};
ghost use Rattle.task_run.specs.Loaded.{part_loaded};

use access_run::AccessRun;
use access_run::memory_operation::LockWait;
use task_plan::Then;

/// What a task is doing: a part of its text with at least one step, or nothing more.
#[derive(Clone, Copy)]
pub(crate) enum TaskStage<'a> {
    /// Nothing: the text is over.
    Over,
    /// Nothing: what is due needs more than the machine has room for, as more accesses at one site than
    /// tickets tell apart. No program that `parse` reads has such a part.
    Stopped,
    /// An access, and what follows on it.
    Making(AccessRun, Then<'a>),
    /// The check of a scoped assertion, which is in force afterwards.
    Opening,
    /// The last check of the newest scoped assertion in force.
    Closing,
    /// The tries of a lock, by the number of its variable.
    Locking(LockWait, usize),
    /// The step that gives a lock back, by the number of its variable.
    Unlocking(usize),
}

impl<'a> TaskStage<'a> {
    /// What the access has read, or its next exchange compares its cell with; 0 where there is none.
    pub(crate) fn loaded(&self) -> u64
        ensures { result ≡ part_loaded self.now }
    {
        match self {
            TaskStage::Making(run, _) => run.loaded(),
            TaskStage::Over
            | TaskStage::Stopped
            | TaskStage::Opening
            | TaskStage::Closing
            | TaskStage::Locking(_, _)
            | TaskStage::Unlocking(_) => 0,
        }
    }

    /// The same once more.
    pub(crate) fn copy(&self) -> TaskStage<'a>
        ensures { result ≡ self.now }
    {
        match self {
            TaskStage::Over => TaskStage::Over,
            TaskStage::Stopped => TaskStage::Stopped,
            TaskStage::Making(run, after) => TaskStage::Making(*run, *after),
            TaskStage::Opening => TaskStage::Opening,
            TaskStage::Closing => TaskStage::Closing,
            TaskStage::Locking(wait, variable) => TaskStage::Locking(*wait, *variable),
            TaskStage::Unlocking(variable) => TaskStage::Unlocking(*variable),
        }
    }
}
