//! A spin lock.

ghost use Rattle.std.specs.Prelude.{◌≡◌, ◌↔◌, ◌++◌, ◌∷◌, [], ℕ, List, IfSome, IsNone, IsTrue};
ghost use Rattle.access_run.specs.memory_operation.LockLeads.{IsStuckAtLock, LockIsOver, LockIsTaken, LockLeads, LockSays, OnlyLockStep};
ghost use Rattle.access_run.specs.memory_operation.Locks.{TakesLock};
ghost use Rattle.setup_access.specs.Parts.{made};
ghost use Rattle.slot_table.specs.Answer.{Answers};
ghost use Rattle.slot_table.specs.declared.records.Record.{Record};
ghost use Rattle.slot_table.specs.declared.step.Step.{Step};

use slot_table::{Answer, Step};

/// A task that tries a lock until it has it.
#[derive(Clone, Copy, PartialEq, Eq)]
pub struct LockWait {
    task: u32,
    lock: usize,
    tries: u64,
    is_taken: bool,
}

impl LockWait {
    /// A task that hasn't tried yet.
    pub fn new(task: u32, lock: usize) -> LockWait
        ensures { LockLeads task lock [] result }
    {
        LockWait {
            task,
            lock,
            tries: 0,
            is_taken: false,
        }
    }

    /// The task has the lock.
    #[inline(always)]
    pub fn is_taken(&self) -> bool
        ensures records { (task lock : ℕ) (records : List Record) → LockLeads task lock records self.now
            → (IsTrue result ↔ TakesLock task lock records []) }
        ensures complete { (task lock : ℕ) (records : List Record) → LockLeads task lock records self.now
            → TakesLock task lock records [] → LockIsTaken task lock records }
    {
        self.is_taken
    }

    /// The lock was refused so often as failed tries are allowed.
    #[inline(always)]
    pub fn stuck(&self, turns: u64) -> bool
        ensures { (task lock : ℕ) (records : List Record) → LockLeads task lock records self.now
            → (IsTrue result ↔ IsStuckAtLock turns task lock records) }
    {
        if self.is_taken {
            return false;
        }
        self.tries >= turns
    }

    /// The step that the task makes next; none where it has the lock or is stuck.
    #[inline(always)]
    pub fn next(&self, turns: u64) -> Option<Step>
        ensures says { IfSome result (λ step. LockSays self.now step) }
        ensures only { (task lock : ℕ) (records : List Record) → LockLeads task lock records self.now
            → IfSome result (OnlyLockStep task lock records) }
        ensures none { (task lock : ℕ) (records : List Record) → LockLeads task lock records self.now
            → (IsNone result ↔ LockIsOver turns task lock records) }
    {
        if self.is_taken || self.stuck(turns) {
            return None;
        }
        Some(Step::LockTry(self.lock, self.task))
    }

    /// Takes the answer of the step.
    #[inline(always)]
    pub fn answer(&mut self, answer: Answer)
        requires { (step : Step) × LockSays self.old step × Answers step answer }
        ensures { (task lock : ℕ) (records : List Record) (step : Step)
            → LockLeads task lock records self.old → LockSays self.old step
            → LockLeads task lock (records ++ made task step answer ∷ []) self.new }
    {
        match answer {
            Answer::Flag(true) => self.is_taken = true,
            Answer::Flag(false) => self.tries = self.tries.saturating_add(1),
            _ => unreachable!(),
        }
    }
}
