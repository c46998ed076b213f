//! What a task keeps of its steps.

ghost use Rattle.std.specs.Prelude.{◌≡◌, ◌<◌, ◌≤◌, ◌++◌, ◌∷◌, [], ℕ, List, IfOk, length, vec_capacity, vec_len};
ghost use Rattle.task_log.specs.Armings.{CountsBySite};
ghost use Rattle.task_log.specs.Arms.{arm_removed, arms_at, arms_of, takes_at, takes_of};
ghost use Rattle.task_log.specs.Counters.{Count};
ghost use Rattle.task_log.specs.Keeps.{HasRoomToRemove, HasRoomToTell, IsLatest, Keeps, room_in};
ghost use Rattle.task_log.specs.Reports.{reported};
ghost use Rattle.task_log.specs.Touches.{accesses_of, touches_of};
ghost use Rattle.task_log.specs.declared.noted.Noted.{Noted};

use crate::armings::Armings;
use crate::counters::Counters;
use crate::latest::Latest;
use crate::noted::Noted;
use crate::touches::{self, Touch};
use access_types::list_copy::copied;
use access_types::{Arm, ArmOutcome, Report, Stamped, Take};
use setup_access::Outcome;
use slot_table::Step;
use std::alloc::{AllocError, Global};

/// What a task keeps of its steps. It takes all its room when it is made.
#[derive(Drop)]
pub struct TaskLog {
    touches: Vec<Touch>,
    arms: Vec<Arm>,
    armings: Armings,
    takes: Vec<Take>,
    latest: Latest,
    counters: Counters,
}

impl TaskLog {
    /// That of a task that has made no step, with room for so many accesses, and for so many armings
    /// and takings.
    pub fn new(alloc: Global, accesses: usize, watches: usize) -> Result<TaskLog, AllocError>
        ensures { IfOk result (Keeps accesses watches []) }
    {
        Ok(TaskLog {
            touches: Vec::with_capacity(alloc, accesses)?,
            arms: Vec::with_capacity(alloc, watches)?,
            armings: Armings::new(alloc)?,
            takes: Vec::with_capacity(alloc, watches)?,
            latest: Latest::new(),
            counters: Counters::new(),
        })
    }

    /// What is kept, once more and with as much room, so that steps can be noted in both. It errs where there is no
    /// memory for it.
    pub fn copy(&self, alloc: Global) -> Result<TaskLog, AllocError>
        ensures keeps { (accesses watches : ℕ) (own : List Noted) → Keeps accesses watches own self.now
            → IfOk result (Keeps accesses watches own) }
        ensures room { IfOk result (λ copy. room_in copy ≡ room_in self.now) }
    {
        Ok(TaskLog {
            touches: copied(alloc, &self.touches)?,
            arms: copied(alloc, &self.arms)?,
            armings: self.armings.copy(alloc)?,
            takes: copied(alloc, &self.takes)?,
            latest: self.latest,
            counters: self.counters,
        })
    }

    /// The next step is noted, an access, an arming or a taking only where there is room for it. What is reported at
    /// the step is answered.
    #[inline(always)]
    pub fn note(&mut self, noted: &Noted) -> Option<Report>
        ensures keeps { (accesses watches : ℕ) (own : List Noted) → Keeps accesses watches own self.old
            → Keeps accesses watches (noted.now ∷ own) self.new }
        ensures reported { (accesses watches : ℕ) (own : List Noted) → Keeps accesses watches own self.old
            → result ≡ reported noted.now.outcome own }
        ensures room { room_in self.new ≡ room_in self.old }
    {
        let report = self.reported(noted);
        touches::note(&mut self.touches, noted);
        self.over(noted);
        self.latest.note(noted);
        self.counters.note(noted);
        report
    }

    /// An arming that is removed and a taking that is told are over.
    #[inline(always)]
    fn over(&mut self, noted: &Noted)
        ensures arms { (own : List Noted) → IsLatest own self.old.latest → CountsBySite self.old.arms.items self.old.armings.sites.items
            → HasRoomToRemove noted.now.step self.old → self.new.arms.items ≡ arms_at noted.now.step own self.old.arms.items }
        ensures counts { CountsBySite self.old.arms.items self.old.armings.sites.items
            → CountsBySite self.new.arms.items self.new.armings.sites.items }
        ensures takes { HasRoomToTell noted.now.step self.old
            → self.new.takes.items ≡ takes_at noted.now.step noted.now.outcome self.old.takes.items }
        ensures kept { self.new ≡ record self.old { arms = self.new.arms; armings = self.new.armings; takes = self.new.takes } }
        ensures room_for_arms { vec_capacity self.new.arms ≡ vec_capacity self.old.arms }
        ensures room_for_sites { vec_capacity self.new.armings.sites ≡ vec_capacity self.old.armings.sites }
        ensures room_for_takes { vec_capacity self.new.takes ≡ vec_capacity self.old.takes }
    {
        match noted.step {
            Step::Remove(index) => self.removes(index),
            Step::Tell(index, ticket) => self.tells(index, ticket, noted.setter_told()),
            _ => {}
        }
    }

    /// The watchpoint that the task set up is removed.
    #[inline(always)]
    fn removes(&mut self, index: usize)
        ensures arms { (own : List Noted) → IsLatest own self.old.latest → CountsBySite self.old.arms.items self.old.armings.sites.items
            → vec_len self.old.arms < vec_capacity self.old.arms
            → self.new.arms.items ≡ self.old.arms.items ++ arm_removed index own self.old.arms.items ∷ [] }
        ensures counts { CountsBySite self.old.arms.items self.old.armings.sites.items
            → CountsBySite self.new.arms.items self.new.armings.sites.items }
        ensures kept { self.new ≡ record self.old { arms = self.new.arms; armings = self.new.armings } }
        ensures room_for_arms { vec_capacity self.new.arms ≡ vec_capacity self.old.arms }
        ensures room_for_sites { vec_capacity self.new.armings.sites ≡ vec_capacity self.old.armings.sites }
    {
        if self.arms.len() == self.arms.capacity() {
            return;
        }
        let setter = self.latest.named.unwrap_or(0);
        let number = self.armings.by(self.arms.as_slice(), setter);
        self.armings.note(setter, number);
        let word = self.latest.armed.unwrap_or(0);
        let outcome = self.latest.became.unwrap_or(ArmOutcome::Quiet);
        self.arms
            .push_reserved(Arm::new(setter, number, index, word, outcome));
    }

    /// The setter of the watchpoint that the task took is told the ticket.
    #[inline(always)]
    fn tells(&mut self, index: usize, ticket: u32, setter: u32)
        ensures takes { vec_len self.old.takes < vec_capacity self.old.takes
            → self.new.takes.items ≡ self.old.takes.items ++ record { finder = ticket; index = index; setter = setter } ∷ [] }
        ensures kept { self.new ≡ record self.old { takes = self.new.takes } }
        ensures room { vec_capacity self.new.takes ≡ vec_capacity self.old.takes }
    {
        if self.takes.len() < self.takes.capacity() {
            self.takes.push_reserved(Take::new(ticket, index, setter));
        }
    }

    /// What is reported at a step.
    #[inline(always)]
    fn reported(&self, noted: &Noted) -> Option<Report>
        ensures { (accesses watches : ℕ) (own : List Noted) → Keeps accesses watches own self.now
            → result ≡ reported noted.now.outcome own }
    {
        match noted.outcome.as_ref()? {
            Outcome::Report { pair, seen } => {
                let (setter, finder) = pair.halves();
                Some(Report::Two {
                    setter,
                    finder,
                    seen: *seen,
                })
            }
            Outcome::Unknown { old, new } => Some(Report::Unknown {
                setter: self.latest.named.unwrap_or(0),
                old: *old,
                new: *new,
            }),
            _ => None,
        }
    }

    /// The accesses that have ended, in the order of their begins.
    pub fn accesses(&self, alloc: Global) -> Result<Vec<Stamped>, AllocError>
        ensures { (accesses watches : ℕ) (own : List Noted) → Keeps accesses watches own self.now
            → length (touches_of own) ≤ accesses → IfOk result (λ all. all.items ≡ accesses_of own) }
    {
        touches::ended(alloc, self.touches.as_slice())
    }

    /// The armings that are over, in the order in which they were removed.
    pub fn arms(&self) -> &[Arm]
        ensures { (accesses watches : ℕ) (own : List Noted) → Keeps accesses watches own self.now
            → length (arms_of own) ≤ watches → result.now ≡ arms_of own }
    {
        self.arms.as_slice()
    }

    /// The takings that are over, in the order in which they were told.
    pub fn takes(&self) -> &[Take]
        ensures { (accesses watches : ℕ) (own : List Noted) → Keeps accesses watches own self.now
            → length (takes_of own) ≤ watches → result.now ≡ takes_of own }
    {
        self.takes.as_slice()
    }

    /// How often each thing came of the task's checks.
    pub fn counters(&self) -> Counters
        ensures { (accesses watches : ℕ) (own : List Noted) → Keeps accesses watches own self.now
            → Count own result }
    {
        self.counters
    }
}
