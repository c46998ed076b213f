//! Worlds that are run to their end.

ghost use Rattle.std.specs.Prelude.{◌≡◌, ◌≢◌, ◌<◌, ◌↔◌, ◌⊎◌, ℕ, IfErr, IsErrOf, IsTrue, List, OnOk, false, replicate, true};
ghost use Rattle.std.specs.List.{range_with_len};
ghost use Rattle.soundness.specs.Headline.{Headline};
ghost use Rattle.executions.specs.execution.Run.{Run};
ghost use Rattle.slot_table.specs.declared.records.Record.{Record};
ghost use Rattle.prepared_program.specs.step_schedule.Order.{asked_by, in_rounds};
ghost use Rattle.prepared_program.specs.step_schedule.Schedule.{entries_of, names_stranger};

use crate::world::{Stepped, World};
use executions::step_bounds::laws::law_few_steps_are_made;
use prepared_program::program_sites::RunError;
use prepared_program::step_schedule::Schedule;
use soundness::laws::law_the_headline_holds;

impl<'a> World<'a> {
    ghost use Rattle.litmus_step.specs.Steps.{LeadsTo, room_in, tasks_in};
    ghost use Rattle.litmus_step.specs.Turns.{AllHaveEnded, Asked, IsStuckAt, LeadsFurther, NobodyIsStuck, RunsOn, StopsAt};

    /// Makes the steps that the schedule says, and then one step of each task that has not ended, in
    /// turn, until all have.
    ///
    /// `BadSchedule`: it names a task that isn't there, and no step was made. `Stuck`: a wait of the
    /// task had as many failed tries as are allowed. The world stands where that was first so.
    pub fn run(&mut self, schedule: &Schedule) -> Result<(), RunError>
        ensures bad_schedule { IsErrOf result RunError.BadSchedule
            ↔ IsTrue (names_stranger (tasks_in self.old) (entries_of schedule.now)) }
        ensures unmoved { IsErrOf result RunError.BadSchedule → self.new ≡ self.old }
        ensures runs { result ≢ Err RunError.BadSchedule → RunsOn self.old (entries_of schedule.now) self.new }
        ensures stuck { (task : ℕ) → result ≡ Err (RunError.Stuck task) → (task < tasks_in self.new) × IsStuckAt self.new task }
        ensures over { OnOk result (AllHaveEnded self.new) }
        ensures errors { IfErr result (λ error. (error ≡ RunError.BadSchedule) ⊎ ((task : ℕ) × (error ≡ RunError.Stuck task))) }
        ensures tasks { tasks_in self.new ≡ tasks_in self.old }
        ensures sites { self.new.sites ≡ self.old.sites }
        ensures room { room_in self.new ≡ room_in self.old }
        ensures headline { (run : Run) (records : List Record) → (leads : LeadsTo run records self.new) → Headline leads.list }
    {
        law_the_headline_holds();
        if schedule.names_stranger(self.tasks.len() as u64) {
            return Err(RunError::BadSchedule);
        }
        self.nobody_is_stuck()?;
        self.entries(schedule)?;
        self.rounds()
    }

    /// `Stuck`: some task is.
    fn nobody_is_stuck(&self) -> Result<(), RunError>
        ensures free { OnOk result (NobodyIsStuck self.now) }
        ensures stuck { IfErr result (λ error. (task : ℕ) × (error ≡ RunError.Stuck task) × (task < tasks_in self.now)
            × IsStuckAt self.now task) }
    {
        for task in 0..self.tasks.len() {
            if self.tasks[task].stuck() {
                return Err(RunError::Stuck { task });
            }
        }
        Ok(())
    }

    /// The tasks make the steps that the schedule says.
    fn entries(&mut self, schedule: &Schedule) -> Result<(), RunError>
        requires named { names_stranger (tasks_in self.old) (entries_of schedule.now) ≡ false }
        requires nobody { NobodyIsStuck self.old }
        ensures asked { OnOk result (Asked self.old (asked_by (entries_of schedule.now)) self.new × NobodyIsStuck self.new) }
        ensures stops { IfErr result (StopsAt self.old (asked_by (entries_of schedule.now)) self.new) }
        ensures tasks { tasks_in self.new ≡ tasks_in self.old }
        ensures sites { self.new.sites ≡ self.old.sites }
        ensures room { room_in self.new ≡ room_in self.old }
    {
        for entry in schedule.entries() {
            self.steps_of(entry.task as usize, entry.steps)?;
        }
        Ok(())
    }

    /// A task makes so many steps, or those that it has left.
    fn steps_of(&mut self, task: usize, count: u64) -> Result<(), RunError>
        requires there { task < tasks_in self.old }
        requires nobody { NobodyIsStuck self.old }
        ensures asked { OnOk result (Asked self.old (replicate count task) self.new × NobodyIsStuck self.new) }
        ensures stops { IfErr result (StopsAt self.old (replicate count task) self.new) }
        ensures tasks { tasks_in self.new ≡ tasks_in self.old }
        ensures sites { self.new.sites ≡ self.old.sites }
        ensures room { room_in self.new ≡ room_in self.old }
    {
        for _made in 0..count {
            match self.step(task) {
                Stepped::Moved => {}
                Stepped::Ended => return Ok(()),
                Stepped::Stuck => return Err(RunError::Stuck { task }),
            }
        }
        Ok(())
    }

    /// The tasks take turns, until all have ended, which they do long before so many rounds: each round makes a step.
    fn rounds(&mut self) -> Result<(), RunError>
        requires { NobodyIsStuck self.old }
        ensures asked { OnOk result ((rounds : ℕ) × Asked self.old (in_rounds (tasks_in self.old) rounds) self.new) }
        ensures over { OnOk result (AllHaveEnded self.new) }
        ensures stops { IfErr result (λ error. (rounds : ℕ) × StopsAt self.old (in_rounds (tasks_in self.old) rounds) self.new error) }
        ensures tasks { tasks_in self.new ≡ tasks_in self.old }
        ensures sites { self.new.sites ≡ self.old.sites }
        ensures room { room_in self.new ≡ room_in self.old }
    {
        law_few_steps_are_made();
        for _round in 0..u128::MAX {
            if !self.round()? {
                return Ok(());
            }
        }
        Ok(())
    }

    /// Each task that has not ended makes one step, from task 0 on. Whether one goes on.
    fn round(&mut self) -> Result<bool, RunError>
        requires { NobodyIsStuck self.old }
        ensures asked { OnOk result (Asked self.old (range_with_len 0 (tasks_in self.old)) self.new × NobodyIsStuck self.new) }
        ensures ended { result ≡ Ok false → AllHaveEnded self.new }
        ensures further { result ≡ Ok true → LeadsFurther 1 self.old self.new }
        ensures stops { IfErr result (StopsAt self.old (range_with_len 0 (tasks_in self.old)) self.new) }
        ensures tasks { tasks_in self.new ≡ tasks_in self.old }
        ensures sites { self.new.sites ≡ self.old.sites }
        ensures room { room_in self.new ≡ room_in self.old }
    {
        let mut goes_on = false;
        for task in 0..self.tasks() {
            match self.step(task) {
                Stepped::Moved => goes_on = true,
                Stepped::Ended => {}
                Stepped::Stuck => return Err(RunError::Stuck { task }),
            }
        }
        Ok(goes_on)
    }
}
