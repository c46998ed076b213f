//! A task at its seat, and its steps on the shared words.

ghost use Rattle.std.specs.Prelude.{◌≡◌, ◌⊎◌, ◌<◌, ℕ, IfErr, IfOk, IsErrOf};
ghost use Rattle.runner.specs.TaskResult.{IsFound, IsFailedWait};
ghost use Rattle.runner.specs.Machine.{MakesNoMore};
ghost use Rattle.runner.specs.Seated.{IsSeated};
ghost use Rattle.runner.specs.Terms.{AreTerms, run_by};
ghost use Rattle.prepared_program.specs.declared.program_sites.error.RunError.TheVariants.{OutOfMemory, Stuck};
ghost use Rattle.runner.specs.declared.terms.Terms.{Terms};

use crate::hooks::{Gate, Stall, comes_to, has_passed, waits};
use crate::laws::law_seats_lead_on;
use crate::terms::Terms;
use access_types::Report;
use litmus_step::RunError;
use litmus_step::logs::note;
use log_correctness::bounds::law_few_watches_are_over;
use log_correctness::standing::law_machines_stand_where_the_records_tell;
use shared_table::TaskSeat;
use slot_table::Board;
use std::alloc::Global;
use std::sync::{Wait, WaitMethods};
use task_log::{Noted, TaskLog};
use task_run::TaskRun;
use task_run::laws::law_no_task_stops;

/// A task with its seat before the shared words.
#[derive(Drop)]
pub(crate) struct SeatedTask<'t> {
    pub(crate) number: u32,
    pub(crate) run: TaskRun<'t>,
    pub(crate) seat: TaskSeat,
    pub(crate) log: TaskLog,
    pub(crate) reports: Vec<Report>,
}

/// What is found of a task that has made the steps of its whole text.
#[derive(Drop)]
pub(crate) struct TaskResult {
    pub(crate) seat: TaskSeat,
    pub(crate) log: TaskLog,
    pub(crate) reports: Vec<Report>,
    pub(crate) registers: Vec<u64>,
    pub(crate) unbalanced: u64,
}

impl<'t> SeatedTask<'t> {
    /// Makes the task's steps, each by the one before, until it has made those of its whole text.
    ///
    /// `Stuck`: a wait of it had as many failed tries as are allowed. `OutOfMemory`: there was no room for its
    /// registers.
    pub(crate) fn runs<R: Wait, S: Stall, G: Gate>(
        self,
        rt: &R,
        alloc: Global,
        terms: Terms<'t>,
        stall: &S,
        gate: &G,
    ) -> Result<TaskResult, RunError>
        requires terms { AreTerms terms }
        requires seated { IsSeated terms self.number self }
        ensures found { IfOk result (IsFound (run_by terms.entry) terms.entry.table.now self.entry.number) }
        ensures errors { IfErr result (λ error. (error ≡ Stuck self.entry.number) ⊎ (error ≡ OutOfMemory)) }
        ensures stuck { IsErrOf result (Stuck self.entry.number) → IsFailedWait (run_by terms.entry) self.entry.number }
    {
        self.steps(rt, terms, stall, gate).found(alloc)
    }

    /// Makes the task's steps, each by the one before, until there is none that it makes next. After a failed try of a
    /// wait it lets others run: the one that it waits for may be delaying, or have no processor.
    fn steps<R: Wait, S: Stall, G: Gate>(
        self,
        rt: &R,
        terms: Terms<'t>,
        stall: &S,
        gate: &G,
    ) -> SeatedTask<'t>
        requires terms { AreTerms terms }
        requires seated { IsSeated terms self.number self }
        ensures seated { IsSeated terms.entry self.entry.number result }
        ensures over { MakesNoMore result.run }
    {
        law_seats_lead_on();
        let SeatedTask {
            number,
            mut run,
            seat,
            mut log,
            mut reports,
        } = self;
        let task = number as usize;
        let mut board = terms.table.board(seat);
        for _ in rt.forever() {
            let Some(step) = run.next() else {
                break;
            };
            comes_to(stall, gate, task, run.before(step));
            let begins = run.begins();
            let answer = board.step(step);
            run.answer(step, answer);
            let noted = Noted {
                step,
                answer,
                begins,
                outcome: run.last_outcome(),
            };
            note(&mut log, &mut reports, &noted);
            has_passed(gate, task, run.after());
            waits(stall, task, step, answer, &run);
        }
        // Also of a task that is stuck: no delay is to wait any more for one that makes no step.
        stall.over(task);
        SeatedTask {
            number,
            run,
            seat: board.into_seat(),
            log,
            reports,
        }
    }

    /// What is found of the task, which makes no step more.
    ///
    /// `Stuck`: a wait of it had as many failed tries as are allowed. `OutOfMemory`: there was no room for its
    /// registers.
    fn found(self, alloc: Global) -> Result<TaskResult, RunError>
        requires over { MakesNoMore self.run }
        ensures found { (terms : Terms) → AreTerms terms → IsSeated terms self.entry.number self.entry
            → IfOk result (IsFound (run_by terms) terms.table.now self.entry.number) }
        ensures errors { IfErr result (λ error. (error ≡ Stuck self.entry.number) ⊎ (error ≡ OutOfMemory)) }
        ensures stuck { (terms : Terms) → AreTerms terms → IsSeated terms self.entry.number self.entry
            → IsErrOf result (Stuck self.entry.number) → IsFailedWait (run_by terms) self.entry.number }
    {
        law_no_task_stops();
        law_machines_stand_where_the_records_tell();
        law_few_watches_are_over();
        // A stuck task may have a check unfinished, with which its seat can't be gathered: so its run has no result.
        if self.run.stuck() {
            return Err(RunError::Stuck {
                task: self.number as usize,
            });
        }
        let registers = self.run.registers().to_vec(alloc)?;
        let unbalanced = self.run.unbalanced();
        Ok(TaskResult {
            seat: self.seat,
            log: self.log,
            reports: self.reports,
            registers,
            unbalanced,
        })
    }
}
