//! The words and the tasks of runs before their first steps.

ghost use Rattle.std.specs.Prelude.{◌≡◌, ◌≤◌, ◌<◌, [], ℕ, IfOk, length, map, vec_capacity};
ghost use Rattle.access_types.specs.Sites.{AccessMap};
ghost use Rattle.prepared_program.specs.program_sites.Prepared.{IsPrepared, IsReady, sites_in};
ghost use Rattle.litmus_step.specs.Runs.{CanBeMade, run_of, tasks_of};
ghost use Rattle.prepared_program.specs.declared.program_sites.settings.Settings.{Settings};
ghost use Rattle.litmus_syntax.specs.Limits.{KeepsLimits};
ghost use Rattle.litmus_syntax.specs.Views.{program_of};
ghost use Rattle.executions.specs.execution.Run as lists;
ghost use Rattle.executions.specs.execution.Execution.{Execution};
ghost use Rattle.runner.specs.Starts.{AreStarts, AreStartsOfEach, AreTaskStarts, IsOutcome, IsOutcomeOfEach, IsStart, IsTaskStart};
ghost use Rattle.runner.specs.Terms.{AreGivenEach, AreTerms, run_by, run_of_batch};
ghost use Rattle.shared_table.specs.Given.{first_words};
ghost use Rattle.shared_table.specs.Seats.{Opened, new_seats};

use crate::hooks::{Gate, Stall};
use crate::seated::{SeatedTask, TaskResult};
use crate::terms::{Batch, Terms};
use litmus_step::first::{first_log, first_reports, first_task};
use litmus_step::{Prepared, RunError};
use litmus_syntax::Program;
use shared_table::{SharedTable, TaskSeat};
use slot_table::{BoardError, Shape};
use std::alloc::{AllocError, Global};
use std::sync::Wait;

/// The shared words of a program that is made ready before its first step, and a seat for each task.
pub(crate) fn first_table(
    alloc: Global,
    program: &Program,
    prepared: &Prepared,
) -> Result<(SharedTable, Vec<TaskSeat>), AllocError>
    requires limits { KeepsLimits (program_of program.now) }
    requires ready { IsReady program.now prepared.now }
    ensures words { (settings : Settings) (sites : AccessMap) → IsPrepared program.now settings prepared.now
        → IfOk result (λ made. first_words made.0.given ≡ lists.first_words (run_of program.now settings sites)) }
    ensures tasks { (settings : Settings) (sites : AccessMap)
        → IfOk result (λ made. made.0.given.tasks ≡ tasks_of (run_of program.now settings sites)) }
    ensures seats { IfOk result (λ made. made.1.items ≡ new_seats made.0 made.0.given.tasks) }
{
    let shape = Shape {
        slots: prepared.rules.slots,
        tasks: program.tasks.as_slice().len() as u32,
        locks: prepared.locks,
        cells: prepared.words.as_slice(),
    };
    match SharedTable::new(alloc, shape) {
        Ok(made) => Ok(made),
        Err(BoardError::OutOfMemory) => Err(AllocError),
        Err(BoardError::BadSlots) => unreachable!(),
    }
}

/// A task before its first step, and its seat before the shared words.
#[derive(Drop)]
pub(crate) struct TaskStart {
    pub(crate) number: u32,
    pub(crate) seat: TaskSeat,
}

impl TaskStart {
    /// The task of a seat, which has made no step.
    fn new(seat: TaskSeat) -> TaskStart
        ensures { seat.records ≡ [] → IsStart seat.table seat.task result }
    {
        TaskStart {
            number: seat.task(),
            seat,
        }
    }

    /// Takes room for what is kept of the task's steps, makes these, from its first to its last, and says what is found
    /// of it then.
    ///
    /// `Stuck`: a wait of it had as many failed tries as are allowed.
    pub(crate) fn found<'t, R: Wait, S: Stall, G: Gate>(
        self,
        rt: &R,
        alloc: Global,
        terms: Terms<'t>,
        stall: &S,
        gate: &G,
    ) -> Result<TaskResult, RunError>
        requires terms { AreTerms terms }
        requires start { IsStart terms.table.now self.number self }
        requires there { self.number < tasks_of (run_by terms) }
        ensures { IsOutcome (run_by terms.entry) terms.entry.table.now self.number result }
    {
        let run = first_task(alloc, terms.program, terms.prepared, self.number)?;
        let accesses = terms.prepared.accesses[self.number as usize];
        let log = first_log(alloc, accesses)?;
        let reports = first_reports(alloc, accesses)?;
        let TaskStart { number, seat } = self;
        let seated = SeatedTask {
            number,
            run,
            seat,
            log,
            reports,
        };
        seated.runs(rt, alloc, terms, stall, gate)
    }
}

/// Each task before its first step, in the order of the seats.
pub(crate) fn first_starts(
    alloc: Global,
    seats: Vec<TaskSeat>,
) -> Result<Vec<TaskStart>, AllocError>
    ensures { (opened : Opened) → seats.items ≡ new_seats opened opened.given.tasks
        → IfOk result (λ starts. AreStarts opened starts.items) }
{
    let mut starts = Vec::with_capacity(alloc, seats.len())?;
    for seat in seats {
        starts.push_reserved(TaskStart::new(seat));
    }
    Ok(starts)
}

/// The shared words of so many runs before their first steps, and in each the tasks before theirs.
pub(crate) fn first_runs(
    alloc: Global,
    program: &Program,
    prepared: &Prepared,
    runs: usize,
) -> Result<(Vec<SharedTable>, Vec<Vec<TaskStart>>), AllocError>
    requires limits { KeepsLimits (program_of program.now) }
    requires ready { IsReady program.now prepared.now }
    ensures many { IfOk result (λ made. length made.0.items ≡ runs) }
    ensures given { (settings : Settings) → IsPrepared program.now settings prepared.now → CanBeMade (run_of program.now settings (sites_in prepared.now))
        → Execution (run_of program.now settings (sites_in prepared.now)) []
        → IfOk result (λ made. AreGivenEach program.now settings prepared.now made.0.items) }
    ensures starts { IfOk result (λ made. AreStartsOfEach made.0.items (map (λ row. row.items) made.1.items)) }
{
    let mut tables = Vec::with_capacity(alloc, runs)?;
    let mut rows = Vec::with_capacity(alloc, runs)?;
    for _ in 0..runs {
        let (table, seats) = first_table(alloc, program, prepared)?;
        rows.push_reserved(first_starts(alloc, seats)?);
        tables.push_reserved(table);
    }
    Ok((tables, rows))
}

/// A task before its first step in each of several runs, and room for what comes of it in these.
#[derive(Drop)]
pub(crate) struct TaskStarts {
    pub(crate) number: usize,
    pub(crate) starts: Vec<TaskStart>,
    pub(crate) outcomes: Vec<Result<TaskResult, RunError>>,
}

impl TaskStarts {
    /// Makes the task's steps in each run of a batch, one run after the other, and says what comes of it in each.
    pub(crate) fn found<'t, R: Wait, S: Stall, G: Gate>(
        self,
        rt: &R,
        alloc: Global,
        batch: Batch<'t>,
        stalls: &[S],
        gates: &[G],
    ) -> Vec<Result<TaskResult, RunError>>
        requires given { AreGivenEach batch.program.now batch.settings.now batch.prepared.now batch.tables.now }
        requires start { IsTaskStart batch.tables.now self.number self }
        requires there { self.number < tasks_of (run_of_batch batch) }
        requires stalls { length stalls.now ≡ length batch.tables.now }
        requires gates { length gates.now ≡ length batch.tables.now }
        ensures { IsOutcomeOfEach (run_of_batch batch.entry) batch.entry.tables.now self.number result.items }
    {
        let TaskStarts {
            starts,
            mut outcomes,
            ..
        } = self;
        for start in starts {
            let at = outcomes.len();
            let terms = Terms {
                program: batch.program,
                settings: batch.settings,
                prepared: batch.prepared,
                table: &batch.tables[at],
            };
            outcomes.push_reserved(start.found(rt, alloc, terms, &stalls[at], &gates[at]));
        }
        outcomes
    }
}

/// The tasks of several runs before their first steps, by the starts of each in these.
pub(crate) fn task_starts(
    alloc: Global,
    columns: Vec<Vec<TaskStart>>,
) -> Result<Vec<TaskStarts>, AllocError>
    ensures { IfOk result (λ all. AreTaskStarts (map (λ column. column.items) columns.items) all.items) }
{
    let mut all = Vec::with_capacity(alloc, columns.len())?;
    for starts in columns {
        // The room is taken here: a thread that lacked it would have the others wait for its task in every run.
        let outcomes = Vec::with_capacity(alloc, starts.len())?;
        all.push_reserved(TaskStarts {
            number: all.len(),
            starts,
            outcomes,
        });
    }
    Ok(all)
}
