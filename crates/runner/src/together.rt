//! What is found of the tasks of a run, taken together.

ghost use Rattle.std.specs.Prelude.{◌≡◌, ◌<◌, ◌⊎◌, ℕ, IfErr, IfOk, IsErrOf, length, map};
ghost use Rattle.std.specs.List.{flat_map};
ghost use Rattle.access_types.specs.Sites.{AccessMap};
ghost use Rattle.prepared_program.specs.program_sites.Prepared.{sites_in};
ghost use Rattle.litmus_step.specs.Runs.{run_of, tasks_of};
ghost use Rattle.executions.specs.execution.Run.{Run};
ghost use Rattle.runner.specs.TaskResult.{AreFound, IsFailedWait, IsOfThreads, IsThrough, calls_below};
ghost use Rattle.runner.specs.Result.{AreResultsOf, IsRunOnce};
ghost use Rattle.runner.specs.Starts.{AreOutcomes, AreOutcomesOfEach};
ghost use Rattle.runner.specs.Terms.{AreGiven, AreGivenEach};
ghost use Rattle.prepared_program.specs.declared.program_sites.error.RunError.TheVariants.{OutOfMemory, Stuck};
ghost use Rattle.shared_table.specs.Seats.{Opened};

use crate::laws::law_sides_of_hits_overlap;
use crate::result::RunResult;
use crate::run::RunIndex;
use crate::seated::TaskResult;
use access_types::Report;
use litmus_step::{Prepared, RunError, Settings};
use litmus_syntax::Program;
use log_correctness::reports::law_a_task_reports_its_own;
use program_order::law_the_written_order_keeps_the_discipline;
use shared_table::{SharedTable, TaskSeat};
use soundness::laws::law_the_headline_holds;
use std::alloc::{AllocError, Global};
use task_log::TaskLog;

/// What is found of all tasks, if it is of each.
///
/// `Stuck`: a wait of the task had as many failed tries as are allowed, and all tasks below have made their steps.
fn all_found(
    alloc: Global,
    outcomes: Vec<Result<TaskResult, RunError>>,
) -> Result<Vec<TaskResult>, RunError>
    ensures found { (run : Run) (opened : Opened) → AreOutcomes run opened (tasks_of run) outcomes.items
        → IfOk result (λ found. AreFound run opened found.items) }
    ensures stuck { (run : Run) (opened : Opened) (task : ℕ) → AreOutcomes run opened (tasks_of run) outcomes.items
        → IsErrOf result (Stuck task) → IsFailedWait run task }
    ensures smallest { (run : Run) (opened : Opened) (task : ℕ) → AreOutcomes run opened (tasks_of run) outcomes.items
        → IsErrOf result (Stuck task) → (below : ℕ) → below < task → IsThrough run below }
    ensures errors { (run : Run) (opened : Opened) → AreOutcomes run opened (tasks_of run) outcomes.items
        → IfErr result (λ error. ((task : ℕ) × (error ≡ Stuck task)) ⊎ (error ≡ OutOfMemory)) }
{
    let mut found = Vec::with_capacity(alloc, outcomes.len())?;
    // In the order of the tasks, whichever thread was over first: so of several that are stuck the smallest is named.
    for outcome in outcomes {
        found.push_reserved(outcome?);
    }
    Ok(found)
}

/// What was reported, by task.
fn reports_of(alloc: Global, found: &[TaskResult]) -> Result<Vec<Report>, AllocError>
    ensures { IfOk result (λ reports. reports.items ≡ flat_map (λ one. one.reports.items) found.now) }
{
    let mut reports = Vec::new(alloc);
    for one in found {
        reports.extend_from_slice(one.reports.as_slice())?;
    }
    Ok(reports)
}

/// How many calls had nothing to end, up to the largest number that there is: so the sum needs no bound on what each
/// task counted, and never begins again at 0.
fn calls_of(found: &[TaskResult]) -> u64
    ensures { result ≡ calls_below found.now (length found.now) }
{
    let mut unbalanced: u64 = 0;
    for one in found {
        unbalanced = unbalanced.saturating_add(one.unbalanced);
    }
    unbalanced
}

/// What was found of each task, by its parts.
#[derive(Drop)]
struct Parts {
    seats: Vec<TaskSeat>,
    logs: Vec<TaskLog>,
    registers: Vec<Vec<u64>>,
}

/// Takes apart what was found of each task.
fn apart(alloc: Global, found: Vec<TaskResult>) -> Result<Parts, AllocError>
    ensures seats { IfOk result (λ parts. parts.seats.items ≡ map (λ one. one.seat) found.items) }
    ensures logs { IfOk result (λ parts. parts.logs.items ≡ map (λ one. one.log) found.items) }
    ensures registers { IfOk result (λ parts. parts.registers.items ≡ map (λ one. one.registers) found.items) }
{
    let mut seats = Vec::with_capacity(alloc, found.len())?;
    let mut logs = Vec::with_capacity(alloc, found.len())?;
    let mut registers = Vec::with_capacity(alloc, found.len())?;
    for one in found {
        seats.push_reserved(one.seat);
        logs.push_reserved(one.log);
        registers.push_reserved(one.registers);
    }
    Ok(Parts {
        seats,
        logs,
        registers,
    })
}

/// What comes of a run of this turn, by what comes of each of its tasks on the words of this table.
///
/// `Stuck`: a wait of the task had as many failed tries as are allowed; of several such tasks the smallest is named.
fn result_of(
    alloc: Global,
    program: &Program,
    settings: &Settings,
    prepared: &Prepared,
    turn: RunIndex,
    table: SharedTable,
    outcomes: Vec<Result<TaskResult, RunError>>,
) -> Result<RunResult, RunError>
    requires given { AreGiven program.now settings.now prepared.now table }
    requires outcomes { AreOutcomes (run_of program.now settings.now (sites_in prepared.now)) table
        (tasks_of (run_of program.now settings.now (sites_in prepared.now))) outcomes.items }
    ensures once { IfOk result (IsRunOnce program.now settings.now) }
    ensures number { IfOk result (λ ran. ran.number ≡ turn.number) }
    ensures errors { IfErr result IsOfThreads }
    ensures stuck { (task : ℕ) → IsErrOf result (Stuck task) → (sites : AccessMap) × IsFailedWait (run_of program.now settings.now sites) task
        × ((below : ℕ) → below < task → IsThrough (run_of program.now settings.now sites) below) }
{
    law_the_written_order_keeps_the_discipline();
    law_a_task_reports_its_own();
    law_the_headline_holds();
    law_sides_of_hits_overlap();
    let found = all_found(alloc, outcomes)?;
    let reports = reports_of(alloc, found.as_slice())?;
    let unbalanced = calls_of(found.as_slice());
    let Parts {
        seats,
        logs,
        registers,
    } = apart(alloc, found)?;
    // Each seat is there, and after a whole text no check is unfinished, so gathering can't be refused.
    let Some(gathered) = table.gather(seats) else {
        unreachable!()
    };
    Ok(RunResult {
        number: turn.number,
        logs,
        reports,
        registers,
        unbalanced,
        gathered,
    })
}

/// What comes of the run of each turn, by what comes of each of its tasks on the words of its table.
pub(crate) fn results_of(
    alloc: Global,
    program: &Program,
    settings: &Settings,
    prepared: &Prepared,
    turns: &[RunIndex],
    tables: Vec<SharedTable>,
    rows: Vec<Vec<Result<TaskResult, RunError>>>,
) -> Result<Vec<Result<RunResult, RunError>>, AllocError>
    requires given { AreGivenEach program.now settings.now prepared.now tables.items }
    requires outcomes { AreOutcomesOfEach (run_of program.now settings.now (sites_in prepared.now)) tables.items
        (map (λ row. row.items) rows.items) }
    requires many { length tables.items ≡ length turns.now }
    ensures { IfOk result (λ all. AreResultsOf program.now settings.now turns.now all.items) }
{
    let mut results = Vec::with_capacity(alloc, turns.len())?;
    let mut rows = rows.into_iter();
    for table in tables {
        let Some(outcomes) = rows.next() else {
            unreachable!()
        };
        let turn = turns[results.len()];
        results.push_reserved(result_of(alloc, program, settings, prepared, turn, table, outcomes));
    }
    Ok(results)
}
