//! One scoped thread a task, for all runs of a batch.

ghost use Rattle.std.specs.Prelude.{◌≡◌, ◌<◌, IfErr, IfOk, ◌⊎◌, length, map};
ghost use Rattle.std.specs.Thread.{IsSync};
ghost use Rattle.prepared_program.specs.program_sites.Prepared.{sites_in};
ghost use Rattle.litmus_step.specs.Runs.{run_of, tasks_of};
ghost use Rattle.runner.specs.Starts.{AreAllOutcomes, AreAllStarts, AreSomeStarts, ComeOf, IsOutcomeOfEach, IsTaskStart};
ghost use Rattle.runner.specs.Terms.{AreGivenEach, run_of_batch};
ghost use Rattle.prepared_program.specs.declared.program_sites.error.RunError.TheVariants.{NoThread, OutOfMemory};

use crate::first::TaskStarts;
use crate::hooks::{Gate, Stall};
use crate::seated::TaskResult;
use crate::terms::Batch;
use litmus_step::{Prepared, RunError, Settings};
use litmus_syntax::Program;
use shared_table::SharedTable;
use std::alloc::Global;
use std::sync::Wait;
use std::thread;
use std::thread::{Promise, Threads};

/// What a thread promises: what comes of the task of this number in each run of the batch.
#[derive(Clone, Copy)]
pub(crate) struct OfTask<'t> {
    batch: Batch<'t>,
    task: usize,
}

impl<'t> Promise<Vec<Result<TaskResult, RunError>>> for OfTask<'t> {
    ghost kept_by = { λ promise outcomes. IsOutcomeOfEach (run_of_batch promise.batch) promise.batch.tables.now promise.task outcomes.items };
}

/// Makes the steps of each task in all runs of a batch on a thread of its own, and says what comes of each in each. The
/// thread of the first of these starts first, then those of the tasks above, then those below. All threads that were
/// started are joined.
///
/// `NoThread`: one couldn't be started.
pub(crate) fn on_threads_from<'t, R: Threads + Wait + Sync, S: Stall, G: Gate>(
    rt: &'t R,
    alloc: Global,
    batch: Batch<'t>,
    mut starts: Vec<TaskStarts>,
    first: usize,
    stalls: &'t [S],
    gates: &'t [G],
) -> Result<Vec<Vec<Result<TaskResult, RunError>>>, RunError>
    requires given { AreGivenEach batch.program.now batch.settings.now batch.prepared.now batch.tables.now }
    requires starts { AreAllStarts batch.tables.now (tasks_of (run_of_batch batch)) starts.items }
    requires stalls { length stalls.now ≡ length batch.tables.now }
    requires gates { length gates.now ≡ length batch.tables.now }
    ensures outcomes { IfOk result (λ all. AreAllOutcomes (run_of_batch batch.entry) batch.entry.tables.now (tasks_of (run_of_batch batch.entry))
        (map (λ outcomes. outcomes.items) all.items)) }
    ensures errors { IfErr result (λ error. (error ≡ NoThread) ⊎ (error ≡ OutOfMemory)) }
{
    let first = first.min(starts.len());
    starts.rotate_left(first);
    let mut outcomes = on_threads(rt, alloc, batch, starts, stalls, gates)?;
    // The outcomes are turned back, since whoever reads them takes the place for the number of the task.
    outcomes.rotate_right(first);
    Ok(outcomes)
}

/// Makes the steps of each of these tasks in all runs of a batch on a thread of its own, and says what comes of each in
/// each, in this order, in which the threads start too. All threads that were started are joined.
///
/// `NoThread`: one couldn't be started.
fn on_threads<'t, R: Threads + Wait + Sync, S: Stall, G: Gate>(
    rt: &'t R,
    alloc: Global,
    batch: Batch<'t>,
    starts: Vec<TaskStarts>,
    stalls: &'t [S],
    gates: &'t [G],
) -> Result<Vec<Vec<Result<TaskResult, RunError>>>, RunError>
    requires given { AreGivenEach batch.program.now batch.settings.now batch.prepared.now batch.tables.now }
    requires starts { AreSomeStarts batch.tables.now (tasks_of (run_of_batch batch)) starts.items }
    requires stalls { length stalls.now ≡ length batch.tables.now }
    requires gates { length gates.now ≡ length batch.tables.now }
    ensures outcomes { IfOk result (λ all. ComeOf (run_of_batch batch.entry) batch.entry.tables.now starts.items all.items) }
    ensures errors { IfErr result (λ error. (error ≡ NoThread) ⊎ (error ≡ OutOfMemory)) }
{
    // What a closure ensures is forgotten if it captures a struct with a lifetime: so the threads capture the parts of
    // the batch, as plain references, and each puts them together again.
    let Batch {
        program,
        settings,
        prepared,
        tables,
    } = batch;
    thread::scope(
        thread::scope_env(),
        rt,
        move |scope| -> Result<Vec<Vec<Result<TaskResult, RunError>>>, RunError>
            requires sync { IsSync R.row × IsSync S.row × IsSync G.row }
            requires given { AreGivenEach program.now settings.now prepared.now tables.now }
            requires starts { AreSomeStarts tables.now (tasks_of (run_of program.now settings.now (sites_in prepared.now))) starts.items }
            requires stalls { length stalls.now ≡ length tables.now }
            requires gates { length gates.now ≡ length tables.now }
            ensures outcomes { IfOk result (λ all. ComeOf (run_of program.entry.now settings.entry.now (sites_in prepared.entry.now)) tables.entry.now
                starts.items all.items) }
            ensures errors { IfErr result (λ error. (error ≡ NoThread) ⊎ (error ≡ OutOfMemory)) }
        {
            let mut handles = Vec::with_capacity(alloc, starts.len())?;
            for start in starts {
                let batch = Batch {
                    program,
                    settings,
                    prepared,
                    tables,
                };
                let promise = OfTask {
                    batch,
                    task: start.number,
                };
                let steps = move || -> Vec<Result<TaskResult, RunError>>
                    requires given { AreGivenEach program.now settings.now prepared.now tables.now }
                    requires start { IsTaskStart tables.now start.number start }
                    requires there { start.number < tasks_of (run_of program.now settings.now (sites_in prepared.now)) }
                    requires stalls { length stalls.now ≡ length tables.now }
                    requires gates { length gates.now ≡ length tables.now }
                    ensures { IsOutcomeOfEach (run_of program.entry.now settings.entry.now (sites_in prepared.entry.now)) tables.entry.now start.number
                        result.items }
                {
                    let batch = Batch {
                        program,
                        settings,
                        prepared,
                        tables,
                    };
                    start.found(rt, alloc, batch, stalls, gates)
                };
                match scope.spawn_with(promise, steps) {
                    Ok(handle) => handles.push_reserved(handle),
                    // A run without one of its tasks is none of the program. The scope still joins those that were
                    // started.
                    Err(_) => return Err(RunError::NoThread),
                }
            }
            match thread::join_promised(rt, handles) {
                Ok(outcomes) => Ok(outcomes),
                Err(_) => Err(RunError::OutOfMemory),
            }
        },
    )
}
