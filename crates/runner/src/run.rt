//! A program, run on threads: once, or as a batch of several runs.

ghost use Rattle.std.specs.Prelude.{◌≡◌, ◌<◌, ◌⊎◌, ℕ, IfErr, IfOk, IsErrOf, length};
ghost use Rattle.access_types.specs.Sites.{AccessMap};
ghost use Rattle.prepared_program.specs.program_sites.Prepared.{IsPrepared};
ghost use Rattle.litmus_step.specs.Runs.{run_of};
ghost use Rattle.litmus_syntax.specs.Limits.{KeepsLimits};
ghost use Rattle.litmus_syntax.specs.Views.{program_of};
ghost use Rattle.prepared_program.specs.program_layout.Places.{AreFit};
ghost use Rattle.runner.specs.TaskResult.{IsFailedWait, IsOfThreads, IsThrough};
ghost use Rattle.runner.specs.Result.{AreResultsOf, IsRunOnce};
ghost use Rattle.prepared_program.specs.declared.program_sites.error.RunError.TheVariants.{BadPlace, BadSchedule, BadSlots, NoThread, OutOfMemory, Stuck};

use crate::columns::columns_of;
use crate::first::{first_runs, task_starts};
use crate::hooks::{Gate, Stall};
use crate::result::RunResult;
use crate::terms::Batch;
use crate::threads::on_threads_from;
use crate::together::results_of;
use litmus_step::laws::law_runs_begin;
use litmus_step::{Prepared, RunError, Settings};
use litmus_syntax::Program;
use std::alloc::Global;
use std::sync::Wait;
use std::thread::Threads;

/// Runs a program once, each task on a thread of its own, over the shared words. It returns when all threads have.
///
/// `BadSlots`: there are fewer than 3 page slots, or more than 1,024. `BadPlace`: a place is no multiple of its
/// variable's size or is above 2^62, its name is unknown, a lock's, or placed twice. `Stuck`: a wait of the task had as
/// many failed tries as are allowed; of several such tasks the smallest is named. `NoThread`: a thread couldn't be
/// started.
pub fn run_once<R: Threads + Wait + Sync, S: Stall, G: Gate>(
    rt: &R,
    alloc: Global,
    program: &Program,
    settings: &Settings,
    stall: &S,
    gate: &G,
) -> Result<RunResult, RunError>
    requires limits { KeepsLimits (program_of program.now) }
    ensures once { IfOk result (IsRunOnce program.now settings.now) }
    ensures bad_slots { IsErrOf result BadSlots → (settings.now.slots < 3 ⊎ 1024 < settings.now.slots) }
    ensures bad_place { IsErrOf result BadPlace → AreFit program.now.variables settings.now.places.items → ⊥ }
    ensures no_schedule { ¬ (IsErrOf result BadSchedule) }
    ensures stuck { (task : ℕ) → IsErrOf result (Stuck task) → (sites : AccessMap) × IsFailedWait (run_of program.now settings.now sites) task
        × ((below : ℕ) → below < task → IsThrough (run_of program.now settings.now sites) below) }
{
    let prepared = Prepared::new(alloc, program, settings)?;
    let turn = RunIndex {
        number: 0,
        first: 0,
    };
    run_prepared(rt, alloc, program, settings, &prepared, turn, stall, gate)
}

/// Which of many runs one is.
#[derive(Clone, Copy)]
pub struct RunIndex {
    /// Its number, which stands in its result.
    pub number: u64,
    /// The task whose thread starts first, then those of the tasks above, then those below: who starts first is often
    /// over before the last begins. Of a batch that of the first turn counts, since its threads start once.
    pub first: usize,
}

/// Runs a program that is made ready under these settings once, as [`run_once`] does: a batch of one run.
pub fn run_prepared<R: Threads + Wait + Sync, S: Stall, G: Gate>(
    rt: &R,
    alloc: Global,
    program: &Program,
    settings: &Settings,
    prepared: &Prepared,
    turn: RunIndex,
    stall: &S,
    gate: &G,
) -> Result<RunResult, RunError>
    requires limits { KeepsLimits (program_of program.now) }
    requires ready { IsPrepared program.now settings.now prepared.now }
    ensures once { IfOk result (IsRunOnce program.now settings.now) }
    ensures number { IfOk result (λ ran. ran.number ≡ turn.number) }
    ensures errors { IfErr result IsOfThreads }
    ensures stuck { (task : ℕ) → IsErrOf result (Stuck task) → (sites : AccessMap) × IsFailedWait (run_of program.now settings.now sites) task
        × ((below : ℕ) → below < task → IsThrough (run_of program.now settings.now sites) below) }
{
    let mut all = run_batch(
        rt,
        alloc,
        program,
        settings,
        prepared,
        &[turn],
        &[stall],
        &[gate],
    )?;
    match all.pop() {
        Some(outcome) => outcome,
        None => unreachable!(),
    }
}

/// Runs a program that is made ready under these settings once for each of these turns, one run after the other, by one
/// thread a task for all of them: each makes the steps of its task in every run, which has words, a stall and a gate of
/// its own. It answers what comes of each run, as [`run_once`] does of one.
///
/// `NoThread`: a thread couldn't be started. `OutOfMemory`: there was no room for all runs. Of none of them it is known
/// then what came.
pub fn run_batch<R: Threads + Wait + Sync, S: Stall, G: Gate>(
    rt: &R,
    alloc: Global,
    program: &Program,
    settings: &Settings,
    prepared: &Prepared,
    turns: &[RunIndex],
    stalls: &[S],
    gates: &[G],
) -> Result<Vec<Result<RunResult, RunError>>, RunError>
    requires limits { KeepsLimits (program_of program.now) }
    requires ready { IsPrepared program.now settings.now prepared.now }
    requires stalls { length stalls.now ≡ length turns.now }
    requires gates { length gates.now ≡ length turns.now }
    ensures results { IfOk result (λ all. AreResultsOf program.now settings.now turns.now all.items) }
    ensures errors { IfErr result (λ error. (error ≡ NoThread) ⊎ (error ≡ OutOfMemory)) }
{
    law_runs_begin();
    let (tables, rows) = first_runs(alloc, program, prepared, turns.len())?;
    let columns = columns_of(alloc, rows, program.tasks.as_slice().len())?;
    let starts = task_starts(alloc, columns)?;
    let batch = Batch {
        program,
        settings,
        prepared,
        tables: tables.as_slice(),
    };
    let first = match turns.first() {
        Some(turn) => turn.first,
        None => 0,
    };
    let outcomes = on_threads_from(rt, alloc, batch, starts, first, stalls, gates)?;
    let rows = columns_of(alloc, outcomes, turns.len())?;
    Ok(results_of(alloc, program, settings, prepared, turns, tables, rows)?)
}
