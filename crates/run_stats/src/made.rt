//! Runs of a program that are made in batches, one after the other or several side by side, until there are as many as
//! are asked for.

ghost use Rattle.std.specs.Prelude.{◌≡◌, ◌≤◌, ◌<◌, ◌+◌, ◌-◌, ◌*◌, ◌^◌, ◌++◌, ◌∷◌, [], ℕ, All, Bool, List, IfErr, IfOk, OnOk, length, slice_get, true};
ghost use Rattle.access_types.specs.Sites.{AccessMap};
ghost use Rattle.prepared_program.specs.program_sites.Prepared.{IsPrepared, sites_in};
ghost use Rattle.prepared_program.specs.declared.program_sites.settings.Settings as terms;
ghost use Rattle.litmus_syntax.specs.Limits.{KeepsLimits};
ghost use Rattle.litmus_syntax.specs.Views.{program_of};
ghost use Rattle.litmus_syntax.specs.declared.program.Program as tree;
ghost use Rattle.prepared_program.specs.program_layout.Places.{places_of};
ghost use Rattle.prepared_program.specs.program_sites.Sites.{AreSitesOf};
ghost use Rattle.std.specs.Option.{option_copied};
ghost use Rattle.report_text.specs.Sink.{Writes};
ghost use Rattle.run_stats.specs.Errors as spec;
ghost use Rattle.run_stats.specs.Errors.{Stops};
ghost use Rattle.run_stats.specs.Made.{AreAllMade, AreMade, IsOneMore};
ghost use Rattle.run_stats.specs.Output.{IsOutput, found_text, stuck_text};
ghost use Rattle.run_stats.specs.Runs.{AreBatches, AreNumberedFrom, ComeFrom, Comes, IsNumbered, OneRun, StuckRun};
ghost use Rattle.runner.specs.Result.{IsRunOnce};

use crate::hooks::Hooks;
use crate::lots::Lot;
use crate::starters::Starters;
use crate::tally::Tally;
use crate::times::{Progress, Times};
use litmus_parse::Program;
use litmus_step::{Prepared, Settings};
use report_text::laws::law_groups_are_of_their_texts;
use report_text::{MemorySink, Sink, WriteError};
use run_output::{EngineError, write_stuck};
use runner::{RunError, RunIndex, RunResult, run_batch};
use std::alloc::{AllocError, Global};
use std::collections::VecDeque;
use std::sync::Wait;
use std::thread;
use std::thread::Threads;

/// What was made so far.
#[derive(Drop)]
pub(crate) struct Made {
    tally: Tally,
    last: Option<RunResult>,
    ended: u64,
    stuck: u64,
}

/// What all runs of a program go by.
#[derive(Drop)]
pub(crate) struct Plan<'t, H> {
    pub(crate) program: &'t Program,
    pub(crate) settings: &'t Settings,
    pub(crate) prepared: &'t Prepared,
    pub(crate) times: Times,
    pub(crate) starters: Starters,
    /// How many runs a batch has at most.
    pub(crate) largest: u64,
    pub(crate) hooks: &'t H,
}

/// The turns of so many runs, from the run of this number on, and what each calls.
fn turns_from<H: Hooks>(
    alloc: Global,
    plan: &Plan<'_, H>,
    number: u64,
    many: usize,
) -> Result<(Vec<RunIndex>, Vec<H::OfRun>), AllocError>
    requires { number + many < 2 ^ 64 }
    ensures turns { IfOk result (λ made. length made.0.items ≡ many) }
    ensures numbers { IfOk result (λ made. (at : ℕ) (turn : RunIndex) → slice_get made.0.items at ≡ Some turn → turn.number ≡ number + at) }
    ensures hooks { IfOk result (λ made. length made.1.items ≡ many) }
{
    let tasks = plan.program.tasks.as_slice().len() as u64;
    let mut turns = Vec::with_capacity(alloc, many)?;
    let mut hooks = Vec::with_capacity(alloc, many)?;
    for at in 0..many {
        let number = number + at as u64;
        let first = plan.starters.first(number, tasks);
        turns.push_reserved(RunIndex { number, first });
        hooks.push_reserved(plan.hooks.of_run(plan.times.delay, tasks, first));
    }
    Ok((turns, hooks))
}

/// That this comes of each of so many runs.
fn all_err(
    alloc: Global,
    error: RunError,
    many: usize,
) -> Result<Vec<Result<RunResult, RunError>>, AllocError>
    ensures each { IfOk result (λ all. All (λ outcome. outcome ≡ Err error) all.items) }
    ensures many { IfOk result (λ all. length all.items ≡ many) }
{
    let mut all = Vec::with_capacity(alloc, many)?;
    for _ in 0..many {
        all.push_reserved(Err(error));
    }
    Ok(all)
}

/// What comes of so many runs, one after the other by the same threads, from the run of this number on.
fn batch<R: Threads + Wait + Sync, H: Hooks>(
    rt: &R,
    alloc: Global,
    plan: &Plan<'_, H>,
    number: u64,
    many: usize,
) -> Result<Vec<Result<RunResult, RunError>>, AllocError>
    requires limits { KeepsLimits (program_of plan.now.program.now) }
    requires ready { IsPrepared plan.now.program.now plan.now.settings.now plan.now.prepared.now }
    requires few { number + many < 2 ^ 64 }
    ensures { IfOk result (λ all. ComeFrom plan.now.program.now plan.now.settings.now number many all.items) }
{
    let (turns, hooks) = turns_from(alloc, plan, number, many)?;
    let made = run_batch(
        rt,
        alloc,
        plan.program,
        plan.settings,
        plan.prepared,
        turns.as_slice(),
        hooks.as_slice(),
        hooks.as_slice(),
    );
    match made {
        Ok(outcomes) => Ok(outcomes),
        // There was no room or no thread for all of them, and so for none.
        Err(error) => all_err(alloc, error, many),
    }
}

/// What comes of the runs of several batches, one after the other.
fn joined(
    alloc: Global,
    batches: Vec<Result<Vec<Result<RunResult, RunError>>, AllocError>>,
) -> Result<Vec<Result<RunResult, RunError>>, AllocError>
    ensures { (program : tree.Program) (settings : terms.Settings) (number many : ℕ) → AreBatches program settings number many batches.items
        → IfOk result (λ all. ComeFrom program settings number (length batches.items * many) all.items) }
{
    let mut all = Vec::new(alloc);
    for batch in batches {
        let mut outcomes = batch?;
        all.append(&mut outcomes)?;
    }
    Ok(all)
}

/// What comes of the runs of so many batches, which are made side by side, from the run of this number on.
fn side_by_side<R: Threads + Wait + Sync, H: Hooks>(
    rt: &R,
    alloc: Global,
    plan: &Plan<'_, H>,
    number: u64,
    lot: Lot,
) -> Result<Vec<Result<RunResult, RunError>>, AllocError>
    requires limits { KeepsLimits (program_of plan.now.program.now) }
    requires ready { IsPrepared plan.now.program.now plan.now.settings.now plan.now.prepared.now }
    requires few { number + lot.batches * lot.runs < 2 ^ 64 }
    ensures { IfOk result (λ all. ComeFrom plan.now.program.now plan.now.settings.now number (lot.batches * lot.runs) all.items) }
{
    let Plan {
        program,
        settings,
        prepared,
        times,
        starters,
        largest,
        hooks,
    } = *plan;
    let runs = lot.runs;
    let make = move |at: usize| -> Result<Vec<Result<RunResult, RunError>>, AllocError>
        requires limits { KeepsLimits (program_of program.now) }
        requires ready { IsPrepared program.now settings.now prepared.now }
        requires few { number + (at * runs + runs) < 2 ^ 64 }
        ensures { IfOk result (λ all. ComeFrom program.entry.now settings.entry.now (number + at * runs) runs all.items) }
    {
        let plan = Plan {
            program,
            settings,
            prepared,
            times,
            starters,
            largest,
            hooks,
        };
        batch(rt, alloc, &plan, number + (at * runs) as u64, runs)
    };
    joined(alloc, thread::map_indices(rt, alloc, lot.batches, &make)?)
}

/// What comes of the run of this number: what is ready first, or else the first of those that are made next, of which
/// the rest is ready then.
fn next_run<R: Threads + Wait + Sync, H: Hooks>(
    rt: &R,
    alloc: Global,
    plan: &Plan<'_, H>,
    number: u64,
    ready: &mut VecDeque<Result<RunResult, RunError>>,
) -> Result<Result<RunResult, RunError>, AllocError>
    requires limits { KeepsLimits (program_of plan.now.program.now) }
    requires prepared { IsPrepared plan.now.program.now plan.now.settings.now plan.now.prepared.now }
    requires jobs { 1 ≤ plan.now.times.jobs }
    requires left { number < plan.now.times.runs }
    requires ready { All (Comes plan.now.program.now plan.now.settings.now) ready.old.items }
    requires numbers { AreNumberedFrom number ready.old.items }
    ensures next { IfOk result (Comes plan.now.program.now plan.now.settings.now) }
    ensures number { IfOk result (IsNumbered number) }
    ensures ready { OnOk result (All (Comes plan.now.program.now plan.now.settings.now) ready.new.items) }
    ensures numbers { OnOk result (AreNumberedFrom (number + 1) ready.new.items) }
{
    if ready.is_empty() {
        let lot = Lot::after(number, plan.times, plan.largest);
        *ready = VecDeque::from(side_by_side(rt, alloc, plan, number, lot)?);
    }
    let Some(outcome) = ready.pop_front() else {
        unreachable!()
    };
    Ok(outcome)
}

/// Whether a run without an end is only counted: a stuck one, where these are counted.
fn is_counted(counted: bool, error: RunError) -> bool
    ensures { result ≡ spec.is_counted counted error }
{
    match error {
        // Whether a task gets stuck hangs on how threads meet, from run to run. What else goes wrong is a matter of the
        // settings or of the machine, and more runs mend nothing.
        RunError::Stuck { .. } => counted,
        RunError::BadSlots
        | RunError::BadPlace
        | RunError::OutOfMemory
        | RunError::BadSchedule
        | RunError::NoThread => false,
    }
}

impl Made {
    /// No run.
    fn new(alloc: Global) -> Made
        ensures { (unknown : Bool) (program : tree.Program) (settings : terms.Settings) (sites : AccessMap)
            → AreMade unknown program settings sites [] [] result }
    {
        Made {
            tally: Tally::new(alloc),
            last: None,
            ended: 0,
            stuck: 0,
        }
    }

    /// Whether something was reported.
    pub(crate) fn raced(&self) -> bool
        ensures { result ≡ self.now.tally.raced }
    {
        self.tally.raced()
    }

    /// What came of the last run that ended, if one did.
    pub(crate) fn last(&self) -> Option<&RunResult>
        ensures { option_copied result ≡ self.now.last }
    {
        self.last.as_ref()
    }

    /// Adds a run that ended.
    fn add_ended(
        &mut self,
        alloc: Global,
        program: &Program,
        settings: &Settings,
        prepared: &Prepared,
        ended: RunResult,
        unknown: bool,
    ) -> Result<(), EngineError>
        requires limits { KeepsLimits (program_of program.now) }
        requires ready { IsPrepared program.now settings.now prepared.now }
        requires once { IsRunOnce program.now settings.now ended }
        requires few { self.old.ended < 2 ^ 64 - 1 }
        ensures made { (runs : List (OneRun program.now settings.now)) (stuck : List (StuckRun program.now settings.now))
            → AreMade unknown program.now settings.now (sites_in prepared.now) runs stuck self.old
            → OnOk result ((one : OneRun program.now settings.now) × (one.result ≡ ended)
            × AreMade unknown program.now settings.now (sites_in prepared.now) (runs ++ one ∷ []) stuck self.new) }
        ensures stops { IfErr result (Stops true program.now settings.now) }
    {
        self.tally.add(alloc, program, prepared, &ended, unknown)?;
        self.last = Some(ended);
        self.ended += 1;
        Ok(())
    }

    /// Adds what came of one run more. Where stuck runs are counted, one is no reason to stop.
    fn add(
        &mut self,
        alloc: Global,
        program: &Program,
        settings: &Settings,
        prepared: &Prepared,
        times: Times,
        outcome: Result<RunResult, RunError>,
    ) -> Result<(), EngineError>
        requires limits { KeepsLimits (program_of program.now) }
        requires ready { IsPrepared program.now settings.now prepared.now }
        requires comes { Comes program.now settings.now outcome }
        requires few { (self.old.ended < 2 ^ 64 - 1) × (self.old.stuck < 2 ^ 64 - 1) }
        ensures made { (runs : List (OneRun program.now settings.now)) (stuck : List (StuckRun program.now settings.now))
            → AreMade times.unknown_origin program.now settings.now (sites_in prepared.now) runs stuck self.old
            → OnOk result (IsOneMore times.unknown_origin program.now settings.now (sites_in prepared.now) times.keep_going outcome runs
            stuck self.new) }
        ensures stops { IfErr result (Stops times.keep_going program.now settings.now) }
    {
        match outcome {
            Ok(ended) => {
                let unknown = times.unknown_origin;
                self.add_ended(alloc, program, settings, prepared, ended, unknown)
            }
            Err(error) => {
                if !is_counted(times.keep_going, error) {
                    return Err(EngineError::Run(error));
                }
                self.stuck += 1;
                Ok(())
            }
        }
    }

    /// Writes what is found of the runs that ended, and, where stuck runs are counted, how many of all got stuck.
    fn write<K: Sink>(&self, counted: bool, sink: &mut K) -> Result<(), WriteError>
        requires { self.now.ended + self.now.stuck < 2 ^ 64 }
        ensures { Writes K.written K.failures result (found_text self.now.tally.groups self.now.tally.counters self.now.tally.unbalanced
            self.now.tally.held self.now.ended ++ stuck_text counted self.now.stuck (self.now.ended + self.now.stuck)) sink.old sink.new }
    {
        self.tally.write(self.ended, sink)?;
        match counted {
            true => write_stuck(self.stuck, self.ended + self.stuck, sink),
            false => Ok(()),
        }
    }

    /// What is written of the runs.
    pub(crate) fn output(&self, alloc: Global, counted: bool) -> Result<Vec<u8>, AllocError>
        requires { self.now.ended + self.now.stuck < 2 ^ 64 }
        ensures { (unknown : Bool) (program : tree.Program) (settings : terms.Settings) (sites : AccessMap)
            (runs : List (OneRun program settings)) (stuck : List (StuckRun program settings))
            → AreMade unknown program settings sites runs stuck self.now
            → AreSitesOf (program_of program) (places_of settings.places.items) sites
            → IfOk result (λ output. IsOutput unknown counted runs (length stuck) output.items) }
    {
        law_groups_are_of_their_texts();
        let mut sink = MemorySink::new(alloc);
        match self.write(counted, &mut sink) {
            Ok(()) => Ok(sink.into_bytes()),
            Err(_) => Err(AllocError),
        }
    }
}

/// Makes the runs of a plan, as often as is asked for, and takes together what comes of them.
pub(crate) fn made_of<R: Threads + Wait + Sync, P: Progress, H: Hooks>(
    rt: &R,
    alloc: Global,
    plan: &Plan<'_, H>,
    progress: &P,
) -> Result<Made, EngineError>
    requires limits { KeepsLimits (program_of plan.now.program.now) }
    requires ready { IsPrepared plan.now.program.now plan.now.settings.now plan.now.prepared.now }
    requires jobs { 1 ≤ plan.now.times.jobs }
    ensures made { IfOk result (AreAllMade plan.now.program.now plan.now.settings.now (sites_in plan.now.prepared.now) plan.now.times) }
    ensures few { IfOk result (λ made. made.ended + made.stuck < 2 ^ 64) }
    ensures stops { IfErr result (Stops plan.now.times.keep_going plan.now.program.now plan.now.settings.now) }
{
    let times = plan.times;
    let mut made = Made::new(alloc);
    let mut ready = VecDeque::new(alloc);
    for run in 0..times.runs {
        // Runs that were made with it and are numbered behind it are dropped: so the output is of the same runs in one
        // form, whatever the number of jobs and the size of a batch.
        if times.stop_at_first && made.raced() {
            return Ok(made);
        }
        let outcome = next_run(rt, alloc, plan, run, &mut ready)?;
        made.add(
            alloc,
            plan.program,
            plan.settings,
            plan.prepared,
            times,
            outcome,
        )?;
        progress.ran(run + 1, times.runs);
    }
    Ok(made)
}
