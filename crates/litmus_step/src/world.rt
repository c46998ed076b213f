//! The world: all tasks of a program over one board.

ghost use Rattle.std.specs.Prelude.{◌≡◌, ◌≢◌, ◌<◌, ◌≤◌, ◌↔◌, ◌⊎◌, ◌∷◌, [], ℕ, List, Option, Some, IfErr, IfOk, IsErrOf, slice_get, slice_set};
ghost use Rattle.std.specs.Prelude.{IsTrue, vec_capacity, vec_len};
ghost use Rattle.std.specs.Arc.{arc_value};
ghost use Rattle.litmus_syntax.specs.Limits.{KeepsLimits};
ghost use Rattle.litmus_syntax.specs.Views.{program_of};
ghost use Rattle.prepared_program.specs.program_layout.Places.{AreFit};
ghost use Rattle.soundness.specs.Headline.{Headline};
ghost use Rattle.executions.specs.execution.Run.{Run};
ghost use Rattle.setup_access.specs.Parts.{made};
ghost use Rattle.slot_table.specs.declared.records.Record.{Record};
ghost use Rattle.litmus_step.specs.Leads.{IsLedTo, MakesNextIn};
ghost use Rattle.litmus_step.specs.Kept.{Added, IsNotedIn, rooms_of};
ghost use Rattle.litmus_step.specs.Unlogged as spec;
ghost use Rattle.setup_access.specs.declared.begun.Begun.{Begun};
ghost use Rattle.task_run.specs.Fell.{fell_of};
ghost use Rattle.prepared_program.specs.program_sites.Prepared.{IsPrepared, IsReady, sites_in};
ghost use Rattle.litmus_step.specs.Runs.{HasEnded, IsStuck, run_of};
ghost use Rattle.prepared_program.specs.declared.program_sites.error.RunError.TheVariants.{BadPlace, BadSlots};
ghost use Rattle.prepared_program.specs.program_sites.Errors.{IsOfPreparing};
ghost use Rattle.prepared_program.specs.declared.program_sites.settings.Settings.{Settings};
ghost use Rattle.task_run.specs.declared.run.TaskRun.{TaskRun};

use crate::first::{all_accesses, first_board, first_logs, first_reports, first_tasks};
use crate::laws::{law_runs_begin, law_steps_are_kept, law_steps_lead_on};
use crate::logs::note;
use access_types::{Report, Sites};
use litmus_syntax::Program;
use prepared_program::program_sites::{Prepared, RunError, Settings};
use slot_table::{Answer, Board, PlainBoard, Step};
use soundness::laws::law_the_headline_holds;
use std::alloc::{AllocError, Global};
use std::sync::Arc;
use task_log::{Noted, TaskLog};
use task_run::TaskRun;

/// What a task is after it was asked for a step.
#[derive(Clone, Copy)]
pub enum Stepped {
    /// It goes on.
    Moved,
    /// It has made the steps of its whole text.
    Ended,
    /// A wait of it had as many failed tries as are allowed.
    Stuck,
}

/// All tasks of a program, the words that they share, and what is kept of their steps. It keeps no allocator: what
/// reads lists of it is passed one.
#[derive(Drop)]
pub struct World<'a> {
    pub(crate) board: PlainBoard,
    pub(crate) tasks: Vec<TaskRun<'a>>,
    pub(crate) logs: Vec<TaskLog>,
    pub(crate) reports: Vec<Report>,
    pub(crate) sites: Arc<Sites>,
    pub(crate) steps: u64,
    ghost led: { ∥ IsLedTo board tasks.items steps logs.items reports.items (vec_capacity reports) ∥₁ },
}

/// A step of a task is noted in its log, and what is reported at it is kept.
#[inline(always)]
fn note_in(logs: &mut Vec<TaskLog>, reports: &mut Vec<Report>, task: usize, noted: &Noted)
    requires { task < vec_len logs.old }
    ensures noted { (log : TaskLog) → slice_get logs.old.items task ≡ Some log
        → (after : TaskLog) × (report : Option Report) × IsNotedIn log noted.now after report
        × (logs.new.items ≡ slice_set logs.old.items task after)
        × Added report (vec_capacity reports.old) reports.old.items reports.new.items }
    ensures room { vec_capacity reports.new ≡ vec_capacity reports.old }
    ensures logs { vec_capacity logs.new ≡ vec_capacity logs.old }
    ensures each { rooms_of logs.new.items ≡ rooms_of logs.old.items }
{
    note(&mut logs[task], reports, noted);
}

/// A step of a task of which a log says nothing, unless an outcome falls at it, is noted where one does: the machine that
/// made it tells. Which access begins by it is no matter.
#[inline(always)]
fn note_fallen(
    logs: &mut Vec<TaskLog>,
    reports: &mut Vec<Report>,
    task: usize,
    run: &TaskRun<'_>,
    step: Step,
    answer: Answer,
)
    requires there { task < vec_len logs.old }
    requires unlogged { IsTrue (spec.is_unlogged step) }
    ensures noted { (begins : Option Begun) (log : TaskLog) → slice_get logs.old.items task ≡ Some log
        → (after : TaskLog) × (report : Option Report)
        × IsNotedIn log (record { step = step; answer = answer; begins = begins; outcome = fell_of run.now }) after report
        × (logs.new.items ≡ slice_set logs.old.items task after)
        × Added report (vec_capacity reports.old) reports.old.items reports.new.items }
    ensures room { vec_capacity reports.new ≡ vec_capacity reports.old }
    ensures logs { vec_capacity logs.new ≡ vec_capacity logs.old }
    ensures each { rooms_of logs.new.items ≡ rooms_of logs.old.items }
{
    let outcome = run.last_outcome();
    if outcome.is_none() {
        return;
    }
    let noted = Noted {
        step,
        answer,
        begins: None,
        outcome,
    };
    note_in(logs, reports, task, &noted);
}

/// Whether a log says nothing of such a step, unless an outcome falls at it.
#[inline(always)]
fn is_unlogged(step: Step) -> bool
    ensures { result ≡ spec.is_unlogged step }
{
    match step {
        Step::Load(_)
        | Step::PairLoad(_)
        | Step::CellLoad(_)
        | Step::CellExchange(_, _, _)
        | Step::LockTry(_, _)
        | Step::LockStore(_) => true,
        Step::Insert(_, _)
        | Step::TryConsume(_, _)
        | Step::Consume(_)
        | Step::Remove(_)
        | Step::Name(_, _)
        | Step::Tell(_, _)
        | Step::Clear(_)
        | Step::Clock => false,
    }
}

impl<'a> World<'a> {
    ghost use Rattle.litmus_step.specs.Steps.{IsMachine, LeadsTo, StepsOn, SteppedLeaves, room_in, tasks_in};

    /// A program before its first step. It takes all its room, and `step` and `run` take no memory.
    ///
    /// `BadSlots`: there are fewer than 3 page slots, or more than 1,024. `BadPlace`: a place is no
    /// multiple of its variable's size or is above 2^62, its name is unknown, a lock's, or placed twice.
    pub fn new(
        alloc: Global,
        program: &'a Program,
        settings: &Settings,
    ) -> Result<World<'a>, RunError>
        requires { KeepsLimits (program_of program.now) }
        ensures leads { IfOk result (λ world. LeadsTo (run_of program.now settings.now (arc_value world.sites)) [] world) }
        ensures bad_slots { IsErrOf result BadSlots → (settings.now.slots < 3 ⊎ 1024 < settings.now.slots) }
        ensures slots { IfOk result (λ _. (3 ≤ settings.now.slots) × (settings.now.slots ≤ 1024)) }
        ensures bad_place { IsErrOf result BadPlace ↔ (AreFit program.now.variables settings.now.places.items → ⊥) }
        ensures errors { IfErr result IsOfPreparing }
    {
        let prepared = Prepared::new(alloc, program, settings)?;
        let world = World::prepared(alloc, program, &prepared)?;
        Ok(world)
    }

    /// A program that is made ready, before its first step. It takes all its room, and `step` and `run` take no memory.
    pub fn prepared(
        alloc: Global,
        program: &'a Program,
        prepared: &Prepared,
    ) -> Result<World<'a>, AllocError>
        requires limits { KeepsLimits (program_of program.now) }
        requires ready { IsReady program.now prepared.now }
        ensures leads { (settings : Settings) → IsPrepared program.now settings prepared.now
            → IfOk result (λ world. LeadsTo (run_of program.now settings (arc_value world.sites)) [] world) }
        ensures sites { IfOk result (λ world. arc_value world.sites ≡ sites_in prepared.now) }
    {
        law_runs_begin();
        law_steps_are_kept();
        let board = first_board(alloc, program, prepared)?;
        // By calls: where `?` drops what was made before, the proof follows the drop of all that is in it.
        let Ok(tasks) = first_tasks(alloc, program, prepared) else {
            drop(board);
            return Err(AllocError);
        };
        let accesses = prepared.accesses.as_slice();
        let Ok(logs) = first_logs(alloc, accesses) else {
            drop(board);
            drop(tasks);
            return Err(AllocError);
        };
        let Ok(reports) = first_reports(alloc, all_accesses(accesses)) else {
            drop(board);
            drop(tasks);
            drop(logs);
            return Err(AllocError);
        };
        let Ok(sites) = Arc::try_clone(&prepared.sites) else {
            drop(board);
            drop(tasks);
            drop(logs);
            drop(reports);
            return Err(AllocError);
        };
        Ok(World {
            board,
            tasks,
            logs,
            reports,
            sites,
            steps: 0,
        })
    }

    /// A task makes its next step. One that has ended or is stuck makes none.
    #[inline(always)]
    pub fn step(&mut self, task: usize) -> Stepped
        requires { task < tasks_in self.old }
        ensures steps { (run : Run) (records : List Record) → LeadsTo run records self.old → StepsOn run records task self.old self.new }
        ensures ended { (run : Run) (records : List Record) → LeadsTo run records self.new
            → (result ≡ Stepped.Ended ↔ HasEnded run task records) }
        ensures stuck { (run : Run) (records : List Record) → LeadsTo run records self.new
            → (result ≡ Stepped.Stuck ↔ IsStuck run task records) }
        ensures tells { (machine : TaskRun) → IsMachine self.new task machine → SteppedLeaves result machine }
        ensures others { (other : ℕ) → task ≢ other → slice_get self.new.tasks.items other ≡ slice_get self.old.tasks.items other }
        ensures tasks { tasks_in self.new ≡ tasks_in self.old }
        ensures sites { self.new.sites ≡ self.old.sites }
        ensures room { room_in self.new ≡ room_in self.old }
        ensures headline { (run : Run) (records : List Record) → (leads : LeadsTo run records self.new) → Headline leads.list }
    {
        law_the_headline_holds();
        let Some(step) = self.tasks[task].next() else {
            return self.state(task);
        };
        self.make(task, step);
        self.state(task)
    }

    /// A task makes this step, which is its next: what it is answered.
    #[inline(always)]
    pub fn make(&mut self, task: usize, step: Step) -> Answer
        requires there { task < tasks_in self.old }
        requires next { MakesNextIn self.old.tasks.items task step }
        ensures moves { (run : Run) (records : List Record) → LeadsTo run records self.old
            → LeadsTo run (made task step result ∷ records) self.new }
        ensures others { (other : ℕ) → task ≢ other → slice_get self.new.tasks.items other ≡ slice_get self.old.tasks.items other }
        ensures tasks { tasks_in self.new ≡ tasks_in self.old }
        ensures sites { self.new.sites ≡ self.old.sites }
        ensures room { room_in self.new ≡ room_in self.old }
    {
        // Most steps are such. Nothing is copied for them: what a step is noted by is larger than all else it touches.
        if is_unlogged(step) {
            return self.make_unlogged(task, step);
        }
        self.make_logged(task, step)
    }

    /// A task makes this step, which is its next, and of which a log says nothing unless an outcome falls at it.
    #[inline(always)]
    fn make_unlogged(&mut self, task: usize, step: Step) -> Answer
        requires there { task < tasks_in self.old }
        requires next { MakesNextIn self.old.tasks.items task step }
        requires unlogged { IsTrue (spec.is_unlogged step) }
        ensures moves { (run : Run) (records : List Record) → LeadsTo run records self.old
            → LeadsTo run (made task step result ∷ records) self.new }
        ensures others { (other : ℕ) → task ≢ other → slice_get self.new.tasks.items other ≡ slice_get self.old.tasks.items other }
        ensures tasks { tasks_in self.new ≡ tasks_in self.old }
        ensures sites { self.new.sites ≡ self.old.sites }
        ensures room { room_in self.new ≡ room_in self.old }
    {
        law_steps_lead_on();
        law_steps_are_kept();
        let answer = self.board.step(step);
        self.tasks[task].answer(step, answer);
        self.steps = self.steps.saturating_add(1);
        note_fallen(
            &mut self.logs,
            &mut self.reports,
            task,
            &self.tasks[task],
            step,
            answer,
        );
        answer
    }

    /// A task makes this step, which is its next, and it is noted.
    #[inline(always)]
    fn make_logged(&mut self, task: usize, step: Step) -> Answer
        requires there { task < tasks_in self.old }
        requires next { MakesNextIn self.old.tasks.items task step }
        ensures moves { (run : Run) (records : List Record) → LeadsTo run records self.old
            → LeadsTo run (made task step result ∷ records) self.new }
        ensures others { (other : ℕ) → task ≢ other → slice_get self.new.tasks.items other ≡ slice_get self.old.tasks.items other }
        ensures tasks { tasks_in self.new ≡ tasks_in self.old }
        ensures sites { self.new.sites ≡ self.old.sites }
        ensures room { room_in self.new ≡ room_in self.old }
    {
        law_steps_lead_on();
        law_steps_are_kept();
        let begins = self.tasks[task].begins();
        let answer = self.board.step(step);
        self.tasks[task].answer(step, answer);
        let outcome = self.tasks[task].last_outcome();
        self.steps = self.steps.saturating_add(1);
        let noted = Noted {
            step,
            answer,
            begins,
            outcome,
        };
        note_in(&mut self.logs, &mut self.reports, task, &noted);
        answer
    }

    /// What a task is now.
    #[inline(always)]
    fn state(&self, task: usize) -> Stepped
        requires { task < tasks_in self.now }
        ensures { (machine : TaskRun) → IsMachine self.now task machine → SteppedLeaves result machine }
    {
        if self.tasks[task].stuck() {
            return Stepped::Stuck;
        }
        if self.tasks[task].is_over() {
            return Stepped::Ended;
        }
        Stepped::Moved
    }
}
