//! A task of a program, under way.

ghost use Rattle.std.specs.Prelude.{◌≡◌, ◌↔◌, ◌++◌, ◌^◌, ◌<◌, ◌≤◌, ◌⊎◌, ◌∷◌, [], ℕ, List};
ghost use Rattle.std.specs.Prelude.{IfErr, IfOk, IfSome, IsErrOf, IsNone, IsTrue, None, Option, Some, length, reverse, slice_get};
ghost use Rattle.access_types.specs.Sites.{AccessMap};

use crate::machine::Machine;
use crate::news::News;
use crate::stage::TaskStage;
use access_run::AccessRun;
use access_run::memory_operation::LockWait;
use litmus_syntax::Program;
use prepared_program::program_sites::{Prepared, RunError, Settings};
use setup_access::{Begun, Outcome};
use slot_table::{Answer, Step};
use std::alloc::{AllocError, Global};
use std::sync::Arc;
use task_plan::task_points::{After, Before, Latest};
use task_plan::{Progress, Walk};

/// A task of a program, from its first statement to its last: the step that it makes next, and what it
/// goes on with after the answer. It makes no step itself, so it runs over any words.
#[derive(Drop)]
pub struct TaskRun<'a> {
    pub(crate) machine: Machine<'a>,
    /// What it is doing.
    pub(crate) stage: TaskStage<'a>,
    pub(crate) news: News,
}

impl<'a> TaskRun<'a> {
    ghost use Rattle.litmus_syntax.specs.Limits.{BlockScopes, KeepsLimits, block_rises};
    ghost use Rattle.litmus_syntax.specs.Tree.{Block};
    ghost use Rattle.litmus_syntax.specs.Views.{block_of, program_of};
    ghost use Rattle.prepared_program.specs.program_layout.Places.{AreFit, places_of};
    ghost use Rattle.litmus_syntax.specs.declared.program.Task.{Task};
    ghost use Rattle.prepared_program.specs.program_sites.Errors.{IsOfPreparing};
    ghost use Rattle.prepared_program.specs.program_sites.Prepared.{IsPrepared, IsReady, sites_in};
    ghost use Rattle.prepared_program.specs.program_sites.Sites.{AreSitesOf};
    ghost use Rattle.prepared_program.specs.declared.program_sites.settings.Settings.{Settings};
    ghost use Rattle.task_run.specs.Accesses.{begun_in, in_progress_of};
    ghost use Rattle.task_run.specs.Loaded.{values_loaded};
    ghost use Rattle.task_run.specs.First.{setting_of};
    ghost use Rattle.slot_table.specs.Answer.{Answers};
    ghost use Rattle.slot_table.specs.declared.records.Record.{Record};
    ghost use Rattle.slot_table.specs.declared.step.Answer.TheVariants.{Done};
    ghost use Rattle.slot_table.specs.declared.step.Step.{Step};
    ghost use Rattle.task_run.specs.Leads.{BeginsNext, IsStuck, Leads, LeadsOn, stands_at};
    ghost use Rattle.task_plan.specs.Counts.{up_to_last};
    ghost use Rattle.task_plan.specs.declared.follow.Then.{Then};
    ghost use Rattle.task_run.specs.Says.{IsGoing, IsStopped, Says};
    ghost use Rattle.task_run.specs.Fell.{FellAt, fell_of};
    ghost use Rattle.std.specs.Option.{is_some};
    ghost use Rattle.setup_access.specs.declared.begun.Begun.{Begun};
    ghost use Rattle.task_run.specs.Points.{HasMade, Stepped, kept_by, last_was, next_is};
    ghost use Rattle.task_run.specs.Room.{room_of, task_room};
    ghost use Rattle.program_order.specs.Waits.{OnlyStep, WithinTurns};
    ghost use Rattle.setup_access.specs.Parts.{made};
    ghost use Rattle.slot_table.specs.declared.step.Answer.{Answer};
    ghost use Rattle.prepared_program.specs.declared.program_sites.error.RunError.TheVariants.{BadPlace, BadSlots};
    ghost use Rattle.access_run.specs.declared.access.AccessRun as accesses;
    ghost use Rattle.access_run.specs.declared.memory_operation.lock.LockWait as locks;
    ghost use Rattle.task_run.specs.declared.stage.TaskStage.TheVariants.{Closing, Locking, Making, Opening, Unlocking};
    ghost use Rattle.program_order.specs.Standing.{Setting};
    ghost use Rattle.program_order.specs.Waits as waits;
    ghost use Rattle.program_order.specs.WrittenOrder.{SpellsAll, WrittenOrder};

    /// The task of this number before its first step. It takes all its room, and no call after it takes memory.
    ///
    /// `BadSlots`: there are fewer than 3 page slots, or more than 1,024. `BadPlace`: a place is no
    /// multiple of its variable's size or is above 2^62, its name is unknown, a lock's, or placed twice.
    pub fn new(
        alloc: Global,
        program: &'a Program,
        settings: &Settings,
        number: u32,
    ) -> Result<TaskRun<'a>, RunError>
        requires limits { KeepsLimits (program_of program.now) }
        requires there { number < length program.now.tasks }
        ensures leads { IfOk result (λ run. (sites : AccessMap)
            × AreSitesOf (program_of program.now) (places_of settings.now.places.items) sites
            × ((task : Task) → slice_get program.now.tasks number ≡ Some task
            → Leads (setting_of program.now settings.now sites number) (length task.registers) (block_of task.body.items) [] run)) }
        ensures fell { IfOk result (λ run. fell_of run ≡ None) }
        ensures points { IfOk result (λ run. HasMade [] run) }
        ensures bad_slots { IsErrOf result BadSlots → (settings.now.slots < 3 ⊎ 1024 < settings.now.slots) }
        ensures bad_place { IsErrOf result BadPlace ↔ (AreFit program.now.variables settings.now.places.items → ⊥) }
        ensures errors { IfErr result IsOfPreparing }
    {
        let prepared = Prepared::new(alloc, program, settings)?;
        let run = TaskRun::prepared(alloc, program, &prepared, number)?;
        Ok(run)
    }

    /// The task of this number before its first step, of a program that is made ready. It takes all its room, and no
    /// call after it takes memory.
    pub fn prepared(
        alloc: Global,
        program: &'a Program,
        prepared: &Prepared,
        number: u32,
    ) -> Result<TaskRun<'a>, AllocError>
        requires limits { KeepsLimits (program_of program.now) }
        requires ready { IsReady program.now prepared.now }
        requires there { number < length program.now.tasks }
        ensures leads { (settings : Settings) (task : Task) → IsPrepared program.now settings prepared.now
            → slice_get program.now.tasks number ≡ Some task → IfOk result (λ run.
            Leads (setting_of program.now settings (sites_in prepared.now) number) (length task.registers) (block_of task.body.items) [] run) }
        ensures fell { IfOk result (λ run. fell_of run ≡ None) }
        ensures points { IfOk result (λ run. HasMade [] run) }
    {
        let variables = program.variables.as_slice();
        let task = &program.tasks.as_slice()[number as usize];
        let registers = task.registers.as_slice().len();
        let layout = Arc::try_clone(&prepared.layout)?;
        // What is dropped where memory is refused is dropped by calls: at a `?` the proof follows the drop of all that
        // is in it.
        let Ok(sites) = Arc::try_clone(&prepared.sites) else {
            drop(layout);
            return Err(AllocError);
        };
        let Ok(walk) = Walk::new(alloc, task.body.as_slice()) else {
            drop(layout);
            drop(sites);
            return Err(AllocError);
        };
        let Ok(progress) = Progress::new(alloc, registers, variables.len()) else {
            drop(layout);
            drop(sites);
            drop(walk);
            return Err(AllocError);
        };
        let Ok(checker) = prepared.checker(alloc, number) else {
            drop(layout);
            drop(sites);
            drop(walk);
            drop(progress);
            return Err(AllocError);
        };
        let mut machine = Machine {
            task: number,
            rules: prepared.rules,
            variables,
            layout,
            sites,
            walk,
            progress,
            in_force: 0,
            checker,
            begins: None,
        };
        let mut stage = TaskStage::Over;
        machine.advance(&mut stage);
        Ok(TaskRun {
            machine,
            stage,
            news: News {
                fell: None,
                latest: Latest::Other,
            },
        })
    }

    /// The step that the task makes next; none where its text is over, or a wait of it is stuck.
    #[inline(always)]
    pub fn next(&self) -> Option<Step>
        ensures says { IfSome result (λ step. Says self.now step) }
        ensures only { (s : Setting) (registers : ℕ) (body : Block) (records : List Record) → Leads s registers body records self.now
            → IfSome result (OnlyStep s registers body records) }
        ensures none { (s : Setting) (registers : ℕ) (body : Block) (records : List Record)
            → (leads : Leads s registers body records self.now)
            → (IsNone result ↔ (SpellsAll s registers body records ⊎ (IsStuck leads ⊎ IsStopped self.now))) }
        ensures over { (s : Setting) (registers : ℕ) (body : Block) (records : List Record) → Leads s registers body records self.now
            → WrittenOrder s registers body records → BlockScopes 0 body → block_rises body ≤ 2 ^ 32
            → (IsNone result ↔ (SpellsAll s registers body records ⊎ waits.IsStuck s registers body records)) }
        ensures going { (s : Setting) (registers : ℕ) (body : Block) (records : List Record)
            → (leads : Leads s registers body records self.now)
            → IsGoing self.now → (IsNone result ↔ IsStuck leads) }
        ensures stops { (s : Setting) (registers : ℕ) (body : Block) (records : List Record)
            → (leads : Leads s registers body records self.now)
            → (step : Step) → Says self.now step → IsNone result → IsStuck leads }
        ensures within { (s : Setting) (registers : ℕ) (body : Block) (records : List Record) → Leads s registers body records self.now
            → WithinTurns s.rules.turns (reverse records)
            → IfSome result (λ step. (answer : Answer)
            → WithinTurns s.rules.turns (reverse (records ++ made s.text.task step answer ∷ []))) }
    {
        match &self.stage {
            TaskStage::Over => None,
            TaskStage::Stopped => None,
            TaskStage::Making(run, _) => run.next(&self.machine.checker),
            TaskStage::Opening => self.machine.checker.next(),
            TaskStage::Closing => self.machine.checker.next(),
            TaskStage::Locking(wait, _) => wait.next(self.machine.rules.turns),
            TaskStage::Unlocking(variable) => {
                Some(Step::LockStore(self.machine.lock_number(*variable)))
            }
        }
    }

    /// A wait of the task had as many failed tries as the rules allow. Its own count tells, so no step is worked out.
    #[inline(always)]
    pub fn stuck(&self) -> bool
        ensures stage { (s : Setting) (registers : ℕ) (body : Block) (records : List Record)
            → (leads : Leads s registers body records self.now)
            → (IsTrue result ↔ IsStuck leads) }
        ensures records { (s : Setting) (registers : ℕ) (body : Block) (records : List Record) → Leads s registers body records self.now
            → WrittenOrder s registers body records → BlockScopes 0 body → block_rises body ≤ 2 ^ 32
            → (IsTrue result ↔ waits.IsStuck s registers body records) }
    {
        match &self.stage {
            TaskStage::Over => false,
            TaskStage::Stopped => false,
            TaskStage::Making(run, _) => run.stuck(&self.machine.checker),
            TaskStage::Opening => self.machine.checker.stuck(),
            TaskStage::Closing => self.machine.checker.stuck(),
            TaskStage::Locking(wait, _) => wait.stuck(self.machine.rules.turns),
            TaskStage::Unlocking(_) => false,
        }
    }

    /// The task has made the steps of its whole text. Its stage tells, so no step is worked out.
    #[inline(always)]
    pub fn is_over(&self) -> bool
        ensures { (s : Setting) (registers : ℕ) (body : Block) (records : List Record) → Leads s registers body records self.now
            → BlockScopes 0 body → block_rises body ≤ 2 ^ 32 → (IsTrue result ↔ SpellsAll s registers body records) }
    {
        matches!(self.stage, TaskStage::Over)
    }

    /// The access that begins with the next step, if one does, with what is decided of it.
    #[inline(always)]
    pub fn begins(&self) -> Option<Begun>
        ensures { (s : Setting) (registers : ℕ) (body : Block) (records : List Record) → (leads : Leads s registers body records self.now)
            → (later : List Record) → BeginsNext s leads.part (stands_at leads later) leads.mine result }
    {
        match &self.stage {
            TaskStage::Making(_, _) => self.machine.begins,
            TaskStage::Opening => self.machine.begins,
            TaskStage::Closing => None,
            TaskStage::Locking(_, _) => None,
            TaskStage::Unlocking(_) => None,
            TaskStage::Over => None,
            TaskStage::Stopped => None,
        }
    }

    /// Takes the answer of its step, which the caller has of `next`: so it isn't worked out again.
    #[inline(always)]
    pub fn answer(&mut self, step: Step, answer: Answer)
        requires says { Says self.old step }
        requires answers { Answers step answer }
        ensures leads { LeadsOn self.old self.new answer }
        ensures fell { FellAt self.old (fell_of self.new) answer }
        ensures points { (s : Setting) (registers : ℕ) (body : Block) (records : List Record)
            → (leads : Leads s registers body records self.old)
            → (begins : Option Begun) (steps : List Stepped)
            → BeginsNext s leads.part (stands_at leads []) leads.mine begins → HasMade steps self.old
            → HasMade (record { step = step; begins = is_some begins } ∷ steps) self.new }
        ensures room { task_room self.new ≡ task_room self.old }
    {
        let latest = self.latest(step);
        match self.stage {
            TaskStage::Over | TaskStage::Stopped => unreachable!(),
            TaskStage::Making(_, _after) => self.answers_access(answer, latest),
            TaskStage::Opening | TaskStage::Closing => {
                let fell = self.answers_check(answer);
                self.news.tell(fell, latest);
            }
            TaskStage::Locking(_, _) => {
                self.answers_lock(answer);
                self.news.tell(None, latest);
            }
            TaskStage::Unlocking(variable) => {
                self.answers_unlock(variable);
                self.news.tell(None, latest);
            }
        }
    }

    /// The outcome that fell at the last answer, if one did.
    #[inline(always)]
    pub fn last_outcome(&self) -> Option<Outcome>
        ensures { result ≡ fell_of self.now }
    {
        self.news.fell
    }

    /// What the next step is, which is this one: `next` says it.
    #[inline(always)]
    pub fn before(&self, step: Step) -> Before
        requires { Says self.now step }
        ensures { (s : Setting) (registers : ℕ) (body : Block) (records : List Record) → (leads : Leads s registers body records self.now)
            → (begins : Option Begun) (steps : List Stepped) → BeginsNext s leads.part (stands_at leads []) leads.mine begins
            → HasMade steps self.now → result ≡ next_is steps step (is_some begins) }
    {
        self.news.latest.with_next(step, self.begins().is_some())
    }

    /// What the last step was.
    #[inline(always)]
    pub fn after(&self) -> After
        ensures { (steps : List Stepped) → HasMade steps self.now → result ≡ last_was steps }
    {
        self.news.latest.after()
    }

    /// What is to be kept of the last steps once this one is made, which is the next.
    #[inline(always)]
    fn latest(&self, step: Step) -> Latest
        ensures { (s : Setting) (registers : ℕ) (body : Block) (records : List Record) → (leads : Leads s registers body records self.now)
            → (begins : Option Begun) (steps : List Stepped)
            → BeginsNext s leads.part (stands_at leads []) leads.mine begins → HasMade steps self.now
            → result ≡ kept_by (record { step = step; begins = is_some begins } ∷ steps) }
    {
        self.news.latest.and(step, self.begins().is_some())
    }

    /// An access takes the answer where it stands, and what fell is told, with what is to be kept of the last steps.
    /// Once the access is over, what follows on it is done.
    #[inline(always)]
    fn answers_access(&mut self, answer: Answer, latest: Latest)
        requires making { (run : accesses.AccessRun) × (after : Then) × (self.old.stage ≡ Making run after) }
        requires says { (step : Step) × Says self.old step × Answers step answer }
        ensures leads { LeadsOn self.old self.new answer }
        ensures fell { FellAt self.old (fell_of self.new) answer }
        ensures latest { self.new.news.latest ≡ latest }
        ensures room { room_of self.new.machine ≡ room_of self.old.machine }
    {
        let TaskStage::Making(run, _) = &mut self.stage else {
            unreachable!()
        };
        let came = self.machine.outcome_count();
        self.machine.answers_access(run, answer);
        let outcomes = self.machine.checker.outcomes();
        self.news.tell_newest(outcomes, came, latest);
        if run.is_over() {
            // Before the next part begins: a mark, or the end of a silence, is for the very next access.
            let effect = run.effect();
            let TaskStage::Making(_, after) = self.stage else {
                unreachable!()
            };
            self.machine.follows(after, effect);
            self.machine.advance(&mut self.stage);
        }
    }

    /// The check of a scoped assertion takes the answer, and what fell is told. Once it is over, the assertion is in
    /// force, or no longer.
    #[inline(always)]
    fn answers_check(&mut self, answer: Answer) -> Option<Outcome>
        requires checking { (self.old.stage ≡ Opening) ⊎ (self.old.stage ≡ Closing) }
        requires says { (step : Step) × Says self.old step × Answers step answer }
        ensures leads { LeadsOn self.old self.new answer }
        ensures fell { FellAt self.old result answer }
        ensures room { room_of self.new.machine ≡ room_of self.old.machine }
    {
        let came = self.machine.answers_check(answer);
        if came.over {
            match self.stage {
                TaskStage::Opening => self.machine.opened(),
                _ => self.machine.closed(),
            }
            self.machine.advance(&mut self.stage);
        }
        came.fell
    }

    /// The wait for a lock takes the answer where it stands. Once it is over, the task has the lock.
    #[inline(always)]
    fn answers_lock(&mut self, answer: Answer)
        requires locking { (wait : locks.LockWait) × (variable : ℕ) × (self.old.stage ≡ Locking wait variable) }
        requires says { (step : Step) × Says self.old step × Answers step answer }
        ensures leads { LeadsOn self.old self.new answer }
        ensures news { self.new.news ≡ self.old.news }
        ensures room { room_of self.new.machine ≡ room_of self.old.machine }
    {
        let TaskStage::Locking(wait, variable) = &mut self.stage else {
            unreachable!()
        };
        wait.answer(answer);
        if wait.is_taken() {
            self.machine.progress.set_lock(*variable, true);
            self.machine.advance(&mut self.stage);
        }
    }

    /// The lock is given back.
    #[inline(always)]
    fn answers_unlock(&mut self, variable: usize)
        ensures leads { self.old.stage ≡ Unlocking variable → LeadsOn self.old self.new Done }
        ensures room { room_of self.new.machine ≡ room_of self.old.machine }
    {
        self.machine.progress.set_lock(variable, false);
        self.machine.advance(&mut self.stage);
    }

    /// The values of the task's registers, by number.
    pub fn registers(&self) -> &[u64]
        ensures { (s : Setting) (registers : ℕ) (body : Block) (records : List Record) → (leads : Leads s registers body records self.now)
            → (later : List Record) → result.now ≡ (stands_at leads later).progress.registers }
    {
        self.machine.progress.registers()
    }

    /// The old value of its watch, and what its access has read or its next exchange compares its cell with; 0 where
    /// there is none. Other loaded values, as the new value of a watch, aren't among them.
    pub fn values_loaded(&self) -> (u64, u64)
        ensures { result ≡ values_loaded self.now }
    {
        (self.machine.checker.old_value(), self.stage.loaded())
    }

    /// The accesses of the task that are in progress, with what was decided of each as it began: the scoped assertions
    /// in force, the oldest first, and then the access or the assertion of the part of the text that the task is in.
    pub fn in_progress(&self, alloc: Global) -> Result<Vec<Begun>, AllocError>
        ensures { IfOk result (λ accesses. accesses.items ≡ in_progress_of self.now) }
    {
        let mut accesses = self.machine.checker.scoped().to_vec(alloc)?;
        if let Some(begun) = self.begun_now() {
            accesses.push(begun)?;
        }
        Ok(accesses)
    }

    /// What the task has begun in the part of its text that it is in, or closes there.
    pub(crate) fn begun_now(&self) -> Option<Begun>
        ensures { result ≡ begun_in self.now.machine.checker self.now.stage }
    {
        match &self.stage {
            TaskStage::Making(_, _) => self.machine.checker.begun(),
            TaskStage::Opening => self.machine.checker.begun(),
            TaskStage::Closing => self.machine.checker.closing(),
            TaskStage::Locking(_, _) => None,
            TaskStage::Unlocking(_) => None,
            TaskStage::Over => None,
            TaskStage::Stopped => None,
        }
    }

    /// How many of its calls had nothing to end, up to the largest number that there is.
    pub fn unbalanced(&self) -> u64
        ensures { (s : Setting) (registers : ℕ) (body : Block) (records : List Record) → (leads : Leads s registers body records self.now)
            → (later : List Record) → result ≡ up_to_last (stands_at leads later).unbalanced }
    {
        self.machine.progress.unbalanced()
    }
}
