//! What is read of a world.

ghost use Rattle.std.specs.Prelude.{◌≡◌, ◌<◌, All, IfOk, List};
ghost use Rattle.std.specs.Arc.{arc_value};
ghost use Rattle.litmus_semantics.specs.RunOfProgram.{RunOfProgram};
ghost use Rattle.litmus_step.specs.Runs.{HasEnded};
ghost use Rattle.soundness.specs.Headline.{Headline};
ghost use Rattle.soundness.specs.Cells.{CellsHold, memory_after, run_cells};
ghost use Rattle.soundness.specs.Reported.{IsTrueReport};
ghost use Rattle.executions.specs.execution.Reports.{reports_of};
ghost use Rattle.executions.specs.execution.Run.{Run};
ghost use Rattle.executions.specs.execution.Observed.{history_of};
ghost use Rattle.slot_table.specs.declared.records.Record.{Record};

use crate::laws::{
    law_machines_stand_where_the_list_does, law_reports_have_room,
    law_worlds_tell_runs_of_the_program,
};
use crate::logs::{accesses_of, arms_of, counters_of, takes_of};
use crate::ran::Ran;
use crate::world::World;
use access_types::{Arm, Report, Sites, Stamped, Take};
use log_correctness::logs::law_a_machine_says_what_begins;
use slot_table::PlainBoard;
use soundness::histories::{law_cells_hold_the_content, law_reports_are_true};
use soundness::laws::law_the_headline_holds;
use std::alloc::{AllocError, Global};
use task_log::Counters;
use task_run::{After, Before, TaskRun};

impl<'a> World<'a> {
    ghost use Rattle.litmus_step.specs.Readers.{AreRegisters, IsBefore, IsMeant, steps_told};
    ghost use Rattle.log_correctness.specs.Lists.{AreAccesses, AreArms, AreTakes};
    ghost use Rattle.log_correctness.specs.Totals.{CountsList, IsUnbalanced};
    ghost use Rattle.litmus_step.specs.Steps.{IsMachine, LeadsTo, tasks_in};
    ghost use Rattle.task_run.specs.Points.{last_was};

    /// How many tasks there are.
    pub fn tasks(&self) -> usize
        ensures { result ≡ tasks_in self.now }
    {
        self.tasks.len()
    }

    /// The machine of a task.
    pub fn task_run(&self, task: usize) -> &TaskRun<'a>
        requires { task < tasks_in self.now }
        ensures { IsMachine self.now task result.now }
    {
        &self.tasks[task]
    }

    /// The words that the tasks share.
    pub fn board(&self) -> &PlainBoard
        ensures { result.now ≡ self.now.board }
    {
        &self.board
    }

    /// How many steps were made, up to the largest number that there is.
    pub fn steps(&self) -> u64
        ensures { result ≡ self.now.steps }
    {
        self.steps
    }

    /// What the tasks did so far. It is stored nowhere and the call answers nothing, but says what is so of it: the
    /// history that each list tells which leads here is that of a run of the program.
    pub fn history(&self)
        ensures { (run : Run) (records : List Record) → (leads : LeadsTo run records self.now)
            → RunOfProgram run.program run.places (history_of leads.list) }
    {
        law_worlds_tell_runs_of_the_program();
    }

    /// What was reported so far, in order.
    pub fn reports(&self) -> &[Report]
        ensures reports { result.now ≡ self.now.reports.items }
        ensures told { (run : Run) (records : List Record) → (leads : LeadsTo run records self.now) → result.now ≡ reports_of leads.list }
        ensures true_reports { (run : Run) (records : List Record) → (leads : LeadsTo run records self.now)
            → All (IsTrueReport leads.list) result.now }
        ensures headline { (run : Run) (records : List Record) → (leads : LeadsTo run records self.now) → Headline leads.list }
    {
        law_reports_have_room();
        law_reports_are_true();
        law_the_headline_holds();
        self.reports.as_slice()
    }

    /// What the cells of memory hold.
    pub fn memory(&self) -> &[u64]
        ensures cells { result.now ≡ self.now.board.cells }
        ensures content { (run : Run) (records : List Record) → (leads : LeadsTo run records self.now)
            → CellsHold (run_cells run) (memory_after run (history_of leads.list)) result.now }
    {
        law_cells_hold_the_content();
        self.board.cells()
    }

    /// The accesses that the program can make, by ticket.
    pub fn sites(&self) -> &Sites
        ensures { result.now ≡ arc_value self.now.sites }
    {
        &*self.sites
    }

    /// The values of a task's registers, by number.
    pub fn registers(&self, task: usize) -> &[u64]
        requires { task < tasks_in self.now }
        ensures list { (run : Run) (records : List Record) → (leads : LeadsTo run records self.now)
            → AreRegisters leads.list task result.now }
        ensures meant { (run : Run) (records : List Record) → (leads : LeadsTo run records self.now) → HasEnded run task records
            → IsMeant leads.list task }
    {
        law_machines_stand_where_the_list_does();
        self.tasks[task].registers()
    }

    /// How often each thing came of the checks of all tasks.
    pub fn counters(&self) -> Counters
        ensures { (run : Run) (records : List Record) → (leads : LeadsTo run records self.now) → CountsList leads.list result }
    {
        counters_of(self.logs.as_slice())
    }

    /// How many calls of all tasks had nothing to end, up to the largest number that there is.
    pub fn unbalanced(&self) -> u64
        ensures { (run : Run) (records : List Record) → (leads : LeadsTo run records self.now) → IsUnbalanced leads.list result }
    {
        law_machines_stand_where_the_list_does();
        let mut unbalanced: u64 = 0;
        for run in &self.tasks {
            unbalanced = unbalanced.saturating_add(run.unbalanced());
        }
        unbalanced
    }

    /// The accesses that have ended, by task, and then in the order of their begins.
    pub fn accesses(&self, alloc: Global) -> Result<Vec<Stamped>, AllocError>
        ensures { (run : Run) (records : List Record) → (leads : LeadsTo run records self.now)
            → IfOk result (λ all. AreAccesses leads.list all.items) }
    {
        accesses_of(alloc, self.logs.as_slice())
    }

    /// The armings that are over, by task, and then in the order of their removes.
    pub fn arms(&self, alloc: Global) -> Result<Vec<Arm>, AllocError>
        ensures { (run : Run) (records : List Record) → (leads : LeadsTo run records self.now)
            → IfOk result (λ all. AreArms leads.list all.items) }
    {
        arms_of(alloc, self.logs.as_slice())
    }

    /// The takings that are over, by task, and then in the order of their tells.
    pub fn takes(&self, alloc: Global) -> Result<Vec<Take>, AllocError>
        ensures { (run : Run) (records : List Record) → (leads : LeadsTo run records self.now)
            → IfOk result (λ all. AreTakes leads.list all.items) }
    {
        takes_of(alloc, self.logs.as_slice())
    }

    /// What the next step of a task is. One that has ended or is stuck has none.
    pub fn before(&self, task: usize) -> Before
        requires { task < tasks_in self.now }
        ensures { (run : Run) (records : List Record) → (leads : LeadsTo run records self.now) → IsBefore leads.list task result }
    {
        law_a_machine_says_what_begins();
        match self.tasks[task].next() {
            Some(step) => self.tasks[task].before(step),
            None => Before::Other,
        }
    }

    /// What the last step of a task was.
    pub fn after(&self, task: usize) -> After
        requires { task < tasks_in self.now }
        ensures { (run : Run) (records : List Record) → (leads : LeadsTo run records self.now)
            → result ≡ last_was (steps_told leads.list task) }
    {
        self.tasks[task].after()
    }
}

impl<'a> Ran for World<'a> {
    ghost use Rattle.litmus_step.specs.Steps.{LeadsTo, tasks_in as tasks_of_world};

    ghost comes_of = { λ world run records. LeadsTo run records world };

    ghost list_of = { λ world run records leads. leads.list };

    ghost can = { λ world run records leads. leads.can };

    ghost tasks_in = { λ world. tasks_of_world world };

    ghost reports_in = { λ world. world.reports.items };

    fn tasks(&self) -> usize {
        World::tasks(self)
    }

    fn registers(&self, task: usize) -> &[u64] {
        World::registers(self, task)
    }

    fn memory(&self) -> &[u64] {
        World::memory(self)
    }

    fn reports(&self) -> &[Report] {
        World::reports(self)
    }

    fn counters(&self) -> Counters {
        World::counters(self)
    }

    fn unbalanced(&self) -> u64 {
        World::unbalanced(self)
    }

    fn accesses(&self, alloc: Global) -> Result<Vec<Stamped>, AllocError> {
        World::accesses(self, alloc)
    }

    fn arms(&self, alloc: Global) -> Result<Vec<Arm>, AllocError> {
        World::arms(self, alloc)
    }

    fn takes(&self, alloc: Global) -> Result<Vec<Take>, AllocError> {
        World::takes(self, alloc)
    }
}
