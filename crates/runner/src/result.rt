//! What came of a run on threads.

ghost use Rattle.std.specs.Prelude.{◌≡◌, ◌<◌, All, IfOk, List, length, slice_index_or};
ghost use Rattle.accepted_traces.specs.Parts.{ReportFits};
ghost use Rattle.executions.specs.execution.Run.{Run};
ghost use Rattle.executions.specs.execution.Execution.{Execution};
ghost use Rattle.log_correctness.specs.Lists.{AreAccesses, AreArms, AreTakes};
ghost use Rattle.log_correctness.specs.Totals.{CountsList};
ghost use Rattle.runner.specs.Result.{IsOf};
ghost use Rattle.slot_table.specs.declared.records.Record.{Record};

use crate::laws::law_reports_are_of_ended_accesses;
use access_types::{Arm, Report, Stamped, Take};
use litmus_step::Ran;
use litmus_step::logs::{accesses_of, arms_of, counters_of, takes_of};
use shared_table::Gathered;
use std::alloc::{AllocError, Global};
use task_log::{Counters, TaskLog};

/// What came of a run on threads: what was kept of the steps of its tasks, and the words at its end. Only a call that
/// makes a run answers one, and it is never copied: those of two numbers are of two calls.
#[derive(Drop)]
pub struct RunResult {
    pub(crate) number: u64,
    pub(crate) logs: Vec<TaskLog>,
    pub(crate) reports: Vec<Report>,
    pub(crate) registers: Vec<Vec<u64>>,
    pub(crate) unbalanced: u64,
    pub(crate) gathered: Gathered,
}

impl RunResult {
    /// The number under which the run was made.
    pub fn number(&self) -> u64
        ensures { result ≡ self.now.number }
    {
        self.number
    }

    /// What was reported, by the setter's task, and then in that task's order.
    pub fn reports(&self) -> &[Report]
        ensures { result.now ≡ self.now.reports.items }
    {
        self.reports.as_slice()
    }

    /// How often each thing came of the checks of all tasks.
    pub fn counters(&self) -> Counters
        ensures { (run : Run) (records : List Record) → (list : Execution run records) → IsOf list self.now → CountsList list result }
    {
        counters_of(self.logs.as_slice())
    }

    /// How many calls of all tasks had nothing to end, up to the largest number that there is.
    pub fn unbalanced(&self) -> u64
        ensures { result ≡ self.now.unbalanced }
    {
        self.unbalanced
    }

    /// The accesses, by task, and then in the order of their begins. The reports are of these.
    pub fn accesses(&self, alloc: Global) -> Result<Vec<Stamped>, AllocError>
        ensures all { (run : Run) (records : List Record) → (list : Execution run records) → IsOf list self.now
            → IfOk result (λ all. AreAccesses list all.items) }
        ensures races { (run : Run) (records : List Record) → (list : Execution run records) → IsOf list self.now
            → IfOk result (λ all. All (ReportFits all.items) self.now.reports.items) }
    {
        law_reports_are_of_ended_accesses();
        accesses_of(alloc, self.logs.as_slice())
    }

    /// The armings, by task, and then in the order of their removes.
    pub fn arms(&self, alloc: Global) -> Result<Vec<Arm>, AllocError>
        ensures { (run : Run) (records : List Record) → (list : Execution run records) → IsOf list self.now
            → IfOk result (λ all. AreArms list all.items) }
    {
        arms_of(alloc, self.logs.as_slice())
    }

    /// The takings, by task, and then in the order of their tells.
    pub fn takes(&self, alloc: Global) -> Result<Vec<Take>, AllocError>
        ensures { (run : Run) (records : List Record) → (list : Execution run records) → IsOf list self.now
            → IfOk result (λ all. AreTakes list all.items) }
    {
        takes_of(alloc, self.logs.as_slice())
    }

    /// How many tasks there were.
    pub fn tasks(&self) -> usize
        ensures { result ≡ length self.now.registers.items }
    {
        self.registers.len()
    }

    /// The values of a task's registers at the end, by number.
    pub fn registers(&self, task: usize) -> &[u64]
        requires { task < length self.now.registers.items }
        ensures { (d : _) → result.now ≡ (slice_index_or self.now.registers.items task d).items }
    {
        self.registers[task].as_slice()
    }

    /// What the cells of memory hold at the end.
    pub fn memory(&self) -> &[u64]
        ensures { result.now ≡ self.now.gathered.cells }
    {
        self.gathered.cells()
    }
}

impl Ran for RunResult {
    ghost comes_of = { λ result run records. (list : Execution run records) × IsOf list result };

    ghost list_of = { λ result run records is. is.0 };

    ghost can = { λ result run records is. is.1.can };

    ghost tasks_in = { λ result. length result.registers.items };

    ghost reports_in = { λ result. result.reports.items };

    fn tasks(&self) -> usize {
        RunResult::tasks(self)
    }

    fn registers(&self, task: usize) -> &[u64] {
        RunResult::registers(self, task)
    }

    fn memory(&self) -> &[u64] {
        RunResult::memory(self)
    }

    fn reports(&self) -> &[Report] {
        RunResult::reports(self)
    }

    fn counters(&self) -> Counters {
        RunResult::counters(self)
    }

    fn unbalanced(&self) -> u64 {
        RunResult::unbalanced(self)
    }

    fn accesses(&self, alloc: Global) -> Result<Vec<Stamped>, AllocError> {
        RunResult::accesses(self, alloc)
    }

    fn arms(&self, alloc: Global) -> Result<Vec<Arm>, AllocError> {
        RunResult::arms(self, alloc)
    }

    fn takes(&self, alloc: Global) -> Result<Vec<Take>, AllocError> {
        RunResult::takes(self, alloc)
    }
}
