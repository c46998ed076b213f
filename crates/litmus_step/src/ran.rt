//! What is read of a run, whoever made its steps.

ghost use Rattle.std.specs.Prelude.{◌≡◌, ◌<◌, ℕ, IfOk, List};
ghost use Rattle.log_correctness.specs.Setters.{AreReportsOf};
ghost use Rattle.access_types.specs.declared.report.Report.{Report};
ghost use Rattle.litmus_step.specs.Readers.{AreRegisters};
ghost use Rattle.litmus_step.specs.Runs.{CanBeMade, tasks_of};
ghost use Rattle.log_correctness.specs.Lists.{AreAccesses, AreArms, AreTakes};
ghost use Rattle.log_correctness.specs.Totals.{CountsList, IsUnbalanced};
ghost use Rattle.slot_table.specs.Records.{words_after};
ghost use Rattle.slot_table.specs.declared.records.Record.{Record};
ghost use Rattle.executions.specs.execution.Run.{Run, first_words};
ghost use Rattle.executions.specs.execution.Execution.{Execution};

use access_types::{Arm, Report, Stamped, Take};
use std::alloc::{AllocError, Global};
use task_log::Counters;

/// What came of the steps of a run: a world, or what threads leave. What is read of it is what the list of these steps
/// gives. The latest record of a list stands first.
pub trait Ran {
    /// These records lead there.
    ghost comes_of: { Self → Run → List Record → Type 0 };

    /// They are an execution.
    ghost list_of: { (ran : Self) (run : Run) (records : List Record) → comes_of ran run records → Execution run records };

    /// The run can be made.
    ghost can: { (ran : Self) (run : Run) (records : List Record) → comes_of ran run records → CanBeMade run };

    /// How many tasks there are.
    ghost tasks_in: { Self → ℕ };

    /// What was reported.
    ghost reports_in: { Self → List Report };

    /// How many tasks there are.
    fn tasks(&self) -> usize
        ensures count { result ≡ tasks_in self.now }
        ensures all { (run : Run) (records : List Record) → comes_of self.now run records → result ≡ tasks_of run };

    /// The values of a task's registers, by number.
    fn registers(&self, task: usize) -> &[u64]
        requires { task < tasks_in self.now }
        ensures { (run : Run) (records : List Record) → (comes : comes_of self.now run records)
            → AreRegisters (list_of self.now run records comes) task result.now };

    /// What the cells of memory hold.
    fn memory(&self) -> &[u64]
        ensures { (run : Run) (records : List Record) → comes_of self.now run records
            → result.now ≡ (words_after (first_words run) records).cells };

    /// What was reported: in the order of the verdicts, or by the setter's task.
    fn reports(&self) -> &[Report]
        ensures reports { result.now ≡ reports_in self.now }
        ensures told { (run : Run) (records : List Record) → (comes : comes_of self.now run records)
            → AreReportsOf (list_of self.now run records comes) result.now };

    /// How often each thing came of the checks of all tasks.
    fn counters(&self) -> Counters
        ensures { (run : Run) (records : List Record) → (comes : comes_of self.now run records)
            → CountsList (list_of self.now run records comes) result };

    /// How many calls of all tasks had nothing to end, up to the largest number that there is.
    fn unbalanced(&self) -> u64
        ensures { (run : Run) (records : List Record) → (comes : comes_of self.now run records)
            → IsUnbalanced (list_of self.now run records comes) result };

    /// The accesses that have ended, by task, and then in the order of their begins.
    fn accesses(&self, alloc: Global) -> Result<Vec<Stamped>, AllocError>
        ensures { (run : Run) (records : List Record) → (comes : comes_of self.now run records)
            → IfOk result (λ all. AreAccesses (list_of self.now run records comes) all.items) };

    /// The armings that are over, by task, and then in the order of their removes.
    fn arms(&self, alloc: Global) -> Result<Vec<Arm>, AllocError>
        ensures { (run : Run) (records : List Record) → (comes : comes_of self.now run records)
            → IfOk result (λ all. AreArms (list_of self.now run records comes) all.items) };

    /// The takings that are over, by task, and then in the order of their tells.
    fn takes(&self, alloc: Global) -> Result<Vec<Take>, AllocError>
        ensures { (run : Run) (records : List Record) → (comes : comes_of self.now run records)
            → IfOk result (λ all. AreTakes (list_of self.now run records comes) all.items) };
}
