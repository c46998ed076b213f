//! What comes of a run of a program that keeps the limits, at most.

ghost use Rattle.std.specs.Prelude.{◌*◌, ◌<◌, ◌≤◌, ℕ, List, length, reverse};
ghost use Rattle.std.specs.List.{sum_by};
ghost use Rattle.litmus_syntax.specs.Limits.{BodyKeepsLimits, KeepsLimits, block_repeats};
ghost use Rattle.litmus_syntax.specs.Tree.{Block};
ghost use Rattle.executions.specs.execution.Reports.{reports_of};
ghost use Rattle.executions.specs.execution.Run.{Run};
ghost use Rattle.executions.specs.execution.Execution.{Execution};
ghost use Rattle.log_correctness.specs.Noted.{AreNoted, Notes};
ghost use Rattle.slot_table.specs.declared.records.Record.{Record};
ghost use Rattle.task_log.specs.Arms.{arms_of, takes_of};
ghost use Rattle.task_log.specs.Reports.{reported_in};
ghost use Rattle.task_log.specs.declared.noted.Noted.{Noted};
ghost use Rattle.program_order.specs.Standing.{Setting};
ghost use Rattle.program_order.specs.WrittenOrder.{SpellsAll, WrittenOrder};

use program_order::law_the_written_order_keeps_the_discipline;

/// Law: of the checks of a task whose text keeps the limits no more outcomes fall than nine for each time that the
/// loops of its text repeat an access: one for the access and one for each of the eight scoped assertions that may be
/// in force. That is 9,216 at most.
pub fn law_few_outcomes_fall()
    ensures text { (s : Setting) (registers : ℕ) (body : Block) (records : List Record) → BodyKeepsLimits body
        → (whole : SpellsAll s registers body records) → length whole.end.outcomes ≤ 9 * block_repeats 1 body }
    ensures limits { (s : Setting) (registers : ℕ) (body : Block) (records : List Record) → BodyKeepsLimits body
        → (whole : SpellsAll s registers body records) → length whole.end.outcomes ≤ 9216 }
{}

/// Law: of a task whose text keeps the limits no more armings are over than nine for each time that the loops of its
/// text repeat an access, and no more takings, and no more reports are made at its steps.
pub fn law_few_watches_are_over()
    ensures arms { (s : Setting) (registers : ℕ) (body : Block) (records : List Record) (noted : List Noted) → BodyKeepsLimits body
        → (written : WrittenOrder s registers body records) → AreNoted written (reverse records) noted
        → length (arms_of noted) ≤ 9 * block_repeats 1 body }
    ensures takes { (s : Setting) (registers : ℕ) (body : Block) (records : List Record) (noted : List Noted) → BodyKeepsLimits body
        → (written : WrittenOrder s registers body records) → AreNoted written (reverse records) noted
        → length (takes_of noted) ≤ 9 * block_repeats 1 body }
    ensures reports { (s : Setting) (registers : ℕ) (body : Block) (records : List Record) (noted : List Noted) → BodyKeepsLimits body
        → (written : WrittenOrder s registers body records) → AreNoted written (reverse records) noted
        → length (reported_in noted) ≤ 9 * block_repeats 1 body }
{
    law_few_outcomes_fall();
    law_the_written_order_keeps_the_discipline();
}

/// Law: of each task of an execution whose program keeps the limits no more than 9,216 armings are over, and no more
/// than 9,216 takings.
pub fn law_few_watches_of_each_task_are_over()
    ensures arms { (run : Run) (records : List Record) (list : Execution run records) (task : ℕ) (noted : List Noted) → KeepsLimits run.program
        → task < length run.program.tasks → Notes list task noted → length (arms_of noted) ≤ 9216 }
    ensures takes { (run : Run) (records : List Record) (list : Execution run records) (task : ℕ) (noted : List Noted) → KeepsLimits run.program
        → task < length run.program.tasks → Notes list task noted → length (takes_of noted) ≤ 9216 }
{
    law_few_watches_are_over();
}

/// Law: an execution whose program keeps the limits reports no more than nine times for each time that the loops of a
/// text of its tasks repeat an access, and so no more than 9,216 times for each of its tasks.
pub fn law_few_are_reported()
    ensures text { (run : Run) (records : List Record) (list : Execution run records) → KeepsLimits run.program
        → length (reports_of list) ≤ 9 * sum_by (λ task. block_repeats 1 task.body) run.program.tasks }
    ensures limits { (run : Run) (records : List Record) (list : Execution run records) → KeepsLimits run.program
        → length (reports_of list) ≤ length run.program.tasks * 9216 }
{
    law_few_outcomes_fall();
}
