//! What is true of texts that fit.

ghost use Rattle.std.specs.Prelude.{◌≡◌, ◌<◌, ◌≤◌, ◌+◌, ◌++◌, [], ℕ, List, length};
ghost use Rattle.litmus_semantics.specs.RunOfProgram.{setting_of};
ghost use Rattle.litmus_syntax.specs.Limits.{KeepsLimits, TaskKeepsLimits};
ghost use Rattle.litmus_syntax.specs.Tree.{Block, Program, Task};
ghost use Rattle.prepared_program.specs.program_layout.Aligned.{AreAligned};
ghost use Rattle.prepared_program.specs.program_layout.Places.{AreFit, places_of};
ghost use Rattle.prepared_program.specs.declared.program_layout.place.Place.{Place};
ghost use Rattle.slot_table.specs.declared.records.Record.{Record};
ghost use Rattle.task_plan.specs.task_laws.Begins.{block_begins};
ghost use Rattle.task_plan.specs.task_laws.StandingButWay.{begun_at, core_of};
ghost use Rattle.task_plan.specs.task_laws.Fits.{ArePlaced, Fits};
ghost use Rattle.program_order.specs.Standing.{Setting, Standing};
ghost use Rattle.program_order.specs.WrittenOrder.{SpellsAll, StepsOfBlock, WrittenOrder, at_first};

use prepared_program::program_layout::law_variables_are_aligned;

/// Law: a block that fits where a task stands is spelled by some records, whatever follows. The scoped assertions
/// in force are the same afterwards, and at each site no more accesses began than the block has room for.
pub fn law_fitting_blocks_are_spelled()
    ensures { (s : Setting) (registers site : ℕ) (body : Block) (before : Standing) (rest : List Record)
        → ArePlaced s → Fits s registers site body before
        → (records : List Record) × (end : Standing) × StepsOfBlock s site body before (records ++ rest) end rest
        × (end.scopes ≡ before.scopes)
        × ((at : ℕ) → begun_at at (core_of end) ≤ begun_at at (core_of before) + block_begins site body at) }
{}

/// Law: the text of a task that keeps the limits and the rules of types fits where the task begins, and some records
/// spell it. So a task that has made no step is in the written order.
pub fn law_texts_within_limits_are_spelled()
    ensures fits { (s : Setting) (task : Task) → ArePlaced s → TaskKeepsLimits s.text.variables task
        → Fits s (length task.registers) 0 task.body (at_first (length task.registers)) }
    ensures spelled { (s : Setting) (task : Task) → ArePlaced s → TaskKeepsLimits s.text.variables task
        → (records : List Record) × SpellsAll s (length task.registers) task.body records }
    ensures begins { (s : Setting) (task : Task) → ArePlaced s → TaskKeepsLimits s.text.variables task
        → WrittenOrder s (length task.registers) task.body [] }
{}

/// Law: where each variable but the locks stands at a multiple of its size, at 2^62 at most, the variables are placed:
/// each lies in a cell.
pub fn law_aligned_variables_are_placed()
    ensures { (s : Setting) → s.text.task < 16 → AreAligned s.text.places s.text.variables → ArePlaced s }
{}

/// Law: of a program within the limits, with places that fit its variables, these are placed for each task.
pub fn law_variables_of_programs_are_placed()
    ensures { (program : Program) (places : List Place) → KeepsLimits program → AreFit program.variables places
        → (s : Setting) (number : ℕ) → number < length program.tasks → s.text ≡ setting_of program (places_of places) number
        → ArePlaced s }
{
    law_variables_are_aligned();
}
