//! What is true of the written order.

ghost use Rattle.std.specs.Prelude.{◌++◌, ◌≡◌, ◌↔◌, ℕ, List, reverse};
ghost use Rattle.access_types.specs.declared.history.Happening.{Happening};
ghost use Rattle.litmus_semantics.specs.Meaning.{MeansBlock};
ghost use Rattle.litmus_syntax.specs.Tree.{Block};
ghost use Rattle.slot_table.specs.Discipline.{Discipline, IsFinished};
ghost use Rattle.slot_table.specs.declared.records.Record.{Record};
ghost use Rattle.slot_table.specs.declared.step.Step.{Step};
ghost use Rattle.setup_access.specs.Waits.{failed_tries};
ghost use Rattle.program_order.specs.Standing.{Setting, Standing};
ghost use Rattle.program_order.specs.Waits as waits;
ghost use Rattle.program_order.specs.Waits.{IsStuck, IsStuckByFailedTries, IsTry, OnlyStep};
ghost use Rattle.program_order.specs.WrittenOrder.{SpellsAll, StepsOfBlock, WrittenOrder, at_first, stands_after};

use setup_access::laws::law_checks_keep_the_discipline;

/// Law: a beginning of records in the written order is in the written order.
pub fn law_beginnings_are_in_the_written_order()
    ensures { (s : Setting) (registers : ℕ) (body : Block) (records more : List Record)
        → WrittenOrder s registers body (records ++ more) → WrittenOrder s registers body records }
{}

/// Law: the scoped assertions in force after a block are those in force before it.
pub fn law_parts_of_a_text_leave_the_scopes()
    ensures { (s : Setting) (site : ℕ) (body : Block) (before : Standing) (records : List Record) (after : Standing) (rest : List Record)
        → StepsOfBlock s site body before records after rest → after.scopes ≡ before.scopes }
{}

/// Law: what a task does in the written order keeps the discipline of watchpoints at every moment. After its
/// whole text it has no arming without its remove and no taking without its tell.
pub fn law_the_written_order_keeps_the_discipline()
    ensures keeps { (s : Setting) (registers : ℕ) (body : Block) (records : List Record)
        → WrittenOrder s registers body records → Discipline s.text.task (reverse records) }
    ensures finished { (s : Setting) (registers : ℕ) (body : Block) (records : List Record)
        → SpellsAll s registers body records → IsFinished (reverse records) }
{
    law_checks_keep_the_discipline();
}

/// Law: what a task did is a beginning of what its text means, with the values that the records' answers hold.
/// What it did by some records is a beginning of what it does in its whole text.
pub fn law_what_is_done_is_meant()
    ensures whole { (s : Setting) (registers : ℕ) (body : Block) (records : List Record) → (spells : SpellsAll s registers body records)
        → MeansBlock s.text 0 body (at_first registers).progress spells.end.progress }
    ensures by_then { (s : Setting) (registers : ℕ) (body : Block) (records : List Record) → (written : WrittenOrder s registers body records)
        → (rest : List Happening) × (written.whole.end.progress.did ≡ (stands_after written).progress.did ++ rest) }
{}

/// Law: a try of a wait comes after as many tries of it as the records end with failed tries. So a task is stuck
/// exactly where it goes on with a try of a wait and has made as many failed tries as are allowed.
pub fn law_stuck_tasks_have_failed_tries()
    ensures tries { (s : Setting) (registers : ℕ) (body : Block) (records : List Record) (step : Step)
        → WrittenOrder s registers body records → OnlyStep s registers body records step → IsTry step (reverse records)
        → waits.failed_tries step (reverse records) ≡ failed_tries records }
    ensures stuck { (s : Setting) (registers : ℕ) (body : Block) (records : List Record)
        → IsStuck s registers body records ↔ IsStuckByFailedTries s registers body records }
{}
