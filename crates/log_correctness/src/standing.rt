//! What the records of a task say of its machine.

ghost use Rattle.std.specs.Prelude.{◌≡◌, ℕ, List};
ghost use Rattle.litmus_semantics.specs.Meaning.{MeansBlock};
ghost use Rattle.litmus_syntax.specs.Tree.{Block};
ghost use Rattle.slot_table.specs.declared.records.Record.{Record};
ghost use Rattle.task_run.specs.Leads.{Leads, stands_at};
ghost use Rattle.task_run.specs.Says.{IsStopped};
ghost use Rattle.task_run.specs.declared.run.TaskRun.{TaskRun};
ghost use Rattle.program_order.specs.Standing.{Setting};
ghost use Rattle.program_order.specs.WrittenOrder.{SpellsAll, WrittenOrder, at_first, stands_after};

use executions::observation_determinism::law_one_telling;
use program_order::law_what_is_done_is_meant;

/// Law: the registers of a task's machine, and how many of its calls had nothing to end, are what the records tell that
/// lead to the machine, however these are completed in the written order.
pub fn law_machines_stand_where_the_records_tell()
    ensures registers { (s : Setting) (registers : ℕ) (body : Block) (records : List Record) (run : TaskRun)
        → (leads : Leads s registers body records run) → (written : WrittenOrder s registers body records) → ¬ IsStopped run
        → (stands_at leads written.more).progress.registers ≡ (stands_after written).progress.registers }
    ensures unbalanced { (s : Setting) (registers : ℕ) (body : Block) (records : List Record) (run : TaskRun)
        → (leads : Leads s registers body records run) → (written : WrittenOrder s registers body records) → ¬ IsStopped run
        → (stands_at leads written.more).unbalanced ≡ (stands_after written).unbalanced }
{}

/// Law: a task that has made the steps of its whole text stands at the end of the text: what it did, and its registers,
/// are what the text means with the values that the records' answers hold.
pub fn law_ended_tasks_stand_at_the_end()
    ensures end { (s : Setting) (registers : ℕ) (body : Block) (records : List Record) → (written : WrittenOrder s registers body records)
        → (spells : SpellsAll s registers body records) → (stands_after written).progress ≡ spells.end.progress }
    ensures unbalanced { (s : Setting) (registers : ℕ) (body : Block) (records : List Record)
        → (written : WrittenOrder s registers body records)
        → (spells : SpellsAll s registers body records) → (stands_after written).unbalanced ≡ spells.end.unbalanced }
    ensures meant { (s : Setting) (registers : ℕ) (body : Block) (records : List Record) → (written : WrittenOrder s registers body records)
        → SpellsAll s registers body records → MeansBlock s.text 0 body (at_first registers).progress (stands_after written).progress }
{
    law_one_telling();
    law_what_is_done_is_meant();
}
