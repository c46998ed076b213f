//! What is true of the totals of each execution whose tasks have all ended.

ghost use Rattle.std.specs.Prelude.{List};
ghost use Rattle.executions.specs.execution.Run.{Run};
ghost use Rattle.executions.specs.execution.Execution.{AllHaveEnded, Execution};
ghost use Rattle.executions.specs.execution.Observed.{outcomes_of};
ghost use Rattle.soundness.specs.Totals.{Totals};
ghost use Rattle.slot_table.specs.declared.records.Record.{Record};

use crate::verdicts::law_outcomes_fall_where_they_are_settled;
use executions::execution::laws::{law_executions_keep_the_discipline, law_roles_of_executions};

/// Law: once all tasks of an execution have ended its totals agree. Each arming ended quiet or taken. Each try-consume
/// took or lost, and as many took as armings ended taken. Each arming that ended taken has one answer: a report of two
/// sides, or a discard for its encoding, for the same value, or for the mask. No more reports are of unknown origin
/// than armings ended quiet.
pub fn law_totals_agree()
    ensures { (run : Run) (records : List Record) → (list : Execution run records) → AllHaveEnded run records
        → Totals records (outcomes_of list) }
{
    law_executions_keep_the_discipline();
    law_roles_of_executions();
    law_outcomes_fall_where_they_are_settled();
}
