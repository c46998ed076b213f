//! How many accesses, armings and takings an execution has.

ghost use Rattle.std.specs.Prelude.{◌*◌, ◌≤◌, List, length};
ghost use Rattle.access_types.specs.Arms.{Arm};
ghost use Rattle.access_types.specs.Stamped.{Stamped};
ghost use Rattle.access_types.specs.Takes.{Take};
ghost use Rattle.litmus_syntax.specs.Limits.{KeepsLimits};
ghost use Rattle.executions.specs.execution.Run.{Run};
ghost use Rattle.executions.specs.execution.Execution.{Execution};
ghost use Rattle.log_correctness.specs.Lists.{AreAccesses, AreArms, AreTakes};
ghost use Rattle.slot_table.specs.declared.records.Record.{Record};

use crate::bounds::law_few_outcomes_fall;
use executions::observation_determinism::{law_few_accesses_begin, law_one_telling};
use program_order::law_the_written_order_keeps_the_discipline;

/// Law: an execution whose program keeps the limits has at most 1,024 accesses that have ended for each of its tasks,
/// and at most 9,216 armings and 9,216 takings that are over.
pub fn law_few_are_kept()
    ensures accesses { (run : Run) (records : List Record) (list : Execution run records) (accesses : List Stamped) → KeepsLimits run.program
        → AreAccesses list accesses → length accesses ≤ length run.program.tasks * 1024 }
    ensures arms { (run : Run) (records : List Record) (list : Execution run records) (arms : List Arm) → KeepsLimits run.program
        → AreArms list arms → length arms ≤ length run.program.tasks * 9216 }
    ensures takes { (run : Run) (records : List Record) (list : Execution run records) (takes : List Take) → KeepsLimits run.program
        → AreTakes list takes → length takes ≤ length run.program.tasks * 9216 }
{
    law_few_outcomes_fall();
    law_the_written_order_keeps_the_discipline();
    law_few_accesses_begin();
    law_one_telling();
}
