//! What is true of what logs keep of accesses.

ghost use Rattle.std.specs.Prelude.{ℕ, List};
ghost use Rattle.litmus_syntax.specs.Limits.{KeepsLimits};
ghost use Rattle.executions.specs.execution.Run.{Run};
ghost use Rattle.executions.specs.execution.Execution.{Execution};
ghost use Rattle.log_correctness.specs.Lists.{AreAccessesOf};
ghost use Rattle.log_correctness.specs.Noted.{Notes};
ghost use Rattle.slot_table.specs.declared.records.Record.{Record};
ghost use Rattle.task_log.specs.Touches.{accesses_of};
ghost use Rattle.task_log.specs.declared.noted.Noted.{Noted};

use crate::logs::{
    law_a_log_keeps_the_accesses_that_have_ended,
    law_a_log_says_of_accesses_what_the_history_decides,
};
use crate::watched::law_stamps_tell_the_order;

/// Law: the accesses that a log of a task keeps are just those that have ended in the list, each once and in the order
/// of their begins, with their stamps, and marked and silenced as the history decides, where the program keeps the
/// limits.
pub fn law_a_log_keeps_just_the_accesses()
    ensures { (run : Run) (records : List Record) (list : Execution run records) (task : ℕ) (noted : List Noted) → KeepsLimits run.program
        → Notes list task noted → AreAccessesOf list task (accesses_of noted) }
{
    law_a_log_keeps_the_accesses_that_have_ended();
    law_a_log_says_of_accesses_what_the_history_decides();
    law_stamps_tell_the_order();
}
