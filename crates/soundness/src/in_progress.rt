//! What is true of the accesses in progress at a moment of the history that an execution tells, and at the ends of the
//! execution's beginnings.

ghost use Rattle.std.specs.Prelude.{◌≡◌, ◌≢◌, ◌≤◌, ◌++◌, ℕ, List, length, take};
ghost use Rattle.access_types.specs.Access.{Access};
ghost use Rattle.access_types.specs.History.{InProgress};
ghost use Rattle.litmus_syntax.specs.Tree.{Block};
ghost use Rattle.executions.specs.execution.Run.{Run};
ghost use Rattle.executions.specs.execution.Execution.{Execution};
ghost use Rattle.executions.specs.execution.Observed.{history_of};
ghost use Rattle.setup_access.specs.declared.begun.Begun.{Begun};
ghost use Rattle.slot_table.specs.declared.records.Record.{Record};
ghost use Rattle.program_order.specs.InProgress.{bounds_of, clock_steps};
ghost use Rattle.program_order.specs.Standing.{Setting};
ghost use Rattle.program_order.specs.TaskObserved.{did_by};
ghost use Rattle.program_order.specs.WrittenOrder.{WrittenOrder};
ghost use Rattle.soundness.specs.InProgress.{AreBothInProgress, IsInProgressAfter, IsDecidedIn};

use crate::histories::law_executions_tell_runs_of_the_program;
use crate::verdicts::law_records_tell_their_events;

/// Law: all that a text does has as many begins and ends of accesses as the text has steps of the clock. By some of its
/// records the task has made the first of them, as many as there are steps of the clock among these records.
pub fn law_steps_of_the_clock_are_begins_and_ends()
    ensures whole { (s : Setting) (registers : ℕ) (body : Block) (records : List Record)
        → (written : WrittenOrder s registers body records)
        → length (bounds_of written.whole.end.progress.did) ≡ clock_steps (records ++ written.more) }
    ensures by_then { (s : Setting) (registers : ℕ) (body : Block) (records : List Record)
        → (written : WrittenOrder s registers body records) → (made : ℕ) → made ≤ length records
        → bounds_of (did_by written made)
        ≡ take (clock_steps (take made records)) (bounds_of written.whole.end.progress.did) }
{}

/// Law: two accesses that are in progress at one moment of the history that an execution tells are both in progress at
/// the end of one of its beginnings, by the records of their own tasks alone. What was decided of each as it began,
/// whether it counts as marked and whether it is silenced, is so in the history.
pub fn law_what_is_in_progress_is_so_at_an_end()
    ensures { (run : Run) (records : List Record) → (list : Execution run records)
        → (first second : Access) (moment : ℕ) → first.task ≢ second.task
        → InProgress (history_of list) first moment → InProgress (history_of list) second moment
        → AreBothInProgress list first second }
{
    law_records_tell_their_events();
    law_executions_tell_runs_of_the_program();
}

/// Law: an access that is in progress after the records of an execution, by those of its own task alone, is in progress
/// at the end of the history that the execution tells. What was decided of it as it began, whether it counts as marked
/// and whether it is silenced, is so in the history.
pub fn law_what_is_in_progress_at_an_end_is_so()
    ensures goes { (run : Run) (records : List Record) → (list : Execution run records)
        → (begun : Begun) → IsInProgressAfter run records begun
        → InProgress (history_of list) begun.access (length (history_of list)) }
    ensures decided { (run : Run) (records : List Record) → (list : Execution run records)
        → (begun : Begun) → IsInProgressAfter run records begun
        → IsDecidedIn run.rules.plain_writes_atomic (history_of list) begun.access begun }
{}
