//! What is true of the accesses of each execution that are watched, and of their ends.

ghost use Rattle.std.specs.Prelude.{◌≡◌, ◌<◌, ◌^◌, ◌++◌, ◌∷◌, All, Contains, List};
ghost use Rattle.access_types.specs.Access.{Access};
ghost use Rattle.access_types.specs.History.{beginning, ending};
ghost use Rattle.litmus_syntax.specs.Limits.{KeepsLimits};
ghost use Rattle.executions.specs.execution.Run.{Run};
ghost use Rattle.executions.specs.execution.Execution.{AllHaveEnded, Execution};
ghost use Rattle.executions.specs.execution.Observed.{history_of, outcomes_of};
ghost use Rattle.slot_table.specs.declared.records.Record.{Record};
ghost use Rattle.log_correctness.specs.Stamps.{stamps_in};
ghost use Rattle.log_correctness.specs.Watched.{FitsItsTask, IfTold, IfWatched};

use executions::observation_determinism::{law_few_accesses_begin, law_one_telling};
use slot_table::step::{Answer, Step};
use soundness::histories::law_executions_tell_runs_of_the_program;
use soundness::verdicts::law_records_tell_their_events;

/// Law: each verdict that an execution tells is on the watchpoint of an access that a word can stand for, which doesn't
/// count as marked and isn't silenced. Nor is an access silenced that hits a watchpoint and tells its setter.
pub fn law_watched_accesses_are_unmarked_and_heard()
    ensures setters { (run : Run) (records : List Record) → (list : Execution run records) → All (IfWatched list) (outcomes_of list) }
    ensures finders { (run : Run) (records : List Record) → (list : Execution run records) → All (IfTold list) (outcomes_of list) }
{}

/// Law: once all tasks of an execution have ended each access that has begun in its history has ended there.
pub fn law_accesses_of_ended_tasks_have_ended()
    ensures { (run : Run) (records : List Record) → (list : Execution run records) → AllHaveEnded run records
        → (a : Access) → Contains (history_of list) (beginning a) → Contains (history_of list) (ending a) }
{
    law_one_telling();
    law_executions_tell_runs_of_the_program();
}

/// Law: each access that begins in the history of an execution is one of the text of its task, within the limits of
/// accesses, has bytes, and has no mask without a bit.
pub fn law_accesses_that_begin_fit()
    ensures { (run : Run) (records : List Record) → (list : Execution run records)
        → (a : Access) → Contains (history_of list) (beginning a) → FitsItsTask run a }
{
    law_executions_tell_runs_of_the_program();
}

/// Law: the clock answers how many of its steps come before, and in a list of a program within the limits it has
/// fewer than 2^64. So stamps rise with the list, and no two of them are one.
pub fn law_stamps_tell_the_order()
    ensures answers { (run : Run) (records : List Record) → Execution run records → KeepsLimits run.program
        → (later earlier : List Record) (latest : Record) → records ≡ later ++ latest ∷ earlier → latest.step ≡ Step.Clock
        → latest.answer ≡ Answer.Word (stamps_in earlier) }
    ensures few { (run : Run) (records : List Record) → Execution run records → KeepsLimits run.program → stamps_in records < 2 ^ 64 }
{
    law_few_accesses_begin();
    law_records_tell_their_events();
}
