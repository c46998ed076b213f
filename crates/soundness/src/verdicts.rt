//! What is true of the outcomes that each execution tells.

ghost use Rattle.std.specs.Prelude.{◌≡◌, ◌∷◌, ℕ, All, Contains, List, None};
ghost use Rattle.executions.specs.execution.Run.{Run};
ghost use Rattle.executions.specs.execution.Execution.{Execution};
ghost use Rattle.executions.specs.execution.Observed.{armed_by, outcomes_of};
ghost use Rattle.slot_table.specs.Meetings.{Meeting, setters_heard};
ghost use Rattle.slot_table.specs.declared.records.Record.{Record};
ghost use Rattle.program_order.specs.TaskObserved.{did_by};
ghost use Rattle.soundness.specs.Events.{AreMarks, EachDoesItsEvent};
ghost use Rattle.soundness.specs.Finds.{IfTelling};
ghost use Rattle.soundness.specs.Joined.{IfAnswersBoth};
ghost use Rattle.soundness.specs.Made.{EachIsMadeFor};
ghost use Rattle.soundness.specs.Takings.{EachSettles, HasOneAnswer, IsTakingOver, WasTaken};
ghost use Rattle.soundness.specs.Watches.{IfVerdict};

use executions::execution::laws::{
    law_answers_are_to_takings, law_executions_keep_the_discipline, law_roles_of_executions,
};
use slot_table::step::Step;

/// Law: in the history that an execution tells each record has its event, by its step and its answer, and then the
/// marks that its task makes before its next step. A step of the clock begins or ends one access. A read has the value
/// that its bytes have in the word that the load or the refused exchange answered. An accepted exchange changes only
/// the bytes that it writes, to the value that it writes. A lock is taken or given up at the step on its own word.
/// Before its first step a task makes marks alone.
pub fn law_records_tell_their_events()
    ensures each { (run : Run) (records : List Record) → (list : Execution run records) → EachDoesItsEvent list records }
    ensures first { (run : Run) (records : List Record) → (list : Execution run records)
        → (task : ℕ) → AreMarks (did_by (list.tasks task) 0) }
{}

/// Law: the outcomes that an execution tells fall at the records that settle them, and at no others. Each refused
/// try-consume is one lost try, each tell one telling, each untouched consume one verdict on nobody's hit, and each
/// load by which a setter whose word was hit hears its finder one report of that pair or one named discard.
pub fn law_outcomes_fall_where_they_are_settled()
    ensures { (run : Run) (records : List Record) → (list : Execution run records) → EachSettles list records }
{}

/// Law: each verdict that an execution tells, a report, a named discard or none, is on a watch that its task has just
/// made of the very access that was checked: set up under the access's word, named by its ticket, and judged by its two
/// loads and by the pair that was heard. The access is in progress all the while.
pub fn law_verdicts_are_on_watches()
    ensures { (run : Run) (records : List Record) → (list : Execution run records)
        → All (IfVerdict list) (outcomes_of list) }
{}

/// Law: each telling is on a find that its task has just made of the very access that was checked: it looked a matching
/// word up, took it, heard the setter, and told its own ticket. The access is in progress all the while. What it took
/// is one arming of another task, with its index, its number and its word.
pub fn law_tellings_are_on_finds()
    ensures { (run : Run) (records : List Record) → (list : Execution run records)
        → All (IfTelling list) (outcomes_of list) }
{
    law_roles_of_executions();
}

/// Law: watchpoints are armed and taken for accesses in progress. Just before each insertion its task has an access of
/// the program in progress whose word it inserts, and just before each try one that the word matches.
pub fn law_watchpoints_are_of_accesses_in_progress()
    ensures { (run : Run) (records : List Record) → (list : Execution run records) → EachIsMadeFor list records }
{}

/// Law: each answer to a taking is the verdict on the watch of the very arming that was taken, by the values of its two
/// loads and by the pair that it heard. The finder is the access in whose find that arming was taken and told of: the
/// outcome of its check, earlier in the list, is the telling of this pair. Both accesses are in progress all the while.
pub fn law_answers_are_on_a_watch_and_a_find()
    ensures { (run : Run) (records : List Record) → (list : Execution run records)
        → All (IfAnswersBoth list) (outcomes_of list) }
{
    law_executions_keep_the_discipline();
    law_answers_are_to_takings();
    law_verdicts_are_on_watches();
    law_outcomes_fall_where_they_are_settled();
    law_tellings_are_on_finds();
}

/// Law: each taking has one answer in the list once its setter has heard of it: one report of two sides or one named
/// discard, and no other. So has each taking that no task has in hand any more, and after a step of the clock, as an
/// access ends by one, its task has none in hand. What answers say is the law of answers to takings in `execution`.
pub fn law_each_taking_has_one_answer()
    ensures heard { (run : Run) (records : List Record) → (list : Execution run records)
        → (met : Meeting) → Contains (setters_heard records) met → HasOneAnswer list met.index met.number }
    ensures over { (run : Run) (records : List Record) → (list : Execution run records)
        → (index number : ℕ) → WasTaken index number records → IsTakingOver index number records
        → HasOneAnswer list index number }
    ensures timed { (run : Run) (latest : Record) (earlier : List Record) → Execution run (latest ∷ earlier)
        → latest.step ≡ Step.Clock → armed_by latest.task (latest ∷ earlier) ≡ None }
{
    law_executions_keep_the_discipline();
}
