//! What is true of every execution.

ghost use Rattle.std.specs.Prelude.{◌≢◌, ℕ, List, All, AllPairs, IfSome, slice_get};
ghost use Rattle.std.specs.List.Sorted.{IsPermutation};
ghost use Rattle.access_types.specs.History.{happenings_of};
ghost use Rattle.litmus_semantics.specs.RunOfProgram.{IsBeginning};
ghost use Rattle.executions.specs.execution.Answers.{IfAnswer};
ghost use Rattle.executions.specs.execution.Run.{Run, first_cells, first_words, locks_of};
ghost use Rattle.executions.specs.execution.Execution.{AllHaveEnded, Execution};
ghost use Rattle.executions.specs.execution.Observed.{history_of, outcomes_of};
ghost use Rattle.executions.specs.execution.TwoSides.{NamesBoth};
ghost use Rattle.slot_table.specs.Armings.{MeetOnce, armings_taken};
ghost use Rattle.slot_table.specs.Discipline.{AllAreFinished, LegalInDiscipline};
ghost use Rattle.slot_table.specs.Hearings.{EachHearsTheOther};
ghost use Rattle.slot_table.specs.Meetings.{finders_told, setters_heard};
ghost use Rattle.slot_table.specs.Records.{words_after};
ghost use Rattle.slot_table.specs.Roles.{Stands};
ghost use Rattle.slot_table.specs.declared.records.Record.{Record};

use program_order::law_the_written_order_keeps_the_discipline;
use slot_table::laws::{
    law_armings_are_met_once, law_each_hears_the_other, law_heard_is_told, law_roles,
};
use watch_word::law_words_read_back;

/// Law: an execution is legal, and each task in it keeps the discipline of watchpoints. Once all tasks
/// have ended none has a check unfinished. So the laws of `slot_table` hold of it.
pub fn law_executions_keep_the_discipline()
    ensures keeps { (run : Run) (records : List Record) → Execution run records
        → LegalInDiscipline run.rules.slots (locks_of run) (first_cells run) records }
    ensures finished { (run : Run) (records : List Record) → AllHaveEnded run records
        → AllAreFinished records }
{
    law_the_written_order_keeps_the_discipline();
}

/// Law: the watch word at each index tells who is its setter and who its finder, and what the halves
/// of the pair are. Each taking is of the last arming at its index, and no arming is taken twice.
/// Setters and finders hear each other's tickets. Once all tasks have ended the pairs that setters
/// heard are those that finders told.
pub fn law_roles_of_executions()
    ensures table { (run : Run) (records : List Record) → Execution run records
        → (index : ℕ) → Stands (words_after (first_words run) records) records index }
    ensures met { (run : Run) (records : List Record) → Execution run records → MeetOnce records }
    ensures taken_once { (run : Run) (records : List Record) → Execution run records
        → AllPairs ◌≢◌ (armings_taken records) }
    ensures heard { (run : Run) (records : List Record) → Execution run records
        → EachHearsTheOther records }
    ensures bags { (run : Run) (records : List Record) → Execution run records
        → AllHaveEnded run records → IsPermutation (setters_heard records) (finders_told records) }
{
    law_executions_keep_the_discipline();
    law_roles();
    law_armings_are_met_once();
    law_each_hears_the_other();
    law_heard_is_told();
}

/// Law: of the history that an execution tells the moments of a task of the program are a beginning of what its text
/// means.
pub fn law_each_task_does_what_its_text_means()
    ensures { (run : Run) (records : List Record) → (list : Execution run records)
        → (number : ℕ) → IfSome (slice_get run.program.tasks number)
        (λ task. IsBeginning run.program run.places number task (happenings_of number (history_of list))) }
{}

/// Law: each report of two sides and each named discard that an execution tells answers a taking. The arming is in the
/// hand of the task of the access that was checked, under the word of that access; another task took it for an
/// access of its own, and told. The outcome is the verdict on the two, dropped for its encoding exactly where they
/// share no byte.
pub fn law_answers_are_to_takings()
    ensures { (run : Run) (records : List Record) → (list : Execution run records)
        → All (IfAnswer list) (outcomes_of list) }
{
    law_executions_keep_the_discipline();
    law_words_read_back();
}

/// Law: each report of two sides that an execution tells names a true race in the history that the list tells, setter
/// first: the access that was checked, as the setter, and one of another task, as the finder, which are those of the
/// arming and of its taking. Both are of the program, share a byte and conflict, neither is silenced, and they are
/// in progress at one moment. The setter doesn't count as marked. The pair is the one that the finder told.
pub fn law_reports_name_two_sides()
    ensures { (run : Run) (records : List Record) → (list : Execution run records)
        → All (NamesBoth list) (outcomes_of list) }
{
    law_executions_keep_the_discipline();
    law_words_read_back();
}
