//! What is true of the history that each execution tells.

ghost use Rattle.std.specs.Prelude.{◌≡◌, ◌++◌, All, Contains, List, Some, length};
ghost use Rattle.access_types.specs.Access.{Access};
ghost use Rattle.access_types.specs.History.{content};
ghost use Rattle.access_types.specs.Race.{bytes_of};
ghost use Rattle.access_types.specs.declared.report.Report.{Report};
ghost use Rattle.litmus_semantics.specs.Layout.{memory_at_first};
ghost use Rattle.litmus_semantics.specs.RunOfProgram.{RunOfProgram};
ghost use Rattle.soundness.specs.Cells.{CellsHold, memory_after, run_cells};
ghost use Rattle.soundness.specs.Ended.{HasEndedSince};
ghost use Rattle.soundness.specs.HeldReads.{ReadsHold};
ghost use Rattle.soundness.specs.Origins.{NamesChange};
ghost use Rattle.soundness.specs.Reported.{IsOfOutcome, IsTrueReport};
ghost use Rattle.soundness.specs.Watched.{NamesWatched};
ghost use Rattle.executions.specs.execution.Reports.{reported, reports_of};
ghost use Rattle.executions.specs.execution.Run.{Run, first_words, task_setting};
ghost use Rattle.executions.specs.execution.Execution.{Execution};
ghost use Rattle.executions.specs.execution.Observed.{OutcomeAt, history_by, history_of, outcomes_of};
ghost use Rattle.setup_access.specs.Values.{source_of, value_in};
ghost use Rattle.setup_access.specs.declared.source.Source.{Source};
ghost use Rattle.soundness.specs.Takings.{HasOneAnswer};
ghost use Rattle.slot_table.specs.Hearings.{IsArming, IsTaking};
ghost use Rattle.slot_table.specs.Records.{words_after};
ghost use Rattle.slot_table.specs.declared.records.Record.{Record};
ghost use Rattle.std.specs.Prelude.{ℕ, slice_index};
ghost use Rattle.program_order.specs.Standing.{checks_of};

use crate::verdicts::{
    law_each_taking_has_one_answer, law_records_tell_their_events, law_verdicts_are_on_watches,
};
use executions::execution::laws::{
    law_executions_keep_the_discipline, law_reports_name_two_sides, law_roles_of_executions,
};

/// Law: at each point of an execution the cells hold the content of memory, byte by byte: what the writes of the
/// history that is told by then have laid over the initial values. So the bytes of an access that lie in one cell have
/// as their content their value in the cell's word.
pub fn law_cells_hold_the_content()
    ensures bytes { (run : Run) (records : List Record) → (list : Execution run records)
        → (later earlier : List Record) → records ≡ later ++ earlier
        → CellsHold (run_cells run) (memory_after run (history_by list earlier)) (words_after (first_words run) earlier).cells }
    ensures values { (run : Run) (records : List Record) → (list : Execution run records)
        → (task : ℕ) (a : Access) (source : Source) → source_of (checks_of (task_setting run task)) a ≡ Some source
        → content (memory_at_first run.places run.program.variables) (history_of list) (length (history_of list)) (bytes_of a)
        ≡ value_in a source (slice_index (words_after (first_words run) records).cells source.cell) }
{
    law_records_tell_their_events();
}

/// Law: in the history that an execution tells each read holds the content of its bytes just before it.
pub fn law_reads_hold_the_content()
    ensures { (run : Run) (records : List Record) → (list : Execution run records)
        → ReadsHold (memory_at_first run.places run.program.variables) (history_of list) }
{
    law_records_tell_their_events();
}

/// Law: the history that an execution tells is that of a run of the program. Each task does a beginning of what its
/// text means, each read holds the content just before it, a lock is taken only when it is free and given up only by
/// its holder, and while an access is in progress its task has but the access's own moments, scoped assertions aside.
pub fn law_executions_tell_runs_of_the_program()
    ensures { (run : Run) (records : List Record) → (list : Execution run records)
        → RunOfProgram run.program run.places (history_of list) }
{
    law_records_tell_their_events();
    law_reads_hold_the_content();
}

/// Law: each report of unknown origin that an execution tells names bytes that changed under the watch of the access
/// that was checked. In the history that the list tells their content was the old value at the first load of the watch
/// and the new one at the second, both made after the setter had named itself and before it consumed its word,
/// untouched. The access was in progress at both, and no moment between them is of its own task.
pub fn law_unknown_origins_changed()
    ensures changed { (run : Run) (records : List Record) → (list : Execution run records)
        → All (NamesChange list) (outcomes_of list) }
    ensures watched { (run : Run) (records : List Record) → (list : Execution run records)
        → All (NamesWatched list) (outcomes_of list) }
{
    law_cells_hold_the_content();
    law_verdicts_are_on_watches();
}

/// Law: the reports of an execution are true. Each of two sides names two accesses of the program by their tickets, the
/// setter's first, which race in the history that the list tells; each of unknown origin names an access of the
/// program whose bytes changed under its watch. They are the reports of the list's outcomes, and each outcome that is a
/// report has it.
pub fn law_reports_are_true()
    ensures all { (run : Run) (records : List Record) → (list : Execution run records)
        → All (IsTrueReport list) (reports_of list) }
    ensures outcomes { (run : Run) (records : List Record) → (list : Execution run records)
        → All (IsOfOutcome list) (reports_of list) }
    ensures reports { (run : Run) (records : List Record) → (list : Execution run records)
        → (came : OutcomeAt) (report : Report) → Contains (outcomes_of list) came
        → reported came.access came.outcome ≡ Some report → Contains (reports_of list) report }
{
    law_reports_name_two_sides();
    law_verdicts_are_on_watches();
    law_unknown_origins_changed();
}

/// Law: each taking has one answer once its two accesses have ended: an access of the setter's task that was in
/// progress as it armed, as the one is that it armed for, and one of the finder's task that was as it took. The answer
/// is one report of two sides or one named discard, and there is no other.
pub fn law_takings_of_ended_accesses_have_one_answer()
    ensures { (run : Run) (records : List Record) → (list : Execution run records)
        → (index number setter word finder taken_word : ℕ) → HasEndedSince list (IsArming index number setter word)
        → HasEndedSince list (IsTaking index number finder taken_word) → HasOneAnswer list index number }
{
    law_records_tell_their_events();
    law_executions_keep_the_discipline();
    law_roles_of_executions();
    law_each_taking_has_one_answer();
}
