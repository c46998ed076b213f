//! What is true of tasks at their seats.

ghost use Rattle.std.specs.Prelude.{◌≡◌, ◌<◌, ◌∷◌, [], ℕ, All, List, Option};
ghost use Rattle.accepted_traces.specs.Parts.{ReportFits};
ghost use Rattle.access_types.specs.Stamped.{Stamped};
ghost use Rattle.access_types.specs.declared.report.Report.{Report};
ghost use Rattle.litmus_step.specs.Kept.{Added, IsNotedIn};
ghost use Rattle.litmus_step.specs.Leads.{MakesNext};
ghost use Rattle.litmus_step.specs.Readers.{IsMeant};
ghost use Rattle.litmus_step.specs.Runs.{CanBeMade, tasks_of};
ghost use Rattle.litmus_syntax.specs.Limits.{KeepsLimits};
ghost use Rattle.soundness.specs.Cells.{CellsHold, memory_after, run_cells};
ghost use Rattle.soundness.specs.Reported.{IsTrueReport};
ghost use Rattle.executions.specs.execution.Reports.{reports_of};
ghost use Rattle.executions.specs.execution.Run.{Run, first_words};
ghost use Rattle.executions.specs.execution.Execution.{AllHaveEnded, Execution};
ghost use Rattle.executions.specs.execution.Observed.{history_of};
ghost use Rattle.log_correctness.specs.Lists.{AreAccesses};
ghost use Rattle.runner.specs.Hits.{AllHitsOverlap};
ghost use Rattle.runner.specs.Led.{IsLed};
ghost use Rattle.runner.specs.Machine.{SaysBegin};
ghost use Rattle.runner.specs.Result.{IsOf};
ghost use Rattle.runner.specs.declared.result.RunResult.{RunResult};
ghost use Rattle.setup_access.specs.Parts.{made};
ghost use Rattle.setup_access.specs.declared.begun.Begun.{Begun};
ghost use Rattle.setup_access.specs.declared.outcome.Outcome.{Outcome};
ghost use Rattle.slot_table.specs.Answer.{Answers};
ghost use Rattle.slot_table.specs.Discipline.{Allows};
ghost use Rattle.slot_table.specs.StepLine.{Names};
ghost use Rattle.slot_table.specs.declared.records.Record.{Record};
ghost use Rattle.slot_table.specs.declared.step.Answer.{Answer};
ghost use Rattle.slot_table.specs.declared.step.Step.{Step};
ghost use Rattle.task_log.specs.declared.log.TaskLog.{TaskLog};
ghost use Rattle.task_run.specs.Fell.{FellAt};
ghost use Rattle.task_run.specs.Leads.{LeadsOn};
ghost use Rattle.task_run.specs.declared.run.TaskRun.{TaskRun};

use executions::execution::laws::{law_executions_keep_the_discipline, law_reports_name_two_sides};
use executions::observation_determinism::law_steps_name_words_of_the_run;
use litmus_semantics::laws::law_tickets_have_room;
use litmus_step::laws::law_machines_stand_where_the_list_does;
use log_correctness::bags::{law_armings_have_their_own_verdicts, law_the_bags_are_equal};
use log_correctness::logs::law_one_more_is_noted;
use log_correctness::watched::{
    law_accesses_of_ended_tasks_have_ended, law_accesses_that_begin_fit, law_stamps_tell_the_order,
    law_watched_accesses_are_unmarked_and_heard,
};
use program_order::laws::law_the_written_order_keeps_the_discipline;
use slot_table::laws::law_heard_is_told;
use soundness::histories::{
    law_cells_hold_the_content, law_reports_are_true, law_unknown_origins_changed,
};
use soundness::verdicts::{
    law_answers_are_on_a_watch_and_a_find, law_records_tell_their_events,
    law_verdicts_are_on_watches,
};
use task_plan::task_laws::laws::law_an_answer_leads_on;
use watch_word::law_words_read_back;

/// Law: where a task's own records lead to its machine, the step that it makes next names a word of the run, and the
/// discipline of watchpoints allows it. Followed by the record of this step, whatever is answered, they lead on, and
/// what is kept is kept still.
pub fn law_seats_lead_on()
    ensures names { (run : Run) (task : ℕ) (own : List Record) (machine : TaskRun) (log : TaskLog) (reports : List Report) (room : ℕ) (step : Step)
        → CanBeMade run → task < tasks_of run → IsLed run task own machine log reports room → MakesNext machine step → Names (first_words run) step }
    ensures allows { (run : Run) (task : ℕ) (own : List Record) (machine : TaskRun) (log : TaskLog) (reports : List Report) (room : ℕ) (step : Step)
        → CanBeMade run → task < tasks_of run → IsLed run task own machine log reports room → MakesNext machine step → Allows task own step }
    ensures leads { (run : Run) (task : ℕ) (own : List Record) (old after : TaskRun) (log more_log : TaskLog) (reports more_reports : List Report) (room : ℕ)
        (step : Step) (answer : Answer) (begins : Option Begun) (fell : Option Outcome) (report : Option Report)
        → CanBeMade run → task < tasks_of run → IsLed run task own old log reports room → MakesNext old step
        → Answers step answer → LeadsOn old after answer → SaysBegin old begins → FellAt old fell answer
        → IsNotedIn log (record { step = step; answer = answer; begins = begins; outcome = fell }) more_log report
        → Added report room reports more_reports
        → IsLed run task (made task step answer ∷ own) after more_log more_reports room }
{
    law_an_answer_leads_on();
    law_steps_name_words_of_the_run();
    law_the_written_order_keeps_the_discipline();
    law_one_more_is_noted();
}

/// Law: once all tasks of an execution have ended each of its reports is of accesses that ended there. One of two sides
/// names two that race, of which each began before the other's end by their stamps; one of unknown origin names one
/// that may have seen its bytes change.
pub fn law_reports_are_of_ended_accesses()
    ensures { (run : Run) (records : List Record) (list : Execution run records) → KeepsLimits run.program → AllHaveEnded run records
        → (accesses : List Stamped) → AreAccesses list accesses → All (ReportFits accesses) (reports_of list) }
{
    law_records_tell_their_events();
    law_stamps_tell_the_order();
    law_accesses_that_begin_fit();
    law_accesses_of_ended_tasks_have_ended();
    law_watched_accesses_are_unmarked_and_heard();
    law_tickets_have_room();
    law_reports_name_two_sides();
    law_unknown_origins_changed();
    law_reports_are_true();
}

/// Law: once all tasks of an execution have ended the two sides of each hit, also of one that was dropped, are accesses
/// that ended there, and each of the two began before the other's end by their stamps.
pub fn law_sides_of_hits_overlap()
    ensures { (run : Run) (records : List Record) (list : Execution run records) → KeepsLimits run.program → AllHaveEnded run records
        → AllHitsOverlap list }
{
    law_records_tell_their_events();
    law_stamps_tell_the_order();
    law_accesses_that_begin_fit();
    law_accesses_of_ended_tasks_have_ended();
    law_watched_accesses_are_unmarked_and_heard();
    law_tickets_have_room();
    law_executions_keep_the_discipline();
    law_heard_is_told();
    law_verdicts_are_on_watches();
    law_answers_are_on_a_watch_and_a_find();
    law_words_read_back();
    law_armings_have_their_own_verdicts();
    law_the_bags_are_equal();
}

/// Law: what came of a run on threads is of its program. What a task did, and its registers at the end, are what its
/// text means with the values that it read; the cells hold what the history leaves in memory; and each report is true.
pub fn law_results_are_of_the_program()
    ensures meant { (run : Run) (records : List Record) (list : Execution run records) (result : RunResult) → IsOf list result
        → (task : ℕ) → IsMeant list task }
    ensures content { (run : Run) (records : List Record) (list : Execution run records) (result : RunResult) → IsOf list result
        → CellsHold (run_cells run) (memory_after run (history_of list)) result.gathered.cells }
    ensures true_reports { (run : Run) (records : List Record) (list : Execution run records) (result : RunResult) → IsOf list result
        → All (IsTrueReport list) result.reports.items }
{
    law_machines_stand_where_the_list_does();
    law_cells_hold_the_content();
}
