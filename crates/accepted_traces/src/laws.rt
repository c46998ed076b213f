//! What is true of the trace of a run.

ghost use Rattle.std.specs.Prelude.{◌≤◌, ◌≡◌, ◌++◌, ◌∷◌, ℕ, All, List, length};
ghost use Rattle.access_types.specs.Arms.{Arm};
ghost use Rattle.access_types.specs.Stamped.{Stamped};
ghost use Rattle.access_types.specs.Takes.{Take};
ghost use Rattle.access_types.specs.declared.report.Report.{Report};
ghost use Rattle.accepted_traces.specs.Parts.{AccessFits, AreOther, AreParts, HasLowMask};
ghost use Rattle.accepted_traces.specs.Traces.{AreOf};
ghost use Rattle.litmus_syntax.specs.Limits.{KeepsLimits};
ghost use Rattle.report_text.specs.Faults.{IsTrueTrace};
ghost use Rattle.report_text.specs.TraceText.{second, written_lines, written_trace};
ghost use Rattle.executions.specs.execution.Run.{Run};
ghost use Rattle.executions.specs.execution.Reports.{reports_of};
ghost use Rattle.executions.specs.execution.Execution.{AllHaveEnded, Execution};
ghost use Rattle.log_correctness.specs.Lists.{AreAccesses};
ghost use Rattle.log_correctness.specs.Setters.{AreReportsOf};
ghost use Rattle.slot_table.specs.declared.records.Record.{Record};
ghost use Rattle.trace_replay.specs.Answer.{IsAccepted};
ghost use Rattle.trace_replay.specs.declared.accepted.Accepted.TheVariants as accepted;
ghost use Rattle.watch_word.specs.declared.layout.Layout.{Layout};

use executions::execution::laws::{law_executions_keep_the_discipline, law_reports_name_two_sides};
use litmus_semantics::laws::law_tickets_have_room;
use log_correctness::bags::{law_armings_have_their_own_verdicts, law_the_bags_are_equal};
use log_correctness::bounds::law_few_are_reported;
use log_correctness::lengths::law_few_are_kept;
use log_correctness::reports::law_a_task_reports_its_own;
use log_correctness::watched::{
    law_accesses_of_ended_tasks_have_ended, law_accesses_that_begin_fit, law_stamps_tell_the_order,
    law_watched_accesses_are_unmarked_and_heard,
};
use slot_table::laws::law_heard_is_told;
use soundness::histories::{law_reports_are_true, law_unknown_origins_changed};
use soundness::verdicts::{
    law_answers_are_on_a_watch_and_a_find, law_records_tell_their_events,
    law_verdicts_are_on_watches,
};
use watch_word::law_words_read_back;

/// Law: what is written of the parts of one true trace is a true trace, of these lines, and no longer than a trace may
/// be.
pub fn law_parts_make_a_true_trace()
    ensures { (slots : ℕ) (layout : Layout) (accesses : List Stamped) (arms : List Arm) (takes : List Take) (reports : List Report)
        → AreParts slots layout accesses arms takes reports
        → IsTrueTrace (written_trace slots layout accesses arms takes reports) (second slots layout) (written_lines accesses arms takes reports) }
{}

/// Law: the accesses of an execution that have ended may stand in a trace in their order, one task after the other:
/// each fits, with the letters that the history decides, and no two have a stamp or a ticket in common. That their
/// masks have 64 bits is for the caller to say.
pub fn law_accesses_of_runs_fit()
    ensures each { (run : Run) (records : List Record) (list : Execution run records) → KeepsLimits run.program
        → (accesses : List Stamped) → AreAccesses list accesses → All HasLowMask accesses → All AccessFits accesses }
    ensures others { (run : Run) (records : List Record) (list : Execution run records) → KeepsLimits run.program
        → (accesses : List Stamped) → AreAccesses list accesses
        → (earlier later : List Stamped) (s : Stamped) → accesses ≡ earlier ++ s ∷ later → All (AreOther s) earlier }
{
    law_records_tell_their_events();
    law_stamps_tell_the_order();
    law_tickets_have_room();
}

/// Law: once all tasks of an execution have ended its accesses, armings, takings and reports are the parts of one true
/// trace. So the trace that is written of them is true: each access has its own ticket and stamps, each arming, taking
/// and report names accesses of the trace that may have made it, and the three tell of the same. It is to be accepted,
/// with as many lines of each kind as there are accesses, armings, takings and reports.
pub fn law_traces_of_ended_runs_are_true()
    ensures parts { (run : Run) (records : List Record) (list : Execution run records) → KeepsLimits run.program
        → 3 ≤ run.rules.slots → run.rules.slots ≤ 1024 → AllHaveEnded run records
        → (accesses : List Stamped) (arms : List Arm) (takes : List Take) → AreOf list accesses arms takes
        → AreParts run.rules.slots run.rules.layout accesses arms takes (reports_of list) }
    ensures is_true { (run : Run) (records : List Record) (list : Execution run records) → KeepsLimits run.program
        → 3 ≤ run.rules.slots → run.rules.slots ≤ 1024 → AllHaveEnded run records
        → (accesses : List Stamped) (arms : List Arm) (takes : List Take) → AreOf list accesses arms takes
        → IsTrueTrace (written_trace run.rules.slots run.rules.layout accesses arms takes (reports_of list))
        (second run.rules.slots run.rules.layout) (written_lines accesses arms takes (reports_of list)) }
    ensures accepted { (run : Run) (records : List Record) (list : Execution run records) → KeepsLimits run.program
        → 3 ≤ run.rules.slots → run.rules.slots ≤ 1024 → AllHaveEnded run records
        → (accesses : List Stamped) (arms : List Arm) (takes : List Take) → AreOf list accesses arms takes
        → IsAccepted (written_trace run.rules.slots run.rules.layout accesses arms takes (reports_of list))
        (accepted.Second (length accesses) (length arms) (length takes) (length (reports_of list))) }
{
    law_parts_make_a_true_trace();
    law_accesses_of_runs_fit();
    law_tickets_have_room();
    law_records_tell_their_events();
    law_stamps_tell_the_order();
    law_accesses_that_begin_fit();
    law_accesses_of_ended_tasks_have_ended();
    law_watched_accesses_are_unmarked_and_heard();
    law_executions_keep_the_discipline();
    law_reports_name_two_sides();
    law_heard_is_told();
    law_verdicts_are_on_watches();
    law_answers_are_on_a_watch_and_a_find();
    law_words_read_back();
    law_reports_are_true();
    law_unknown_origins_changed();
    law_armings_have_their_own_verdicts();
    law_the_bags_are_equal();
    law_few_are_reported();
    law_few_are_kept();
}

/// Law: so is the trace in which these reports stand by the task of their setters, one task after the other.
pub fn law_traces_in_either_order_are_true()
    ensures parts { (run : Run) (records : List Record) (list : Execution run records) → KeepsLimits run.program
        → 3 ≤ run.rules.slots → run.rules.slots ≤ 1024 → AllHaveEnded run records
        → (accesses : List Stamped) (arms : List Arm) (takes : List Take) → AreOf list accesses arms takes
        → (reports : List Report) → AreReportsOf list reports → AreParts run.rules.slots run.rules.layout accesses arms takes reports }
    ensures accepted { (run : Run) (records : List Record) (list : Execution run records) → KeepsLimits run.program
        → 3 ≤ run.rules.slots → run.rules.slots ≤ 1024 → AllHaveEnded run records
        → (accesses : List Stamped) (arms : List Arm) (takes : List Take) → AreOf list accesses arms takes
        → (reports : List Report) → AreReportsOf list reports
        → IsAccepted (written_trace run.rules.slots run.rules.layout accesses arms takes reports)
        (accepted.Second (length accesses) (length arms) (length takes) (length reports)) }
{
    law_traces_of_ended_runs_are_true();
    law_parts_make_a_true_trace();
    law_a_task_reports_its_own();
}
