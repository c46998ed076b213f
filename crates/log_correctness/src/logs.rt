//! What is true of what an execution notes.

ghost use Rattle.std.specs.Prelude.{◌+◌, ◌++◌, ◌==◌, ◌≡◌, ◌≢◌, ◌≤◌, ◌∷◌, ℕ, [], All, Contains, List, Option, count_by, length, map, reverse};
ghost use Rattle.access_types.specs.Access.{Access};
ghost use Rattle.access_types.specs.Arms.{Arm};
ghost use Rattle.access_types.specs.Stamped.{Stamped};
ghost use Rattle.access_types.specs.declared.history.Happening.TheVariants.{End};
ghost use Rattle.litmus_syntax.specs.Limits.{BodyKeepsLimits, block_repeats};
ghost use Rattle.litmus_syntax.specs.Tree.{Block};
ghost use Rattle.std.specs.Option.{option_to_list};
ghost use Rattle.executions.specs.execution.Reports.{reports_of};
ghost use Rattle.executions.specs.execution.Run.{Run, task_of, task_setting};
ghost use Rattle.executions.specs.execution.Execution.{Execution};
ghost use Rattle.executions.specs.execution.Observed.{made_by};
ghost use Rattle.log_correctness.specs.Decided.{IsStampedSo};
ghost use Rattle.log_correctness.specs.Lists.{AreArmsOf, AreTakesOf};
ghost use Rattle.log_correctness.specs.Noted.{AreNoted, IsBegun, IsNoted, Notes};
ghost use Rattle.log_correctness.specs.Removed.{as_removed, as_told, removed_by, told_by};
ghost use Rattle.log_correctness.specs.Spans.{HappensAt, IsSpan, is_end};
ghost use Rattle.log_correctness.specs.Totals.{AddUp, CountsList, CountsTasks};
ghost use Rattle.setup_access.specs.declared.begun.Begun.{Begun};
ghost use Rattle.setup_access.specs.declared.outcome.Outcome.{Outcome};
ghost use Rattle.slot_table.specs.Records.{records_of};
ghost use Rattle.slot_table.specs.declared.records.Record.{Record};
ghost use Rattle.task_log.specs.Arms.{arms_of, takes_of};
ghost use Rattle.task_log.specs.Counters.{Count};
ghost use Rattle.task_log.specs.Reports.{reported};
ghost use Rattle.task_log.specs.Touches.{accesses_of, touches_of};
ghost use Rattle.task_log.specs.declared.counters.Counters.{Counters};
ghost use Rattle.task_log.specs.declared.noted.Noted.{Noted};
ghost use Rattle.task_run.specs.Fell.{FellAt};
ghost use Rattle.task_run.specs.Leads.{BeginsNext, Leads, stands_at};
ghost use Rattle.task_run.specs.Says.{Says};
ghost use Rattle.task_run.specs.declared.run.TaskRun.{TaskRun};
ghost use Rattle.program_order.specs.Standing.{Setting};
ghost use Rattle.program_order.specs.TaskObserved.{did_by, did_next};
ghost use Rattle.program_order.specs.WrittenOrder.{WrittenOrder};

use executions::execution::laws::{law_executions_keep_the_discipline, law_roles_of_executions};
use executions::observation_determinism::{law_few_accesses_begin, law_one_telling};
use soundness::verdicts::{
    law_outcomes_fall_where_they_are_settled, law_records_tell_their_events,
    law_tellings_are_on_finds, law_verdicts_are_on_watches,
};

/// Law: of one record more is noted what was noted before, and what is noted of that record. So it is of a task's
/// own records, and of the list of all: what is noted of the other tasks stays.
pub fn law_one_more_is_noted()
    ensures own { (s : Setting) (registers : ℕ) (body : Block) (records : List Record) (latest : Record) (before : List Noted) (noted : Noted)
        → (one : WrittenOrder s registers body records) → (other : WrittenOrder s registers body (records ++ latest ∷ []))
        → AreNoted one (reverse records) before → IsNoted other (length records) latest noted
        → AreNoted other (reverse (records ++ latest ∷ [])) (noted ∷ before) }
    ensures list { (run : Run) (latest : Record) (earlier : List Record) (before : List Noted) (noted : Noted)
        → (one : Execution run earlier) → (other : Execution run (latest ∷ earlier))
        → Notes one latest.task before → IsNoted (other.tasks latest.task) (made_by latest.task earlier) latest noted
        → Notes other latest.task (noted ∷ before) }
    ensures others { (run : Run) (latest : Record) (earlier : List Record) (task : ℕ) (before : List Noted)
        → (one : Execution run earlier) → (other : Execution run (latest ∷ earlier)) → latest.task ≢ task
        → Notes one task before → Notes other task before }
    ensures none { (run : Run) (list : Execution run []) → (task : ℕ) → Notes list task [] }
{}

/// Law: a task's machine says before a step which access begins with it, and after the answer which outcome fell at
/// it: just this is noted of the record.
pub fn law_a_machine_says_what_is_noted()
    ensures { (run : Run) (latest : Record) (earlier : List Record) (old : TaskRun) (begins : Option Begun) (fell : Option Outcome)
        → (list : Execution run (latest ∷ earlier))
        → (leads : Leads (task_setting run latest.task) (length (task_of run latest.task).registers) (task_of run latest.task).body (reverse (records_of latest.task earlier)) old)
        → Says old latest.step
        → ((later : List Record) → BeginsNext (task_setting run latest.task) leads.part (stands_at leads later) leads.mine begins)
        → FellAt old fell latest.answer
        → IsNoted (list.tasks latest.task) (made_by latest.task earlier) latest
        (record { step = latest.step; answer = latest.answer; begins = begins; outcome = fell }) }
{
    law_records_tell_their_events();
}

/// Law: a task's machine says before a step which access begins with it: just this one begins in what the list tells of
/// the record.
pub fn law_a_machine_says_what_begins()
    ensures { (run : Run) (latest : Record) (earlier : List Record) (old : TaskRun) (begins : Option Begun)
        → (list : Execution run (latest ∷ earlier))
        → (leads : Leads (task_setting run latest.task) (length (task_of run latest.task).registers) (task_of run latest.task).body (reverse (records_of latest.task earlier)) old)
        → Says old latest.step
        → ((later : List Record) → BeginsNext (task_setting run latest.task) leads.part (stands_at leads later) leads.mine begins)
        → IsBegun run.rules.plain_writes_atomic latest.task (did_by (list.tasks latest.task) (made_by latest.task earlier))
        (did_next (list.tasks latest.task) (made_by latest.task earlier)) begins }
{
    law_records_tell_their_events();
}

/// Law: the counters of the tasks of an execution, added one task after the other, are those of the whole list: so many
/// armings, consumes and lost tries are among its records, and so many outcomes of each kind among those that it
/// tells.
pub fn law_counters_of_tasks_add_up()
    ensures none { (run : Run) (records : List Record) (list : Execution run records) (counters : Counters) → Count [] counters → CountsTasks list 0 counters }
    ensures more { (run : Run) (records : List Record) (list : Execution run records) (task : ℕ) (noted : List Noted) (some one both : Counters)
        → CountsTasks list task some → Notes list task noted → Count noted one → AddUp some one both → CountsTasks list (task + 1) both }
    ensures all { (run : Run) (records : List Record) (list : Execution run records) (counters : Counters)
        → CountsTasks list (length run.program.tasks) counters → CountsList list counters }
{}

/// Law: with one record more an execution reports what a log reports at that step, by what was noted of the task
/// before: the two sides by the pair that the setter heard, or, where the origin is unknown, the access by the ticket
/// by which the task has last named itself.
pub fn law_a_log_reports_what_the_list_does()
    ensures { (run : Run) (latest : Record) (earlier : List Record) (before : List Noted) (noted : Noted)
        → (one : Execution run earlier) → (other : Execution run (latest ∷ earlier))
        → Notes one latest.task before → IsNoted (other.tasks latest.task) (made_by latest.task earlier) latest noted
        → reports_of other ≡ reports_of one ++ option_to_list (reported noted.outcome before) }
{
    law_verdicts_are_on_watches();
    law_outcomes_fall_where_they_are_settled();
}

/// Law: of a task no more accesses are noted than the loops of its text repeat its statements, so at most 1,024 where
/// the text keeps the limits.
pub fn law_few_accesses_are_noted()
    ensures text { (s : Setting) (registers : ℕ) (body : Block) (records : List Record) (noted : List Noted)
        → (written : WrittenOrder s registers body records) → AreNoted written (reverse records) noted
        → length (touches_of noted) ≤ block_repeats 1 body }
    ensures limits { (s : Setting) (registers : ℕ) (body : Block) (records : List Record) (noted : List Noted)
        → (written : WrittenOrder s registers body records) → AreNoted written (reverse records) noted
        → BodyKeepsLimits body → length (touches_of noted) ≤ 1024 }
{
    law_few_accesses_begin();
    law_one_telling();
}

/// Law: the armings that a log of a task keeps are those that the task has removed, in this order, each with its index,
/// its watch word and the ticket by which its setter had named itself, as the list has them of the last arming at that
/// index. Each arming's number is how many of its access come before it.
pub fn law_a_log_keeps_the_armings_that_are_over()
    ensures removed { (run : Run) (records : List Record) (list : Execution run records) (task : ℕ) (noted : List Noted)
        → Notes list task noted → map (as_removed task) (arms_of noted) ≡ removed_by task records }
    ensures numbers { (noted : List Noted) (earlier later : List Arm) (arm : Arm) → arms_of noted ≡ earlier ++ arm ∷ later
        → arm.number ≡ count_by (λ (one : Arm). one.setter == arm.setter) earlier }
{
    law_executions_keep_the_discipline();
}

/// Law: the armings that a log of a task keeps are just those that the task has removed, each with its index, its watch
/// word, the ticket of the access whose verdict it is, and what that verdict says became of it.
pub fn law_a_log_keeps_just_the_arms()
    ensures { (run : Run) (records : List Record) (list : Execution run records) (task : ℕ) (noted : List Noted)
        → Notes list task noted → AreArmsOf list task (arms_of noted) }
{
    law_executions_keep_the_discipline();
    law_verdicts_are_on_watches();
}

/// Law: the takings that a log of a task keeps are those of which the task has told, in this order, each with its index
/// and the ticket that it told.
pub fn law_a_log_keeps_the_takings_that_are_over()
    ensures { (run : Run) (records : List Record) (list : Execution run records) (task : ℕ) (noted : List Noted)
        → Notes list task noted → map as_told (takes_of noted) ≡ told_by task records }
{}

/// Law: the takings that a log of a task keeps are just those over which the task has told, each with its index, the
/// ticket that it told and that of the setter which it had heard.
pub fn law_a_log_keeps_just_the_takes()
    ensures { (run : Run) (records : List Record) (list : Execution run records) (task : ℕ) (noted : List Noted)
        → Notes list task noted → AreTakesOf list task (takes_of noted) }
{
    law_roles_of_executions();
    law_tellings_are_on_finds();
}

/// Law: an execution notes one list of each task, and no other.
pub fn law_one_list_is_noted()
    ensures own { (s : Setting) (registers : ℕ) (body : Block) (records own : List Record) (one other : List Noted)
        → (written : WrittenOrder s registers body records) → AreNoted written own one → AreNoted written own other → one ≡ other }
    ensures list { (run : Run) (records : List Record) (list : Execution run records) (task : ℕ) (one other : List Noted)
        → Notes list task one → Notes list task other → one ≡ other }
{}

/// Law: of the accesses that have ended, a log of a task says that they are marked exactly where they count as marked
/// in the history that the list tells, and silenced exactly where they are silenced there.
pub fn law_a_log_says_of_accesses_what_the_history_decides()
    ensures { (run : Run) (records : List Record) (list : Execution run records) (task : ℕ) (noted : List Noted)
        → Notes list task noted → All (IsStampedSo list) (accesses_of noted) }
{
    law_records_tell_their_events();
}

/// Law: the accesses that a log of a task keeps are as many as have ended in the list, and each of them began and ended
/// there at its stamps: with that access the task did so at a step of the clock which was answered this. Each end in
/// the list is that of one of them.
pub fn law_a_log_keeps_the_accesses_that_have_ended()
    ensures spans { (run : Run) (records : List Record) (list : Execution run records) (task : ℕ) (noted : List Noted)
        → Notes list task noted → All (IsSpan list task) (accesses_of noted) }
    ensures all { (run : Run) (records : List Record) (list : Execution run records) (task : ℕ) (noted : List Noted)
        → Notes list task noted → (a : Access) (end : ℕ) → HappensAt list task (End a) end
        → (one : Stamped) × Contains (accesses_of noted) one × (one.access ≡ a) × (one.end ≡ end) }
    ensures many { (run : Run) (records : List Record) (list : Execution run records) (task : ℕ) (noted : List Noted)
        → Notes list task noted → length (accesses_of noted) ≡ count_by is_end (did_by (list.tasks task) (made_by task records)) }
{
    law_records_tell_their_events();
}
