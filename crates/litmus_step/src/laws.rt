//! What is true of lists that lead to tasks over their words.

ghost use Rattle.std.specs.Prelude.{◌≡◌, ◌+◌, ◌*◌, ◌<◌, ◌≤◌, ◌^◌, ◌∷◌, [], ℕ, List, Option, Some, is_some, length, slice_get, slice_set};
ghost use Rattle.access_types.specs.Arms.{Arm};
ghost use Rattle.access_types.specs.Stamped.{Stamped};
ghost use Rattle.access_types.specs.Takes.{Take};
ghost use Rattle.access_types.specs.declared.report.Report.{Report};
ghost use Rattle.litmus_semantics.specs.RunOfProgram.{RunOfProgram};
ghost use Rattle.litmus_syntax.specs.Limits.{KeepsLimits};
ghost use Rattle.prepared_program.specs.program_layout.Places.{AreFit, places_of};
ghost use Rattle.prepared_program.specs.declared.program_layout.place.Place.{Place};
ghost use Rattle.prepared_program.specs.program_sites.Sites.{AreSitesOf};
ghost use Rattle.executions.specs.execution.Run.{Run, task_setting};
ghost use Rattle.executions.specs.execution.Execution.{Execution};
ghost use Rattle.executions.specs.execution.Observed.{history_of};
ghost use Rattle.executions.specs.execution.Reports.{reports_of};
ghost use Rattle.log_correctness.specs.Lists.{AreAccessesOf, AreArmsOf, AreTakesOf};
ghost use Rattle.log_correctness.specs.Noted.{Notes};
ghost use Rattle.log_correctness.specs.Totals.{AddUp, CountsList, CountsTasks};
ghost use Rattle.setup_access.specs.Parts.{made};
ghost use Rattle.setup_access.specs.declared.begun.Begun.{Begun};
ghost use Rattle.setup_access.specs.declared.outcome.Outcome.{Outcome};
ghost use Rattle.slot_table.specs.Answer.{Answers};
ghost use Rattle.slot_table.specs.StepLine.{Names, step_line};
ghost use Rattle.slot_table.specs.Words.{Words};
ghost use Rattle.slot_table.specs.declared.records.Record.{Record};
ghost use Rattle.slot_table.specs.declared.step.Answer.{Answer};
ghost use Rattle.slot_table.specs.declared.step.Step.{Step};
ghost use Rattle.litmus_step.specs.Kept.{Added, AreKept, IsKept, IsNotedIn, reports_kept};
ghost use Rattle.litmus_step.specs.Leads.{AreAtPoints, GoesOnWith, LeadsTask, LeadsToAll, MakesNextIn};
ghost use Rattle.litmus_step.specs.Readers.{IsMeant};
ghost use Rattle.litmus_step.specs.Runs.{CanBeMade, HasEnded, tasks_of};
ghost use Rattle.litmus_step.specs.Steps.{LeadsTo, tasks_in};
ghost use Rattle.litmus_step.specs.declared.world.World.{World};
ghost use Rattle.task_log.specs.Arms.{arms_of, takes_of};
ghost use Rattle.task_log.specs.Counters.{Count};
ghost use Rattle.task_log.specs.Keeps.{Keeps};
ghost use Rattle.task_log.specs.Touches.{accesses_of, touches_of};
ghost use Rattle.task_log.specs.declared.counters.Counters.{Counters};
ghost use Rattle.task_log.specs.declared.log.TaskLog.{TaskLog};
ghost use Rattle.task_log.specs.declared.noted.Noted.{Noted};
ghost use Rattle.task_plan.specs.Counts.{up_to_last};
ghost use Rattle.task_run.specs.Fell.{FellAt};
ghost use Rattle.task_run.specs.Leads.{BeginsNext, LeadsOn, stands_at};
ghost use Rattle.task_run.specs.Points.{HasMade, Stepped};
ghost use Rattle.task_run.specs.Says.{Says};
ghost use Rattle.task_run.specs.declared.run.TaskRun.{TaskRun};
ghost use Rattle.program_order.specs.WrittenOrder.{stands_after};

use executions::observation_determinism::law_steps_name_words_of_the_run;
use log_correctness::accesses::law_a_log_keeps_just_the_accesses;
use log_correctness::bounds::{law_few_are_reported, law_few_watches_are_over};
use log_correctness::logs::{
    law_a_log_keeps_just_the_arms, law_a_log_keeps_just_the_takes,
    law_a_log_reports_what_the_list_does, law_a_machine_says_what_is_noted,
    law_counters_of_tasks_add_up, law_few_accesses_are_noted, law_one_more_is_noted,
};
use log_correctness::standing::{
    law_ended_tasks_stand_at_the_end, law_machines_stand_where_the_records_tell,
};
use soundness::histories::law_executions_tell_runs_of_the_program;
use task_plan::task_laws::laws::law_an_answer_leads_on;
use task_plan::task_laws::spelled::{
    law_texts_within_limits_are_spelled, law_variables_of_programs_are_placed,
};
use task_run::laws::law_no_task_stops;

/// Law: a program within the limits, with places that fit its variables, at least three page slots, and waits of less
/// than 2^64 tries, can be made steps of. The list without a step is an execution of it.
pub fn law_runs_begin()
    ensures can { (run : Run) (places : List Place) → KeepsLimits run.program → run.places ≡ places_of places
        → AreFit run.program.variables places → 3 ≤ run.rules.slots → run.rules.turns < 2 ^ 64 → CanBeMade run }
    ensures list { (run : Run) → CanBeMade run → AreSitesOf run.program run.places run.sites → Execution run [] }
{
    law_variables_of_programs_are_placed();
    law_texts_within_limits_are_spelled();
}

/// Law: where a list leads to machines, the step that one of them makes next names a word. Followed by the record of
/// this step, with the answer that the words give, the list leads on, if what is kept is kept still.
pub fn law_steps_lead_on()
    ensures names { (run : Run) (records : List Record) (words : Words) (machines : List TaskRun) (steps : ℕ) (logs : List TaskLog)
        (reports : List Report) (room task : ℕ) (step : Step) → LeadsToAll run records words machines steps logs reports room
        → MakesNextIn machines task step → Names words step }
    ensures goes { (run : Run) (records : List Record) (words : Words) (machines : List TaskRun) (steps : ℕ) (logs : List TaskLog)
        (reports : List Report) (room task : ℕ) (step : Step) → LeadsToAll run records words machines steps logs reports room
        → MakesNextIn machines task step → GoesOnWith run task records step }
    ensures leads { (run : Run) (records : List Record) (words : Words) (machines : List TaskRun) (steps : ℕ)
        (logs more_logs : List TaskLog)
        (reports more_reports : List Report) (room more_room task : ℕ) (step : Step)
        (answer : Answer) (after : TaskRun) → LeadsToAll run records words machines steps logs reports room
        → (next : MakesNextIn machines task step)
        → Answers step answer → answer ≡ (step_line words step).answer → LeadsOn next.machine after answer
        → ((list : Execution run (made task step answer ∷ records)) → AreKept list more_logs more_reports more_room)
        → ((list : Execution run (made task step answer ∷ records)) → AreAtPoints list (slice_set machines task after))
        → LeadsToAll run (made task step answer ∷ records) (step_line words step).after (slice_set machines task after)
        (up_to_last (steps + 1)) more_logs more_reports more_room }
{
    law_an_answer_leads_on();
    law_steps_name_words_of_the_run();
}

/// Law: before the first step a list notes nothing. Where a task's log notes the step that its machine makes, the
/// access that begins with it, and the outcome that falls at it, what is kept is what the list says still. So is what
/// its machine keeps of the task's last steps.
pub fn law_steps_are_kept()
    ensures none { (run : Run) (list : Execution run []) → (task : ℕ) → Notes list task [] }
    ensures more { (run : Run) (records : List Record) (task : ℕ) (old : TaskRun) (step : Step) (answer : Answer) (begins : Option Begun)
        (fell : Option Outcome) (logs : List TaskLog) (reports more_reports : List Report) (room : ℕ) (log after : TaskLog)
        (report : Option Report)
        → (one : Execution run records) → (other : Execution run (made task step answer ∷ records))
        → (leads : LeadsTask run task records old) → Says old step
        → ((later : List Record) → BeginsNext (task_setting run task) leads.part (stands_at leads later) leads.mine begins)
        → FellAt old fell answer
        → AreKept one logs reports room → slice_get logs task ≡ Some log → task < length logs
        → IsNotedIn log (record { step = step; answer = answer; begins = begins; outcome = fell }) after report
        → Added report room reports more_reports
        → AreKept other (slice_set logs task after) more_reports room }
    ensures points { (run : Run) (records : List Record) (task : ℕ) (old after : TaskRun) (step : Step) (answer : Answer)
        (begins : Option Begun) (fell : Option Outcome) (machines : List TaskRun)
        → (one : Execution run records) → (other : Execution run (made task step answer ∷ records))
        → (leads : LeadsTask run task records old) → Says old step
        → ((later : List Record) → BeginsNext (task_setting run task) leads.part (stands_at leads later) leads.mine begins)
        → FellAt old fell answer
        → AreAtPoints one machines → slice_get machines task ≡ Some old → task < length machines
        → ((steps : List Stepped) → HasMade steps old → HasMade (record { step = step; begins = is_some begins } ∷ steps) after)
        → AreAtPoints other (slice_set machines task after) }
{
    law_one_more_is_noted();
    law_a_machine_says_what_is_noted();
    law_a_log_reports_what_the_list_does();
}

/// Law: a world has the tasks of the run of whose list it comes.
pub fn law_a_world_has_all_tasks()
    ensures { (run : Run) (records : List Record) (world : World) → LeadsTo run records world → tasks_in world ≡ tasks_of run }
{}

/// Law: the counters of a world's logs, added one after the other, are those of each list that leads to it.
pub fn law_logs_count_the_list()
    ensures none { (run : Run) (records : List Record) (list : Execution run records) (counters : Counters)
        → Count [] counters → CountsTasks list 0 counters }
    ensures more { (run : Run) (records : List Record) (list : Execution run records) (task : ℕ) (log : TaskLog) (some one both : Counters)
        → IsKept list task log → CountsTasks list task some
        → ((accesses watches : ℕ) (own : List Noted) → Keeps accesses watches own log → Count own one)
        → AddUp some one both → CountsTasks list (task + 1) both }
    ensures all { (run : Run) (records : List Record) (list : Execution run records) (counters : Counters)
        → CountsTasks list (tasks_of run) counters → CountsList list counters }
{
    law_counters_of_tasks_add_up();
}

/// Law: what the log of a task gives of accesses, armings and takings is what the list has of the task.
pub fn law_logs_give_what_the_list_has()
    ensures accesses { (run : Run) (records : List Record) (list : Execution run records) (task : ℕ) (log : TaskLog) (given : List Stamped)
        → KeepsLimits run.program → IsKept list task log
        → ((accesses watches : ℕ) (own : List Noted) → Keeps accesses watches own log → length (touches_of own) ≤ accesses
        → given ≡ accesses_of own)
        → AreAccessesOf list task given }
    ensures arms { (run : Run) (records : List Record) (list : Execution run records) (task : ℕ) (log : TaskLog) (given : List Arm)
        → KeepsLimits run.program → IsKept list task log
        → ((accesses watches : ℕ) (own : List Noted) → Keeps accesses watches own log → length (arms_of own) ≤ watches
        → given ≡ arms_of own)
        → AreArmsOf list task given }
    ensures takes { (run : Run) (records : List Record) (list : Execution run records) (task : ℕ) (log : TaskLog) (given : List Take)
        → KeepsLimits run.program → IsKept list task log
        → ((accesses watches : ℕ) (own : List Noted) → Keeps accesses watches own log → length (takes_of own) ≤ watches
        → given ≡ takes_of own)
        → AreTakesOf list task given }
{
    law_few_accesses_are_noted();
    law_few_watches_are_over();
    law_a_log_keeps_just_the_accesses();
    law_a_log_keeps_just_the_arms();
    law_a_log_keeps_just_the_takes();
}

/// Law: there is room for what an execution reports.
pub fn law_reports_have_room()
    ensures { (run : Run) (records : List Record) → (list : Execution run records) → KeepsLimits run.program
        → length (reports_of list) ≤ reports_kept run }
{
    law_few_are_reported();
}

/// Law: where a task's records in the list lead to its machine, the machine's registers, and its calls that had nothing
/// to end, are those after these records. Once they spell its whole text, what the task did and its registers are what
/// the text means.
pub fn law_machines_stand_where_the_list_does()
    ensures registers { (run : Run) (records : List Record) (list : Execution run records) (task : ℕ) (machine : TaskRun)
        → KeepsLimits run.program → (leads : LeadsTask run task records machine)
        → (stands_at leads (list.tasks task).more).progress.registers ≡ (stands_after (list.tasks task)).progress.registers }
    ensures unbalanced { (run : Run) (records : List Record) (list : Execution run records) (task : ℕ) (machine : TaskRun)
        → KeepsLimits run.program → (leads : LeadsTask run task records machine)
        → (stands_at leads (list.tasks task).more).unbalanced ≡ (stands_after (list.tasks task)).unbalanced }
    ensures meant { (run : Run) (records : List Record) (list : Execution run records) (task : ℕ)
        → HasEnded run task records → IsMeant list task }
{
    law_no_task_stops();
    law_machines_stand_where_the_records_tell();
    law_ended_tasks_stand_at_the_end();
}

/// Law: the history of each execution that leads to a world is that of a run of the program.
pub fn law_worlds_tell_runs_of_the_program()
    ensures { (run : Run) (records : List Record) (world : World) → (leads : LeadsTo run records world)
        → RunOfProgram run.program run.places (history_of leads.list) }
{
    law_executions_tell_runs_of_the_program();
}
