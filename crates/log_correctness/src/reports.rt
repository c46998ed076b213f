//! What is true of the reports of each task.

ghost use Rattle.std.specs.Prelude.{◌≡◌, ℕ, List};
ghost use Rattle.executions.specs.execution.Reports.{reports_of};
ghost use Rattle.executions.specs.execution.Run.{Run};
ghost use Rattle.executions.specs.execution.Execution.{Execution};
ghost use Rattle.log_correctness.specs.Noted.{Notes};
ghost use Rattle.log_correctness.specs.Setters.{reports_by};
ghost use Rattle.slot_table.specs.declared.records.Record.{Record};
ghost use Rattle.task_log.specs.Reports.{reported_in};
ghost use Rattle.task_log.specs.declared.noted.Noted.{Noted};

use executions::execution::laws::{law_answers_are_to_takings, law_executions_keep_the_discipline};
use executions::observation_determinism::law_one_outcome_a_record;
use soundness::verdicts::law_verdicts_are_on_watches;

/// Law: of the reports of an execution those on a task's watchpoints are just those that its log reports at its steps,
/// in this order.
pub fn law_a_task_reports_its_own()
    ensures { (run : Run) (records : List Record) (list : Execution run records) (task : ℕ) (noted : List Noted)
        → Notes list task noted → reports_by task (reports_of list) ≡ reported_in noted }
{
    law_executions_keep_the_discipline();
    law_verdicts_are_on_watches();
    law_answers_are_to_takings();
    law_one_outcome_a_record();
}
