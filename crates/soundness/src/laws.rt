//! The headline.

ghost use Rattle.std.specs.Prelude.{List};
ghost use Rattle.soundness.specs.Headline.{Headline};
ghost use Rattle.executions.specs.execution.Run.{Run};
ghost use Rattle.executions.specs.execution.Execution.{Execution};
ghost use Rattle.slot_table.specs.declared.records.Record.{Record};

use crate::histories::{
    law_executions_tell_runs_of_the_program, law_reports_are_true,
    law_takings_of_ended_accesses_have_one_answer, law_unknown_origins_changed,
};
use crate::totals::law_totals_agree;
use crate::verdicts::{
    law_answers_are_on_a_watch_and_a_find, law_watchpoints_are_of_accesses_in_progress,
};
use executions::execution::laws::{law_reports_name_two_sides, law_roles_of_executions};

/// Law: for every litmus program, setting and list of steps, each armed watchpoint is taken at most once, each taking
/// whose two accesses ended gave one report or one named discard, and every report of two sides names, as its finder
/// does, a true race: different tasks, shared bytes, in progress at one moment, conflicting, not both marked. One of
/// unknown origin names bytes that changed under its watch.
pub fn law_the_headline_holds()
    ensures { (run : Run) (records : List Record) → (list : Execution run records) → Headline list }
{
    law_executions_tell_runs_of_the_program();
    law_roles_of_executions();
    law_takings_of_ended_accesses_have_one_answer();
    law_watchpoints_are_of_accesses_in_progress();
    law_answers_are_on_a_watch_and_a_find();
    law_reports_name_two_sides();
    law_unknown_origins_changed();
    law_reports_are_true();
    law_totals_agree();
}
