//! What is true of the armings, the takings and the reports of a run together.

ghost use Rattle.std.specs.Prelude.{◌≡◌, ◌==◌, ◌++◌, ℕ, List, map};
ghost use Rattle.std.specs.List.{flat_map};
ghost use Rattle.access_types.specs.Arms.{Arm};
ghost use Rattle.access_types.specs.Takes.{Take};
ghost use Rattle.access_types.specs.Ticket.{ticket_number};
ghost use Rattle.report_text.specs.Truth.{AreOneBag, hits_in, is_pair, is_take, origins_in, pairs_in, race_in, unknown_in};
ghost use Rattle.executions.specs.execution.Reports.{reports_of};
ghost use Rattle.executions.specs.execution.Run.{Run};
ghost use Rattle.executions.specs.execution.Execution.{AllHaveEnded, Execution};
ghost use Rattle.log_correctness.specs.Lists.{AreArms, AreArmsBy, AreTakes, verdicts_by};
ghost use Rattle.slot_table.specs.declared.records.Record.{Record};

use executions::execution::laws::{
    law_answers_are_to_takings, law_executions_keep_the_discipline, law_roles_of_executions,
};
use slot_table::laws::law_heard_is_told;
use soundness::verdicts::{law_each_taking_has_one_answer, law_verdicts_are_on_watches};

/// Law: each arming that a task has removed has a verdict of its own, of the access that set it up, in the order of
/// both. At most the verdict on the arming in hand is left.
pub fn law_armings_have_their_own_verdicts()
    ensures { (run : Run) (records later earlier : List Record) (list : Execution run records) (task : ℕ) (arms : List Arm)
        → records ≡ later ++ earlier → AreArmsBy list task earlier arms
        → (more : List ℕ) × (map (λ came. ticket_number came.access) (verdicts_by list task earlier) ≡ map (λ (arm : Arm). arm.setter) arms ++ more) }
{
    law_executions_keep_the_discipline();
    law_verdicts_are_on_watches();
}

/// Law: of an execution whose tasks have all ended the armings, the takings and the reports tell of the same. Each
/// taking is a hit that an arming tells of, each pair that an arming says was reported is that of a race that the list
/// reports, and each arming that says its bytes changed with nobody hitting it is a report of unknown origin; each as
/// often.
pub fn law_the_bags_are_equal()
    ensures takings { (run : Run) (records : List Record) (list : Execution run records) (arms : List Arm) (takes : List Take) → AllHaveEnded run records
        → AreArms list arms → AreTakes list takes → AreOneBag is_take (hits_in arms) takes }
    ensures races { (run : Run) (records : List Record) (list : Execution run records) (arms : List Arm) → AllHaveEnded run records
        → AreArms list arms → AreOneBag is_pair (pairs_in arms) (flat_map race_in (reports_of list)) }
    ensures origins { (run : Run) (records : List Record) (list : Execution run records) (arms : List Arm) → AllHaveEnded run records
        → AreArms list arms → AreOneBag (λ n m. n == m) (origins_in arms) (flat_map unknown_in (reports_of list)) }
{
    law_executions_keep_the_discipline();
    law_roles_of_executions();
    law_answers_are_to_takings();
    law_verdicts_are_on_watches();
    law_each_taking_has_one_answer();
    law_heard_is_told();
}
