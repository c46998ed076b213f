//! What is true of every check.

ghost use Rattle.std.specs.Prelude.{◌≡◌, ◌++◌, [], ℕ, Bool, IfSome, List, reverse};
ghost use Rattle.slot_table.specs.Discipline.{Discipline, IsFinished};
ghost use Rattle.slot_table.specs.declared.records.Record.{Record};
ghost use Rattle.setup_access.specs.Check.{Check, Close, Fallen, Passes};
ghost use Rattle.setup_access.specs.Fallen.{HaveFallen};
ghost use Rattle.setup_access.specs.FallsAt.{AllFallIn};
ghost use Rattle.setup_access.specs.MadeOfChecks.{FreesHeldLocks, MadeOfChecks};
ghost use Rattle.setup_access.specs.Checker.{Does, Doing};
ghost use Rattle.setup_access.specs.Setting.{Setting};
ghost use Rattle.setup_access.specs.Waits.{failed_tries, wait_after};
ghost use Rattle.setup_access.specs.declared.begun.Begun.{Begun};

use access_types::law_tickets_read_back;
use watch_word::law_words_are_above_one;

/// Law: each outcome of a check, and of a close, is of one access and falls at one of the records, of its own
/// kind: nothing at the last load of a look-up, told at the tell, no room at the third insertion, a verdict for two
/// sides at the load of the pair in which the finder's half stood, and so on.
pub fn law_outcomes_fall_at_records()
    ensures check { (s : Setting) (scopes : List Begun) (begun : Begun) (asked : ℕ) (records : List Record) (passes : Passes) (rest : List Record)
        → Check s scopes begun asked records passes rest → AllFallIn s records passes.outcomes }
    ensures close { (s : Setting) (scope : Begun) (silenced : Bool) (asked : ℕ) (records : List Record) (passes : Passes) (rest : List Record)
        → Close s scope silenced asked records passes rest → AllFallIn s records passes.outcomes }
{}

/// Law: by records that can be completed one list of outcomes has fallen, and no other.
pub fn law_fallen_outcomes_are_known()
    ensures { (s : Setting) (scopes : List Begun) (doing : Doing) (asked : ℕ) (records later : List Record) (passes : Passes) (first second : List Fallen)
        → Does s scopes doing asked (records ++ later) passes → HaveFallen s scopes doing asked records first → HaveFallen s scopes doing asked records second → first ≡ second }
{}

/// Law: a task that makes checks and closes, one after the other, with other steps between them, and frees only
/// locks that it holds, keeps the discipline of watchpoints at every moment. After a whole check nothing is in
/// its hand.
pub fn law_checks_keep_the_discipline()
    ensures keeps { (s : Setting) (records more : List Record) → MadeOfChecks s (records ++ more) → FreesHeldLocks [] (records ++ more)
        → Discipline s.task (reverse records) }
    ensures finished { (s : Setting) (records : List Record) → MadeOfChecks s records → IsFinished (reverse records) }
{
    law_words_are_above_one();
    law_tickets_read_back();
}

/// Law: a wait counts the failed tries that its records end with.
pub fn law_waits_count_failed_tries()
    ensures { (records : List Record) → IfSome (wait_after records) (λ wait. wait.tries ≡ failed_tries records) }
{}
