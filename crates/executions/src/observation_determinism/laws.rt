//! What is true of what records tell.

ghost use Rattle.std.specs.Prelude.{◌++◌, ◌≡◌, ◌<◌, ◌≤◌, ℕ, All, List, [], count_by, length};
ghost use Rattle.litmus_semantics.specs.Layout.{cells_at_first};
ghost use Rattle.litmus_syntax.specs.Limits.{BodyKeepsLimits, block_repeats};
ghost use Rattle.litmus_syntax.specs.Tree.{Block};
ghost use Rattle.slot_table.specs.StepLine.{Names};
ghost use Rattle.slot_table.specs.Words.{words_at_first};
ghost use Rattle.slot_table.specs.declared.records.Record.{Record};
ghost use Rattle.program_order.specs.Standing.{Setting, is_lock};
ghost use Rattle.program_order.specs.TaskObserved.{fell_next, stands_by};
ghost use Rattle.program_order.specs.WrittenOrder.{SpellsAll, WrittenOrder, stands_after};
ghost use Rattle.executions.specs.observation_determinism.Begins.{begins_in};
ghost use Rattle.executions.specs.observation_determinism.TellAlike.{TellAlike};

use program_order::law_what_is_done_is_meant;
use watch_word::law_words_are_above_one;

/// Law: what a task's records tell is told by them alone, however they are completed, and by the same records at
/// the beginning of a longer list. Where the task stands is where it stood after all of its records. Nothing
/// follows on records that spell the whole text.
pub fn law_one_telling()
    ensures same { (s : Setting) (registers : ℕ) (body : Block) (records : List Record) → (one other : WrittenOrder s registers body records)
        → TellAlike one other (length records) }
    ensures longer { (s : Setting) (registers : ℕ) (body : Block) (records later : List Record)
        → (one : WrittenOrder s registers body records) → (other : WrittenOrder s registers body (records ++ later)) → TellAlike one other (length records) }
    ensures now { (s : Setting) (registers : ℕ) (body : Block) (records : List Record) → (written : WrittenOrder s registers body records)
        → stands_after written ≡ stands_by written (length records) }
    ensures whole { (s : Setting) (registers : ℕ) (body : Block) (records more : List Record)
        → SpellsAll s registers body records → SpellsAll s registers body (records ++ more) → more ≡ [] }
{}

/// Law: at each of a task's records at most one outcome of its checks falls.
pub fn law_one_outcome_a_record()
    ensures { (s : Setting) (registers : ℕ) (body : Block) (records : List Record) → (written : WrittenOrder s registers body records) → (made : ℕ)
        → length (fell_next written made) ≤ 1 }
{}

/// Law: each step that a task makes names a word of the run: an index, a cell or a lock that there is. A watch word
/// that it sets up or claims is above 1.
pub fn law_steps_name_words_of_the_run()
    ensures { (s : Setting) (registers : ℕ) (body : Block) (records : List Record) → 0 < s.rules.slots → WrittenOrder s registers body records
        → All (λ made. Names (words_at_first s.rules.slots (count_by (λ v. is_lock v.contents) s.text.variables)
        (cells_at_first s.text.places s.text.variables)) made.step) records }
{
    law_words_are_above_one();
}

/// Law: by its records a task has begun no more accesses than the loops of its text repeat its statements, so at most
/// 1,024 where the text keeps the limits.
pub fn law_few_accesses_begin()
    ensures text { (s : Setting) (registers : ℕ) (body : Block) (records : List Record) → (written : WrittenOrder s registers body records)
        → begins_in (stands_after written).progress.did ≤ block_repeats 1 body }
    ensures limits { (s : Setting) (registers : ℕ) (body : Block) (records : List Record) → (written : WrittenOrder s registers body records)
        → BodyKeepsLimits body → begins_in (stands_after written).progress.did ≤ 1024 }
{
    law_what_is_done_is_meant();
}
