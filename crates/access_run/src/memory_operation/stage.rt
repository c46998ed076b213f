//! What an operation does next.

ghost use Rattle.std.specs.Prelude.{◌≡◌, ◌+◌, ◌<◌, ◌≤◌, ℕ, Some};
ghost use Rattle.access_run.specs.memory_operation.Stages.{IsReady, Turns, loaded_turn, shown_turn, stage_step};
ghost use Rattle.setup_access.specs.Parts.{made};
ghost use Rattle.slot_table.specs.Answer.{Answers};
ghost use Rattle.slot_table.specs.declared.step.Step as steps;

use crate::memory_operation::effect::Effect;
use crate::memory_operation::operation::{Change, Operation};
use crate::memory_operation::values::{is_wanted, new_value, sum_of, with_value};
use access_types::Access;
use setup_access::source::Source;
use setup_access::values::value_in;
use slot_table::{Answer, Step};

/// What an operation does next.
#[derive(Clone, Copy, PartialEq, Eq)]
pub enum OperationStage {
    /// Nothing: it is over.
    Over,
    /// Load the cell, for this.
    Load(Operation),
    /// Exchange the word that was seen, after so many failed tries.
    Exchange {
        change: Change,
        seen: u64,
        tries: u64,
    },
}

/// Where an answer leads, and what the step did.
#[derive(Clone, Copy)]
pub struct Transition {
    pub stage: OperationStage,
    pub effect: Effect,
}

impl Transition {
    /// The step was the last one.
    #[inline(always)]
    fn over(effect: Effect) -> Transition
        ensures { result ≡ record { stage = OperationStage.Over; effect = effect } }
    {
        Transition {
            stage: OperationStage::Over,
            effect,
        }
    }
}

impl OperationStage {
    /// The step that it makes next.
    #[inline(always)]
    pub(crate) fn step(self, access: &Access, source: Source) -> Option<Step>
        requires has_bytes { 0 < access.now.size }
        requires in_cell { source.first + access.now.size ≤ 8 }
        ensures { result ≡ stage_step access.now source self }
    {
        match self {
            OperationStage::Over => None,
            OperationStage::Load(_) => Some(Step::CellLoad(source.cell)),
            OperationStage::Exchange { change, seen, .. } => {
                let old = value_in(access, source, seen);
                let value = new_value(access.size(), change, old);
                let new = with_value(access, source, seen, value);
                Some(Step::CellExchange(source.cell, seen, new))
            }
        }
    }

    /// Takes the answer.
    #[inline(always)]
    pub(crate) fn answer(self, access: &Access, source: Source, answer: Answer) -> Transition
        requires { (step : steps.Step) × (stage_step access.now source self ≡ Some step) × Answers step answer }
        ensures { (task : ℕ) (step : steps.Step) → stage_step access.now source self ≡ Some step
            → IsReady access.now source self
            → Turns task access.now source self (made task step answer) result }
    {
        match (self, answer) {
            (OperationStage::Load(operation), Answer::Word(word)) => {
                loaded(access, source, operation, word)
            }
            (OperationStage::Exchange { change, seen, .. }, Answer::Flag(_)) => {
                let old = value_in(access, source, seen);
                Transition::over(Effect::changed(access.size(), change, old))
            }
            (OperationStage::Exchange { change, tries, .. }, Answer::Word(word)) => {
                shown(access, source, change, word, tries.saturating_add(1))
            }
            _ => unreachable!(),
        }
    }
}

/// The cell was loaded. A compound assignment has its value now, and loads the cell again to put it
/// there.
#[inline(always)]
fn loaded(access: &Access, source: Source, operation: Operation, word: u64) -> Transition
    ensures { result ≡ loaded_turn access.now source operation word }
{
    let old = value_in(access, source, word);
    match operation {
        Operation::Load => Transition::over(Effect::only_read(old)),
        Operation::Add(amount) => {
            let sum = sum_of(access.size(), old, amount);
            Transition {
                stage: OperationStage::Load(Operation::Change(Change::Write(sum))),
                effect: Effect::only_read(old),
            }
        }
        Operation::Change(change) => shown(access, source, change, word, 0),
    }
}

/// A change was shown a word, after so many failed tries. It goes on from this word, so that it
/// takes nothing back that others have written since; a `cmpxchg` that sees another value than the
/// expected one has only read.
#[inline(always)]
fn shown(access: &Access, source: Source, change: Change, word: u64, tries: u64) -> Transition
    ensures { result ≡ shown_turn access.now source change word tries }
{
    let old = value_in(access, source, word);
    if !is_wanted(access.size(), change, old) {
        return Transition::over(Effect::only_read(old));
    }
    Transition {
        stage: OperationStage::Exchange {
            change,
            seen: word,
            tries,
        },
        effect: Effect::nothing(),
    }
}
