//! An access's operation on memory.

ghost use Rattle.std.specs.Prelude.{◌+◌, ◌<◌, ◌≤◌};

use crate::memory_operation::effect::Effect;
use crate::memory_operation::operation::Operation;
use crate::memory_operation::stage::OperationStage;
use access_types::Access;
use setup_access::source::Source;
use slot_table::{Answer, Step};

/// An operation on the bytes of an access, under way.
#[derive(Clone, Copy, PartialEq, Eq)]
pub struct OperationRun {
    access: Access,
    source: Source,
    effect: Effect,
    stage: OperationStage,
    ghost has_bytes: { 0 < access.size },
    ghost in_cell: { source.first + access.size ≤ 8 },
}

impl OperationRun {
    ghost use Rattle.std.specs.Prelude.{◌≡◌, ◌↔◌, ◌++◌, ◌∷◌, [], ℕ, List, IfSome, IsNone, IsTrue};
    ghost use Rattle.access_types.specs.Access as accesses;
    ghost use Rattle.access_run.specs.Changes.{operation_changes};
    ghost use Rattle.access_run.specs.Loaded.{operation_loaded};
    ghost use Rattle.access_run.specs.memory_operation.Effects.{did};
    ghost use Rattle.access_run.specs.memory_operation.Leads.{IsComplete, IsDone, IsOperationOver, IsStuck, Leads, OnlyStep, Says};
    ghost use Rattle.access_run.specs.declared.memory_operation.operation.Operation.{Operation};
    ghost use Rattle.setup_access.specs.Parts.{made};
    ghost use Rattle.setup_access.specs.declared.source.Source.{Source};
    ghost use Rattle.slot_table.specs.Answer.{Answers};
    ghost use Rattle.slot_table.specs.declared.records.Record.{Record};
    ghost use Rattle.slot_table.specs.declared.step.Step.{Step};

    /// An operation that has made no step yet. The access's bytes lie in a cell of eight.
    pub fn new(access: &Access, source: Source, operation: Operation) -> OperationRun
        requires has_bytes { 0 < access.now.size }
        requires in_cell { source.first + access.now.size ≤ 8 }
        ensures { (task : ℕ) → Leads task access.now source operation [] result }
    {
        OperationRun {
            access: *access,
            source,
            effect: Effect::nothing(),
            stage: OperationStage::Load(operation),
        }
    }

    /// An exchange was refused, and so were all after it, so often as failed tries are allowed.
    #[inline(always)]
    pub fn stuck(&self, turns: u64) -> bool
        ensures { (task : ℕ) (a : accesses.Access) (source : Source) (operation : Operation) (records : List Record)
            → Leads task a source operation records self.now
            → (IsTrue result ↔ IsStuck turns task a source operation records) }
    {
        match self.stage {
            // The first exchange is always made: only one that was refused is a failed try.
            OperationStage::Exchange { tries, .. } => tries > 0 && tries >= turns,
            _ => false,
        }
    }

    /// Whether it may still change its cell.
    pub fn changes(&self) -> bool
        ensures { result ≡ operation_changes self.now.stage }
    {
        match self.stage {
            OperationStage::Over | OperationStage::Load(Operation::Load) => false,
            OperationStage::Load(_) | OperationStage::Exchange { .. } => true,
        }
    }

    /// Where an exchange is next, the word that this compares its cell with; else the value that was read of the bytes,
    /// and 0 where none was, as by a write.
    pub fn loaded(&self) -> u64
        ensures { result ≡ operation_loaded self.now.effect self.now.stage }
    {
        match self.stage {
            OperationStage::Exchange { seen, .. } => seen,
            OperationStage::Over | OperationStage::Load(_) => self.effect.value_read(),
        }
    }

    /// It is over.
    #[inline(always)]
    pub fn is_over(&self) -> bool
        ensures { (task : ℕ) (a : accesses.Access) (source : Source) (operation : Operation) (records : List Record)
            → Leads task a source operation records self.now
            → (IsTrue result ↔ IsDone task a source operation records) }
    {
        matches!(self.stage, OperationStage::Over)
    }

    /// The step that the task makes next; none where the operation is over or stuck.
    #[inline(always)]
    pub fn next(&self, turns: u64) -> Option<Step>
        ensures says { IfSome result (λ step. Says self.now step) }
        ensures only { (task : ℕ) (a : accesses.Access) (source : Source) (operation : Operation) (records : List Record)
            → Leads task a source operation records self.now
            → IfSome result (OnlyStep task a source operation records) }
        ensures none { (task : ℕ) (a : accesses.Access) (source : Source) (operation : Operation) (records : List Record)
            → Leads task a source operation records self.now
            → (IsNone result ↔ IsOperationOver turns task a source operation records) }
    {
        if self.stuck(turns) {
            return None;
        }
        self.stage.step(&self.access, self.source)
    }

    /// Takes the answer of the step.
    #[inline(always)]
    pub fn answer(&mut self, answer: Answer)
        requires { (step : Step) × Says self.old step × Answers step answer }
        ensures { (task : ℕ) (a : accesses.Access) (source : Source) (operation : Operation) (records : List Record) (step : Step)
            → Leads task a source operation records self.old → Says self.old step
            → Leads task a source operation (records ++ made task step answer ∷ []) self.new }
    {
        let turn = self.stage.answer(&self.access, self.source, answer);
        self.effect = self.effect.and_then(turn.effect);
        self.stage = turn.stage;
    }

    /// What came of it so far.
    #[inline(always)]
    pub fn effect(&self) -> Effect
        ensures so_far { (task : ℕ) (a : accesses.Access) (source : Source) (operation : Operation) (records : List Record)
            → Leads task a source operation records self.now → result ≡ did a source operation records }
        ensures complete { (task : ℕ) (a : accesses.Access) (source : Source) (operation : Operation) (records : List Record)
            → Leads task a source operation records self.now → IsDone task a source operation records
            → IsComplete task a source operation records result }
    {
        self.effect
    }
}
