//! What an access does next.

ghost use Rattle.std.specs.Prelude.{◌<◌, ◌++◌, ◌∷◌, [], ℕ, IfSome, List, Option, unwrap_or};
ghost use Rattle.access_run.specs.Leads.{HasCell, IsChecked, IsReady, IsUnderWay, Runs, StageLeads};
ghost use Rattle.access_run.specs.Whole.{NoneWhole};
ghost use Rattle.access_run.specs.declared.stage.AccessStage.TheVariants as stages;
ghost use Rattle.access_run.specs.memory_operation.Operations.{Operates};
ghost use Rattle.access_run.specs.declared.memory_operation.operation.Operation as kinds;
ghost use Rattle.setup_access.specs.Check.{Check};
ghost use Rattle.setup_access.specs.Checker.{Checks};
ghost use Rattle.setup_access.specs.Leads.{Leads, Rests};
ghost use Rattle.setup_access.specs.Setting.{Setting};
ghost use Rattle.setup_access.specs.declared.begun.Begun.{Begun};
ghost use Rattle.setup_access.specs.declared.checker.Checker as checkers;
ghost use Rattle.slot_table.specs.declared.records.Record.{Record};

use crate::memory_operation::{Effect, Operation, OperationRun};
use access_types::Access;
use setup_access::Checker;

/// What an access does next.
#[derive(Clone, Copy, PartialEq, Eq)]
pub enum AccessStage {
    /// Its check, which its task's checker makes; then this operation on memory, if it has one.
    Check(Option<OperationRun>),
    /// Its operation.
    Operate(OperationRun),
    /// Draw the stamp of its end.
    End(Effect),
    /// Nothing: it is over.
    Over(Effect),
}

/// The operation of an access, which makes its steps after the check. Its bytes lie in one cell.
#[inline(always)]
pub(crate) fn ready(
    checker: &Checker,
    access: &Access,
    operation: Option<Operation>,
) -> Option<OperationRun>
    requires has_bytes { 0 < access.now.size }
    ensures { (s : Setting) (scopes : List Begun) (asked : ℕ) (last : Option Begun) → Rests s scopes asked last checker.now
        → HasCell s access.now operation → IsReady s access.now operation result }
{
    let operation = operation?;
    let source = checker.source(access)?;
    Some(OperationRun::new(access, source, operation))
}

/// What follows on a step of the check, where the check is over. Where it goes on nothing is copied: most steps are
/// such.
#[inline(always)]
pub(crate) fn after_check(checker: &Checker, run: &Option<OperationRun>) -> Option<AccessStage>
    ensures going { IfSome result IsUnderWay }
    ensures leads { (s : Setting) (scopes : List Begun) (begun : Begun) (asked : ℕ) (operation : Option kinds.Operation) (records : List Record) (last : Record)
        → Leads s scopes (Checks begun) asked (records ++ last ∷ []) checker.now
        → NoneWhole (Check s scopes begun asked) records → IsReady s begun.access operation run.now
        → StageLeads s scopes begun asked operation (records ++ last ∷ []) (unwrap_or result (stages.Check run.now)) checker.now }
{
    if !checker.is_over() {
        return None;
    }
    match run {
        Some(run) => Some(AccessStage::Operate(*run)),
        None => Some(AccessStage::End(Effect {
            read: None,
            written: None,
        })),
    }
}

/// What follows on a step of the operation, where that is over.
#[inline(always)]
pub(crate) fn after_step(run: &OperationRun) -> Option<AccessStage>
    ensures going { IfSome result IsUnderWay }
    ensures leads { (s : Setting) (scopes : List Begun) (begun : Begun) (asked : ℕ) (operation : Option kinds.Operation)
        (checked done : List Record) (last : Record) (checker : checkers.Checker)
        → IsChecked s scopes begun asked checked checker → NoneWhole (Operates s begun.access operation) done
        → Runs s begun.access operation (done ++ last ∷ []) run.now
        → StageLeads s scopes begun asked operation (checked ++ (done ++ last ∷ [])) (unwrap_or result (stages.Operate run.now)) checker }
{
    if !run.is_over() {
        return None;
    }
    Some(AccessStage::End(run.effect()))
}
