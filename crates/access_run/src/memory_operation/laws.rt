//! What is true of every operation on memory, and of all tries of a lock.

ghost use Rattle.std.specs.Prelude.{◌≡◌, ℕ, List, []};
ghost use Rattle.access_types.specs.Access.{Access};
ghost use Rattle.access_run.specs.memory_operation.Effects.{did};
ghost use Rattle.access_run.specs.memory_operation.Frames.{Framed};
ghost use Rattle.access_run.specs.memory_operation.Locks.{TakesLock};
ghost use Rattle.access_run.specs.memory_operation.Operations.{OperatesIn};
ghost use Rattle.access_run.specs.memory_operation.Waits.{LoadNoPair, failed_tries};
ghost use Rattle.access_run.specs.declared.memory_operation.effect.Effect.{Effect};
ghost use Rattle.access_run.specs.declared.memory_operation.operation.Operation.{Operation};
ghost use Rattle.setup_access.specs.Waits as checks;
ghost use Rattle.setup_access.specs.declared.source.Source.{Source};
ghost use Rattle.slot_table.specs.declared.records.Record.{Record};

/// Law: an operation ends where it ends, whatever follows.
pub fn law_operations_are_framed()
    ensures { (task : ℕ) (a : Access) (source : Source) (operation : Operation) (effect : Effect)
        → Framed (λ records rest. OperatesIn task a source operation records effect rest) }
{}

/// Law: what comes of an operation is what its records did, one after the other.
pub fn law_effects_are_what_records_did()
    ensures { (task : ℕ) (a : Access) (source : Source) (operation : Operation) (records : List Record) (effect : Effect)
        → OperatesIn task a source operation records effect [] → effect ≡ did a source operation records }
{}

/// Law: the tries of a lock end where it is taken, whatever follows.
pub fn law_tries_of_a_lock_are_framed()
    ensures { (task lock : ℕ) → Framed (λ records rest. TakesLock task lock records rest) }
{}

/// Law: where no pair is loaded, as in an operation and in a wait for a lock, as many refusals are counted as
/// failed tries.
pub fn law_refusals_are_failed_tries()
    ensures { (records : List Record) → LoadNoPair records → failed_tries records ≡ checks.failed_tries records }
{}
