//! What is true of the answers of an access's steps, and of a lock's.

ghost use Rattle.std.specs.Prelude.{ℕ, Bool, List, Option};
ghost use Rattle.access_types.specs.Access as access;
ghost use Rattle.task_plan.specs.task_laws.LeadsOn.{AnswersLeadOn};
ghost use Rattle.access_run.specs.memory_operation.Locks.{TakesLock};
ghost use Rattle.access_run.specs.memory_operation.Operations.{Operates};
ghost use Rattle.access_run.specs.declared.memory_operation.operation.Operation.{Operation};
ghost use Rattle.setup_access.specs.Check.{Check, Close};
ghost use Rattle.setup_access.specs.Setting.{Setting};
ghost use Rattle.setup_access.specs.declared.begun.Begun.{Begun};

/// Law: whatever the steps of a check are answered, some more records complete a check.
pub fn law_checks_lead_on()
    ensures { (s : Setting) (scopes : List Begun) (begun : Begun) (asked : ℕ) → AnswersLeadOn (Check s scopes begun asked) }
{}

/// Law: so it is for the close of a scoped assertion.
pub fn law_closes_lead_on()
    ensures { (s : Setting) (scope : Begun) (silenced : Bool) (asked : ℕ) → AnswersLeadOn (Close s scope silenced asked) }
{}

/// Law: so it is for an operation on memory.
pub fn law_operations_lead_on()
    ensures { (s : Setting) (a : access.Access) (operation : Option Operation) → AnswersLeadOn (Operates s a operation) }
{}

/// Law: so it is for the tries of a lock.
pub fn law_tries_lead_on()
    ensures { (task lock : ℕ) → AnswersLeadOn {X = Unit {0}} (λ records value rest. TakesLock task lock records rest) }
{}
