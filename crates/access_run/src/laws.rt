//! What is true of every access.

ghost use Rattle.std.specs.Prelude.{ℕ, Bool, List, Option};
ghost use Rattle.access_run.specs.Access.{MakesAccess};
ghost use Rattle.access_run.specs.Moved.{FramedChecks};
ghost use Rattle.access_run.specs.declared.memory_operation.effect.Effect.{Effect};
ghost use Rattle.access_run.specs.declared.memory_operation.operation.Operation.{Operation};
ghost use Rattle.setup_access.specs.Check.{Check, Close};
ghost use Rattle.setup_access.specs.Setting.{Setting};
ghost use Rattle.setup_access.specs.declared.begun.Begun.{Begun};

/// Law: a check ends where it ends, whatever follows.
pub fn law_checks_are_framed()
    ensures { (s : Setting) (scopes : List Begun) (begun : Begun) (asked : ℕ) → FramedChecks (Check s scopes begun asked) }
{}

/// Law: so does the close of a scoped assertion.
pub fn law_closes_are_framed()
    ensures { (s : Setting) (scope : Begun) (silenced : Bool) (asked : ℕ) → FramedChecks (Close s scope silenced asked) }
{}

/// Law: so does an access.
pub fn law_accesses_are_framed()
    ensures { (s : Setting) (scopes : List Begun) (begun : Begun) (asked : ℕ) (operation : Option Operation) (effect : Effect)
        → FramedChecks (λ records passes rest. MakesAccess s scopes begun asked operation records passes effect rest) }
{}
