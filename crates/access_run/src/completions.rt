//! Each beginning can be completed, and each check and each access is spelled by some records: so what is
//! said of all records that complete others never says nothing.

ghost use Rattle.std.specs.Prelude.{◌≡◌, ◌++◌, [], ℕ, Bool, List, Option};
ghost use Rattle.access_run.specs.Access.{MakesAccess};
ghost use Rattle.access_run.specs.Leads.{AccessLeads, HasCell};
ghost use Rattle.access_run.specs.declared.access.AccessRun as runs;
ghost use Rattle.access_types.specs.Access as accesses;
ghost use Rattle.access_run.specs.memory_operation.Leads as operations;
ghost use Rattle.access_run.specs.memory_operation.LockLeads.{LockLeads};
ghost use Rattle.access_run.specs.memory_operation.Locks.{TakesLock};
ghost use Rattle.access_run.specs.memory_operation.Operations.{OperatesIn};
ghost use Rattle.access_run.specs.declared.memory_operation.effect.Effect.{Effect};
ghost use Rattle.access_run.specs.declared.memory_operation.lock.LockWait.{LockWait};
ghost use Rattle.access_run.specs.declared.memory_operation.operation.Operation.{Operation};
ghost use Rattle.access_run.specs.declared.memory_operation.run.OperationRun.{OperationRun};
ghost use Rattle.setup_access.specs.declared.source.Source.{Source};
ghost use Rattle.setup_access.specs.Check.{Check, Close, Fallen, Passes};
ghost use Rattle.setup_access.specs.Checker.{Does, Doing};
ghost use Rattle.setup_access.specs.Fallen.{HaveFallen};
ghost use Rattle.setup_access.specs.Leads.{Leads};
ghost use Rattle.setup_access.specs.OwnAccesses.{AreOwn, IsOwn};
ghost use Rattle.setup_access.specs.Setting.{Setting};
ghost use Rattle.setup_access.specs.declared.begun.Begun.{Begun};
ghost use Rattle.setup_access.specs.declared.checker.Checker.{Checker};
ghost use Rattle.slot_table.specs.declared.records.Record.{Record};

/// Law: what leads to a checker can be completed, and some records are a check, and some a close, of an
/// access of the task.
pub fn law_checks_can_be_completed()
    ensures leads { (s : Setting) (scopes : List Begun) (doing : Doing) (asked : ℕ) (records : List Record) (checker : Checker)
        → Leads s scopes doing asked records checker
        → (later : List Record) × (passes : Passes) × Does s scopes doing asked (records ++ later) passes }
    ensures check { (s : Setting) (scopes : List Begun) (begun : Begun) (asked : ℕ) → IsOwn s begun.access → AreOwn s scopes
        → (records : List Record) × (passes : Passes) × Check s scopes begun asked records passes [] }
    ensures close { (s : Setting) (scope : Begun) (silenced : Bool) (asked : ℕ) → IsOwn s scope.access
        → (records : List Record) × (passes : Passes) × Close s scope silenced asked records passes [] }
{}

/// Law: by records that lead to a checker one list of outcomes has fallen, and no other.
pub fn law_outcomes_that_fell_are_known()
    ensures { (s : Setting) (scopes : List Begun) (doing : Doing) (asked : ℕ) (records : List Record) (checker : Checker) (first second : List Fallen)
        → Leads s scopes doing asked records checker → HaveFallen s scopes doing asked records first
        → HaveFallen s scopes doing asked records second → first ≡ second }
{}

/// Law: what leads to an operation on memory can be completed, and some records are an operation.
pub fn law_operations_can_be_completed()
    ensures leads { (task : ℕ) (a : accesses.Access) (source : Source) (operation : Operation) (records : List Record) (run : OperationRun)
        → operations.Leads task a source operation records run
        → (later : List Record) × (effect : Effect) × OperatesIn task a source operation (records ++ later) effect [] }
    ensures first { (task : ℕ) (a : accesses.Access) (source : Source) (operation : Operation)
        → (records : List Record) × (effect : Effect) × OperatesIn task a source operation records effect [] }
{}

/// Law: what leads to a wait for a lock can be completed, and some records are tries that take it.
pub fn law_tries_of_a_lock_can_be_completed()
    ensures leads { (task lock : ℕ) (records : List Record) (wait : LockWait) → LockLeads task lock records wait
        → (later : List Record) × TakesLock task lock (records ++ later) [] }
    ensures first { (task lock : ℕ) → (records : List Record) × TakesLock task lock records [] }
{}

/// Law: what leads to an access can be completed, and some records are an access of the task whose bytes
/// lie in a cell, if it has an operation.
pub fn law_accesses_can_be_completed()
    ensures leads { (s : Setting) (scopes : List Begun) (begun : Begun) (asked : ℕ) (operation : Option Operation)
        (records : List Record) (run : runs.AccessRun) (checker : Checker)
        → AccessLeads s scopes begun asked operation records run checker → (later : List Record)
        × ((passes : Passes) × (effect : Effect) × MakesAccess s scopes begun asked operation (records ++ later) passes effect []) }
    ensures first { (s : Setting) (scopes : List Begun) (begun : Begun) (asked : ℕ) (operation : Option Operation)
        → IsOwn s begun.access → AreOwn s scopes → HasCell s begun.access operation → (records : List Record)
        × ((passes : Passes) × (effect : Effect) × MakesAccess s scopes begun asked operation records passes effect []) }
{}
