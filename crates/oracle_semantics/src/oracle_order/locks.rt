//! The records of locks.

ghost use Rattle.std.specs.Prelude.{◌≡◌, ◌↔◌, IfOk, IsTrue, count_by, take};
ghost use Rattle.access_run.specs.memory_operation.Locks.{TakesLock};
ghost use Rattle.oracle_semantics.specs.oracle_order.Walks.{IsOf, stands};
ghost use Rattle.setup_access.specs.Records.{MakesDone};
ghost use Rattle.slot_table.specs.declared.step.Step.TheVariants as steps;
ghost use Rattle.program_order.specs.Standing as spec;

use crate::oracle_order::walk::{Given, NotSpelled, Walk};
use litmus_syntax::{Contents, Variable};
use slot_table::{Answer, Step};

fn is_lock(variable: &Variable) -> bool
    ensures { result ≡ spec.is_lock variable.now.contents }
{
    matches!(variable.contents, Contents::Lock)
}

/// How many locks come before a variable.
fn locks_before(variables: &[Variable], variable: usize) -> usize
    ensures { result ≡ count_by (λ v. spec.is_lock v.contents) (take variable variables.now) }
{
    variables
        .iter()
        .take(variable)
        .filter(|earlier| is_lock(earlier))
        .count()
}

/// The number of a lock's word.
pub fn lock_number(given: &Given<'_>, variable: usize) -> usize
    ensures { (s : spec.Setting) → IsOf s given.now → result ≡ spec.lock_number s variable }
{
    locks_before(given.variables, variable)
}

/// The variable is a lock.
pub fn is_lock_at(given: &Given<'_>, variable: usize) -> bool
    ensures { (s : spec.Setting) → IsOf s given.now → (IsTrue result ↔ spec.IsLockAt s variable) }
{
    match given.variables.get(variable) {
        Some(variable) => is_lock(variable),
        None => false,
    }
}

/// After the tries of a lock, up to the one that finds it free.
pub fn takes_lock(task: u32, lock: usize, before: Walk) -> Result<Walk, NotSpelled>
    ensures takes { IfOk result (λ after. TakesLock task lock before.left.items after.left.items) }
    ensures stays { IfOk result (λ after. stands after ≡ stands before) }
{
    let (made, after) = before.next()?;
    if made.task != task || made.step != Step::LockTry(lock, task) {
        return Err(NotSpelled::Other);
    }
    match made.answer {
        Answer::Flag(true) => Ok(after),
        Answer::Flag(false) => takes_lock(task, lock, after),
        _ => Err(NotSpelled::Other),
    }
}

/// After the store that gives a lock back.
pub fn gives_back(task: u32, lock: usize, before: Walk) -> Result<Walk, NotSpelled>
    ensures gives { IfOk result (λ after. MakesDone task (steps.LockStore lock) (λ later. after.left.items ≡ later) before.left.items) }
    ensures stays { IfOk result (λ after. stands after ≡ stands before) }
{
    let (made, after) = before.next()?;
    if made.task != task || made.step != Step::LockStore(lock) || made.answer != Answer::Done {
        return Err(NotSpelled::Other);
    }
    Ok(after)
}
