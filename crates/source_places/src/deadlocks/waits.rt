//! Which tasks wait for locks, and who holds these.

ghost use Rattle.std.specs.Prelude.{◌≡◌, ◌<◌, ◌↔◌, ◌+◌, ◌^◌, ℕ, IfOk, IsTrue, List, OnOk, Some, length, slice_get};
ghost use Rattle.source_places.specs.deadlocks.Waits as spec;
ghost use Rattle.source_places.specs.deadlocks.Waits.{AreLockWaits, AreWaitsBelow, TriesLock};
ghost use Rattle.executions.specs.execution.Run.{Run};
ghost use Rattle.litmus_step.specs.Steps.{LeadsTo, tasks_in};
ghost use Rattle.slot_table.specs.declared.records.Record.{Record};

use litmus_step::World;
use slot_table::{Board, PlainBoard, Step};
use std::alloc::{AllocError, Global};

/// A task that can only go on by taking a lock, and the task that holds it.
#[derive(Clone, Copy)]
pub struct LockWait {
    pub task: usize,
    /// The number of the lock among the locks.
    pub lock: usize,
    pub holder: usize,
}

/// Whether a task holds a lock. A board says no lock word, so it is compared with a copy in which the task holds it.
fn is_held_by(alloc: Global, board: &PlainBoard, lock: usize, task: u32) -> Result<bool, AllocError>
    requires { lock < length board.now.locks }
    ensures { IfOk result (λ held. IsTrue held ↔ (slice_get board.now.locks lock ≡ Some (1 + task))) }
{
    let mut other = board.copy(alloc)?;
    let _freed = other.step(Step::LockStore(lock));
    let _taken = other.step(Step::LockTry(lock, task));
    Ok(board.holds_as(&other))
}

/// The first of so many tasks that holds a lock, if one does.
fn holder_among(
    alloc: Global,
    board: &PlainBoard,
    lock: usize,
    tasks: u32,
) -> Result<Option<usize>, AllocError>
    requires { lock < length board.now.locks }
    ensures { IfOk result (λ holder. (task : ℕ) → holder ≡ Some task
        ↔ ((task < tasks) × (slice_get board.now.locks lock ≡ Some (1 + task)))) }
{
    for task in 0..tasks {
        if is_held_by(alloc, board, lock, task)? {
            return Ok(Some(task as usize));
        }
    }
    Ok(None)
}

/// The task that holds a lock, if one does.
fn holder_of(alloc: Global, world: &World<'_>, lock: usize) -> Result<Option<usize>, AllocError>
    ensures { tasks_in world.now < 2 ^ 32 → IfOk result (λ holder. (task : ℕ) → holder ≡ Some task
        ↔ ((task < tasks_in world.now) × (slice_get world.now.board.locks lock ≡ Some (1 + task)))) }
{
    let board = world.board();
    if !board.has(Step::LockStore(lock)) {
        return Ok(None);
    }
    let tasks = u32::try_from(world.tasks()).unwrap_or(0);
    holder_among(alloc, board, lock, tasks)
}

/// The lock that a step tries to take, if it does.
fn lock_of(step: Option<Step>) -> Option<usize>
    ensures { result ≡ spec.lock_of step }
{
    match step {
        Some(Step::LockTry(lock, _)) => Some(lock),
        _ => None,
    }
}

/// The lock that a task's next step tries to take, if it does.
fn lock_tried(world: &World<'_>, task: usize) -> Option<usize>
    requires { task < tasks_in world.now }
    ensures { (run : Run) (records : List Record) → LeadsTo run records world.now
        → (lock : ℕ) → result ≡ Some lock ↔ TriesLock run records task lock }
{
    lock_of(world.next(task))
}

/// Adds the wait of a task for a lock that is held, if it has one.
fn add_wait(
    waits: &mut Vec<LockWait>,
    alloc: Global,
    world: &World<'_>,
    task: usize,
) -> Result<(), AllocError>
    requires { task < tasks_in world.now }
    ensures { (run : Run) (records : List Record) → LeadsTo run records world.now → AreWaitsBelow run records task waits.old.items
        → OnOk result (AreWaitsBelow run records (task + 1) waits.new.items) }
{
    let Some(lock) = lock_tried(world, task) else {
        return Ok(());
    };
    let Some(holder) = holder_of(alloc, world, lock)? else {
        return Ok(());
    };
    waits.push(LockWait { task, lock, holder })?;
    Ok(())
}

/// The tasks that wait for locks that are held, in their order.
pub fn lock_waits(alloc: Global, world: &World<'_>) -> Result<Vec<LockWait>, AllocError>
    ensures { (run : Run) (records : List Record) → LeadsTo run records world.now
        → IfOk result (λ waits. AreLockWaits run records waits.items) }
{
    let mut waits = Vec::new(alloc);
    for task in 0..world.tasks() {
        add_wait(&mut waits, alloc, world, task)?;
    }
    Ok(waits)
}
