//! Where steps of a world lead.

ghost use Rattle.std.specs.Prelude.{replicate};
ghost use Rattle.source_places.specs.deadlocks.Asked.{Asks, AsksSome};
ghost use Rattle.prepared_program.specs.step_schedule.Order.{asked_by};

use litmus_step::{Stepped, World};
use prepared_program::step_schedule::Entry;

/// A task makes so many steps, or those that it has left.
fn make_steps(world: &mut World<'_>, task: usize, count: u64)
    ensures { Asks (replicate count task) world.old world.new }
{
    if task >= world.tasks() {
        return;
    }
    for _made in 0..count {
        let Stepped::Moved = world.step(task) else {
            return;
        };
    }
}

/// The tasks make the steps that a schedule says.
pub fn make_entries(world: &mut World<'_>, entries: &[Entry])
    ensures { Asks (asked_by entries.now) world.old world.new }
{
    for entry in entries {
        make_steps(world, entry.task as usize, entry.steps);
    }
}

/// A task makes so many steps, or those that it has left, until so many were made in all.
fn make_steps_up_to(world: &mut World<'_>, task: usize, count: u64, most: u64)
    ensures { AsksSome world.old world.new }
{
    let left = most.saturating_sub(world.steps());
    make_steps(world, task, count.min(left));
}

/// Each task makes one step, from task 0 on, until so many were made in all.
fn make_round(world: &mut World<'_>, most: u64)
    ensures { AsksSome world.old world.new }
{
    for task in 0..world.tasks() {
        make_steps_up_to(world, task, 1, most);
    }
}

/// The tasks make the steps that a schedule says, and then take turns, until so many steps were made in all.
pub fn make_steps_in_turn(world: &mut World<'_>, entries: &[Entry], most: u64)
    ensures { AsksSome world.old world.new }
{
    for entry in entries {
        make_steps_up_to(world, entry.task as usize, entry.steps, most);
    }
    for _round in 0..most {
        if world.steps() >= most {
            return;
        }
        make_round(world, most);
    }
}
