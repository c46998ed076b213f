//! Why no task of the program of a litmus text goes on.

ghost use Rattle.std.specs.Prelude.{ℕ, IfOk, List};
ghost use Rattle.source_places.specs.deadlocks.Explained.{AreSaid, AreSaidAt, AreSaidIn};
ghost use Rattle.executions.specs.execution.Run.{Run};
ghost use Rattle.litmus_step.specs.Steps.{LeadsTo};
ghost use Rattle.litmus_syntax.specs.Limits.{KeepsLimits};
ghost use Rattle.litmus_syntax.specs.Views.{program_of};
ghost use Rattle.prepared_program.specs.program_sites.Prepared.{IsReady};
ghost use Rattle.prepared_program.specs.step_schedule.Order.{asked_by};
ghost use Rattle.slot_table.specs.declared.records.Record.{Record};

use crate::deadlocks::calls::lock_calls;
use crate::deadlocks::lines::{Sources, wait_lines};
use crate::deadlocks::reached::{make_entries, make_steps_in_turn};
use crate::deadlocks::waits::lock_waits;
use litmus_parse::read_text;
use litmus_step::{Prepared, Settings, World};
use litmus_syntax::{Program, Variable};
use prepared_program::step_schedule::{Entry, Schedule};
use std::alloc::{AllocError, Global};

/// What is said of the waits for locks in a world of a program with these variables, of the text of a file.
fn lines_at(
    alloc: Global,
    file: &[u8],
    text: &[u8],
    variables: &[Variable],
    world: &World<'_>,
) -> Result<Vec<u8>, AllocError>
    ensures { (run : Run) (records : List Record) → LeadsTo run records world.now
        → IfOk result (λ said. AreSaidAt run records variables.now file.now text.now said.items) }
{
    let waits = lock_waits(alloc, world)?;
    let calls = lock_calls(alloc, text)?;
    let sources = Sources {
        file,
        text,
        calls: &calls,
        variables,
    };
    wait_lines(alloc, sources, &waits)
}

/// What is said where the steps of a schedule lead.
fn lines_behind(
    alloc: Global,
    file: &[u8],
    text: &[u8],
    program: &Program,
    settings: &Settings,
    entries: &[Entry],
) -> Result<Vec<u8>, AllocError>
    requires { KeepsLimits (program_of program.now) }
    ensures { IfOk result (λ said. AreSaidIn program.now file.now text.now settings.now (asked_by entries.now) said.items) }
{
    let Ok(prepared) = Prepared::new(alloc, program, settings) else {
        return Err(AllocError);
    };
    let mut world = World::prepared(alloc, program, &prepared)?;
    make_entries(&mut world, entries);
    lines_at(alloc, file, text, program.variables.as_slice(), &world)
}

/// For each task that waits for a lock where the steps of a schedule lead, a line that says for which, where in the file
/// of this name, and who holds it: of a text that is read as a program that the settings suit. Of others it fails, as
/// for want of memory.
pub fn deadlock_lines(
    alloc: Global,
    file: &str,
    text: &[u8],
    settings: &Settings,
    entries: &[Entry],
) -> Result<Vec<u8>, AllocError>
    ensures { IfOk result (λ said. AreSaid file.now text.now settings.now (asked_by entries.now) said.items) }
{
    match read_text(alloc, text) {
        Ok(reading) => lines_behind(
            alloc,
            file.as_bytes(),
            text,
            &reading.program,
            settings,
            entries,
        ),
        Err(_) => Err(AllocError),
    }
}

/// How many steps a program makes under a schedule before a task makes the last try that gets it stuck.
fn steps_before_stuck(
    alloc: Global,
    program: &Program,
    prepared: &Prepared,
    schedule: &Schedule,
) -> Result<u64, AllocError>
    requires limits { KeepsLimits (program_of program.now) }
    requires ready { IsReady program.now prepared.now }
{
    let mut world = World::prepared(alloc, program, prepared)?;
    let _stuck = world.run(schedule);
    Ok(world.steps().saturating_sub(1))
}

/// What is said of the tasks of a program once one got stuck under a schedule: of the waits before its last failed try,
/// which changed no word.
fn lines_stuck(
    alloc: Global,
    file: &[u8],
    text: &[u8],
    program: &Program,
    settings: &Settings,
    schedule: &Schedule,
) -> Result<Vec<u8>, AllocError>
    requires { KeepsLimits (program_of program.now) }
    ensures { IfOk result (λ said. (order : List ℕ) × AreSaidIn program.now file.now text.now settings.now order said.items) }
{
    let Ok(prepared) = Prepared::new(alloc, program, settings) else {
        return Err(AllocError);
    };
    let most = steps_before_stuck(alloc, program, &prepared, schedule)?;
    let mut world = World::prepared(alloc, program, &prepared)?;
    make_steps_in_turn(&mut world, schedule.entries(), most);
    lines_at(alloc, file, text, program.variables.as_slice(), &world)
}

/// The same where a task gets stuck under a schedule, after which the tasks take turns.
pub fn stuck_lines(
    alloc: Global,
    file: &str,
    text: &[u8],
    settings: &Settings,
    schedule: &Schedule,
) -> Result<Vec<u8>, AllocError>
    ensures { IfOk result (λ said. (order : List ℕ) × AreSaid file.now text.now settings.now order said.items) }
{
    match read_text(alloc, text) {
        Ok(reading) => lines_stuck(
            alloc,
            file.as_bytes(),
            text,
            &reading.program,
            settings,
            schedule,
        ),
        Err(_) => Err(AllocError),
    }
}
