//! Final states, as herd7 writes them.

ghost use Rattle.std.specs.Prelude.{◌≡◌, ◌++◌, IfOk, OnOk, map};
ghost use Rattle.std.specs.String.{string_bytes};
ghost use Rattle.litmus_semantics.specs.final_condition.Holds.{register_of, variable_of};
ghost use Rattle.litmus_syntax.specs.PrintedForm as printed;
ghost use Rattle.litmus_syntax.specs.Views.{program_of, task_of};
ghost use Rattle.search_text.specs.States as spec;

use crate::locations::Location;
use litmus_semantics::final_condition::Finals;
use litmus_syntax::{Name, Program, Task, Variable};
use std::alloc::{AllocError, Global};
use std::fmt::Write;

/// The least value of 64 bits that is below 0 with its sign.
const LEAST_NEGATIVE: u64 = 0x8000_0000_0000_0000;

/// The name of a number; one that isn't there has an empty name.
fn name_at(names: &[Name], number: usize) -> &str
    ensures { result.now ≡ printed.name_at names.now number }
{
    match names.get(number) {
        Some(name) => name.as_str(),
        None => "",
    }
}

/// The name of a variable; one that isn't there has an empty name.
fn variable_name(variables: &[Variable], number: usize) -> &str
    ensures { result.now ≡ printed.variable_name variables.now number }
{
    match variables.get(number) {
        Some(variable) => variable.name.as_str(),
        None => "",
    }
}

/// The names of the registers of a task; a task that isn't there has none.
fn registers_of(tasks: &[Task], number: usize) -> &[Name]
    ensures { result.now ≡ printed.registers_of (map task_of tasks.now) number }
{
    match tasks.get(number) {
        Some(task) => task.registers.as_slice(),
        None => &[],
    }
}

/// Appends the name of a location.
fn append_location(
    text: &mut String,
    program: &Program,
    location: Location,
) -> Result<(), AllocError>
    ensures { OnOk result (string_bytes text.new ≡ string_bytes text.old ++ spec.location_text (program_of program.now) location) }
{
    match location {
        Location::Register { task, register } => {
            let name = name_at(registers_of(program.tasks.as_slice(), task), register);
            write!(text, "{task}:{name}")
        }
        Location::Variable { variable } => {
            text.push_str(variable_name(program.variables.as_slice(), variable))
        }
    }
}

/// Appends a value of 64 bits with its sign.
fn append_value(text: &mut String, value: u64) -> Result<(), AllocError>
    ensures { OnOk result (string_bytes text.new ≡ string_bytes text.old ++ spec.signed_text value) }
{
    if value < LEAST_NEGATIVE {
        write!(text, "{value}")
    } else {
        let size = u64::MAX - value + 1;
        write!(text, "-{size}")
    }
}

/// The value of a location.
fn value_at(finals: &Finals, location: Location) -> u64
    ensures { result ≡ spec.value_at (register_of finals.now) (variable_of finals.now) location }
{
    match location {
        Location::Register { task, register } => finals.register(task, register),
        Location::Variable { variable } => finals.variable(variable),
    }
}

/// Appends what a location holds.
fn append_item(
    text: &mut String,
    program: &Program,
    finals: &Finals,
    location: Location,
) -> Result<(), AllocError>
    ensures { OnOk result (string_bytes text.new ≡ string_bytes text.old
        ++ spec.item_text (program_of program.now) (register_of finals.now) (variable_of finals.now) location) }
{
    append_location(text, program, location)?;
    text.push_str("=")?;
    append_value(text, value_at(finals, location))?;
    text.push_str(";")
}

/// Appends what locations hold, each behind a blank.
fn append_more(
    text: &mut String,
    program: &Program,
    finals: &Finals,
    locations: &[Location],
) -> Result<(), AllocError>
    ensures { OnOk result (string_bytes text.new ≡ string_bytes text.old
        ++ spec.more_text (program_of program.now) (register_of finals.now) (variable_of finals.now) locations.now) }
{
    for location in locations {
        text.push_str(" ")?;
        append_item(text, program, finals, *location)?;
    }
    Ok(())
}

/// Appends what locations hold, with blanks between them.
fn append_state(
    text: &mut String,
    program: &Program,
    finals: &Finals,
    locations: &[Location],
) -> Result<(), AllocError>
    ensures { OnOk result (string_bytes text.new ≡ string_bytes text.old
        ++ spec.listed_text (program_of program.now) (register_of finals.now) (variable_of finals.now) locations.now) }
{
    match locations.split_first() {
        Some((first, more)) => {
            append_item(text, program, finals, *first)?;
            append_more(text, program, finals, more)
        }
        None => Ok(()),
    }
}

/// What these locations hold where registers and variables of a program have these values, as text.
pub fn state_of(
    alloc: Global,
    program: &Program,
    finals: &Finals,
    locations: &[Location],
) -> Result<Vec<u8>, AllocError>
    ensures { IfOk result (λ text. text.items
        ≡ spec.listed_text (program_of program.now) (register_of finals.now) (variable_of finals.now) locations.now) }
{
    let mut text = String::new(alloc);
    append_state(&mut text, program, finals, locations)?;
    Ok(text.into_bytes())
}
