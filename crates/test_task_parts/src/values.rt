//! Values of expressions and of variables, names and lists.

use crate::fault::Fault;
use crate::notation::{cut, number, push_all, push_number, push_two};
use crate::plans::numbers_of;
use crate::process::{body_of, program_of};
use litmus_semantics::expression::pure_value;
use litmus_semantics::value::{cut as low_bytes, sign_extended};
use litmus_syntax::{Assignment, Expression, Name, Sequence, Statement};
use std::alloc::Global;

/// What comes of a row by the word that it begins with.
pub fn answer(alloc: Global, kind: &str, start: &str) -> Result<String, Fault> {
    match kind {
        "value" => valued(alloc, start),
        "cut" => cut_off(alloc, start),
        "name" => Ok(named(String::from_str(alloc, start)?)),
        "list" => listed(alloc, start),
        _ => Err(Fault::NoRow),
    }
}

/// The value that the first statement of a process gives to a register, without a load: `REGISTERS PROCESS`.
fn valued(alloc: Global, start: &str) -> Result<String, Fault> {
    let (registers, process) = cut(start, ' ')?;
    let program = program_of(alloc, process)?;
    assigned(alloc, body_of(&program)?, registers)
}

/// The value that the first statement of a body gives to a register.
fn assigned(alloc: Global, body: &[Statement], registers: &str) -> Result<String, Fault> {
    let Some(
        Statement::Assign {
            assignment: Assignment::Register {
                value: Expression::Pure(pure),
                ..
            },
            ..
        },
    ) = body.first()
    else {
        return Err(Fault::NoRow);
    };
    let registers = numbers_of(alloc, registers)?;
    let mut came = String::new(alloc);
    push_number(&mut came, pure_value(pure, registers.as_slice()))?;
    Ok(came)
}

/// The bytes of a variable that a value leaves, and their number with its sign: `SIZE VALUE`.
fn cut_off(alloc: Global, start: &str) -> Result<String, Fault> {
    let (size, value) = cut(start, ' ')?;
    let (size, value) = (number(size)?, number(value)?);
    let (low, extended) = (low_bytes(value, size), sign_extended(value, size));
    let mut came = String::new(alloc);
    push_two(&mut came, Some(low), Some(extended))?;
    Ok(came)
}

/// What a name is made of.
fn named(text: String) -> String {
    Name::from_string(text).into_string()
}

/// What a list is made of.
fn listed(alloc: Global, start: &str) -> Result<String, Fault> {
    let list = Sequence::from_vec(numbers_of(alloc, start)?);
    let mut came = String::new(alloc);
    push_all(&mut came, list.into_vec().as_slice())?;
    Ok(came)
}
