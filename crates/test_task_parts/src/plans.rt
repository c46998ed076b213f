//! The access that a statement makes, and the locks among variables.

use crate::fault::{Fault, written};
use crate::notation::{cut, number, push_flag, push_number, push_two};
use crate::process::{body_of, layout_of, program_of, walk_of};
use crate::script::{Asked, begin_word};
use access_types::Access;
use litmus_parse::Program;
use litmus_syntax::{Statement, Variable};
use std::alloc::{AllocError, Global};
use task_plan::{Due, Plan, Planner, Taker, Then, is_lock_at, lock_number};

/// What comes of the first statement of a process, with these values of its registers: `REGISTERS PROCESS`.
pub fn plan(alloc: Global, start: &str) -> Result<String, Fault> {
    let (registers, process) = cut(start, ' ')?;
    let program = program_of(alloc, process)?;
    said_of_first(alloc, &program, registers)
}

/// What comes of the first statement of a program, with these values of its registers.
fn said_of_first(alloc: Global, program: &Program, registers: &str) -> Result<String, Fault> {
    let registers = numbers_of(alloc, registers)?;
    match first_plan(alloc, program, registers.as_slice())? {
        Some(plan) => said(alloc, plan),
        None => Ok(String::from_str(alloc, "none")?),
    }
}

/// What follows on the access of the first statement of a process, if that makes one; its registers have no values.
pub fn after_first(alloc: Global, program: &Program) -> Result<Option<Then<'_>>, Fault> {
    match first_plan(alloc, program, &[])? {
        Some(plan) => Ok(Some(plan.after)),
        None => Ok(None),
    }
}

/// The access of the first statement of a process, if that makes one.
fn first_plan<'p>(
    alloc: Global,
    program: &'p Program,
    registers: &[u64],
) -> Result<Option<Plan<'p>>, Fault> {
    let layout = layout_of(alloc, program)?;
    let mut walk = walk_of(alloc, body_of(program)?)?;
    let planner = Planner {
        layout: &layout,
        registers,
    };
    Ok(planned(planner, walk.go_on()))
}

/// Numbers with commas between them; `-` for none.
pub fn numbers_of(alloc: Global, text: &str) -> Result<Vec<u64>, Fault> {
    let mut registers = Vec::new(alloc);
    if text == "-" {
        return Ok(registers);
    }
    for value in text.split(',') {
        registers.push(number(value)?)?;
    }
    Ok(registers)
}

/// The access of what is due, if that makes one.
fn planned<'a>(planner: Planner<'_>, due: Due<'a>) -> Option<Plan<'a>> {
    match due {
        Due::Statement {
            statement: Statement::Load(load),
            ..
        } => Some(planner.load(load, Taker::Nobody)),
        Due::Statement {
            statement: Statement::Assign {
                data_race,
                assignment,
            },
            ..
        } => planner.assignment(assignment, *data_race),
        Due::Statement {
            statement: Statement::Call(call),
            ..
        } => planner.call(*call),
        Due::Opens { kind, variable, .. } => Some(planner.asserts(variable, kind)),
        _ => None,
    }
}

/// The bytes, the kind and the operation of a plan, its mask, that of the access which is made of it, how often reports
/// are off for it, and what follows.
fn said(alloc: Global, plan: Plan<'_>) -> Result<String, Fault> {
    let (addr, size) = (plan.bytes.addr, plan.bytes.size);
    let (kind, operation) = (plan.kind, plan.operation);
    let made = Access::new(0, 0, addr, size, kind, plan.mask)?;
    let mut text = format!(in alloc; "{addr:#x}+{size} {kind:?} {operation:?} mask ")?;
    push_two(&mut text, plan.mask, made.mask())?;
    let off = plan.after.data_races();
    write!(text, " off {off} ")?;
    push_after(&mut text, plan.after)?;
    Ok(text)
}

/// Writes what follows on an access.
fn push_after(text: &mut String, after: Then<'_>) -> Result<(), AllocError> {
    match after {
        Then::GoesOn => text.push_str("GoesOn"),
        Then::MarksNext => text.push_str("MarksNext"),
        Then::Assigned { data_race } => write!(text, "Assigned({data_race})"),
        Then::Loaded {
            size,
            data_races,
            taker,
        } => {
            write!(text, "Loaded({size},{data_races}) ")?;
            push_taker(text, taker)
        }
    }
}

/// Writes what takes the value of a load.
fn push_taker(text: &mut String, taker: Taker<'_>) -> Result<(), AllocError> {
    match taker {
        Taker::Nobody => text.push_str("Nobody"),
        Taker::Register {
            register,
            data_race,
            ..
        } => write!(text, "Register({register},{data_race})"),
        Taker::Condition(_) => text.push_str("Condition"),
    }
}

/// What the variables of a process say of themselves, by number: whether each is a lock, and how many locks come before
/// it.
pub fn locks(alloc: Global, process: &str, script: &str) -> Result<String, Fault> {
    let program = program_of(alloc, process)?;
    said_of_each(alloc, program.variables.as_slice(), script)
}

/// What variables say by a script.
fn said_of_each(alloc: Global, variables: &[Variable], script: &str) -> Result<String, Fault> {
    let mut came = String::new(alloc);
    for word in script.split(' ') {
        goes_on(&mut came, variables, word)?;
    }
    Ok(came)
}

/// What comes at a word of the script.
fn goes_on(came: &mut String, variables: &[Variable], word: &str) -> Result<(), Fault> {
    let Asked::Question(phrase) = begin_word(came, word)? else {
        return Err(Fault::NoRow);
    };
    let variable = phrase.index()?;
    let pushed = match phrase.name {
        "is_lock" => push_flag(came, is_lock_at(variables, variable)),
        "number" => push_number(came, lock_number(variables, variable) as u64),
        _ => return Err(Fault::NoRow),
    };
    written(pushed)
}
