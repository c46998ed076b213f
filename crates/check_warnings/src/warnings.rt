//! What `check` warns of in a text that is read: text in its head that is passed over, tokens that C reads otherwise,
//! registers that are 0 all the time, registers that have the name of a variable, and variables that are compared with a
//! number that they never are.

ghost use Rattle.std.specs.Prelude.{◌≡◌, ◌≤◌, IfOk, IfSome, length, map};
ghost use Rattle.std.specs.Option.{option_map};
ghost use Rattle.litmus_syntax.specs.Views.{block_of, program_of, proposition_of, task_of};
ghost use Rattle.check_warnings.specs.Warnings as spec;
ghost use Rattle.check_warnings.specs.Warnings.{AreWarningsOf};

use crate::comparisons::compared_lines;
use crate::head_text::passed_text;
use crate::other_readings::{placed_line, tokens_lines};
use crate::registers::{Role, role_of};
use crate::same_names::{named, same_name_words};
use litmus_syntax::{Name, Program, Proposition, Statement, Task, Variable};
use program_table::text_pieces::{joined, number, shown};
use std::alloc::{AllocError, Global};

/// A line on a register of a task, in a file of this name.
#[tactic(auto, unfolding(crate::specs::Warnings::register_line))]
fn register_line(
    alloc: Global,
    file: &[u8],
    task: usize,
    register: &[u8],
    words: &[u8],
) -> Result<Vec<u8>, AllocError>
    ensures { IfOk result (λ line. line.items ≡ spec.register_line file.now task register.now words.now) }
{
    let head = shown(alloc, file)?;
    let name = shown(alloc, register)?;
    let process = number(alloc, task)?;
    joined(
        alloc,
        &[&head, b": warning: `", &name, b"` of P", &process, words],
    )
}

/// The line on a register of a task, in a file of this name, whose name this variable has.
#[tactic(auto, unfolding(crate::specs::Warnings::same_name_line))]
fn same_name_line(
    alloc: Global,
    file: &[u8],
    task: usize,
    variable: &Variable,
) -> Result<Vec<u8>, AllocError>
    ensures { IfOk result (λ line. line.items ≡ spec.same_name_line file.now task variable.now) }
{
    let words = same_name_words(alloc, task, variable)?;
    register_line(alloc, file, task, variable.name.as_str().as_bytes(), &words)
}

/// The warning on a register of a task that a statement assigns, beside the variable of its name, if the program has one.
#[tactic(auto, unfolding(crate::specs::Warnings::assigned_warning))]
fn assigned_warning(
    alloc: Global,
    file: &[u8],
    task: usize,
    variable: Option<&Variable>,
) -> Result<Vec<u8>, AllocError>
    ensures { IfOk result (λ line. line.items
        ≡ spec.assigned_warning file.now task (option_map (λ variable. variable.now) variable.entry)) }
{
    match variable {
        Some(variable) => same_name_line(alloc, file, task, variable),
        None => Ok(Vec::new(alloc)),
    }
}

/// The warning on a register of a task that a statement reads and none assigns, beside the variable of its name.
#[tactic(auto, unfolding(crate::specs::Warnings::read_warning))]
fn read_warning(
    alloc: Global,
    file: &[u8],
    task: usize,
    register: &[u8],
    variable: Option<&Variable>,
) -> Result<Vec<u8>, AllocError>
    ensures { IfOk result (λ line. line.items
        ≡ spec.read_warning file.now task register.now (option_map (λ variable. variable.now) variable.entry)) }
{
    match variable {
        Some(variable) => same_name_line(alloc, file, task, variable),
        None => register_line(
            alloc,
            file,
            task,
            register,
            b" is read and never assigned: it is 0\n",
        ),
    }
}

/// The warning on a register of a task that is this, beside the variable of its name.
#[tactic(auto, unfolding(crate::specs::Warnings::warning_of))]
fn warning_of(
    alloc: Global,
    file: &[u8],
    task: usize,
    register: &[u8],
    variable: Option<&Variable>,
    role: Role,
) -> Result<Vec<u8>, AllocError>
    ensures { IfOk result (λ line. line.items
        ≡ spec.warning_of file.now task register.now (option_map (λ variable. variable.now) variable.entry) role) }
{
    match role {
        Role::Assigned => assigned_warning(alloc, file, task, variable),
        Role::Read => read_warning(alloc, file, task, register, variable),
        Role::Named => register_line(
            alloc,
            file,
            task,
            register,
            b" is named by the condition, and no statement reads or assigns it: it is 0\n",
        ),
        Role::Unused => Ok(Vec::new(alloc)),
    }
}

/// The warnings on the registers of a task with this body.
fn registers_lines(
    alloc: Global,
    file: &[u8],
    task: usize,
    body: &[Statement],
    program: &Program,
    registers: &[Name],
) -> Result<Vec<u8>, AllocError>
    ensures { IfOk result (λ lines. lines.items
        ≡ spec.registers_from file.now program.now.variables (proposition_of program.now.condition) task (block_of body.now) 0 registers.now) }
{
    let mut lines = Vec::new(alloc);
    for (number, register) in registers.iter().enumerate() {
        let role = role_of(task, number, body, &program.condition);
        let variable = named(program.variables.as_slice(), register);
        let name = register.as_str().as_bytes();
        let line = warning_of(alloc, file, task, name, variable, role)?;
        lines.extend_from_slice(&line)?;
    }
    Ok(lines)
}

/// The warnings on the registers of a task of this number.
fn task_lines(
    alloc: Global,
    file: &[u8],
    number: usize,
    task: &Task,
    program: &Program,
) -> Result<Vec<u8>, AllocError>
    ensures { IfOk result (λ lines. lines.items
        ≡ spec.registers_from file.now program.now.variables (proposition_of program.now.condition)
        number (block_of task.now.body.items) 0 task.now.registers) }
{
    let body = task.body.as_slice();
    let registers = task.registers.as_slice();
    registers_lines(alloc, file, number, body, program, registers)
}

/// The warnings on the registers of tasks.
fn tasks_lines(
    alloc: Global,
    file: &[u8],
    tasks: &[Task],
    program: &Program,
) -> Result<Vec<u8>, AllocError>
    ensures { IfOk result (λ lines. lines.items
        ≡ spec.tasks_from file.now program.now.variables (proposition_of program.now.condition) 0 (map task_of tasks.now)) }
{
    let mut lines = Vec::new(alloc);
    for (number, task) in tasks.iter().enumerate() {
        let own = task_lines(alloc, file, number, task, program)?;
        lines.extend_from_slice(&own)?;
    }
    Ok(lines)
}

/// The warnings on a program, in a file of this name: a line for each register that has the name of a variable and
/// stands in a statement, and for each other one that no statement of its process assigns, and that one reads or the
/// condition names; then one for each variable that is compared with a number that it never is.
#[tactic(auto, unfolding(crate::specs::Warnings::program_lines))]
fn program_lines(alloc: Global, file: &[u8], program: &Program) -> Result<Vec<u8>, AllocError>
    ensures { IfOk result (λ lines. lines.items ≡ spec.program_lines file.now (program_of program.now)) }
{
    let mut lines = tasks_lines(alloc, file, program.tasks.as_slice(), program)?;
    let others = compared_lines(alloc, file, program)?;
    lines.extend_from_slice(&others)?;
    Ok(lines)
}

/// The warning on text at this place of a head, in a file of this name, or nothing.
#[tactic(auto, unfolding(crate::specs::Warnings::head_line))]
fn head_line(
    alloc: Global,
    file: &[u8],
    text: &[u8],
    found: Option<usize>,
) -> Result<Vec<u8>, AllocError>
    requires { IfSome found (λ at. at ≤ length text.now) }
    ensures { IfOk result (λ line. line.items ≡ spec.head_line file.now text.now found) }
{
    let Some(at) = found else {
        return Ok(Vec::new(alloc));
    };
    placed_line(
        alloc,
        file,
        text,
        at,
        b": warning: text before the `{` is passed over\n",
    )
}

/// The warnings on a text that spells a program, in a file of this name: first that on text in its head, then those on
/// tokens that C reads otherwise, then those on registers of the program, then those on its variables.
pub fn text_warnings(
    alloc: Global,
    file: &[u8],
    text: &[u8],
    program: &Program,
) -> Result<Vec<u8>, AllocError>
    ensures { IfOk result (λ lines. AreWarningsOf file.now text.now (program_of program.now) lines.items) }
{
    let mut lines = head_line(alloc, file, text, passed_text(text))?;
    let readings = tokens_lines(alloc, file, text)?;
    lines.extend_from_slice(&readings)?;
    let others = program_lines(alloc, file, program)?;
    lines.extend_from_slice(&others)?;
    Ok(lines)
}
