//! The printed form of a program.

ghost use Rattle.std.specs.Prelude.{◌≡◌, ◌++◌, [], IfErr, IfOk, OnOk, codes, map, option_map, slice_get, unwrap_or};
ghost use Rattle.std.specs.Fmt.{decimal, signed_decimal};
ghost use Rattle.std.specs.Option.{option_copied};
ghost use Rattle.std.specs.String.{string_bytes};
ghost use Rattle.litmus_syntax.specs.PrintedForm.{◌⧺◌, block_text, condition_line, continued, declaration, declarations, initial_text, initialization_line, item_text};
ghost use Rattle.litmus_syntax.specs.PrintedForm.{items_text, listed, name_line, parameter_text, parameter_texts, printed, proposition_text, task_text};
ghost use Rattle.litmus_syntax.specs.PrintedForm.{tasks_text};
ghost use Rattle.litmus_syntax.specs.PrintedForm as spec;
ghost use Rattle.litmus_syntax.specs.Views.{block_of, program_of, proposition_of, task_of};

use crate::expression::{append, append_between, name_of, variable_of};
use crate::scope::Scope;
use crate::statement::append_block;
use litmus_syntax::{Contents, Name, ParseError, Program, Proposition, Statement, Task, Variable};
use std::alloc::{AllocError, Global};
use std::fmt::Write;

/// The initial value of a variable; a lock has none.
fn initial_of(contents: Contents) -> Option<i64>
    ensures { initial_text contents
        ≡ unwrap_or (option_map (λ initial. codes " = " ++ signed_decimal initial) result) [] }
{
    match contents {
        Contents::Char(initial) => Some(i64::from(initial)),
        Contents::Short(initial) => Some(i64::from(initial)),
        Contents::Int(initial) => Some(i64::from(initial)),
        Contents::Long(initial) => Some(initial),
        Contents::Atomic(initial) => Some(i64::from(initial)),
        Contents::Lock => None,
    }
}

/// Appends the initial value of a variable, and what ends the variable; a lock has none.
fn append_initial(text: &mut String, contents: Contents) -> Result<(), AllocError>
    ensures { OnOk result
        (string_bytes text.new ≡ string_bytes text.old
        ++ (initial_text contents ⧺ codes ";")) }
{
    match initial_of(contents) {
        Some(initial) => write!(text, " = {initial};"),
        None => append(text, ";"),
    }
}

/// Appends a variable of the initialization block.
fn append_item(text: &mut String, variable: &Variable) -> Result<(), AllocError>
    ensures { OnOk result
        (string_bytes text.new ≡ string_bytes text.old ++ item_text variable.now) }
{
    append_between(text, " ", variable.contents.type_name(), " ")?;
    append(text, variable.name.as_str())?;
    append_initial(text, variable.contents)
}

/// Appends the variables of the initialization block.
fn append_items(text: &mut String, variables: &[Variable]) -> Result<(), AllocError>
    ensures { OnOk result
        (string_bytes text.new ≡ string_bytes text.old ++ items_text variables.now) }
{
    for variable in variables {
        append_item(text, variable)?;
    }
    Ok(())
}

/// The variable of a number, if it is there.
fn variable_at(variables: &[Variable], number: usize) -> Option<&Variable>
    ensures { option_copied result ≡ slice_get variables.now number }
{
    variables.get(number)
}

/// Appends a parameter; a variable that isn't there has an empty text.
fn append_parameter(
    text: &mut String,
    variables: &[Variable],
    number: usize,
) -> Result<(), AllocError>
    ensures { OnOk result
        (string_bytes text.new ≡ string_bytes text.old ++ parameter_text variables.now number) }
{
    match variable_at(variables, number) {
        Some(variable) => {
            let name = variable.name.as_str();
            append_between(text, variable.contents.type_name(), " *", name)
        }
        None => Ok(()),
    }
}

/// Appends parameters after others.
fn append_more_parameters(
    text: &mut String,
    variables: &[Variable],
    numbers: &[usize],
) -> Result<(), AllocError>
    ensures { OnOk result
        (string_bytes text.new ≡ string_bytes text.old
        ++ continued (parameter_texts variables.now numbers.now)) }
{
    for number in numbers {
        append(text, ", ")?;
        append_parameter(text, variables, *number)?;
    }
    Ok(())
}

/// Appends the parameters of a task.
fn append_parameters(
    text: &mut String,
    variables: &[Variable],
    numbers: &[usize],
) -> Result<(), AllocError>
    ensures { OnOk result
        (string_bytes text.new ≡ string_bytes text.old
        ++ listed (parameter_texts variables.now numbers.now)) }
{
    match numbers.split_first() {
        Some((first, more)) => {
            append_parameter(text, variables, *first)?;
            append_more_parameters(text, variables, more)
        }
        None => Ok(()),
    }
}

/// Appends a line for each register.
fn append_declarations(text: &mut String, registers: &[Name]) -> Result<(), AllocError>
    ensures { OnOk result
        (string_bytes text.new ≡ string_bytes text.old ++ declarations registers.now) }
{
    for register in registers {
        append_declaration(text, register.as_str())?;
    }
    Ok(())
}

/// Appends the line of a register.
fn append_declaration(text: &mut String, name: &str) -> Result<(), AllocError>
    ensures { OnOk result (string_bytes text.new ≡ string_bytes text.old ++ declaration name.now) }
{
    write!(text, "\tint {name};\n")
}

/// Appends the first lines of a task: its number and its parameters.
fn append_head(
    text: &mut String,
    variables: &[Variable],
    number: usize,
    parameters: &[usize],
) -> Result<(), AllocError>
    ensures { OnOk result
        (string_bytes text.new ≡ string_bytes text.old
        ++ (codes "P" ⧺ decimal number
        ⧺ codes "(" ⧺ listed (parameter_texts variables.now parameters.now) ⧺ codes ")\n{\n")) }
{
    write!(text, "P{number}(")?;
    append_parameters(text, variables, parameters)?;
    append(text, ")\n{\n")
}

/// Appends the lines of a task: its registers and its statements.
fn append_lines(text: &mut String, scope: Scope<'_>, block: &[Statement]) -> Result<(), AllocError>
    ensures { OnOk result
        (string_bytes text.new ≡ string_bytes text.old
        ++ (declarations scope.entry.registers.now
        ⧺ block_text scope.entry.variables.now scope.entry.registers.now
        (codes "\t") (block_of block.now) ⧺ codes "}\n")) }
{
    append_declarations(text, scope.registers)?;
    append_block(text, scope, "\t", block)?;
    append(text, "}\n")
}

/// Appends a task of a number.
fn append_task(
    alloc: Global,
    text: &mut String,
    variables: &[Variable],
    number: usize,
    task: &Task,
) -> Result<(), AllocError>
    ensures { OnOk result
        (string_bytes text.new ≡ string_bytes text.old
        ++ task_text variables.now number (task_of task.now)) }
{
    let scope = Scope {
        alloc,
        variables,
        registers: task.registers.as_slice(),
    };
    append_head(text, variables, number, task.parameters.as_slice())?;
    append_lines(text, scope, task.body.as_slice())
}

/// Appends the tasks.
fn append_tasks(
    alloc: Global,
    text: &mut String,
    variables: &[Variable],
    tasks: &[Task],
) -> Result<(), AllocError>
    ensures { OnOk result
        (string_bytes text.new ≡ string_bytes text.old
        ++ tasks_text variables.now 0 (map task_of tasks.now)) }
{
    for (number, task) in tasks.iter().enumerate() {
        append_task(alloc, text, variables, number, task)?;
    }
    Ok(())
}

/// The names of the registers of a task; a task that isn't there has none.
fn registers_of(tasks: &[Task], number: usize) -> &[Name]
    ensures { result.now ≡ spec.registers_of (map task_of tasks.now) number }
{
    match tasks.get(number) {
        Some(task) => task.registers.as_slice(),
        None => &[],
    }
}

/// Appends that a register has a value.
fn append_register(text: &mut String, task: usize, name: &str, value: u64) -> Result<(), AllocError>
    ensures { OnOk result
        (string_bytes text.new ≡ string_bytes text.old
        ++ (decimal task ⧺ codes ":" ⧺ name.now ⧺ codes "=" ⧺ decimal value)) }
{
    write!(text, "{task}:{name}={value}")
}

/// Appends that a variable has a value.
fn append_variable(text: &mut String, name: &str, value: u64) -> Result<(), AllocError>
    ensures { OnOk result
        (string_bytes text.new ≡ string_bytes text.old
        ++ (name.now ⧺ codes "=" ⧺ decimal value)) }
{
    write!(text, "{name}={value}")
}

/// Appends a proposition.
#[cycle(proposition)]
fn append_proposition(
    text: &mut String,
    variables: &[Variable],
    tasks: &[Task],
    proposition: &Proposition,
) -> Result<(), AllocError>
    ensures { OnOk result
        (string_bytes text.new ≡ string_bytes text.old
        ++ proposition_text variables.now (map task_of tasks.now)
        (proposition_of proposition.now)) }
{
    match proposition {
        Proposition::True => append(text, "true"),
        Proposition::False => append(text, "false"),
        Proposition::Register {
            task,
            register,
            value,
        } => {
            let name = name_of(registers_of(tasks, *task), *register);
            append_register(text, *task, name, *value)
        }
        Proposition::Variable { variable, value } => {
            let name = variable_of(variables, *variable);
            append_variable(text, name, *value)
        }
        Proposition::Not(inner) => {
            append(text, "(~")?;
            append_closed(text, variables, tasks, inner)
        }
        Proposition::And(left, right) => {
            append_opened(text, variables, tasks, left, " /\\ ")?;
            append_closed(text, variables, tasks, right)
        }
        Proposition::Or(left, right) => {
            append_opened(text, variables, tasks, left, " \\/ ")?;
            append_closed(text, variables, tasks, right)
        }
    }
}

/// Appends the left part of a proposition, with what opens it and with a sign after it.
#[cycle(proposition)]
fn append_opened(
    text: &mut String,
    variables: &[Variable],
    tasks: &[Task],
    left: &Proposition,
    sign: &str,
) -> Result<(), AllocError>
    ensures { OnOk result
        (string_bytes text.new ≡ string_bytes text.old
        ++ (codes "(" ⧺ proposition_text variables.now (map task_of tasks.now)
        (proposition_of left.now) ⧺ sign.now)) }
{
    append(text, "(")?;
    append_proposition(text, variables, tasks, left)?;
    append(text, sign)
}

/// Appends the last part of a proposition, and what closes it.
#[cycle(proposition)]
fn append_closed(
    text: &mut String,
    variables: &[Variable],
    tasks: &[Task],
    last: &Proposition,
) -> Result<(), AllocError>
    ensures { OnOk result
        (string_bytes text.new ≡ string_bytes text.old
        ++ (proposition_text variables.now (map task_of tasks.now)
        (proposition_of last.now) ⧺ codes ")")) }
{
    append_proposition(text, variables, tasks, last)?;
    append(text, ")")
}

/// Appends the first line, with the test's name.
fn append_name(text: &mut String, name: &str) -> Result<(), AllocError>
    ensures { OnOk result (string_bytes text.new ≡ string_bytes text.old ++ name_line name.now) }
{
    write!(text, "C {name}\n")
}

/// Appends the initialization block.
fn append_initialization(text: &mut String, variables: &[Variable]) -> Result<(), AllocError>
    ensures { OnOk result
        (string_bytes text.new ≡ string_bytes text.old ++ initialization_line variables.now) }
{
    append(text, "{")?;
    append_items(text, variables)?;
    append(text, " }\n")
}

/// Appends the last line of the printed form: the condition.
pub fn append_condition(text: &mut String, program: &Program) -> Result<(), AllocError>
    ensures { OnOk result
        (string_bytes text.new ≡ string_bytes text.old
        ++ condition_line program.now.quantifier
        (proposition_text program.now.variables (map task_of program.now.tasks)
        (proposition_of program.now.condition))) }
{
    let variables = program.variables.as_slice();
    let tasks = program.tasks.as_slice();
    append_between(text, program.quantifier.text(), " ", "")?;
    append_proposition(text, variables, tasks, &program.condition)?;
    append(text, "\n")
}

/// Appends the whole printed form.
fn append_program(alloc: Global, text: &mut String, program: &Program) -> Result<(), AllocError>
    ensures { OnOk result
        (string_bytes text.new ≡ string_bytes text.old ++ printed (program_of program.now)) }
{
    let variables = program.variables.as_slice();
    append_name(text, program.name.as_str())?;
    append_initialization(text, variables)?;
    append_tasks(alloc, text, variables, program.tasks.as_slice())?;
    append_condition(text, program)?;
    Ok(())
}

/// The printed form of a program. It is refused for want of memory alone.
pub fn print(alloc: Global, program: &Program) -> Result<String, ParseError>
    ensures printed { IfOk result (λ text. string_bytes text ≡ printed (program_of program.now)) }
    ensures refused { IfErr result (λ error. error ≡ ParseError.OutOfMemory) }
{
    let mut text = String::new(alloc);
    append_program(alloc, &mut text, program)?;
    Ok(text)
}
