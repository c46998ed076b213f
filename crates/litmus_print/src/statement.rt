//! Statements, appended to a text line by line.

ghost use Rattle.std.specs.Prelude.{◌≡◌, ◌++◌, [], IfOk, OnOk, codes, option_map, unwrap_or};
ghost use Rattle.std.specs.Fmt.{decimal};
ghost use Rattle.std.specs.String.{string_bytes};
ghost use Rattle.litmus_syntax.specs.PrintedForm.{◌⧺◌, assign_text, assignment_text, block_text, call_text, check_function, expression_text, for_head};
ghost use Rattle.litmus_syntax.specs.PrintedForm.{if_head, line, load_text, mark_text, name_at, scope_suffix, statement_text, write_text};
ghost use Rattle.litmus_syntax.specs.Views.{assignment_of, block_of, expression_of, load_of, statement_of};

use crate::expression::{
    append, append_between, append_expression, append_load, append_number, append_value_first,
    append_valued, name_of, variable_of,
};
use crate::scope::Scope;
use litmus_syntax::{
    Assignment, Call, Expression, Load, Mark, Name, Statement, Variable, WriteForm,
};
use std::alloc::{AllocError, Global};
use std::fmt::Write;

/// What stands before, between and after a variable and the value that is written to it.
fn write_words(form: WriteForm) -> (&'static str, &'static str, &'static str)
    ensures { (name : _) → (value : _) → write_text form name value
        ≡ result.0.now ⧺ name ⧺ result.1.now ⧺ value ⧺ result.2.now }
{
    match form {
        WriteForm::Plain => ("*", " = ", ""),
        WriteForm::Once => ("WRITE_ONCE(*", ", ", ")"),
        WriteForm::Release => ("smp_store_release(", ", ", ")"),
        WriteForm::Atomic => ("atomic_set(", ", ", ")"),
    }
}

/// Appends an assignment to a register.
fn append_to_register(
    text: &mut String,
    scope: Scope<'_>,
    register: usize,
    value: &Expression,
) -> Result<(), AllocError>
    ensures { OnOk result
        (string_bytes text.new ≡ string_bytes text.old
        ++ (name_at scope.entry.registers.now register ⧺ codes " = "
        ⧺ expression_text scope.entry.variables.now scope.entry.registers.now
        (expression_of value.now))) }
{
    append_between(text, name_of(scope.registers, register), " = ", "")?;
    append_expression(text, scope, value)
}

/// Appends an assignment.
fn append_assignment(
    text: &mut String,
    scope: Scope<'_>,
    assignment: &Assignment,
) -> Result<(), AllocError>
    ensures { OnOk result
        (string_bytes text.new ≡ string_bytes text.old
        ++ assignment_text scope.entry.variables.now scope.entry.registers.now
        (assignment_of assignment.now)) }
{
    match assignment {
        Assignment::Register { register, value } => {
            append_to_register(text, scope, *register, value)
        }
        Assignment::Write {
            form,
            variable,
            value,
        } => {
            let name = variable_of(scope.variables, *variable);
            append_valued(text, scope.registers, write_words(*form), name, value)
        }
        Assignment::Add { variable, value } => {
            let name = variable_of(scope.variables, *variable);
            append_valued(text, scope.registers, ("*", " += ", ""), name, value)
        }
        Assignment::Increment { variable } => {
            append_between(text, "(*", variable_of(scope.variables, *variable), ")++")
        }
        Assignment::AtomicAdd { value, variable } => {
            let name = variable_of(scope.variables, *variable);
            append_value_first(
                text,
                scope.registers,
                ("atomic_add(", ", ", ")"),
                value,
                name,
            )
        }
        Assignment::AtomicIncrement { variable } => append_between(
            text,
            "atomic_inc(",
            variable_of(scope.variables, *variable),
            ")",
        ),
        Assignment::AtomicDecrement { variable } => append_between(
            text,
            "atomic_dec(",
            variable_of(scope.variables, *variable),
            ")",
        ),
    }
}

/// What stands before and after an assignment, inside `data_race( )` or not.
fn race_words(data_race: bool) -> (&'static str, &'static str)
    ensures { (text : _) → assign_text data_race text ≡ result.0.now ⧺ text ⧺ result.1.now }
{
    if data_race {
        ("data_race(", ")")
    } else {
        ("", "")
    }
}

/// What a mark is called, up to its count, and the count.
fn mark_words(mark: Mark) -> (&'static str, Option<u64>)
    ensures { mark_text mark
        ≡ result.0.now ⧺ unwrap_or (option_map decimal result.1) [] ⧺ codes ")" }
{
    match mark {
        Mark::Disable => ("kcsan_disable_current(", None),
        Mark::Enable => ("kcsan_enable_current(", None),
        Mark::NestOpen => ("kcsan_nestable_atomic_begin(", None),
        Mark::NestClose => ("kcsan_nestable_atomic_end(", None),
        Mark::FlatBegin => ("kcsan_flat_atomic_begin(", None),
        Mark::FlatEnd => ("kcsan_flat_atomic_end(", None),
        Mark::Next(count) => ("kcsan_atomic_next(", Some(count)),
    }
}

/// Appends a mark.
fn append_mark(text: &mut String, mark: Mark) -> Result<(), AllocError>
    ensures { OnOk result (string_bytes text.new ≡ string_bytes text.old ++ mark_text mark) }
{
    let (name, count) = mark_words(mark);
    match count {
        Some(count) => append_number(text, name, count, ")"),
        None => append_between(text, name, "", ")"),
    }
}

/// What stands before the variable of an assertion that no other task writes.
fn writer_words(scoped: bool) -> &'static str
    ensures { result.now ≡ codes "ASSERT_EXCLUSIVE_WRITER" ⧺ scope_suffix scoped ⧺ codes "(*" }
{
    if scoped {
        "ASSERT_EXCLUSIVE_WRITER_SCOPED(*"
    } else {
        "ASSERT_EXCLUSIVE_WRITER(*"
    }
}

/// What stands before the variable of an assertion that no other task accesses.
fn access_words(scoped: bool) -> &'static str
    ensures { result.now ≡ codes "ASSERT_EXCLUSIVE_ACCESS" ⧺ scope_suffix scoped ⧺ codes "(*" }
{
    if scoped {
        "ASSERT_EXCLUSIVE_ACCESS_SCOPED(*"
    } else {
        "ASSERT_EXCLUSIVE_ACCESS(*"
    }
}

/// What stands before the variable of a check.
fn check_words(write: bool) -> &'static str
    ensures { result.now ≡ check_function write ++ codes "(" }
{
    if write {
        "kcsan_check_write("
    } else {
        "kcsan_check_read("
    }
}

/// Appends a call with a variable and a number.
fn append_numbered(
    text: &mut String,
    before: &str,
    name: &str,
    number: u64,
) -> Result<(), AllocError>
    ensures { OnOk result
        (string_bytes text.new ≡ string_bytes text.old
        ++ (before.now ⧺ name.now ⧺ codes ", " ⧺ decimal number ⧺ codes ")")) }
{
    write!(text, "{before}{name}, {number})")
}

/// Appends a call.
fn append_call(text: &mut String, variables: &[Variable], call: Call) -> Result<(), AllocError>
    ensures { OnOk result
        (string_bytes text.new ≡ string_bytes text.old ++ call_text variables.now call) }
{
    match call {
        Call::Barrier(barrier) => append_between(text, barrier.name(), "()", ""),
        Call::Lock { variable } => {
            append_between(text, "spin_lock(", variable_of(variables, variable), ")")
        }
        Call::Unlock { variable } => {
            append_between(text, "spin_unlock(", variable_of(variables, variable), ")")
        }
        Call::AssertWriter { variable, scoped } => {
            let name = variable_of(variables, variable);
            append_between(text, writer_words(scoped), name, ")")
        }
        Call::AssertAccess { variable, scoped } => {
            let name = variable_of(variables, variable);
            append_between(text, access_words(scoped), name, ")")
        }
        Call::AssertBits { variable, mask } => {
            let name = variable_of(variables, variable);
            append_numbered(text, "ASSERT_EXCLUSIVE_BITS(*", name, mask)
        }
        Call::Mark(mark) => append_mark(text, mark),
        Call::Check {
            write,
            variable,
            size,
        } => {
            let name = variable_of(variables, variable);
            append_numbered(text, check_words(write), name, size)
        }
    }
}

/// Appends a line behind tabs.
fn append_line(text: &mut String, tabs: &str, content: &str) -> Result<(), AllocError>
    ensures { OnOk result
        (string_bytes text.new ≡ string_bytes text.old ++ line tabs.now content.now) }
{
    append_between(text, tabs, content, "\n")
}

/// Appends the line of a load.
fn append_load_line(
    text: &mut String,
    scope: Scope<'_>,
    tabs: &str,
    load: &Load,
) -> Result<(), AllocError>
    ensures { OnOk result
        (string_bytes text.new ≡ string_bytes text.old
        ++ line tabs.now (load_text scope.entry.variables.now scope.entry.registers.now
        (load_of load.now) ++ codes ";")) }
{
    append(text, tabs)?;
    append_load(text, scope, load)?;
    append(text, ";\n")
}

/// Appends the line of an assignment, inside `data_race( )` or not.
fn append_assignment_line(
    text: &mut String,
    scope: Scope<'_>,
    tabs: &str,
    data_race: bool,
    assignment: &Assignment,
) -> Result<(), AllocError>
    ensures { OnOk result
        (string_bytes text.new ≡ string_bytes text.old
        ++ line tabs.now (assign_text data_race
        (assignment_text scope.entry.variables.now scope.entry.registers.now
        (assignment_of assignment.now)) ++ codes ";")) }
{
    let (before, after) = race_words(data_race);
    append_between(text, tabs, before, "")?;
    append_assignment(text, scope, assignment)?;
    append_between(text, after, ";\n", "")
}

/// Appends the line of a call.
fn append_call_line(
    text: &mut String,
    variables: &[Variable],
    tabs: &str,
    call: Call,
) -> Result<(), AllocError>
    ensures { OnOk result
        (string_bytes text.new ≡ string_bytes text.old
        ++ line tabs.now (call_text variables.now call ++ codes ";")) }
{
    append(text, tabs)?;
    append_call(text, variables, call)?;
    append(text, ";\n")
}

/// Appends the first line of an `if`.
fn append_if(
    text: &mut String,
    scope: Scope<'_>,
    tabs: &str,
    condition: &Expression,
) -> Result<(), AllocError>
    ensures { OnOk result
        (string_bytes text.new ≡ string_bytes text.old
        ++ line tabs.now (if_head
        (expression_text scope.entry.variables.now scope.entry.registers.now
        (expression_of condition.now)))) }
{
    append_between(text, tabs, "if (", "")?;
    append_expression(text, scope, condition)?;
    append(text, ") {\n")
}

/// Appends the first line of a loop.
fn append_for(
    text: &mut String,
    registers: &[Name],
    tabs: &str,
    register: usize,
    turns: u64,
) -> Result<(), AllocError>
    ensures { OnOk result
        (string_bytes text.new ≡ string_bytes text.old
        ++ line tabs.now (for_head (name_at registers.now register) turns)) }
{
    let name = name_of(registers, register);
    write!(
        text,
        "{tabs}for ({name} = 0; {name} < {turns}; {name}++) {{\n"
    )
}

/// One tab more.
fn deeper(alloc: Global, tabs: &str) -> Result<String, AllocError>
    ensures { IfOk result (λ text. string_bytes text ≡ tabs.now ++ codes "\t") }
{
    let mut text = String::new(alloc);
    let done = append_between(&mut text, tabs, "\t", "");
    match done {
        Ok(()) => Ok(text),
        Err(error) => {
            // By a call: where the end drops it, the proof follows the drop of all that is in it.
            drop(text);
            Err(error)
        }
    }
}

/// Appends the lines of a statement, behind a tab for each open block.
#[cycle(block)]
fn append_statement(
    text: &mut String,
    scope: Scope<'_>,
    tabs: &str,
    statement: &Statement,
) -> Result<(), AllocError>
    ensures { OnOk result
        (string_bytes text.new ≡ string_bytes text.old
        ++ statement_text scope.entry.variables.now scope.entry.registers.now
        tabs.now (statement_of statement.now)) }
{
    match statement {
        Statement::Load(load) => append_load_line(text, scope, tabs, load),
        Statement::Assign {
            data_race,
            assignment,
        } => append_assignment_line(text, scope, tabs, *data_race, assignment),
        Statement::Call(call) => append_call_line(text, scope.variables, tabs, *call),
        Statement::If { condition, body } => {
            append_if(text, scope, tabs, condition)?;
            append_closed(text, scope, tabs, body.as_slice())
        }
        Statement::IfElse {
            condition,
            body,
            otherwise,
        } => {
            append_if(text, scope, tabs, condition)?;
            append_inner(text, scope, tabs, body.as_slice())?;
            append_line(text, tabs, "} else {")?;
            append_closed(text, scope, tabs, otherwise.as_slice())
        }
        Statement::For {
            register,
            turns,
            body,
        } => {
            append_for(text, scope.registers, tabs, *register, *turns)?;
            append_closed(text, scope, tabs, body.as_slice())
        }
    }
}

/// Appends the lines of a block behind one more tab, and the line that closes it.
#[cycle(block)]
fn append_closed(
    text: &mut String,
    scope: Scope<'_>,
    tabs: &str,
    block: &[Statement],
) -> Result<(), AllocError>
    ensures { OnOk result
        (string_bytes text.new ≡ string_bytes text.old
        ++ (block_text scope.entry.variables.now scope.entry.registers.now
        (tabs.now ++ codes "\t") (block_of block.now) ⧺ line tabs.now (codes "}"))) }
{
    append_inner(text, scope, tabs, block)?;
    append_line(text, tabs, "}")
}

/// Appends the lines of a block behind one more tab.
#[cycle(block)]
fn append_inner(
    text: &mut String,
    scope: Scope<'_>,
    tabs: &str,
    block: &[Statement],
) -> Result<(), AllocError>
    ensures { OnOk result
        (string_bytes text.new ≡ string_bytes text.old
        ++ block_text scope.entry.variables.now scope.entry.registers.now
        (tabs.now ++ codes "\t") (block_of block.now)) }
{
    let inner = deeper(scope.alloc, tabs)?;
    let done = append_block(text, scope, inner.as_str(), block);
    // By a call: where the end drops it, the proof follows the drop of all that is in it.
    drop(inner);
    done
}

/// Appends the lines of a block, behind a tab for each open block.
#[cycle(block)]
pub fn append_block(
    text: &mut String,
    scope: Scope<'_>,
    tabs: &str,
    block: &[Statement],
) -> Result<(), AllocError>
    ensures { OnOk result
        (string_bytes text.new ≡ string_bytes text.old
        ++ block_text scope.entry.variables.now scope.entry.registers.now
        tabs.now (block_of block.now)) }
{
    for statement in block {
        append_statement(text, scope, tabs, statement)?;
    }
    Ok(())
}
