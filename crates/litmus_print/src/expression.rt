//! Expressions, appended to a text.

ghost use Rattle.std.specs.Prelude.{◌≡◌, ◌++◌, OnOk, codes};
ghost use Rattle.std.specs.Fmt.{decimal};
ghost use Rattle.std.specs.String.{string_bytes};
ghost use Rattle.litmus_syntax.specs.PrintedForm.{◌⧺◌, expression_text, fetch_text, load_text, loading_text, name_at, pure_text, read_text, repeated, variable_name};
ghost use Rattle.litmus_syntax.specs.Views.{expression_of, fetch_of, load_of, loading_of, pure_of};

use crate::scope::Scope;
use litmus_syntax::{Expression, Fetch, Load, Loading, Name, Pure, ReadForm, Variable};
use std::alloc::AllocError;
use std::fmt::Write;

/// Appends a text.
pub fn append(text: &mut String, part: &str) -> Result<(), AllocError>
    ensures { OnOk result (string_bytes text.new ≡ string_bytes text.old ++ part.now) }
{
    text.push_str(part)
}

/// Appends a part so many times.
fn append_repeated(text: &mut String, count: u64, part: &str) -> Result<(), AllocError>
    ensures { OnOk result
        (string_bytes text.new ≡ string_bytes text.old ++ repeated count part.now) }
{
    for _turn in 0..count {
        append(text, part)?;
    }
    Ok(())
}

/// Appends a part between two others.
pub fn append_between(
    text: &mut String,
    before: &str,
    part: &str,
    after: &str,
) -> Result<(), AllocError>
    ensures { OnOk result
        (string_bytes text.new ≡ string_bytes text.old
        ++ (before.now ⧺ part.now ⧺ after.now)) }
{
    write!(text, "{before}{part}{after}")
}

/// Appends a number between two parts.
pub fn append_number(
    text: &mut String,
    before: &str,
    number: u64,
    after: &str,
) -> Result<(), AllocError>
    ensures { OnOk result
        (string_bytes text.new ≡ string_bytes text.old
        ++ (before.now ⧺ decimal number ⧺ after.now)) }
{
    write!(text, "{before}{number}{after}")
}

/// The name of a number; one that isn't there has an empty name.
pub fn name_of(names: &[Name], number: usize) -> &str
    ensures { result.now ≡ name_at names.now number }
{
    match names.get(number) {
        Some(name) => name.as_str(),
        None => "",
    }
}

/// The name of a variable; one that isn't there has an empty name.
pub fn variable_of(variables: &[Variable], number: usize) -> &str
    ensures { result.now ≡ variable_name variables.now number }
{
    match variables.get(number) {
        Some(variable) => variable.name.as_str(),
        None => "",
    }
}

/// Appends an expression without a load.
pub fn append_pure(text: &mut String, registers: &[Name], pure: &Pure) -> Result<(), AllocError>
    ensures { OnOk result
        (string_bytes text.new ≡ string_bytes text.old
        ++ pure_text registers.now (pure_of pure.now)) }
{
    match pure {
        Pure::Number(number) => append_number(text, "", *number, ""),
        Pure::Register(register) => append(text, name_of(registers, *register)),
        // Each operator has its own parentheses, so that what is printed reads back as the same tree.
        Pure::Unary(operator, operand) => {
            append_between(text, "(", operator.sign(), "")?;
            append_pure(text, registers, operand)?;
            append(text, ")")
        }
        Pure::Binary(operator, left, right) => {
            append(text, "(")?;
            append_pure(text, registers, left)?;
            append_between(text, " ", operator.sign(), " ")?;
            append_pure(text, registers, right)?;
            append(text, ")")
        }
    }
}

/// Appends an expression without a load, and a part after it.
fn append_pure_before(
    text: &mut String,
    registers: &[Name],
    pure: &Pure,
    after: &str,
) -> Result<(), AllocError>
    ensures { OnOk result
        (string_bytes text.new ≡ string_bytes text.old
        ++ (pure_text registers.now (pure_of pure.now) ⧺ after.now)) }
{
    append_pure(text, registers, pure)?;
    append(text, after)
}

/// Appends a name and a value, with words before, between and after them.
pub fn append_valued(
    text: &mut String,
    registers: &[Name],
    words: (&str, &str, &str),
    name: &str,
    value: &Pure,
) -> Result<(), AllocError>
    ensures { OnOk result
        (string_bytes text.new ≡ string_bytes text.old
        ++ (words.entry.0.now ⧺ name.now ⧺ words.entry.1.now
        ⧺ pure_text registers.now (pure_of value.now) ⧺ words.entry.2.now)) }
{
    let (before, between, after) = words;
    append_between(text, before, name, between)?;
    append_pure_before(text, registers, value, after)
}

/// Appends a value and a name, with words before, between and after them.
pub fn append_value_first(
    text: &mut String,
    registers: &[Name],
    words: (&str, &str, &str),
    value: &Pure,
    name: &str,
) -> Result<(), AllocError>
    ensures { OnOk result
        (string_bytes text.new ≡ string_bytes text.old
        ++ (words.entry.0.now ⧺ pure_text registers.now (pure_of value.now)
        ⧺ words.entry.1.now ⧺ name.now ⧺ words.entry.2.now)) }
{
    let (before, between, after) = words;
    append(text, before)?;
    append_pure_before(text, registers, value, between)?;
    append_between(text, name, after, "")
}

/// What stands before and after the variable that is read.
fn read_words(form: ReadForm) -> (&'static str, &'static str)
    ensures { (name : _) → read_text form name ≡ result.0.now ⧺ name ⧺ result.1.now }
{
    match form {
        ReadForm::Plain => ("*", ""),
        ReadForm::Once => ("READ_ONCE(*", ")"),
        ReadForm::Acquire => ("smp_load_acquire(", ")"),
        ReadForm::Atomic => ("atomic_read(", ")"),
    }
}

/// Appends a read of a variable.
fn append_read(text: &mut String, form: ReadForm, name: &str) -> Result<(), AllocError>
    ensures { OnOk result
        (string_bytes text.new ≡ string_bytes text.old ++ read_text form name.now) }
{
    let (before, after) = read_words(form);
    append_between(text, before, name, after)
}

/// Appends a compare-exchange.
fn append_compare_exchange(
    text: &mut String,
    registers: &[Name],
    name: &str,
    expected: &Pure,
    replacement: &Pure,
) -> Result<(), AllocError>
    ensures { OnOk result
        (string_bytes text.new ≡ string_bytes text.old
        ++ (codes "cmpxchg(" ⧺ name.now ⧺ codes ", " ⧺ pure_text registers.now (pure_of expected.now)
        ⧺ codes ", " ⧺ pure_text registers.now (pure_of replacement.now) ⧺ codes ")")) }
{
    append_valued(text, registers, ("cmpxchg(", ", ", ", "), name, expected)?;
    append_pure_before(text, registers, replacement, ")")
}

/// Appends an exchange.
fn append_exchange(
    text: &mut String,
    registers: &[Name],
    name: &str,
    value: &Pure,
) -> Result<(), AllocError>
    ensures { OnOk result
        (string_bytes text.new ≡ string_bytes text.old
        ++ (codes "xchg(" ⧺ name.now
        ⧺ codes ", " ⧺ pure_text registers.now (pure_of value.now) ⧺ codes ")")) }
{
    append_valued(text, registers, ("xchg(", ", ", ")"), name, value)
}

/// Appends what a load does.
fn append_fetch(text: &mut String, scope: Scope<'_>, fetch: &Fetch) -> Result<(), AllocError>
    ensures { OnOk result
        (string_bytes text.new ≡ string_bytes text.old
        ++ fetch_text scope.entry.variables.now scope.entry.registers.now (fetch_of fetch.now)) }
{
    match fetch {
        Fetch::Read { form, variable } => {
            append_read(text, *form, variable_of(scope.variables, *variable))
        }
        Fetch::Exchange { variable, value } => {
            let name = variable_of(scope.variables, *variable);
            append_exchange(text, scope.registers, name, value)
        }
        Fetch::CompareExchange {
            variable,
            expected,
            replacement,
        } => {
            let name = variable_of(scope.variables, *variable);
            append_compare_exchange(text, scope.registers, name, expected, replacement)
        }
    }
}

/// Appends a load.
pub fn append_load(text: &mut String, scope: Scope<'_>, load: &Load) -> Result<(), AllocError>
    ensures { OnOk result
        (string_bytes text.new ≡ string_bytes text.old
        ++ load_text scope.entry.variables.now scope.entry.registers.now (load_of load.now)) }
{
    append_repeated(text, load.data_races, "data_race(")?;
    append_fetch(text, scope, &load.fetch)?;
    append_repeated(text, load.data_races, ")")
}

/// Appends an expression with one load.
fn append_loading(text: &mut String, scope: Scope<'_>, loading: &Loading) -> Result<(), AllocError>
    ensures { OnOk result
        (string_bytes text.new ≡ string_bytes text.old
        ++ loading_text scope.entry.variables.now scope.entry.registers.now
        (loading_of loading.now)) }
{
    match loading {
        Loading::Load(load) => append_load(text, scope, load),
        Loading::Unary(operator, operand) => {
            append_between(text, "(", operator.sign(), "")?;
            append_loading(text, scope, operand)?;
            append(text, ")")
        }
        Loading::Left(operator, left, right) => {
            append(text, "(")?;
            append_loading(text, scope, left)?;
            append_between(text, " ", operator.sign(), " ")?;
            append_pure_before(text, scope.registers, right, ")")
        }
        Loading::Right(operator, left, right) => {
            append(text, "(")?;
            append_pure(text, scope.registers, left)?;
            append_between(text, " ", operator.sign(), " ")?;
            append_loading(text, scope, right)?;
            append(text, ")")
        }
    }
}

/// Appends an expression.
pub fn append_expression(
    text: &mut String,
    scope: Scope<'_>,
    expression: &Expression,
) -> Result<(), AllocError>
    ensures { OnOk result
        (string_bytes text.new ≡ string_bytes text.old
        ++ expression_text scope.entry.variables.now scope.entry.registers.now
        (expression_of expression.now)) }
{
    match expression {
        Expression::Pure(pure) => append_pure(text, scope.registers, pure),
        Expression::Loading(loading) => append_loading(text, scope, loading),
    }
}
