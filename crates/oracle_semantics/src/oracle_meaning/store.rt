//! Assignments.

ghost use Rattle.std.specs.Prelude.{◌≡◌, IfOk, if◌then◌else◌};
ghost use Rattle.litmus_semantics.specs.Assignments as assignments;
ghost use Rattle.litmus_semantics.specs.Assignments.{Adds, Assigns, AssignsIn, Writes};
ghost use Rattle.litmus_semantics.specs.Task as spec;
ghost use Rattle.litmus_syntax.specs.Views.{assignment_of};
ghost use Rattle.oracle_semantics.specs.oracle_meaning.Walks.{IsOf, Takes, stands};

use crate::oracle_meaning::access::{access_now, adds, bytes_in, writes};
use crate::oracle_meaning::load::{evaluates, marks};
use crate::oracle_meaning::walk::{Given, NoMeaning, Walk};
use access_types::{Kind, Mark, Operation};
use litmus_semantics::pure_value;
use litmus_syntax::{Assignment, WriteForm};

const COMPOUND: Kind = Kind::Plain(Operation::ReadWrite);

const EXCHANGE: Kind = Kind::Marked(Operation::ReadWrite);

/// Only a plain write isn't declared marked.
fn write_kind(form: WriteForm) -> Kind
    ensures { result ≡ assignments.write_kind form }
{
    match form {
        WriteForm::Plain => Kind::Plain(Operation::Write),
        WriteForm::Once | WriteForm::Release | WriteForm::Atomic => Kind::Marked(Operation::Write),
    }
}

/// After a variable was written.
fn writes_to(
    given: &Given<'_>,
    site: usize,
    kind: Kind,
    variable: usize,
    value: u64,
    before: Walk,
) -> Result<Walk, NoMeaning>
    ensures means { (s : spec.Setting) → IsOf s given.now
        → IfOk result (λ after. Writes s site kind variable value (stands before) (stands after)) }
    ensures takes { IfOk result (Takes before) }
{
    let access = access_now(given, &before, site, bytes_in(given, variable), kind, None)?;
    writes(before, access, value)
}

/// After an amount was added to a variable.
fn adds_to(
    given: &Given<'_>,
    site: usize,
    kind: Kind,
    variable: usize,
    amount: u64,
    before: Walk,
) -> Result<Walk, NoMeaning>
    ensures means { (s : spec.Setting) → IsOf s given.now
        → IfOk result (λ after. Adds s site kind variable amount (stands before) (stands after)) }
    ensures takes { IfOk result (Takes before) }
{
    let access = access_now(given, &before, site, bytes_in(given, variable), kind, None)?;
    adds(before, access, amount)
}

/// After an assignment of a site.
fn assigns(
    given: &Given<'_>,
    site: usize,
    assignment: &Assignment,
    before: Walk,
) -> Result<Walk, NoMeaning>
    ensures means { (s : spec.Setting) → IsOf s given.now
        → IfOk result (λ after. Assigns s site (assignment_of assignment.now) (stands before) (stands after)) }
    ensures takes { IfOk result (Takes before) }
{
    match assignment {
        Assignment::Register { register, value } => {
            let (between, value) = evaluates(given, site, value, before)?;
            Ok(between.assigning(*register, value))
        }
        Assignment::Write {
            form,
            variable,
            value,
        } => {
            let value = pure_value(value, before.registers.as_slice());
            writes_to(given, site, write_kind(*form), *variable, value, before)
        }
        Assignment::Add { variable, value } => {
            let amount = pure_value(value, before.registers.as_slice());
            adds_to(given, site, COMPOUND, *variable, amount, before)
        }
        Assignment::Increment { variable } => adds_to(given, site, COMPOUND, *variable, 1, before),
        Assignment::AtomicAdd { value, variable } => {
            let amount = pure_value(value, before.registers.as_slice());
            adds_to(given, site, EXCHANGE, *variable, amount, before)
        }
        Assignment::AtomicIncrement { variable } => {
            adds_to(given, site, EXCHANGE, *variable, 1, before)
        }
        Assignment::AtomicDecrement { variable } => {
            adds_to(given, site, EXCHANGE, *variable, u64::MAX, before)
        }
    }
}

/// 1 where it holds.
fn one_if(holds: bool) -> u64
    ensures { result ≡ (if holds then 1 else 0) }
{
    if holds { 1 } else { 0 }
}

/// After an assignment of a site, inside `data_race( )` or not.
pub fn assigns_in(
    given: &Given<'_>,
    site: usize,
    data_race: bool,
    assignment: &Assignment,
    before: Walk,
) -> Result<Walk, NoMeaning>
    ensures means { (s : spec.Setting) → IsOf s given.now
        → IfOk result (λ after. AssignsIn s site data_race (assignment_of assignment.now) (stands before) (stands after)) }
    ensures takes { IfOk result (Takes before) }
{
    let count = one_if(data_race);
    let silent = marks(before, Mark::Disable, count)?;
    let made = assigns(given, site, assignment, silent)?;
    marks(made, Mark::Enable, count)
}
