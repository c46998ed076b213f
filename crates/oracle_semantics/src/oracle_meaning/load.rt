//! Loads, and expressions with a load or without one.

ghost use Rattle.std.specs.Prelude.{◌≡◌, ℕ, List, IfOk, None, replicate};
ghost use Rattle.access_types.specs.declared.history.Happening.{Happening};
ghost use Rattle.access_types.specs.declared.history.Happening.TheVariants as happenings;
ghost use Rattle.litmus_semantics.specs.Loads as loads;
ghost use Rattle.litmus_semantics.specs.Loads.{Evaluates, Fetches, Loads};
ghost use Rattle.litmus_semantics.specs.Task as spec;
ghost use Rattle.litmus_syntax.specs.Views.{expression_of, fetch_of, load_of, loading_of};
ghost use Rattle.oracle_semantics.specs.oracle_meaning.Walks.{IsOf, Takes, stands};

use crate::oracle_meaning::access::{access_now, bytes_in, compares, exchanges, reads};
use crate::oracle_meaning::walk::{Given, NoMeaning, Walk};
use access_types::{Access, Happening, Kind, Mark, Operation};
use litmus_semantics::{loading_value, pure_value, sign_extended};
use litmus_syntax::{Expression, Fetch, Load, Loading, ReadForm};

/// After a mark was made so often.
pub fn marks(walk: Walk, mark: Mark, count: u64) -> Result<Walk, NoMeaning>
    ensures comes { IfOk result (λ after. stands after ≡ spec.doing (stands walk) (replicate count (happenings.Mark mark))) }
    ensures takes { IfOk result (Takes walk) }
{
    if count == 0 {
        return Ok(walk);
    }
    marks(walk.doing(Happening::Mark(mark))?, mark, count - 1)
}

/// The variable that is read.
fn variable_of(fetch: &Fetch) -> usize
    ensures { result ≡ loads.variable_of (fetch_of fetch.now) }
{
    match fetch {
        Fetch::Read { variable, .. }
        | Fetch::Exchange { variable, .. }
        | Fetch::CompareExchange { variable, .. } => *variable,
    }
}

/// Only a plain read isn't declared marked.
fn kind_of(fetch: &Fetch) -> Kind
    ensures { result ≡ loads.fetch_kind (fetch_of fetch.now) }
{
    match fetch {
        Fetch::Read {
            form: ReadForm::Plain,
            ..
        } => Kind::Plain(Operation::Read),
        Fetch::Read { .. } => Kind::Marked(Operation::Read),
        _ => Kind::Marked(Operation::ReadWrite),
    }
}

/// The load that an expression has.
fn load_in(loading: &Loading) -> &Load
    ensures { load_of result.now ≡ loads.load_in (loading_of loading.now) }
{
    match loading {
        Loading::Load(load) => load,
        Loading::Unary(_, operand) => load_in(operand),
        Loading::Left(_, left, _) => load_in(left),
        Loading::Right(_, _, right) => load_in(right),
    }
}

/// After what a load does to its bytes, and the value that they held before.
fn fetches(walk: Walk, fetch: &Fetch, access: Access) -> Result<(Walk, u64), NoMeaning>
    ensures comes { (s : spec.Setting) (site : ℕ) (before : spec.Progress) → before.registers ≡ walk.registers.items
        → access ≡ spec.access_now s site before (spec.bytes_in s (loads.variable_of (fetch_of fetch.now))) (loads.fetch_kind (fetch_of fetch.now)) None
        → IfOk result (λ found. (does : List Happening) × Fetches s site (fetch_of fetch.now) before found.1 does
        × (stands found.0 ≡ spec.doing (stands walk) does)) }
    ensures takes { IfOk result (λ found. Takes walk found.0) }
{
    match fetch {
        Fetch::Read { .. } => reads(walk, access),
        Fetch::Exchange { value, .. } => {
            let value = pure_value(value, walk.registers.as_slice());
            exchanges(walk, access, value)
        }
        Fetch::CompareExchange {
            expected,
            replacement,
            ..
        } => {
            let expected = pure_value(expected, walk.registers.as_slice());
            let replacement = pure_value(replacement, walk.registers.as_slice());
            compares(walk, access, expected, replacement)
        }
    }
}

/// After a load of a site, and the value that it gives.
pub fn load(
    given: &Given<'_>,
    site: usize,
    load: &Load,
    before: Walk,
) -> Result<(Walk, u64), NoMeaning>
    ensures means { (s : spec.Setting) → IsOf s given.now
        → IfOk result (λ found. Loads s site (load_of load.now) (stands before) found.1 (stands found.0)) }
    ensures takes { IfOk result (λ found. Takes before found.0) }
{
    let bytes = bytes_in(given, variable_of(&load.fetch));
    let access = access_now(given, &before, site, bytes, kind_of(&load.fetch), None)?;
    let silent = marks(before, Mark::Disable, load.data_races)?;
    let (made, old) = fetches(silent, &load.fetch, access)?;
    let after = marks(made, Mark::Enable, load.data_races)?;
    Ok((after, sign_extended(old, bytes.size)))
}

/// After the load of an expression of a site, if it has one, and the value of the expression.
pub fn evaluates(
    given: &Given<'_>,
    site: usize,
    expression: &Expression,
    before: Walk,
) -> Result<(Walk, u64), NoMeaning>
    ensures means { (s : spec.Setting) → IsOf s given.now
        → IfOk result (λ found. Evaluates s site (expression_of expression.now) (stands before) found.1 (stands found.0)) }
    ensures takes { IfOk result (λ found. Takes before found.0) }
{
    match expression {
        Expression::Pure(pure) => {
            let value = pure_value(pure, before.registers.as_slice());
            Ok((before, value))
        }
        Expression::Loading(loading) => {
            let (after, loaded) = load(given, site, load_in(loading), before)?;
            let value = loading_value(loading, after.registers.as_slice(), loaded);
            Ok((after, value))
        }
    }
}
