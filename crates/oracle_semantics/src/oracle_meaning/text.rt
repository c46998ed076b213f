//! Texts: statements, one after the other, blocks that are chosen, and loops turn by turn.

ghost use Rattle.std.specs.Prelude.{◌≡◌, ◌+◌, [], IfOk, length};
ghost use Rattle.litmus_semantics.specs.Meaning as spec;
ghost use Rattle.litmus_semantics.specs.Meaning.{Means, MeansBlock, Turns};
ghost use Rattle.litmus_semantics.specs.Task.{Progress, Setting};
ghost use Rattle.litmus_syntax.specs.Sites.{accesses_of, sites_of};
ghost use Rattle.litmus_syntax.specs.Tree as tree;
ghost use Rattle.litmus_syntax.specs.Views.{block_of, expression_of, load_of, statement_of};
ghost use Rattle.oracle_semantics.specs.oracle_meaning.Walks.{IsOf, Takes, stands, values_read};

use crate::oracle_meaning::access::{access_now, bytes_in};
use crate::oracle_meaning::call::{calls, scoped_assertion};
use crate::oracle_meaning::count::{accesses_in, add, sites_in};
use crate::oracle_meaning::load::{evaluates, load};
use crate::oracle_meaning::store::assigns_in;
use crate::oracle_meaning::walk::{Given, NoMeaning, Walk};
use access_types::Happening;
use litmus_syntax::{Expression, Load, Statement};
use std::alloc::Global;

/// The first site after the condition of an `if`.
fn after_condition(site: usize, condition: &Expression) -> Result<usize, NoMeaning>
    ensures { IfOk result (λ next. next ≡ spec.after_condition site (expression_of condition.now)) }
{
    if condition.has_access() {
        add(site, 1)
    } else {
        Ok(site)
    }
}

/// The first site after the body of an `if`.
fn after_body(site: usize, condition: &Expression, body: &[Statement]) -> Result<usize, NoMeaning>
    ensures { IfOk result (λ next. next ≡ spec.after_condition site (expression_of condition.now) + length (sites_of (block_of body.now))) }
{
    add(after_condition(site, condition)?, sites_in(body)?)
}

/// The turn after one.
fn next_turn(turn: u64) -> Result<u64, NoMeaning>
    ensures { IfOk result (λ next. next ≡ turn + 1) }
{
    match turn.checked_add(1) {
        Some(next) => Ok(next),
        None => Err(NoMeaning::NoAccess),
    }
}

/// After a load of a site whose value nothing takes.
fn loads(given: &Given<'_>, site: usize, fetched: &Load, before: Walk) -> Result<Walk, NoMeaning>
    ensures means { (s : Setting) → IsOf s given.now
        → IfOk result (λ after. Means s site (tree.load_only (load_of fetched.now)) (stands before) (stands after)) }
    ensures takes { IfOk result (Takes before) }
{
    let (after, _) = load(given, site, fetched, before)?;
    Ok(after)
}

/// After an `if` of a site.
#[cycle(text)]
fn if_holds(
    given: &Given<'_>,
    site: usize,
    condition: &Expression,
    body: &[Statement],
    before: Walk,
) -> Result<Walk, NoMeaning>
    ensures means { (s : Setting) → IsOf s given.now → IfOk result (λ after.
        Means s site (tree.if_block (expression_of condition.now) (block_of body.now)) (stands before) (stands after)) }
    ensures takes { IfOk result (Takes before) }
{
    let (between, value) = evaluates(given, site, condition, before)?;
    if value == 0 {
        return Ok(between);
    }
    block(given, after_condition(site, condition)?, body, between)
}

/// After an `if` of a site with an `else`.
#[cycle(text)]
fn if_else(
    given: &Given<'_>,
    site: usize,
    condition: &Expression,
    body: &[Statement],
    otherwise: &[Statement],
    before: Walk,
) -> Result<Walk, NoMeaning>
    ensures means { (s : Setting) → IsOf s given.now → IfOk result (λ after.
        Means s site (tree.if_else (expression_of condition.now) (block_of body.now) (block_of otherwise.now)) (stands before) (stands after)) }
    ensures takes { IfOk result (Takes before) }
{
    let (between, value) = evaluates(given, site, condition, before)?;
    if value == 0 {
        return block(
            given,
            after_body(site, condition, body)?,
            otherwise,
            between,
        );
    }
    block(given, after_condition(site, condition)?, body, between)
}

/// After a statement whose first site is this one.
#[cycle(text)]
fn statement(
    given: &Given<'_>,
    site: usize,
    statement: &Statement,
    before: Walk,
) -> Result<Walk, NoMeaning>
    ensures means { (s : Setting) → IsOf s given.now
        → IfOk result (λ after. Means s site (statement_of statement.now) (stands before) (stands after)) }
    ensures takes { IfOk result (Takes before) }
{
    match statement {
        Statement::Load(fetched) => loads(given, site, fetched, before),
        Statement::Assign {
            data_race,
            assignment,
        } => assigns_in(given, site, *data_race, assignment, before),
        Statement::Call(call) => calls(given, site, *call, before),
        Statement::If { condition, body } => {
            if_holds(given, site, condition, body.as_slice(), before)
        }
        Statement::IfElse {
            condition,
            body,
            otherwise,
        } => if_else(
            given,
            site,
            condition,
            body.as_slice(),
            otherwise.as_slice(),
            before,
        ),
        Statement::For {
            register,
            turns: count,
            body,
        } => turns(given, site, *register, 0, *count, body.as_slice(), before),
    }
}

/// After the turns of a loop, from one on, of which so many are left.
#[cycle(text)]
fn turns(
    given: &Given<'_>,
    site: usize,
    register: usize,
    turn: u64,
    left: u64,
    body: &[Statement],
    before: Walk,
) -> Result<Walk, NoMeaning>
    ensures means { (s : Setting) → IsOf s given.now → IfOk result (λ after.
        Turns (λ start end. MeansBlock s site (block_of body.now) start end) register turn left (stands before) (stands after)) }
    ensures takes { IfOk result (Takes before) }
{
    let at = before.assigning(register, turn);
    if left == 0 {
        return Ok(at);
    }
    let between = block(given, site, body, at)?;
    let next = next_turn(turn)?;
    turns(given, site, register, next, left - 1, body, between)
}

/// After a block whose first site is this one. A scoped assertion begins at its statement and ends with the block.
#[cycle(text)]
fn block(
    given: &Given<'_>,
    site: usize,
    statements: &[Statement],
    before: Walk,
) -> Result<Walk, NoMeaning>
    ensures means { (s : Setting) → IsOf s given.now
        → IfOk result (λ after. MeansBlock s site (block_of statements.now) (stands before) (stands after)) }
    ensures takes { IfOk result (Takes before) }
{
    let Some((first, rest)) = statements.split_first() else {
        return Ok(before);
    };
    let next = add(site, accesses_in(first)?)?;
    let Some((kind, variable)) = scoped_assertion(first) else {
        let between = statement(given, site, first, before)?;
        return block(given, next, rest, between);
    };
    let access = access_now(given, &before, site, bytes_in(given, variable), kind, None)?;
    let begun = before.doing(Happening::Begin(access))?;
    let between = block(given, next, rest, begun)?;
    between.doing(Happening::End(access))
}

/// What a task does that begins with these registers, and which values they have afterwards, where its reads have these
/// values, in order.
///
/// `TooFew` and `TooMany`: it reads more often or less often. `TooLarge`: a value doesn't fit the bytes that are read.
/// `NoAccess`: an access has no ticket, or its bytes end above the addresses.
pub fn means(
    alloc: Global,
    given: &Given<'_>,
    text: &[Statement],
    registers: &[u64],
    values: &[u64],
) -> Result<Walk, NoMeaning>
    ensures means { (s : Setting) → IsOf s given.now → IfOk result (λ end.
        MeansBlock s 0 (block_of text.now) (record { did = []; registers = registers.now }) (stands end)) }
    ensures values { IfOk result (λ end. values_read end.did.items ≡ values.now) }
{
    let before = Walk {
        did: Vec::new(alloc),
        registers: Vec::from_slice(alloc, registers)?,
        values: Vec::from_slice(alloc, values)?,
    };
    let end = block(given, 0, text, before)?;
    if !end.values.is_empty() {
        return Err(NoMeaning::TooMany);
    }
    Ok(end)
}
