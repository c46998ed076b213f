//! The records of a text: of its statements, one after the other, of blocks that are chosen, and of loops turn by turn.

ghost use Rattle.std.specs.Prelude.{◌≡◌, ◌+◌, [], ℕ, List, IfOk, false, replicate, true};
ghost use Rattle.litmus_semantics.specs.Meaning.{after_condition};
ghost use Rattle.litmus_syntax.specs.Tree as tree;
ghost use Rattle.litmus_syntax.specs.Views.{assignment_of, block_of, expression_of, pure_of, statement_of};
ghost use Rattle.litmus_syntax.specs.declared.statement.Call.TheVariants as calls;
ghost use Rattle.slot_table.specs.declared.records.Record.{Record};
ghost use Rattle.oracle_semantics.specs.oracle_order.Walks.{Goes, IsOf, stands};
ghost use Rattle.program_order.specs.Standing.{Setting, Standing};
ghost use Rattle.program_order.specs.WrittenOrder.{SpellsAll, StepsInDataRace, StepsOf, StepsOfBlock, StepsOfCall, StepsOfExpression, StepsOfTurns};

use crate::oracle_meaning::call::scoped_assertion;
use crate::oracle_meaning::count::{accesses_in, add, sites_in};
use crate::oracle_order::locks::{gives_back, is_lock_at, lock_number, takes_lock};
use crate::oracle_order::walk::{Given, NotSpelled, Walk};
use access_types::Happening;
use litmus_semantics::pure_value;
use litmus_syntax::{Assignment, Call, Expression, Pure, Statement};
use slot_table::Record;
use std::alloc::{AllocError, Global};

/// The number of a lock's variable, as moments name it.
fn small(variable: usize) -> Result<u32, NotSpelled>
    ensures { IfOk result (λ number. number ≡ variable) }
{
    if variable > 255 {
        return Err(NotSpelled::NotRead);
    }
    Ok(variable as u32)
}

/// After a lock was taken.
fn locks(given: &Given<'_>, variable: usize, before: Walk) -> Result<Walk, NotSpelled>
    ensures { (s : Setting) (site : ℕ) → IsOf s given.now
        → IfOk result (Goes (StepsOfCall s site (calls.Lock variable)) before) }
{
    if !is_lock_at(given, variable) {
        return Err(NotSpelled::NotRead);
    }
    let taken = takes_lock(given.task, lock_number(given, variable), before)?;
    taken.doing(Happening::Lock(small(variable)?))
}

/// After a lock was given back, which is no step of a task that hasn't it.
fn unlocks(given: &Given<'_>, variable: usize, before: Walk) -> Result<Walk, NotSpelled>
    ensures { (s : Setting) (site : ℕ) → IsOf s given.now
        → IfOk result (Goes (StepsOfCall s site (calls.Unlock variable)) before) }
{
    let lock = small(variable)?;
    if before.has_lock(lock) {
        let given_back = gives_back(given.task, lock_number(given, variable), before)?;
        let after = given_back.doing(Happening::Unlock(lock))?;
        return Ok(after);
    }
    Ok(before)
}

/// After a call of a site that makes no access and no mark.
fn calls(given: &Given<'_>, call: Call, before: Walk) -> Result<Walk, NotSpelled>
    ensures { (s : Setting) (site : ℕ) → IsOf s given.now
        → IfOk result (Goes (StepsOfCall s site call) before) }
{
    match call {
        Call::Barrier(_) => Ok(before),
        Call::Lock { variable } => locks(given, variable, before),
        Call::Unlock { variable } => unlocks(given, variable, before),
        _ => Err(NotSpelled::NotRead),
    }
}

/// After a register got the value of an expression.
fn sets(register: usize, pure: &Pure, before: Walk) -> Walk
    ensures { (s : Setting) (site : ℕ)
        → Goes (StepsInDataRace s site false (tree.to_register register (tree.pure (pure_of pure.now)))) before result }
{
    let value = pure_value(pure, before.registers.as_slice());
    before.assigning(register, value)
}

/// After an assignment of an expression without a load to a register.
fn assigns(data_race: bool, assignment: &Assignment, before: Walk) -> Result<Walk, NotSpelled>
    ensures { (s : Setting) (site : ℕ)
        → IfOk result (Goes (StepsInDataRace s site data_race (assignment_of assignment.now)) before) }
{
    if data_race {
        return Err(NotSpelled::NotRead);
    }
    match assignment {
        Assignment::Register { register, value } => match value {
            Expression::Pure(pure) => Ok(sets(*register, pure, before)),
            Expression::Loading(_) => Err(NotSpelled::NotRead),
        },
        _ => Err(NotSpelled::NotRead),
    }
}

/// The value of a condition without a load.
fn decides(condition: &Expression, walk: &Walk) -> Result<u64, NotSpelled>
    ensures steps { (s : Setting) (site : ℕ) (standing : Standing) (records : List Record) → standing.progress ≡ stands walk.now
        → IfOk result (λ value. StepsOfExpression s site (expression_of condition.now) standing records value standing records) }
    ensures pure { (site : ℕ) → IfOk result (λ _. after_condition site (expression_of condition.now) ≡ site) }
{
    match condition {
        Expression::Pure(pure) => Ok(pure_value(pure, walk.registers.as_slice())),
        Expression::Loading(_) => Err(NotSpelled::NotRead),
    }
}

/// After a statement whose first site is this one.
#[cycle(text)]
fn statement(
    given: &Given<'_>,
    site: usize,
    statement: &Statement,
    before: Walk,
) -> Result<Walk, NotSpelled>
    ensures { (s : Setting) → IsOf s given.now → IfOk result (Goes (StepsOf s site (statement_of statement.now)) before) }
{
    match statement {
        Statement::Assign {
            data_race,
            assignment,
        } => assigns(*data_race, assignment, before),
        Statement::Call(call) => calls(given, *call, before),
        Statement::If { condition, body } => {
            let value = decides(condition, &before)?;
            if value == 0 {
                return Ok(before);
            }
            block(given, site, body.as_slice(), before)
        }
        Statement::IfElse {
            condition,
            body,
            otherwise,
        } => {
            let value = decides(condition, &before)?;
            if value == 0 {
                let other = add(site, sites_in(body.as_slice())?)?;
                return block(given, other, otherwise.as_slice(), before);
            }
            block(given, site, body.as_slice(), before)
        }
        Statement::For {
            register,
            turns: count,
            body,
        } => turns(given, site, *register, 0, *count, body.as_slice(), before),
        _ => Err(NotSpelled::NotRead),
    }
}

/// The turn after one.
fn next_turn(turn: u64) -> Result<u64, NotSpelled>
    ensures { IfOk result (λ next. next ≡ turn + 1) }
{
    match turn.checked_add(1) {
        Some(next) => Ok(next),
        None => Err(NotSpelled::NotRead),
    }
}

/// After the turns of a loop, from one on, of which so many are left.
#[cycle(text)]
fn turns(
    given: &Given<'_>,
    site: usize,
    register: usize,
    turn: u64,
    left: u64,
    body: &[Statement],
    before: Walk,
) -> Result<Walk, NotSpelled>
    ensures { (s : Setting) → IsOf s given.now
        → IfOk result (Goes (StepsOfTurns (StepsOfBlock s site (block_of body.now)) register turn left) before) }
{
    let at = before.assigning(register, turn);
    if left == 0 {
        return Ok(at);
    }
    let between = block(given, site, body, at)?;
    let next = next_turn(turn)?;
    turns(given, site, register, next, left - 1, body, between)
}

/// After a block without scoped assertions whose first site is this one.
#[cycle(text)]
fn block(
    given: &Given<'_>,
    site: usize,
    statements: &[Statement],
    before: Walk,
) -> Result<Walk, NotSpelled>
    ensures { (s : Setting) → IsOf s given.now → IfOk result (Goes (StepsOfBlock s site (block_of statements.now)) before) }
{
    let Some((first, rest)) = statements.split_first() else {
        return Ok(before);
    };
    let next = add(site, accesses_in(first)?)?;
    let Some(_) = scoped_assertion(first) else {
        let between = statement(given, site, first, before)?;
        return block(given, next, rest, between);
    };
    Err(NotSpelled::NotRead)
}

/// No record is left.
fn is_over(walk: &Walk) -> bool
    ensures { result ≡ true → walk.now.left.items ≡ [] }
{
    walk.left.is_empty()
}

/// So many registers that are 0.
fn zeros(alloc: Global, count: usize) -> Result<Vec<u64>, AllocError>
    ensures { IfOk result (λ zeros. zeros.items ≡ replicate count 0) }
{
    Ok(vec![in alloc; 0; count]?)
}

/// Whether the records, the oldest first, spell the whole text of a task with so many registers. The walk through it,
/// where they do.
///
/// `Other` and `TooMany`: they don't. `NotRead`: the text makes an access or a mark.
pub fn spells(
    alloc: Global,
    given: &Given<'_>,
    registers: usize,
    text: &[Statement],
    records: &[Record],
) -> Result<Walk, NotSpelled>
    ensures { (s : Setting) → IsOf s given.now → IfOk result (λ _. SpellsAll s registers (block_of text.now) records.now) }
{
    let zeroed = zeros(alloc, registers)?;
    let before = Walk {
        did: Vec::new(alloc),
        registers: zeroed,
        left: Vec::from_slice(alloc, records)?,
    };
    let end = block(given, 0, text, before)?;
    if !is_over(&end) {
        return Err(NotSpelled::TooMany);
    }
    Ok(end)
}
