//! The accesses of a text at their sites. A site is the number, from 0 in text order, of a statement
//! with an access in its task.

ghost use Rattle.std.specs.Prelude.{◌≡◌, ◌++◌, ◌∷◌, [], IfOk, OnOk, None, map};
ghost use Rattle.litmus_semantics.specs.Assignments as assignments;
ghost use Rattle.litmus_semantics.specs.Loads as loads;
ghost use Rattle.litmus_semantics.specs.Task.{Setting};
ghost use Rattle.litmus_semantics.specs.TextSites.{AllLoopsFit, AreBytesOf, LoopsFit, assertion_kind, assignment_by, block_by, block_sites, bytes_among, call_by, expression_by, load_by, once, repeated, statement_by};
ghost use Rattle.litmus_syntax.specs.Views.{assignment_of, block_of, expression_of, fetch_of, load_of, loading_of, statement_of};

use access_types::{Bytes, Claim, Kind, Operation};
use litmus_syntax::{
    Assignment, Call, Expression, Fetch, Load, Loading, ReadForm, Statement, WriteForm,
};
use std::alloc::{AllocError, Global};

/// What is accessed at a site, by what kind of access and with which mask.
#[derive(Clone, Copy, Debug, PartialEq, Eq)]
pub struct Site {
    pub bytes: Bytes,
    pub kind: Kind,
    pub mask: Option<u64>,
    /// How often at most: once for each turn of the loops round it.
    pub times: u64,
}

/// The bytes of a variable, of which there are none where it isn't there.
fn bytes_of(bytes: &[Bytes], variable: usize) -> Bytes
    ensures { result ≡ bytes_among bytes.now variable }
{
    match bytes.get(variable) {
        Some(bytes) => *bytes,
        None => Bytes { addr: 0, size: 0 },
    }
}

/// Only a plain read isn't declared marked.
fn read_kind(form: ReadForm) -> Kind
    ensures { result ≡ loads.read_kind form }
{
    match form {
        ReadForm::Plain => Kind::Plain(Operation::Read),
        ReadForm::Once | ReadForm::Acquire | ReadForm::Atomic => Kind::Marked(Operation::Read),
    }
}

/// Only a plain write isn't declared marked.
fn write_kind(form: WriteForm) -> Kind
    ensures { result ≡ assignments.write_kind form }
{
    match form {
        WriteForm::Plain => Kind::Plain(Operation::Write),
        WriteForm::Once | WriteForm::Release | WriteForm::Atomic => Kind::Marked(Operation::Write),
    }
}

/// The kind of an assertion.
fn kind_of_assertion(scoped: bool, claim: Claim) -> Kind
    ensures { result ≡ assertion_kind scoped claim }
{
    if scoped {
        Kind::AssertScoped(claim)
    } else {
        Kind::Assert(claim)
    }
}

/// The site of a load, in a loop of so many turns.
fn load_site(bytes: &[Bytes], times: u64, load: &Load) -> Site
    ensures { result ∷ [] ≡ map (repeated times) (load_by (bytes_among bytes.now) (load_of load.now)) }
{
    let (variable, kind) = match &load.fetch {
        Fetch::Read { form, variable } => (*variable, read_kind(*form)),
        Fetch::Exchange { variable, .. } | Fetch::CompareExchange { variable, .. } => {
            (*variable, Kind::Marked(Operation::ReadWrite))
        }
    };
    Site {
        bytes: bytes_of(bytes, variable),
        kind,
        mask: None,
        times,
    }
}

/// The site of the load of an expression that has one.
fn loading_site(bytes: &[Bytes], times: u64, loading: &Loading) -> Site
    ensures { result ∷ [] ≡ map (repeated times) (load_by (bytes_among bytes.now) (loads.load_in (loading_of loading.now))) }
{
    match loading {
        Loading::Load(load) => load_site(bytes, times, load),
        Loading::Unary(_, operand) => loading_site(bytes, times, operand),
        Loading::Left(_, left, _) => loading_site(bytes, times, left),
        Loading::Right(_, _, right) => loading_site(bytes, times, right),
    }
}

/// Adds a site in a loop of so many turns.
fn add_once(
    found: &mut Vec<Site>,
    times: u64,
    bytes: Bytes,
    kind: Kind,
    mask: Option<u64>,
) -> Result<(), AllocError>
    ensures { OnOk result (found.new.items ≡ found.old.items ++ map (repeated times) (once bytes kind mask)) }
{
    found.push(Site {
        bytes,
        kind,
        mask,
        times,
    })?;
    Ok(())
}

/// Adds the site of an expression, if it has one.
fn add_expression(
    found: &mut Vec<Site>,
    bytes: &[Bytes],
    times: u64,
    expression: &Expression,
) -> Result<(), AllocError>
    ensures { OnOk result
        (found.new.items ≡ found.old.items ++ map (repeated times) (expression_by (bytes_among bytes.now) (expression_of expression.now))) }
{
    match expression {
        Expression::Pure(_) => Ok(()),
        Expression::Loading(loading) => {
            found.push(loading_site(bytes, times, loading))?;
            Ok(())
        }
    }
}

/// Adds the site of an assignment, if it has one.
fn add_assignment(
    found: &mut Vec<Site>,
    bytes: &[Bytes],
    times: u64,
    assignment: &Assignment,
) -> Result<(), AllocError>
    ensures { OnOk result
        (found.new.items ≡ found.old.items ++ map (repeated times) (assignment_by (bytes_among bytes.now) (assignment_of assignment.now))) }
{
    let (variable, kind) = match assignment {
        Assignment::Register { value, .. } => {
            add_expression(found, bytes, times, value)?;
            return Ok(());
        }
        Assignment::Write { form, variable, .. } => (*variable, write_kind(*form)),
        Assignment::Add { variable, .. } | Assignment::Increment { variable } => {
            (*variable, Kind::Plain(Operation::ReadWrite))
        }
        Assignment::AtomicAdd { variable, .. }
        | Assignment::AtomicIncrement { variable }
        | Assignment::AtomicDecrement { variable } => {
            (*variable, Kind::Marked(Operation::ReadWrite))
        }
    };
    add_once(found, times, bytes_of(bytes, variable), kind, None)
}

/// Adds the site of a call, if it has one.
fn add_call(
    found: &mut Vec<Site>,
    bytes: &[Bytes],
    times: u64,
    call: Call,
) -> Result<(), AllocError>
    ensures { OnOk result
        (found.new.items ≡ found.old.items ++ map (repeated times) (call_by (bytes_among bytes.now) call)) }
{
    match call {
        Call::Barrier(_) | Call::Lock { .. } | Call::Unlock { .. } | Call::Mark(_) => Ok(()),
        Call::AssertWriter { variable, scoped } => {
            let kind = kind_of_assertion(scoped, Claim::NoWrites);
            add_once(found, times, bytes_of(bytes, variable), kind, None)
        }
        Call::AssertAccess { variable, scoped } => {
            let kind = kind_of_assertion(scoped, Claim::NoAccesses);
            add_once(found, times, bytes_of(bytes, variable), kind, None)
        }
        Call::AssertBits { variable, mask } => {
            // A mask without a bit is no mask, as in KCSAN, where 0 says that none is set.
            let mask = if mask == 0 { None } else { Some(mask) };
            add_once(
                found,
                times,
                bytes_of(bytes, variable),
                Kind::Assert(Claim::NoWrites),
                mask,
            )
        }
        Call::Check {
            write,
            variable,
            size,
        } => {
            if size == 0 {
                return Ok(());
            }
            let addr = bytes_of(bytes, variable).addr;
            let operation = if write {
                Operation::Write
            } else {
                Operation::Read
            };
            add_once(
                found,
                times,
                Bytes { addr, size },
                Kind::Plain(operation),
                None,
            )
        }
    }
}

/// Adds the sites of a block in loops whose turns multiply to so many.
#[cycle(sites)]
fn add_block(
    found: &mut Vec<Site>,
    bytes: &[Bytes],
    times: u64,
    block: &[Statement],
) -> Result<(), AllocError>
    ensures { AllLoopsFit times (block_of block.now) → OnOk result
        (found.new.items ≡ found.old.items ++ map (repeated times) (block_by (bytes_among bytes.now) (block_of block.now))) }
{
    for statement in block {
        add_statement(found, bytes, times, statement)?;
    }
    Ok(())
}

/// Adds the sites of a statement and of all that stands in it.
#[cycle(sites)]
fn add_statement(
    found: &mut Vec<Site>,
    bytes: &[Bytes],
    times: u64,
    statement: &Statement,
) -> Result<(), AllocError>
    ensures { LoopsFit times (statement_of statement.now) → OnOk result
        (found.new.items ≡ found.old.items ++ map (repeated times) (statement_by (bytes_among bytes.now) (statement_of statement.now))) }
{
    match statement {
        Statement::Load(load) => {
            found.push(load_site(bytes, times, load))?;
            Ok(())
        }
        Statement::Assign { assignment, .. } => {
            add_assignment(found, bytes, times, assignment)?;
            Ok(())
        }
        Statement::Call(call) => {
            add_call(found, bytes, times, *call)?;
            Ok(())
        }
        Statement::If { condition, body } => {
            add_expression(found, bytes, times, condition)?;
            add_block(found, bytes, times, body.as_slice())?;
            Ok(())
        }
        Statement::IfElse {
            condition,
            body,
            otherwise,
        } => {
            add_expression(found, bytes, times, condition)?;
            add_block(found, bytes, times, body.as_slice())?;
            add_block(found, bytes, times, otherwise.as_slice())?;
            Ok(())
        }
        Statement::For { turns, body, .. } => {
            add_block(found, bytes, times.saturating_mul(*turns), body.as_slice())?;
            Ok(())
        }
    }
}

/// The sites of a text, in its order, whose variables have these bytes.
pub fn text_sites(
    alloc: Global,
    text: &[Statement],
    bytes: &[Bytes],
) -> Result<Vec<Site>, AllocError>
    ensures among { AllLoopsFit 1 (block_of text.now)
        → IfOk result (λ sites. sites.items ≡ block_by (bytes_among bytes.now) (block_of text.now)) }
    ensures setting { (s : Setting) → AreBytesOf s bytes.now → AllLoopsFit 1 (block_of text.now)
        → IfOk result (λ sites. sites.items ≡ block_sites s (block_of text.now)) }
{
    let mut found = Vec::new(alloc);
    add_block(&mut found, bytes, 1, text)?;
    Ok(found)
}
