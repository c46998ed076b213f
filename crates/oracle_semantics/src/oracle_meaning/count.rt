//! How many sites there are: statements with an access.

ghost use Rattle.std.specs.Prelude.{◌≡◌, ◌+◌, IfOk, if◌then◌else◌, length};
ghost use Rattle.litmus_syntax.specs.Sites.{accesses_of, sites_of};
ghost use Rattle.litmus_syntax.specs.Views.{block_of, statement_of};

use crate::oracle_meaning::walk::NoMeaning;
use litmus_syntax::Statement;

/// A sum, which is small in every text.
pub fn add(count: usize, more: usize) -> Result<usize, NoMeaning>
    ensures { IfOk result (λ sum. sum ≡ count + more) }
{
    match count.checked_add(more) {
        Some(sum) => Ok(sum),
        None => Err(NoMeaning::NoAccess),
    }
}

/// 1 where it holds.
fn one_if(holds: bool) -> usize
    ensures { result ≡ (if holds then 1 else 0) }
{
    if holds { 1 } else { 0 }
}

/// How many statements of a block have an access, those in its blocks with them.
#[cycle(sites)]
pub fn sites_in(block: &[Statement]) -> Result<usize, NoMeaning>
    ensures { IfOk result (λ count. count ≡ length (sites_of (block_of block.now))) }
{
    let mut count: usize = 0;
    for statement in block {
        count = add(count, accesses_in(statement)?)?;
    }
    Ok(count)
}

/// How many statements have an access, of a statement and those in its blocks.
#[cycle(sites)]
pub fn accesses_in(statement: &Statement) -> Result<usize, NoMeaning>
    ensures { IfOk result (λ count. count ≡ length (accesses_of (statement_of statement.now))) }
{
    let itself = one_if(statement.has_access());
    match statement {
        Statement::Load(_) | Statement::Assign { .. } | Statement::Call(_) => Ok(itself),
        Statement::If { body, .. } => add(itself, sites_in(body.as_slice())?),
        Statement::For { body, .. } => sites_in(body.as_slice()),
        Statement::IfElse {
            body,
            otherwise,
            ..
        } => {
            let both = add(sites_in(body.as_slice())?, sites_in(otherwise.as_slice())?)?;
            add(itself, both)
        }
    }
}
