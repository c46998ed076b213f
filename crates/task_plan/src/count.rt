//! Numbers of a text: how many statements with an access, and how many blocks in each other.

ghost use Rattle.std.specs.Prelude.{◌≡◌, if◌then◌else◌, length, min};
ghost use Rattle.litmus_syntax.specs.Sites.{accesses_of, sites_of};
ghost use Rattle.litmus_syntax.specs.Views.{block_of, statement_of};
ghost use Rattle.task_plan.specs.Depth.{depth_of, statement_depth};

use litmus_syntax::Statement;

/// 1 where it holds.
pub(crate) fn one_if(holds: bool) -> usize
    ensures { result ≡ (if holds then 1 else 0) }
{
    if holds { 1 } else { 0 }
}

/// How many statements of a block have an access, those in its blocks with them; no more than fit.
#[cycle(sites)]
pub fn sites_in(block: &[Statement]) -> usize
    ensures { result ≡ min (length (sites_of (block_of block.now))) usize.MAX }
{
    let mut count: usize = 0;
    for statement in block {
        count = accesses_in(statement).saturating_add(count);
    }
    count
}

/// How many statements have an access, of a statement and those in its blocks; no more than fit.
#[cycle(sites)]
pub fn accesses_in(statement: &Statement) -> usize
    ensures { result ≡ min (length (accesses_of (statement_of statement.now))) usize.MAX }
{
    let itself = one_if(statement.has_access());
    match statement {
        Statement::Load(_) | Statement::Assign { .. } | Statement::Call(_) => itself,
        Statement::If { body, .. } => itself.saturating_add(sites_in(body.as_slice())),
        // A loop's own steps touch no memory, so it has no site of its own.
        Statement::For { body, .. } => sites_in(body.as_slice()),
        Statement::IfElse {
            body,
            otherwise,
            ..
        } => itself.saturating_add(sites_in(body.as_slice()).saturating_add(sites_in(
            otherwise.as_slice(),
        ))),
    }
}

/// How many blocks of a block stand in each other; no more than fit.
#[cycle(depth)]
pub fn depth_in(block: &[Statement]) -> usize
    ensures { result ≡ min (depth_of (block_of block.now)) usize.MAX }
{
    let mut depth: usize = 0;
    for statement in block {
        depth = depth.max(depth_at(statement));
    }
    depth
}

/// How many blocks stand in each other in a statement; no more than fit.
#[cycle(depth)]
pub fn depth_at(statement: &Statement) -> usize
    ensures { result ≡ min (statement_depth (statement_of statement.now)) usize.MAX }
{
    match statement {
        Statement::Load(_) | Statement::Assign { .. } | Statement::Call(_) => 0,
        Statement::If { body, .. } => depth_in(body.as_slice()).saturating_add(1),
        Statement::For { body, .. } => depth_in(body.as_slice()).saturating_add(1),
        Statement::IfElse {
            body,
            otherwise,
            ..
        } => depth_in(body.as_slice())
            .max(depth_in(otherwise.as_slice()))
            .saturating_add(1),
    }
}
