//! Which statements of a task make an access. A site is the number, from 0 in text order, of a
//! statement with an access in its task.

ghost use Rattle.std.specs.Prelude.{◌≡◌, ◌++◌, IfOk, OnOk, map};
ghost use Rattle.litmus_syntax.specs.Sites.{accesses_of, assignment_has_access, call_has_access, expression_has_access, has_access, itself, sites_of};
ghost use Rattle.litmus_syntax.specs.Views.{assignment_of, block_of, expression_of, statement_of};

use crate::expression::Expression;
use crate::program::Task;
use crate::statement::{Assignment, Call, Statement};
use std::alloc::{AllocError, Global};

impl Expression {
    /// It makes a load.
    pub fn has_access(&self) -> bool
        ensures { result ≡ expression_has_access (expression_of self.now) }
    {
        match self {
            Expression::Pure(_) => false,
            Expression::Loading(_) => true,
        }
    }
}

impl Assignment {
    /// It makes an access: all do but a pure value for a register.
    pub fn has_access(&self) -> bool
        ensures { result ≡ assignment_has_access (assignment_of self.now) }
    {
        match self {
            Assignment::Register { value, .. } => value.has_access(),
            Assignment::Write { .. }
            | Assignment::Add { .. }
            | Assignment::Increment { .. }
            | Assignment::AtomicAdd { .. }
            | Assignment::AtomicIncrement { .. }
            | Assignment::AtomicDecrement { .. } => true,
        }
    }
}

impl Call {
    /// It makes an access: assertions do, and checks but those of size 0.
    pub fn has_access(self) -> bool
        ensures { result ≡ call_has_access self }
    {
        match self {
            Call::Barrier(_) | Call::Lock { .. } | Call::Unlock { .. } | Call::Mark(_) => false,
            Call::AssertWriter { .. } | Call::AssertAccess { .. } | Call::AssertBits { .. } => true,
            Call::Check { size, .. } => size != 0,
        }
    }
}

impl Statement {
    /// It makes an access itself; an `if` does where its condition loads.
    pub fn has_access(&self) -> bool
        ensures { result ≡ has_access (statement_of self.now) }
    {
        match self {
            Statement::Load(_) => true,
            Statement::Assign { assignment, .. } => assignment.has_access(),
            Statement::Call(call) => call.has_access(),
            Statement::If { condition, .. } | Statement::IfElse { condition, .. } => {
                condition.has_access()
            }
            Statement::For { .. } => false,
        }
    }
}

impl Task {
    /// The statements with an access, in text order: the place of each is its site.
    pub fn sites(&self, alloc: Global) -> Result<Vec<&Statement>, AllocError>
        ensures { IfOk result (λ sites.
            map (λ s. statement_of s.now) sites.items ≡ sites_of (block_of self.now.body.items)) }
    {
        let mut found = Vec::new(alloc);
        add_sites(&mut found, self.body.as_slice())?;
        Ok(found)
    }
}

/// Adds the statements with an access of a block.
#[cycle(sites)]
fn add_sites<'a>(found: &mut Vec<&'a Statement>, block: &'a [Statement]) -> Result<(), AllocError>
    ensures { OnOk result
        (map (λ s. statement_of s.now) found.new.items
        ≡ map (λ s. statement_of s.now) found.old.items ++ sites_of (block_of block.now)) }
{
    for statement in block {
        add_accesses(found, statement)?;
    }
    Ok(())
}

/// Adds the statements with an access of a statement and of all that stands in it.
#[cycle(sites)]
fn add_accesses<'a>(
    found: &mut Vec<&'a Statement>,
    statement: &'a Statement,
) -> Result<(), AllocError>
    ensures { OnOk result
        (map (λ s. statement_of s.now) found.new.items
        ≡ map (λ s. statement_of s.now) found.old.items
        ++ accesses_of (statement_of statement.now)) }
{
    add_itself(found, statement)?;
    match statement {
        Statement::Load(_) | Statement::Assign { .. } | Statement::Call(_) => Ok(()),
        Statement::If { body, .. } => {
            add_sites(found, body.as_slice())?;
            Ok(())
        }
        Statement::IfElse {
            body,
            otherwise,
            ..
        } => {
            add_sites(found, body.as_slice())?;
            add_sites(found, otherwise.as_slice())?;
            Ok(())
        }
        Statement::For { body, .. } => {
            add_sites(found, body.as_slice())?;
            Ok(())
        }
    }
}

/// Adds the statement, if it makes an access itself.
fn add_itself<'a>(
    found: &mut Vec<&'a Statement>,
    statement: &'a Statement,
) -> Result<(), AllocError>
    ensures { OnOk result
        (map (λ s. statement_of s.now) found.new.items
        ≡ map (λ s. statement_of s.now) found.old.items ++ itself (statement_of statement.now)) }
{
    if statement.has_access() {
        found.push(statement)?;
    }
    Ok(())
}
