//! Programs of one process, read from a row.

ghost use Rattle.std.specs.Prelude.{IfOk};
ghost use Rattle.litmus_syntax.specs.Limits.{KeepsLimits};
ghost use Rattle.litmus_syntax.specs.Views.{program_of};

use crate::fault::Fault;
use litmus_parse::{Program, parse};
use litmus_syntax::Statement;
use prepared_program::program_layout::Layout;
use std::alloc::Global;
use task_plan::Walk;
use task_plan::count::sites_in;

/// At most so many statements of a process have an access.
pub const SITES: usize = 256;

/// At most so many variables are in a program.
pub const VARIABLES: usize = 32;

/// The program of a process, of which a row has the parameters and the body.
pub fn program_of(alloc: Global, process: &str) -> Result<Program, Fault>
    ensures { IfOk result (λ program. KeepsLimits (program_of program)) }
{
    program_from(alloc, "{}", process)
}

/// The program of a process and of a block that says what its variables hold at first.
pub fn program_from(alloc: Global, block: &str, process: &str) -> Result<Program, Fault>
    ensures { IfOk result (λ program. KeepsLimits (program_of program)) }
{
    let text = format!(in alloc; "C t\n{block}\nP0{process}\nexists (true)\n")?;
    Ok(parse(alloc, text.as_bytes())?)
}

/// The body of the process.
pub fn body_of(program: &Program) -> Result<&[Statement], Fault> {
    match program.tasks.as_slice().first() {
        Some(task) => Ok(task.body.as_slice()),
        None => Err(Fault::NoRow),
    }
}

/// The beginning of a body.
pub fn walk_of<'p>(alloc: Global, body: &'p [Statement]) -> Result<Walk<'p>, Fault> {
    if sites_in(body) > SITES {
        return Err(Fault::NoRow);
    }
    Ok(Walk::new(alloc, body)?)
}

/// Where the variables of a program stand without places.
pub fn layout_of(alloc: Global, program: &Program) -> Result<Layout, Fault> {
    let variables = program.variables.as_slice();
    if variables.len() > VARIABLES {
        return Err(Fault::NoRow);
    }
    Ok(Layout::new(alloc, variables, &[])?)
}
