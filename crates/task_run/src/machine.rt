//! What a task goes by, and how far it has come, between two parts of its text.

use access_types::Sites;
use litmus_syntax::Variable;
use prepared_program::program_layout::Layout;
use setup_access::{Begun, Checker, Rules};
use std::sync::Arc;
use task_plan::{Progress, Walk};

/// What a task goes by, and how far it has come in its text. What it is doing there is told beside it.
#[derive(Drop)]
pub(crate) struct Machine<'a> {
    pub(crate) task: u32,
    pub(crate) rules: Rules,
    pub(crate) variables: &'a [Variable],
    /// Where the variables of the whole program stand.
    pub(crate) layout: Arc<Layout>,
    /// The accesses of the whole program, by ticket.
    pub(crate) sites: Arc<Sites>,
    pub(crate) walk: Walk<'a>,
    pub(crate) progress: Progress,
    /// So many scoped assertions are in force.
    pub(crate) in_force: usize,
    pub(crate) checker: Checker,
    /// The newest access, as long as its begin is the next step.
    pub(crate) begins: Option<Begun>,
}

/// What is due needs more than the machine has room for.
#[derive(Clone, Copy)]
pub(crate) struct Beyond;
