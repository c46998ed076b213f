//! What the names in a task mean.

use litmus_syntax::{Name, Variable};
use std::alloc::Global;

/// The program's variables and the task's registers, by number, and what gives memory.
#[derive(Clone, Copy)]
pub struct Scope<'a> {
    pub alloc: Global,
    pub variables: &'a [Variable],
    pub registers: &'a [Name],
}
