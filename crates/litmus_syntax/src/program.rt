//! Litmus programs.

ghost use Rattle.std.specs.Prelude.{◌≡◌};
ghost use Rattle.litmus_syntax.specs.PrintedForm.{type_name};

use crate::names::{Name, Sequence};
use crate::proposition::{Proposition, Quantifier};
use crate::statement::Statement;

/// What a variable holds: its type, and its value at first.
#[derive(Clone, Copy, PartialEq, Eq)]
pub enum Contents {
    /// `char`, 1 byte.
    Char(i8),
    /// `short`, 2 bytes.
    Short(i16),
    /// `int`, 4 bytes.
    Int(i32),
    /// `long`, 8 bytes.
    Long(i64),
    /// `atomic_t`, 4 bytes.
    Atomic(i32),
    /// `spinlock_t`, which has no bytes and is free at first.
    Lock,
}

impl Contents {
    /// The name of the type.
    pub fn type_name(self) -> &'static str
        ensures { result.now ≡ type_name self }
    {
        match self {
            Contents::Char(_) => "char",
            Contents::Short(_) => "short",
            Contents::Int(_) => "int",
            Contents::Long(_) => "long",
            Contents::Atomic(_) => "atomic_t",
            Contents::Lock => "spinlock_t",
        }
    }
}

/// A variable of a program.
#[derive(PartialEq, Drop)]
pub struct Variable {
    pub name: Name,
    pub contents: Contents,
}

/// A task: the variables that it is passed, the names of its registers, and what it does.
#[derive(PartialEq, Drop)]
pub struct Task {
    pub parameters: Sequence<usize>,
    pub registers: Sequence<Name>,
    pub body: Vec<Statement>,
}

/// A litmus program. Variables and the registers of a task are in the order in which the text first
/// names them.
#[derive(PartialEq, Drop)]
pub struct Program {
    pub name: Name,
    pub variables: Sequence<Variable>,
    pub tasks: Sequence<Task>,
    pub quantifier: Quantifier,
    pub condition: Proposition,
}
