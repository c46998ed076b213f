//! What a task does next.

use access_types::Kind;
use litmus_syntax::{Expression, Statement};

/// What a task does next. A site is that of the access, or of the next one where there is none.
#[derive(Clone, Copy)]
pub enum Due<'a> {
    /// A statement without a block, and that is no scoped assertion.
    Statement {
        statement: &'a Statement,
        site: usize,
    },
    /// A scoped assertion begins: it is in force to the end of its block.
    Opens {
        kind: Kind,
        variable: usize,
        site: usize,
    },
    /// The condition of an `if`, whose block is next where its value isn't 0.
    Condition {
        condition: &'a Expression,
        site: usize,
    },
    /// The register of a loop gets the number of the turn that comes, or of turns after the last.
    Sets {
        register: usize,
        value: u64,
    },
    /// The newest scoped assertion ends.
    Closes,
    /// Nothing: a block is over.
    Leaves,
    /// Nothing more: the text is over.
    Ends,
}
