//! The blocks that a task stands in.

ghost use Rattle.std.specs.Prelude.{◌+◌, ◌<◌, ◌≤◌, length};
ghost use Rattle.litmus_syntax.specs.Sites.{sites_of};
ghost use Rattle.litmus_syntax.specs.Views.{block_of};

use litmus_syntax::Statement;

/// A loop, whose register is the number of the turn.
#[derive(Clone, Copy)]
pub(crate) struct Loop<'a> {
    pub(crate) register: usize,
    pub(crate) turns: u64,
    pub(crate) body: &'a [Statement],
    /// Of the body's first statement.
    pub(crate) site: usize,
    ghost sites: { site + length (sites_of (block_of body.now)) ≤ 256 },
}

/// A turn of a loop, by its number from 0.
#[derive(Clone, Copy)]
pub(crate) struct LoopTurn<'a> {
    pub(crate) of: Loop<'a>,
    pub(crate) number: u64,
    ghost under_way: { number < of.turns },
}

/// What follows on the end of a block.
#[derive(Clone, Copy)]
pub(crate) enum AtEnd<'a> {
    /// The statements after it.
    Leaves,
    /// The next turn of its loop after this one, if there is one.
    Repeats(LoopTurn<'a>),
}

/// A block that a task stands in.
#[derive(Clone, Copy)]
pub(crate) struct OpenBlock<'a> {
    pub(crate) left: &'a [Statement],
    /// Of the first statement left.
    pub(crate) site: usize,
    /// So many scoped assertions of the block are in force.
    pub(crate) scopes: usize,
    pub(crate) at_end: AtEnd<'a>,
    ghost in_force: { scopes ≤ site },
    ghost sites: { site + length (sites_of (block_of left.now)) ≤ 256 },
}

/// The blocks of an `if` whose condition a task has come to; `otherwise` is empty where it has none.
#[derive(Clone, Copy)]
pub(crate) struct Choice<'a> {
    pub(crate) body: OpenBlock<'a>,
    pub(crate) otherwise: OpenBlock<'a>,
}
