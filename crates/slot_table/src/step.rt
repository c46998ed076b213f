//! Steps, each one operation on one word, and their answers.

/// One operation on one word. Indices, cells and locks are numbered from 0.
#[derive(Clone, Copy, Debug, PartialEq, Eq, Hash)]
pub enum Step {
    /// Reads the watch word at an index.
    Load(usize),
    /// Sets up a watchpoint at an index, if there is none.
    Insert(usize, u64),
    /// Claims the watchpoint at an index, if it is still this word.
    TryConsume(usize, u64),
    /// Ends the watch at an index.
    Consume(usize),
    /// Frees an index.
    Remove(usize),
    /// Reads both halves of the pair word at an index.
    PairLoad(usize),
    /// Names the setter at an index by its ticket.
    Name(usize, u32),
    /// Tells the setter at an index who took its watchpoint, by the finder's ticket.
    Tell(usize, u32),
    /// Empties both halves of the pair word at an index.
    Clear(usize),
    /// Reads a cell.
    CellLoad(usize),
    /// Puts a new value into a cell, if it holds the expected one.
    CellExchange(usize, u64, u64),
    /// Takes a lock for a task, if it is free.
    LockTry(usize, u32),
    /// Frees a lock.
    LockStore(usize),
    /// Advances the clock.
    Clock,
}

/// What a step answers: a word, whether it was accepted, both halves of a pair, or nothing.
#[derive(Clone, Copy, Debug, PartialEq, Eq, Hash)]
pub enum Answer {
    Word(u64),
    Flag(bool),
    Halves(u32, u32),
    Done,
}
