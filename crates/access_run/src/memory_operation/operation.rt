//! What an access does to its bytes. Values are numbers of 64 bits: they are cut to what the bytes
//! can hold when the operation is made.

/// What an access does to its bytes.
#[derive(Clone, Copy, Debug, PartialEq, Eq)]
pub enum Operation {
    /// Reads them: `*x`, `READ_ONCE` and the other loads.
    Load,
    /// Reads them, and then writes the sum with an amount: `*x += e` and `(*x)++`. These are two
    /// moments, and the sum is of what was read.
    Add(u64),
    /// Puts a value in the place of what they hold, at one moment.
    Change(Change),
}

/// How a value takes the place of another at one moment.
#[derive(Clone, Copy, Debug, PartialEq, Eq)]
pub enum Change {
    /// By `*x = e`, `WRITE_ONCE` and the other stores, which read nothing.
    Write(u64),
    /// By `xchg`.
    Exchange(u64),
    /// By `atomic_add` and its like: the sum of what is replaced and an amount.
    AtomicAdd(u64),
    /// By `cmpxchg`: only where the bytes hold the expected value.
    CompareExchange { expected: u64, replacement: u64 },
}
