//! What the clock's stamps tell: nothing that a task goes by. No code.

pub mod laws;
