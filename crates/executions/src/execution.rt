//! Executions: the lists of steps that the tasks of a litmus program can make on the words that they
//! share, what such a list tells, and what is true of each.

pub mod laws;
