//! In which order an access goes through its three indices: to look for a watchpoint, and to set one up.
//!
//! Of kernel/kcsan/core.c: the order of `find_watchpoint` and that of `insert_watchpoint`.

pub mod place;

pub use place::ProbeIndex;
