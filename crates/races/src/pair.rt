//! Pairs of sites of a program.

/// A site of a task: the number of the task, and that of the access in its text, both from 0.
#[derive(Clone, Copy, Debug, PartialEq, Eq, Hash)]
pub struct SiteName {
    pub task: u32,
    pub site: u32,
}

/// Two sites of different tasks, that of the lower task first.
#[derive(Clone, Copy, Debug, PartialEq, Eq, Hash)]
pub struct SitePair {
    pub first: SiteName,
    pub second: SiteName,
}
