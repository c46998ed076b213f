//! The rules of a run, as KCSAN's options and parameters set them.

use watch_word::Layout;

/// What all checks of a run go by.
#[derive(Clone, Copy)]
pub struct Rules {
    /// How many page slots there are.
    pub slots: usize,
    /// How many accesses are skipped between two that are watched.
    pub skip: u64,
    /// Whether skips are drawn at random.
    pub randomize: bool,
    /// The seed of task 0's generator. Task T has this and T.
    pub seed: u64,
    /// Whether a hit is reported only where the value changed, as by KCSAN's option of this name.
    pub value_change_only: bool,
    /// Whether aligned plain writes count as marked, as by KCSAN's option of this name.
    pub plain_writes_atomic: bool,
    /// How many bits a watch word has.
    pub layout: Layout,
    /// At so many failed tries of one wait the task is stuck.
    pub turns: u64,
}
