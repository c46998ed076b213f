//! What one part of a search leaves.

use prepared_program::program_layout::Place;
use search_text::{FindingsParts, Stopped};
use watch_word::Layout;

/// What a search goes by, but for where its variables stand.
#[derive(Clone, Copy, PartialEq)]
pub struct PartSettings {
    /// How many page slots there are.
    pub slots: u64,
    /// How many accesses are skipped between two that are watched.
    pub skip: u64,
    /// Whether skips are drawn at random.
    pub randomize: bool,
    /// The seed of task 0's generator. Task T has this and T.
    pub seed: u64,
    /// Whether a hit is reported only where the value changed, as by KCSAN's option of this name.
    pub value_change_only: bool,
    /// Whether aligned plain writes count as marked, as by KCSAN's option of this name.
    pub plain_writes_atomic: bool,
    /// How many bits a watch word has.
    pub layout: Layout,
    /// At so many failed tries of one wait a task is stuck.
    pub turns: u64,
    /// How many preemptions a schedule may have.
    pub switches: u64,
    /// After how many nodes the search of a part stops, though others remain.
    pub limit: u64,
    /// After how many seconds it stops, if these are bounded.
    pub seconds: Option<u64>,
    /// Whether the trace of the first schedule with a report is kept.
    pub traced: bool,
    /// Whether reports of unknown origin are printed.
    pub unknown_origin: bool,
}

/// What one of so many parts of the search of a litmus file leaves.
#[derive(Drop)]
pub struct Part {
    /// The name of the file, as it was given.
    pub file: String,
    /// The text of the file.
    pub text: Vec<u8>,
    /// Where some of its variables stand, in the order in which that was given.
    pub places: Vec<Place>,
    pub settings: PartSettings,
    /// Which part this is, from 1.
    pub part: u64,
    /// How many there are.
    pub parts: u64,
    /// How many nodes were visited.
    pub nodes: u64,
    /// Whether the search of the part was stopped.
    pub stopped: Stopped,
    /// What is found of its schedules.
    pub found: FindingsParts,
    /// The trace of the first schedule with a report, if it is wanted and there is one.
    pub trace: Option<Vec<u8>>,
}
