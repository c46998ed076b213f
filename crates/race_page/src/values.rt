//! What a page tells: of each file its text, and what was found of its races.

use prepared_program::program_sites::Settings;
use prepared_program::step_schedule::Entry;
use race_output::FileVerdict;
use race_output::sites::SiteTold;
use races::Verdict;
use search_text::Stopped;

/// What is told of a pair of sites whose accesses conflict.
#[derive(Drop)]
pub struct PairTold {
    pub first: SiteTold,
    pub second: SiteTold,
    /// The names of the two variables, or that of both.
    pub variable: Vec<u8>,
    pub verdict: Verdict,
    /// A schedule that shows it, if there is one.
    pub schedule: Option<Vec<Entry>>,
    /// The picture of an execution under that schedule, as SVG, if there is one.
    pub picture: Option<Vec<u8>>,
}

/// What is told of the races of a file.
#[derive(Drop)]
pub struct RacesTold {
    pub verdict: FileVerdict,
    pub pairs: Vec<PairTold>,
    /// How many states were visited where nothing is watched.
    pub unwatched_states: u64,
    /// Whether that walk was stopped.
    pub unwatched_stopped: Stopped,
    /// How many schedules were searched for reports.
    pub schedules: u64,
    /// How many states were visited where accesses are watched.
    pub states: u64,
    /// Whether that walk was stopped.
    pub stopped: Stopped,
}

/// What came of a file.
#[derive(Drop)]
pub enum FileEnd {
    /// Its races were looked for, and this was found.
    Found(RacesTold),
    /// They weren't, and these words say why.
    Refused(Vec<u8>),
}

/// A file of a page. Its name and its text may have any bytes; the text of a file that isn't read is empty.
#[derive(Drop)]
pub struct FileTold {
    pub name: Vec<u8>,
    pub text: Vec<u8>,
    pub end: FileEnd,
}

/// A page: its files, the settings under which their races were looked for, and the program that did.
#[derive(Clone, Copy)]
pub struct Page<'a> {
    pub files: &'a [FileTold],
    pub settings: &'a Settings,
    pub program: &'a str,
}
