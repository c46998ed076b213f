//! What a user sets for a run.

ghost use Rattle.std.specs.Prelude.{◌≡◌, ◌<◌, ◌^◌};

use crate::program_layout::Place;
use setup_access::Rules;
use watch_word::Layout;

/// What a run of a program goes by.
#[derive(Drop)]
pub struct Settings {
    /// How many page slots there are.
    pub slots: usize,
    /// How many accesses are skipped between two that are watched.
    pub skip: u64,
    /// Whether skips are drawn at random.
    pub randomize: bool,
    /// The seed of task 0's generator. Task T has this and T.
    pub seed: u64,
    /// Whether a hit is reported only where the value changed, as by KCSAN's option of this name.
    pub value_change_only: bool,
    /// Whether aligned plain writes count as marked, as by KCSAN's option of this name.
    pub plain_writes_atomic: bool,
    /// How many bits a watch word has.
    pub layout: Layout,
    /// At so many failed tries of one wait a task is stuck.
    pub turns: u64,
    /// Where some of the variables stand.
    pub places: Vec<Place>,
}

/// So many failed tries, a number of 64 bits.
fn counted(turns: u64) -> u64
    ensures is { result ≡ turns }
    ensures small { turns < 2 ^ 64 }
{
    turns
}

impl Settings {
    ghost use Rattle.prepared_program.specs.program_sites.Settings.{rules_of};

    /// What checks go by.
    pub fn rules(&self) -> Rules
        ensures are { result ≡ rules_of self.now }
        ensures turns { self.now.turns < 2 ^ 64 }
    {
        Rules {
            slots: self.slots,
            skip: self.skip,
            randomize: self.randomize,
            seed: self.seed,
            value_change_only: self.value_change_only,
            plain_writes_atomic: self.plain_writes_atomic,
            layout: self.layout,
            turns: counted(self.turns),
        }
    }
}
