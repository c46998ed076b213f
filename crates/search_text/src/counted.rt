//! How many lists have what is found of the first ones.

ghost use Rattle.std.specs.Prelude.{◌≡◌, ◌<◌, IfOk, List, length};
ghost use Rattle.std.specs.Option.{option_map};
ghost use Rattle.search_text.specs.Counted.{AreCountsOf, with_count_at, with_counts};
ghost use Rattle.search_text.specs.FirstLists.{KeepsFirstLists};
ghost use Rattle.access_types.specs.Sites.{AccessMap};
ghost use Rattle.search_text.specs.SearchFindings.{AreKnown, Finds, Searched};

use crate::found::SearchFindings;
use crate::seen::{Seen, Sightings};
use std::alloc::AllocError;

/// How many of all lists have what is found of some of them. Each count rests at 2^64 - 1.
#[derive(Drop)]
pub struct ListCounts {
    /// How many have each text of a report that is found, in their order.
    pub reports: Vec<u64>,
    /// After how many not all tasks have ended.
    pub stuck: u64,
    /// How many have each final state that is found, in their order.
    pub states: Vec<u64>,
    /// How many there are.
    pub searched: u64,
    /// In how many whole ones the proposition of the condition holds.
    pub held: u64,
    /// In how many whole ones it does not.
    pub failed: u64,
}

/// Puts in how many lists something is, if it is in one.
fn set_stuck(stuck: &mut Option<Seen>, times: u64)
    ensures { stuck.new ≡ option_map (λ seen. (times, seen.1)) stuck.old }
{
    if let Some(seen) = stuck {
        seen.set_times(times);
    }
}

impl Sightings {
    /// Puts in how many lists the text at a place is.
    fn set_times_at(&mut self, place: usize, times: u64)
        requires { place < length self.old }
        ensures { self.new ≡ with_count_at self.old place times }
    {
        self.seen[place].set_times(times);
    }

    /// Puts in how many lists each text is, in their order.
    fn set_times(&mut self, counts: &[u64])
        requires { length counts.now ≡ length self.old }
        ensures { self.new ≡ with_counts counts.now self.old }
    {
        for (place, times) in counts.iter().enumerate() {
            self.set_times_at(place, *times);
        }
    }
}

impl SearchFindings {
    /// Puts the counts of all lists in place of those of the first ones.
    ///
    /// It fails where there are more or fewer counts than texts, which counts of these texts never are.
    pub fn counted(mut self, counts: ListCounts) -> Result<SearchFindings, AllocError>
        ensures finds { (all some : List Searched) → Finds some self → KeepsFirstLists (λ one. one) all some → AreCountsOf all self counts
            → IfOk result (Finds all) }
        ensures known { (sites : AccessMap) → AreKnown sites self → IfOk result (AreKnown sites) }
    {
        if counts.reports.len() != self.reports.len() || counts.states.len() != self.states.len() {
            return Err(AllocError);
        }
        self.reports.set_times(&counts.reports);
        set_stuck(&mut self.stuck, counts.stuck);
        self.states.set_times(&counts.states);
        self.searched = counts.searched;
        self.held = counts.held;
        self.failed = counts.failed;
        Ok(self)
    }
}
