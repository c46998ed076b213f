//! What is seen in lists that are searched, one after the other.

ghost use Rattle.std.specs.Prelude.{◌≡◌, ◌==◌, [], IfOk, OnOk, length, slice_get};
ghost use Rattle.std.specs.List.{list_any};
ghost use Rattle.std.specs.Option.{option_map};
ghost use Rattle.report_text.specs.Groups.{is_text};
ghost use Rattle.search_text.specs.Joined.{later_too};
ghost use Rattle.search_text.specs.Seen as spec;
ghost use Rattle.search_text.specs.Seen.{sighted};

use indexmap::IndexMap;
use prepared_program::step_schedule::Entry;
use std::alloc::{AllocError, Global};
use std::marker::Model;

/// In how many lists something was seen, and the schedule of the first of them. The count rests at 2^64 - 1.
#[derive(Drop)]
pub struct Seen {
    times: u64,
    first: Vec<Entry>,
}

impl Model for Seen {
    ghost use Rattle.std.specs.Prelude.{ℕ};
    ghost use Rattle.search_text.specs.Times.{Times};

    ghost Value = { Times };

    ghost view = { λ seen. (seen.times, seen.first.items) };
}

impl Seen {
    /// In so many lists, the first of which has this schedule.
    pub fn new(times: u64, first: Vec<Entry>) -> Seen
        ensures { result ≡ (times, first.items) }
    {
        Seen { times, first }
    }

    /// In the list of this schedule.
    pub fn once(alloc: Global, schedule: &[Entry]) -> Result<Seen, AllocError>
        ensures { IfOk result (λ seen. seen ≡ (1, schedule.now)) }
    {
        Ok(Seen {
            times: 1,
            first: schedule.to_vec(alloc)?,
        })
    }

    /// In one list more.
    pub fn again(&mut self)
        ensures { self.new ≡ spec.again self.old }
    {
        self.times = self.times.saturating_add(1);
    }

    /// In so many later lists too.
    pub(crate) fn add_times(&mut self, later: u64)
        ensures { self.new ≡ later_too self.old later }
    {
        self.times = self.times.saturating_add(later);
    }

    /// In so many lists instead.
    pub(crate) fn set_times(&mut self, times: u64)
        ensures { self.new ≡ (times, self.old.1) }
    {
        self.times = times;
    }

    /// In how many lists.
    pub fn times(&self) -> u64
        ensures { result ≡ self.now.0 }
    {
        self.times
    }

    /// The schedule of the first.
    pub fn first(&self) -> &[Entry]
        ensures { result.now ≡ self.now.1 }
    {
        &self.first
    }
}

/// Texts, each once, in the order in which they were first seen, each with in how many lists it was and the schedule of
/// the first.
#[derive(Drop)]
pub struct Sightings {
    pub(crate) seen: IndexMap<Vec<u8>, Seen>,
}

impl Model for Sightings {
    ghost use Rattle.std.specs.Prelude.{List, map};
    ghost use Rattle.search_text.specs.Times.{Sighting};

    ghost Value = { List Sighting };

    ghost view = { λ sightings. map (λ entry. (entry.0.items, entry.1)) sightings.seen.entries };
}

impl Sightings {
    /// No text. Those that are added later take their memory from this allocator.
    pub fn new(alloc: Global) -> Sightings
        ensures { result ≡ [] }
    {
        Sightings {
            seen: IndexMap::new(alloc),
        }
    }

    /// How many texts there are.
    pub fn len(&self) -> usize
        ensures { result ≡ length self.now }
    {
        self.seen.len()
    }

    /// The text at a place, if there is one.
    pub fn text(&self, place: usize) -> Option<&[u8]>
        ensures { option_map (λ text. text.now) result ≡ option_map (λ sighting. sighting.0) (slice_get self.now place) }
    {
        match self.seen.get_index(place) {
            Some((text, _)) => Some(text.as_slice()),
            None => None,
        }
    }

    /// The text at a place, with in how many lists it was and the schedule of the first, if there is one.
    pub fn get(&self, place: usize) -> Option<(&[u8], &Seen)>
        ensures { option_map (λ one. (one.0.now, one.1.now)) result ≡ slice_get self.now place }
    {
        match self.seen.get_index(place) {
            Some((text, seen)) => Some((text.as_slice(), seen)),
            None => None,
        }
    }

    /// Whether a text is one of them.
    pub fn contains(&self, text: &[u8]) -> bool
        ensures { result ≡ list_any (λ sighting. is_text text.now sighting.0) self.now }
    {
        self.seen.contains_key(text)
    }

    /// Adds a text of the list of this schedule, which has not been added of it yet.
    pub fn add(
        &mut self,
        alloc: Global,
        text: Vec<u8>,
        schedule: &[Entry],
    ) -> Result<(), AllocError>
        ensures { OnOk result (self.new ≡ sighted schedule.now self.old text.items) }
    {
        match self.seen.get_index_of(&text) {
            Some(at) => {
                self.seen[at].again();
                Ok(())
            }
            None => {
                let seen = Seen::once(alloc, schedule)?;
                self.seen.insert(text, seen)?;
                Ok(())
            }
        }
    }
}
