//! What is found of lists and of later ones, joined; and what is found as plain data.

ghost use Rattle.std.specs.Prelude.{◌≡◌, ◌++◌, IfOk, List, OnOk, fold};
ghost use Rattle.access_types.specs.Sites.{AccessMap};
ghost use Rattle.search_text.specs.Joined.{both_seen, found_in, joined, sightings_of};
ghost use Rattle.search_text.specs.SearchFindings.{AreKnown, Finds, Searched};

use crate::found::SearchFindings;
use crate::seen::{Seen, Sightings};
use access_types::Report;
use std::alloc::{AllocError, Global};

/// A text, with in how many lists it is and the schedule of the first.
#[derive(Drop)]
pub struct SeenText {
    pub text: Vec<u8>,
    pub seen: Seen,
}

/// What is found of lists, as plain data. Each count rests at 2^64 - 1.
#[derive(Drop)]
pub struct FindingsParts {
    /// The distinct texts of reports, in the order in which they are first met.
    pub reports: Vec<SeenText>,
    /// Reports of the lists, by which a text can be traced to its accesses: of each text one at least.
    pub known: Vec<Report>,
    /// In how many lists not all tasks have ended, and the schedule of the first, if there is one.
    pub stuck: Option<Seen>,
    /// The distinct final states of whole ones, as texts, in the order in which they are first met.
    pub states: Vec<SeenText>,
    /// How many lists there are.
    pub searched: u64,
    /// In how many whole ones the proposition of the condition holds.
    pub held: u64,
    /// In how many whole ones it doesn't.
    pub failed: u64,
}

/// Adds that something is seen in later lists.
fn join_seen(seen: &mut Option<Seen>, later: Option<Seen>)
    ensures { seen.new ≡ both_seen seen.old later }
{
    match later {
        None => {}
        Some(later) => match seen {
            None => *seen = Some(later),
            Some(seen) => seen.add_times(later.times()),
        },
    }
}

impl Sightings {
    /// Adds a text that is seen in later lists.
    fn add_seen(&mut self, text: Vec<u8>, seen: Seen) -> Result<(), AllocError>
        ensures { OnOk result (self.new ≡ joined self.old (text.items, seen)) }
    {
        match self.seen.get_index_of(&text) {
            Some(at) => {
                self.seen[at].add_times(seen.times());
                Ok(())
            }
            None => {
                self.seen.insert(text, seen)?;
                Ok(())
            }
        }
    }

    /// Adds the texts that are seen in later lists.
    fn add_texts(&mut self, texts: Vec<SeenText>) -> Result<(), AllocError>
        ensures { OnOk result (self.new ≡ fold joined self.old (sightings_of texts.items)) }
    {
        for one in texts {
            self.add_seen(one.text, one.seen)?;
        }
        Ok(())
    }

    /// Its texts, in their order.
    fn into_texts(self, alloc: Global) -> Result<Vec<SeenText>, AllocError>
        ensures { IfOk result (λ texts. sightings_of texts.items ≡ self) }
    {
        let mut texts = Vec::new(alloc);
        for (text, seen) in self.seen {
            texts.push(SeenText { text, seen })?;
        }
        Ok(texts)
    }
}

impl SearchFindings {
    /// What is found, as plain data. The only error is want of memory.
    pub fn into_parts(self, alloc: Global) -> Result<FindingsParts, AllocError>
        ensures { IfOk result (λ parts. found_in parts ≡ self) }
    {
        let reports = self.reports.into_texts(alloc)?;
        let states = self.states.into_texts(alloc)?;
        Ok(FindingsParts {
            reports,
            known: self.known,
            stuck: self.stuck,
            states,
            searched: self.searched,
            held: self.held,
            failed: self.failed,
        })
    }

    /// Adds what is found of later lists, as plain data: it is then what is found of these lists and the later ones
    /// behind them.
    ///
    /// The only error is want of memory, after which what is found is of no use.
    pub fn join_parts(&mut self, later: FindingsParts) -> Result<(), AllocError>
        ensures finds { (lists more : List Searched) → Finds lists self.old → Finds more (found_in later)
            → OnOk result (Finds (lists ++ more) self.new) }
        ensures known { (sites : AccessMap) → AreKnown sites self.old → AreKnown sites (found_in later)
            → OnOk result (AreKnown sites self.new) }
    {
        self.reports.add_texts(later.reports)?;
        self.known.extend_from_slice(&later.known)?;
        join_seen(&mut self.stuck, later.stuck);
        self.states.add_texts(later.states)?;
        self.searched = self.searched.saturating_add(later.searched);
        self.held = self.held.saturating_add(later.held);
        self.failed = self.failed.saturating_add(later.failed);
        Ok(())
    }

    /// Adds what is found of later lists: it is then what is found of these lists and the later ones behind them.
    ///
    /// The only error is want of memory, after which what is found is of no use.
    pub fn join(&mut self, alloc: Global, later: SearchFindings) -> Result<(), AllocError>
        ensures finds { (lists more : List Searched) → Finds lists self.old → Finds more later
            → OnOk result (Finds (lists ++ more) self.new) }
        ensures known { (sites : AccessMap) → AreKnown sites self.old → AreKnown sites later
            → OnOk result (AreKnown sites self.new) }
    {
        let later = later.into_parts(alloc)?;
        self.join_parts(later)?;
        Ok(())
    }

    /// What is found, of plain data. The only error is want of memory.
    pub fn from_parts(alloc: Global, parts: FindingsParts) -> Result<SearchFindings, AllocError>
        ensures finds { (lists : List Searched) → Finds lists (found_in parts) → IfOk result (Finds lists) }
        ensures known { (sites : AccessMap) → AreKnown sites (found_in parts) → IfOk result (AreKnown sites) }
    {
        let mut found = SearchFindings::new(alloc);
        found.join_parts(parts)?;
        Ok(found)
    }
}
