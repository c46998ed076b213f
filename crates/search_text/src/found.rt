//! What is found of the lists that were searched.

ghost use Rattle.std.specs.Prelude.{◌≡◌, ◌==◌, ◌↔◌, ◌++◌, ◌∷◌, [], Contains, IfOk, IsTrue, List, OnOk, fold, length, map, not};
ghost use Rattle.std.specs.List.{flat_map, list_any};
ghost use Rattle.access_types.specs.Sites.{AccessMap};
ghost use Rattle.report_text.specs.ReportOf.{report_text};
ghost use Rattle.search_text.specs.SearchFindings.{AreKnown, EndsAdded, Finds, Searched, is_deadlocked, option_again, states_of, texts_of_all};
ghost use Rattle.search_text.specs.Seen.{sighted};
ghost use Rattle.search_text.specs.Texts.{ending_of, texts_in};

use crate::seen::{Seen, Sightings};
use crate::texts::texts_of;
use access_types::{Report, Sites};
use prepared_program::step_schedule::Entry;
use std::alloc::{AllocError, Global};

/// How a list ends after which all tasks have ended.
#[derive(Drop)]
pub struct Ending {
    /// The final state as text.
    pub state: Vec<u8>,
    /// Whether the proposition of the condition holds there.
    pub held: bool,
}

/// What is found of the lists that were searched so far. Each count rests at 2^64 - 1.
#[derive(Drop)]
pub struct SearchFindings {
    pub(crate) reports: Sightings,
    /// The reports of the lists that were added, by which a text can be traced to its accesses.
    pub(crate) known: Vec<Report>,
    pub(crate) stuck: Option<Seen>,
    pub(crate) states: Sightings,
    pub(crate) searched: u64,
    pub(crate) held: u64,
    pub(crate) failed: u64,
}

/// Adds texts of the list of this schedule, each once.
fn add_texts(
    alloc: Global,
    sightings: &mut Sightings,
    texts: Vec<Vec<u8>>,
    schedule: &[Entry],
) -> Result<(), AllocError>
    ensures { OnOk result (sightings.new ≡ fold (sighted schedule.now) sightings.old (texts_in texts.items)) }
{
    for text in texts {
        sightings.add(alloc, text, schedule)?;
    }
    Ok(())
}

/// Adds that something is seen in the list of this schedule.
fn add_seen(alloc: Global, seen: &mut Option<Seen>, schedule: &[Entry]) -> Result<(), AllocError>
    ensures { OnOk result (seen.new ≡ option_again schedule.now seen.old) }
{
    match seen {
        Some(seen) => seen.again(),
        None => *seen = Some(Seen::once(alloc, schedule)?),
    }
    Ok(())
}

impl SearchFindings {
    /// Of no list.
    pub fn new(alloc: Global) -> SearchFindings
        ensures none { Finds [] result }
        ensures known { (sites : AccessMap) → AreKnown sites result }
    {
        SearchFindings {
            reports: Sightings::new(alloc),
            known: Vec::new(alloc),
            stuck: None,
            states: Sightings::new(alloc),
            searched: 0,
            held: 0,
            failed: 0,
        }
    }

    /// How many lists were searched.
    pub fn searched(&self) -> u64
        ensures { result ≡ self.now.searched }
    {
        self.searched
    }

    /// Whether there is a report in one of them.
    pub fn has_report(&self) -> bool
        ensures { (lists : List Searched) → Finds lists self.now → result ≡ not (length (texts_of_all lists) == 0) }
    {
        self.reports.len() != 0
    }

    /// The texts of their reports.
    pub fn reports(&self) -> &Sightings
        ensures { result.now ≡ self.now.reports }
    {
        &self.reports
    }

    /// The reports of the lists that were added: of each text that is found one at least.
    pub fn known(&self) -> &[Report]
        ensures { result.now ≡ self.now.known.items }
    {
        &self.known
    }

    /// The final states of whole ones, as texts.
    pub fn states(&self) -> &Sightings
        ensures { result.now ≡ self.now.states }
    {
        &self.states
    }

    /// In how many of them not all tasks have ended, and the schedule of the first, if there is one.
    pub fn stuck(&self) -> &Option<Seen>
        ensures { result.now ≡ self.now.stuck }
    {
        &self.stuck
    }

    /// In how many whole ones the proposition of the condition holds.
    pub fn held(&self) -> u64
        ensures { result ≡ self.now.held }
    {
        self.held
    }

    /// In how many whole ones it doesn't.
    pub fn failed(&self) -> u64
        ensures { result ≡ self.now.failed }
    {
        self.failed
    }

    /// Whether one of them has a report of this text.
    pub fn has_report_text(&self, text: &[u8]) -> bool
        ensures { (lists : List Searched) → Finds lists self.now → IsTrue result ↔ Contains (texts_of_all lists) text.now }
    {
        self.reports.contains(text)
    }

    /// Whether not all tasks have ended after one of them.
    pub fn has_stuck(&self) -> bool
        ensures { (lists : List Searched) → Finds lists self.now → result ≡ list_any is_deadlocked lists }
    {
        self.stuck.is_some()
    }

    /// Whether a whole one of them has this final state, as text.
    pub fn has_state(&self, state: &[u8]) -> bool
        ensures { (lists : List Searched) → Finds lists self.now → IsTrue result ↔ Contains (flat_map states_of lists) state.now }
    {
        self.states.contains(state)
    }

    /// Counts how a list of this schedule ended, or that not all its tasks did.
    fn add_ending(
        &mut self,
        alloc: Global,
        schedule: &[Entry],
        ending: Option<Ending>,
    ) -> Result<(), AllocError>
        ensures { OnOk result (EndsAdded schedule.now (ending_of ending) self.old self.new) }
    {
        match ending {
            Some(ending) => {
                self.states.add(alloc, ending.state, schedule)?;
                if ending.held {
                    self.held = self.held.saturating_add(1);
                } else {
                    self.failed = self.failed.saturating_add(1);
                }
            }
            None => add_seen(alloc, &mut self.stuck, schedule)?,
        }
        Ok(())
    }

    /// Adds one list more: its reports, of the accesses that their tickets name among the sites, its schedule, and how
    /// it ended, if all tasks did.
    ///
    /// The only error is want of memory, after which what is found is of no use.
    pub fn add(
        &mut self,
        alloc: Global,
        reports: &[Report],
        sites: &Sites,
        schedule: &[Entry],
        ending: Option<Ending>,
    ) -> Result<(), AllocError>
        ensures finds { (lists : List Searched) (one : Searched) → Finds lists self.old
            → one.texts ≡ map (report_text sites.now) reports.now → one.schedule ≡ schedule.now → one.ending ≡ ending_of ending
            → OnOk result (Finds (lists ++ one ∷ []) self.new) }
        ensures known { AreKnown sites.now self.old → OnOk result (AreKnown sites.now self.new) }
    {
        let texts = texts_of(alloc, reports, sites)?;
        add_texts(alloc, &mut self.reports, texts, schedule)?;
        self.add_ending(alloc, schedule, ending)?;
        self.searched = self.searched.saturating_add(1);
        self.known.extend_from_slice(reports)?;
        Ok(())
    }
}
