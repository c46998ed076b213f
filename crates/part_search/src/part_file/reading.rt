//! The part that is read of a value of JSON.

ghost use Rattle.std.specs.Prelude.{◌≡◌, IfOk, map};
ghost use Rattle.part_search.specs.part_file.Reads as spec;
ghost use Rattle.part_search.specs.part_file.Views.{findings_view, part_view};
ghost use Rattle.search_text.specs.Joined.{sightings_of};
ghost use Rattle.serde_json.specs.View.{view};

use crate::part_file::members::{
    bytes_at, bytes_if_at, flag_at, items_at, member_at, number_at, number_if_at, number_item,
    text_at,
};
use crate::part_file::part::{Part, PartSettings};
use access_types::{Report, ValueChange};
use litmus_syntax::Name;
use prepared_program::program_layout::Place;
use prepared_program::step_schedule::Entry;
use search_text::{FindingsParts, Seen, SeenText, Stopped};
use serde_json::Value;
use std::alloc::{AllocError, Global};
use watch_word::Layout;

/// An entry of a schedule.
fn entry_of(value: &Value) -> Entry
    ensures { result ≡ spec.entry_in (view value.now) }
{
    Entry {
        task: number_item(value, 0),
        steps: number_item(value, 1),
    }
}

/// The entries of a schedule.
fn entries_of(alloc: Global, values: &[Value]) -> Result<Vec<Entry>, AllocError>
    ensures { IfOk result (λ entries. entries.items ≡ map (λ value. spec.entry_in (view value)) values.now) }
{
    let mut entries = Vec::new(alloc);
    for value in values {
        entries.push(entry_of(value))?;
    }
    Ok(entries)
}

/// The schedule that a member is.
fn entries_at(alloc: Global, value: &Value, key: &str) -> Result<Vec<Entry>, AllocError>
    ensures { IfOk result (λ entries. entries.items ≡ spec.entries_at key.now (view value.now)) }
{
    match items_at(value, key) {
        Some(items) => entries_of(alloc, items.as_slice()),
        None => Ok(Vec::new(alloc)),
    }
}

/// A text that was seen in schedules.
#[tactic(auto, unfolding(crate::specs::part_file::Reads::sighting_in))]
fn sighting_of(alloc: Global, value: &Value) -> Result<SeenText, AllocError>
    ensures { IfOk result (λ one. (one.text.items, one.seen) ≡ spec.sighting_in (view value.now)) }
{
    let first = entries_at(alloc, value, "first")?;
    let text = bytes_at(alloc, value, "text")?;
    Ok(SeenText {
        text,
        seen: Seen::new(number_at(value, "count"), first),
    })
}

/// Texts that were seen in schedules.
fn sightings_of(alloc: Global, values: &[Value]) -> Result<Vec<SeenText>, AllocError>
    ensures { IfOk result (λ all. sightings_of all.items ≡ map (λ value. spec.sighting_in (view value)) values.now) }
{
    let mut all = Vec::new(alloc);
    for value in values {
        let one = sighting_of(alloc, value)?;
        all.push(one)?;
    }
    Ok(all)
}

/// The texts that a member has.
fn sightings_at(alloc: Global, value: &Value, key: &str) -> Result<Vec<SeenText>, AllocError>
    ensures { IfOk result (λ all. sightings_of all.items ≡ spec.sightings_at key.now (view value.now)) }
{
    match items_at(value, key) {
        Some(items) => sightings_of(alloc, items.as_slice()),
        None => Ok(Vec::new(alloc)),
    }
}

/// Deadlocks, if they are counted.
#[tactic(auto, unfolding(crate::specs::part_file::Reads::stuck_in))]
fn stuck_of(alloc: Global, value: &Value) -> Result<Option<Seen>, AllocError>
    ensures { IfOk result (λ stuck. stuck ≡ spec.stuck_in (view value.now)) }
{
    match number_if_at(value, "count") {
        Some(count) => {
            let first = entries_at(alloc, value, "first")?;
            Ok(Some(Seen::new(count, first)))
        }
        None => Ok(None),
    }
}

/// The ticket that a number is. A ticket has 32 bits.
fn ticket_of(number: u64) -> u32
    ensures { result ≡ spec.ticket_of number }
{
    if number < 1 << 32 { number as u32 } else { 0 }
}

/// A change of bytes, if both are known.
fn change_of(old: Option<u64>, new: Option<u64>) -> Option<ValueChange>
    ensures { result ≡ spec.change_in old new }
{
    match old {
        None => None,
        Some(old) => match new {
            None => None,
            Some(new) => Some(ValueChange { old, new }),
        },
    }
}

/// A report.
#[tactic(auto, unfolding(crate::specs::part_file::Reads::report_in))]
fn report_of(value: &Value) -> Report
    ensures { result ≡ spec.report_in (view value.now) }
{
    let setter = ticket_of(number_at(value, "setter"));
    let old = number_if_at(value, "old");
    let new = number_if_at(value, "new");
    match number_if_at(value, "finder") {
        Some(finder) => Report::Two {
            setter,
            finder: ticket_of(finder),
            seen: change_of(old, new),
        },
        None => Report::Unknown {
            setter,
            old: old.unwrap_or(0),
            new: new.unwrap_or(0),
        },
    }
}

/// Reports.
fn known_of(alloc: Global, values: &[Value]) -> Result<Vec<Report>, AllocError>
    ensures { IfOk result (λ known. known.items ≡ map (λ value. spec.report_in (view value)) values.now) }
{
    let mut known = Vec::new(alloc);
    for value in values {
        known.push(report_of(value))?;
    }
    Ok(known)
}

/// The reports that a member has.
fn known_at(alloc: Global, value: &Value, key: &str) -> Result<Vec<Report>, AllocError>
    ensures { IfOk result (λ known. known.items ≡ spec.known_at key.now (view value.now)) }
{
    match items_at(value, key) {
        Some(items) => known_of(alloc, items.as_slice()),
        None => Ok(Vec::new(alloc)),
    }
}

/// What is found of the schedules of a part.
#[tactic(auto, unfolding(crate::specs::part_file::Reads::findings_in))]
fn findings_of(alloc: Global, value: &Value) -> Result<FindingsParts, AllocError>
    ensures { IfOk result (λ found. findings_view found ≡ spec.findings_in (view value.now)) }
{
    let known = known_at(alloc, value, "known")?;
    let stuck = stuck_of(alloc, member_at(value, "stuck"))?;
    let states = sightings_at(alloc, value, "states")?;
    let reports = sightings_at(alloc, value, "reports")?;
    Ok(FindingsParts {
        reports,
        known,
        stuck,
        states,
        searched: number_at(value, "searched"),
        held: number_at(value, "held"),
        failed: number_at(value, "failed"),
    })
}

/// Where a variable stands.
#[tactic(auto, unfolding(crate::specs::part_file::Reads::place_in))]
fn place_of(alloc: Global, value: &Value) -> Result<Place, AllocError>
    ensures { IfOk result (λ place. place ≡ spec.place_in (view value.now)) }
{
    Ok(Place {
        name: Name::from_string(text_at(alloc, value, "name")?),
        addr: number_at(value, "address"),
    })
}

/// Where variables stand.
fn places_of(alloc: Global, values: &[Value]) -> Result<Vec<Place>, AllocError>
    ensures { IfOk result (λ places. places.items ≡ map (λ value. spec.place_in (view value)) values.now) }
{
    let mut places = Vec::new(alloc);
    for value in values {
        let place = place_of(alloc, value)?;
        places.push(place)?;
    }
    Ok(places)
}

/// The places that a member has.
fn places_at(alloc: Global, value: &Value, key: &str) -> Result<Vec<Place>, AllocError>
    ensures { IfOk result (λ places. places.items ≡ spec.places_at key.now (view value.now)) }
{
    match items_at(value, key) {
        Some(items) => places_of(alloc, items.as_slice()),
        None => Ok(Vec::new(alloc)),
    }
}

/// How many bits a watch word has.
fn layout_of(bits: u64) -> Layout
    ensures { result ≡ spec.layout_of bits }
{
    if bits == 32 { Layout::W32 } else { Layout::W64 }
}

/// What a search goes by.
#[tactic(auto, unfolding(crate::specs::part_file::Reads::settings_in))]
fn settings_of(value: &Value) -> PartSettings
    ensures { result ≡ spec.settings_in (view value.now) }
{
    PartSettings {
        slots: number_at(value, "slots"),
        skip: number_at(value, "skip"),
        randomize: flag_at(value, "randomize"),
        seed: number_at(value, "seed"),
        value_change_only: flag_at(value, "value_change_only"),
        plain_writes_atomic: flag_at(value, "plain_writes_atomic"),
        layout: layout_of(number_at(value, "bits")),
        turns: number_at(value, "turns"),
        switches: number_at(value, "switches"),
        limit: number_at(value, "limit"),
        seconds: number_if_at(value, "seconds"),
        traced: flag_at(value, "traced"),
        unknown_origin: flag_at(value, "unknown_origin"),
    }
}

/// Whether a search was stopped.
fn stopped_at(value: &Value, key: &str) -> Stopped
    ensures { result ≡ spec.stopped_at key.now (view value.now) }
{
    match number_if_at(value, key) {
        Some(seconds) => Stopped::AfterSeconds(seconds),
        None => {
            if flag_at(value, key) {
                Stopped::AtLimit
            } else {
                Stopped::No
            }
        }
    }
}

/// A part.
#[tactic(auto, unfolding(crate::specs::part_file::Reads::part_in))]
pub(crate) fn part_of(alloc: Global, value: &Value) -> Result<Part, AllocError>
    ensures { IfOk result (λ part. part_view part ≡ spec.part_in (view value.now)) }
{
    let file = text_at(alloc, value, "file")?;
    let text = bytes_at(alloc, value, "text")?;
    let places = places_at(alloc, value, "places")?;
    let trace = bytes_if_at(alloc, value, "trace")?;
    let found = findings_of(alloc, member_at(value, "found"))?;
    Ok(Part {
        file,
        text,
        places,
        settings: settings_of(member_at(value, "settings")),
        part: number_at(value, "part"),
        parts: number_at(value, "parts"),
        nodes: number_at(value, "nodes"),
        stopped: stopped_at(value, "stopped"),
        found,
        trace,
    })
}
