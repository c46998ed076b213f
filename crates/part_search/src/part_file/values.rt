//! A part as a value of JSON.

ghost use Rattle.std.specs.Prelude.{◌≡◌, ◌^◌, ◌<◌, IfOk, IfSome, map, option_map};
ghost use Rattle.part_search.specs.part_file.Reads.{part_in, report_in};
ghost use Rattle.part_search.specs.part_file.Values as spec;
ghost use Rattle.part_search.specs.part_file.Views.{findings_view, part_view};
ghost use Rattle.search_text.specs.Joined.{sightings_of};
ghost use Rattle.serde_json.specs.Data.{string};
ghost use Rattle.serde_json.specs.View.{view};

use crate::part_file::part::{Part, PartSettings};
use access_types::{Report, ValueChange};
use output_pieces::values::array_value;
use output_pieces::{ObjectBuilder, add_item};
use prepared_program::program_layout::Place;
use prepared_program::step_schedule::Entry;
use search_text::{FindingsParts, Seen, SeenText, Stopped};
use serde_json::Value;
use std::alloc::{AllocError, Global};
use std::str::from_utf8;
use watch_word::Layout;

/// By this text a part is known, and how it is written.
pub const FORMAT: &str = "kcsan_litmus part 1";

/// A number, if it is known.
fn number_value(number: Option<u64>) -> Value
    ensures { view result ≡ spec.number_data number }
{
    match number {
        None => Value::Null,
        Some(number) => Value::from(number),
    }
}

/// Bytes as a text. All that are written are ASCII; it fails where they are no text, as where there is no room.
fn bytes_value(alloc: Global, bytes: &Vec<u8>) -> Result<Value, AllocError>
    ensures { IfOk result (λ value. view value ≡ string bytes.now.items) }
{
    match from_utf8(bytes.as_slice()) {
        Ok(text) => Value::try_from_str(alloc, text),
        Err(_) => Err(AllocError),
    }
}

/// The same, if there are some.
fn bytes_if_value(alloc: Global, found: &Option<Vec<u8>>) -> Result<Value, AllocError>
    ensures { IfOk result (λ value. view value ≡ spec.text_data (option_map (λ bytes. bytes.items) found.now)) }
{
    match found {
        None => Ok(Value::Null),
        Some(bytes) => bytes_value(alloc, bytes),
    }
}

/// An entry of a schedule.
fn entry_value(alloc: Global, entry: Entry) -> Result<Value, AllocError>
    ensures { IfOk result (λ value. view value ≡ spec.entry_data entry) }
{
    let mut values = Vec::new(alloc);
    add_item(&mut values, Ok(Value::from(entry.task)))?;
    add_item(&mut values, Ok(Value::from(entry.steps)))?;
    Ok(array_value(values))
}

/// The entries of a schedule.
fn entry_values(alloc: Global, entries: &[Entry]) -> Result<Vec<Value>, AllocError>
    ensures { IfOk result (λ values. map view values.items ≡ map spec.entry_data entries.now) }
{
    let mut values = Vec::new(alloc);
    for entry in entries {
        add_item(&mut values, entry_value(alloc, *entry))?;
    }
    Ok(values)
}

/// A schedule.
fn entries_value(alloc: Global, entries: &[Entry]) -> Result<Value, AllocError>
    ensures { IfOk result (λ value. view value ≡ spec.entries_data entries.now) }
{
    let values = entry_values(alloc, entries)?;
    Ok(array_value(values))
}

/// In how many schedules something was seen, and the first of them.
fn times_value(alloc: Global, seen: &Seen) -> Result<Value, AllocError>
    ensures { IfOk result (λ value. view value ≡ spec.times_data seen.now) }
{
    ObjectBuilder::new(alloc)
        .number("count", seen.times())
        .value("first", entries_value(alloc, seen.first()))
        .build()
}

/// The same, if it was seen.
fn stuck_value(alloc: Global, stuck: &Option<Seen>) -> Result<Value, AllocError>
    ensures { IfOk result (λ value. view value ≡ spec.stuck_data stuck.now) }
{
    match stuck {
        None => Ok(Value::Null),
        Some(seen) => times_value(alloc, seen),
    }
}

/// A text, in how many schedules it was seen, and the first of them.
fn sighting_value(alloc: Global, one: &SeenText) -> Result<Value, AllocError>
    ensures { IfOk result (λ value. view value ≡ spec.sighting_data (one.now.text.items, one.now.seen)) }
{
    ObjectBuilder::new(alloc)
        .number("count", one.seen.times())
        .value("first", entries_value(alloc, one.seen.first()))
        .value("text", bytes_value(alloc, &one.text))
        .build()
}

/// Such texts.
fn sighting_values(alloc: Global, all: &[SeenText]) -> Result<Vec<Value>, AllocError>
    ensures { IfOk result (λ values. map view values.items ≡ map spec.sighting_data (sightings_of all.now)) }
{
    let mut values = Vec::new(alloc);
    for one in all {
        add_item(&mut values, sighting_value(alloc, one))?;
    }
    Ok(values)
}

/// Such texts, as one value.
fn sightings_value(alloc: Global, all: &Vec<SeenText>) -> Result<Value, AllocError>
    ensures { IfOk result (λ value. view value ≡ spec.sightings_data (sightings_of all.now.items)) }
{
    let values = sighting_values(alloc, all.as_slice())?;
    Ok(array_value(values))
}

/// The ticket of the access that armed.
fn setter_of(report: Report) -> u64
    ensures is { result ≡ spec.setter_of report }
    ensures small { result < 2 ^ 32 }
{
    match report {
        Report::Two { setter, .. } => setter as u64,
        Report::Unknown { setter, .. } => setter as u64,
    }
}

/// The ticket of the access that took, if there is one.
fn finder_of(report: Report) -> Option<u64>
    ensures is { result ≡ spec.finder_of report }
    ensures small { IfSome result (λ finder. finder < 2 ^ 32) }
{
    match report {
        Report::Two { finder, .. } => Some(finder as u64),
        Report::Unknown { .. } => None,
    }
}

/// The change of the bytes, where one was seen.
fn change_of(report: Report) -> Option<ValueChange>
    ensures { result ≡ spec.change_of report }
{
    match report {
        Report::Two { seen, .. } => seen,
        Report::Unknown { old, new, .. } => Some(ValueChange { old, new }),
    }
}

/// What the bytes were before, if a change was seen.
fn old_value(change: Option<ValueChange>) -> Value
    ensures { view result ≡ spec.old_data change }
{
    match change {
        None => Value::Null,
        Some(change) => Value::from(change.old),
    }
}

/// What they were behind, if a change was seen.
fn new_value(change: Option<ValueChange>) -> Value
    ensures { view result ≡ spec.new_data change }
{
    match change {
        None => Value::Null,
        Some(change) => Value::from(change.new),
    }
}

/// A report.
fn report_value(alloc: Global, report: Report) -> Result<Value, AllocError>
    ensures value { IfOk result (λ value. view value ≡ spec.report_data report) }
    ensures back { report_in (spec.report_data report) ≡ report }
{
    let change = change_of(report);
    ObjectBuilder::new(alloc)
        .value("finder", Ok(number_value(finder_of(report))))
        .value("new", Ok(new_value(change)))
        .value("old", Ok(old_value(change)))
        .number("setter", setter_of(report))
        .build()
}

/// Reports.
fn report_values(alloc: Global, reports: &[Report]) -> Result<Vec<Value>, AllocError>
    ensures { IfOk result (λ values. (map view values.items ≡ map spec.report_data reports.now)
        × (map report_in (map spec.report_data reports.now) ≡ reports.now)) }
{
    let mut values = Vec::new(alloc);
    for report in reports {
        add_item(&mut values, report_value(alloc, *report))?;
    }
    Ok(values)
}

/// Reports, as one value.
fn known_value(alloc: Global, known: &Vec<Report>) -> Result<Value, AllocError>
    ensures { IfOk result (λ value. (view value ≡ spec.known_data known.now.items)
        × (map report_in (map spec.report_data known.now.items) ≡ known.now.items)) }
{
    let values = report_values(alloc, known.as_slice())?;
    Ok(array_value(values))
}

/// What is found of the schedules of a part.
fn findings_value(alloc: Global, found: &FindingsParts) -> Result<Value, AllocError>
    ensures { IfOk result (λ value. (view value ≡ spec.findings_data (findings_view found.now))
        × (map report_in (map spec.report_data found.now.known.items) ≡ found.now.known.items)) }
{
    let known = known_value(alloc, &found.known)?;
    ObjectBuilder::new(alloc)
        .number("failed", found.failed)
        .number("held", found.held)
        .value("known", Ok(known))
        .value("reports", sightings_value(alloc, &found.reports))
        .number("searched", found.searched)
        .value("states", sightings_value(alloc, &found.states))
        .value("stuck", stuck_value(alloc, &found.stuck))
        .build()
}

/// How many bits a watch word has.
fn bits_of(layout: Layout) -> u64
    ensures { result ≡ spec.bits_of layout }
{
    match layout {
        Layout::W64 => 64,
        Layout::W32 => 32,
    }
}

/// What a search goes by.
fn settings_value(alloc: Global, settings: PartSettings) -> Result<Value, AllocError>
    ensures { IfOk result (λ value. view value ≡ spec.settings_data settings) }
{
    ObjectBuilder::new(alloc)
        .number("bits", bits_of(settings.layout))
        .number("limit", settings.limit)
        .flag("plain_writes_atomic", settings.plain_writes_atomic)
        .flag("randomize", settings.randomize)
        .value("seconds", Ok(number_value(settings.seconds)))
        .number("seed", settings.seed)
        .number("skip", settings.skip)
        .number("slots", settings.slots)
        .number("switches", settings.switches)
        .flag("traced", settings.traced)
        .number("turns", settings.turns)
        .flag("unknown_origin", settings.unknown_origin)
        .flag("value_change_only", settings.value_change_only)
        .build()
}

/// Where a variable stands.
fn place_value(alloc: Global, place: &Place) -> Result<Value, AllocError>
    ensures { IfOk result (λ value. view value ≡ spec.place_data place.now) }
{
    ObjectBuilder::new(alloc)
        .number("address", place.addr)
        .text("name", place.name.as_str())
        .build()
}

/// Where variables stand.
fn place_values(alloc: Global, places: &[Place]) -> Result<Vec<Value>, AllocError>
    ensures { IfOk result (λ values. map view values.items ≡ map spec.place_data places.now) }
{
    let mut values = Vec::new(alloc);
    for place in places {
        add_item(&mut values, place_value(alloc, place))?;
    }
    Ok(values)
}

/// Where variables stand, as one value.
fn places_value(alloc: Global, places: &Vec<Place>) -> Result<Value, AllocError>
    ensures { IfOk result (λ value. view value ≡ spec.places_data places.now.items) }
{
    let values = place_values(alloc, places.as_slice())?;
    Ok(array_value(values))
}

/// Whether a search was stopped.
fn stopped_value(stopped: Stopped) -> Value
    ensures { view result ≡ spec.stopped_data stopped }
{
    match stopped {
        Stopped::No => Value::from(false),
        Stopped::AtLimit => Value::from(true),
        Stopped::AfterSeconds(seconds) => Value::from(seconds),
    }
}

/// A part of which this is found.
fn whole_value(alloc: Global, part: &Part, found: Value) -> Result<Value, AllocError>
    ensures { view found ≡ spec.findings_data (findings_view part.now.found)
        → IfOk result (λ value. view value ≡ spec.part_data (part_view part.now)) }
{
    ObjectBuilder::new(alloc)
        .text("file", part.file.as_str())
        .text("format", FORMAT)
        .value("found", Ok(found))
        .number("nodes", part.nodes)
        .number("part", part.part)
        .number("parts", part.parts)
        .value("places", places_value(alloc, &part.places))
        .value("settings", settings_value(alloc, part.settings))
        .value("stopped", Ok(stopped_value(part.stopped)))
        .value("text", bytes_value(alloc, &part.text))
        .value("trace", bytes_if_value(alloc, &part.trace))
        .build()
}

/// A part. Of the value the part is read.
pub(crate) fn part_value(alloc: Global, part: &Part) -> Result<Value, AllocError>
    ensures { IfOk result (λ value. (view value ≡ spec.part_data (part_view part.now))
        × (part_in (spec.part_data (part_view part.now)) ≡ part_view part.now)) }
{
    let found = findings_value(alloc, &part.found)?;
    let value = whole_value(alloc, part, found)?;
    Ok(value)
}
