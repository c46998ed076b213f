//! What is found of a file, as JSON.

ghost use Rattle.std.specs.Prelude.{◌≡◌, IfOk, List, map};
ghost use Rattle.litmus_semantics.specs.Layout.{VariablePlace};
ghost use Rattle.prepared_program.specs.program_layout.Lays.{Lays};
ghost use Rattle.output_pieces.specs.Values as values_spec;
ghost use Rattle.search_json.specs.Extents as extents;
ghost use Rattle.search_json.specs.Json as spec;
ghost use Rattle.serde_json.specs.View.{view};

use crate::extent::{Extent, has_reports, is_counted, status_of};
use crate::reports::{Sources, report_values};
use crate::values::{count_value, no_items, number_value};
use access_types::Sites;
use output_pieces::values::{array_value, null_value, schedule_value, settings_value, text_value};
use output_pieces::{ObjectBuilder, add_item};
use prepared_program::program_sites::Settings;
use program_table::text_pieces::joined;
use search_text::seen::Seen;
use search_text::{SearchFindings, Sightings};
use serde_json::Value;
use std::alloc::{AllocError, Global};

/// In which of so many and so many a proposition holds.
fn word(held: u64, failed: u64) -> &'static str
    ensures { result.now ≡ spec.word held failed }
{
    if held == 0 {
        "Never"
    } else if failed == 0 {
        "Always"
    } else {
        "Sometimes"
    }
}

/// How often the proposition of the test of this name holds, and doesn't.
fn observation_value(alloc: Global, name: &str, held: u64, failed: u64) -> Result<Value, AllocError>
    ensures { IfOk result (λ value. view value ≡ spec.observation_data name.now held failed) }
{
    ObjectBuilder::new(alloc)
        .text("name", name)
        .number("negative", failed)
        .number("positive", held)
        .text("word", word(held, failed))
        .build()
}

/// The nodes that were visited, if a search visits nodes.
fn nodes_of(extent: Extent) -> Option<u64>
    ensures { result ≡ spec.nodes_of extent }
{
    if extent.bounded {
        Some(extent.visited)
    } else {
        None
    }
}

/// The states that were visited, if a search visits states.
fn states_of(extent: Extent) -> Option<u64>
    ensures { result ≡ spec.states_of extent }
{
    if extent.bounded {
        None
    } else {
        Some(extent.visited)
    }
}

/// How much was searched: nodes and schedules, or states.
fn searched_value(alloc: Global, extent: Extent, searched: u64) -> Result<Value, AllocError>
    ensures { IfOk result (λ value. view value ≡ spec.searched_data extent searched) }
{
    ObjectBuilder::new(alloc)
        .value("nodes", Ok(number_value(nodes_of(extent))))
        .value("schedules", Ok(count_value(extent.bounded, searched)))
        .value("states", Ok(number_value(states_of(extent))))
        .build()
}

/// A final state, and how many schedules end in it.
fn state_value(alloc: Global, state: &[u8], times: u64) -> Result<Value, AllocError>
    ensures { IfOk result (λ value. view value ≡ spec.state_data state.now times) }
{
    ObjectBuilder::new(alloc)
        .number("count", times)
        .value("state", text_value(alloc, state))
        .build()
}

/// The final states.
fn state_values(alloc: Global, states: &Sightings) -> Result<Vec<Value>, AllocError>
    ensures { IfOk result (λ values. map view values.items ≡ map (λ sighting. spec.state_data sighting.0 sighting.1.0)
        states.now) }
{
    let mut values = Vec::new(alloc);
    for place in 0..states.len() {
        match states.get(place) {
            Some((state, seen)) => {
                add_item(&mut values, state_value(alloc, state, seen.times()))?;
            }
            None => unreachable!(),
        }
    }
    Ok(values)
}

/// After how many schedules not all tasks have ended, and the first of them.
fn deadlock_value(alloc: Global, counted: bool, seen: &Seen) -> Result<Value, AllocError>
    ensures { IfOk result (λ value. view value ≡ spec.deadlock_data counted seen.now) }
{
    ObjectBuilder::new(alloc)
        .value("count", Ok(count_value(counted, seen.times())))
        .value("schedule", schedule_value(alloc, seen.first()))
        .build()
}

/// The same, if there are some.
fn stuck_value(alloc: Global, counted: bool, stuck: &Option<Seen>) -> Result<Value, AllocError>
    ensures { IfOk result (λ value. view value ≡ spec.stuck_data counted stuck.now) }
{
    match stuck {
        None => Ok(Value::Null),
        Some(seen) => deadlock_value(alloc, counted, seen),
    }
}

/// The parts of what is found that are values of their own.
#[derive(Drop)]
pub struct Parts {
    observation: Value,
    reports: Value,
    searched: Value,
    settings: Value,
    states: Value,
    stuck: Value,
}

/// The object of a file of this name.
fn whole_value(
    alloc: Global,
    name: &str,
    status: u8,
    stopped: bool,
    parts: Parts,
) -> Result<Value, AllocError>
    ensures { IfOk result (λ value. view value ≡ spec.whole_data name.now status stopped (view parts.observation)
        (view parts.reports) (view parts.searched) (view parts.settings) (view parts.states) (view parts.stuck)) }
{
    ObjectBuilder::new(alloc)
        .value("error", Ok(null_value()))
        .text("file", name)
        .value("observation", Ok(parts.observation))
        .value("reports", Ok(parts.reports))
        .value("searched", Ok(parts.searched))
        .value("settings", Ok(parts.settings))
        .value("states", Ok(parts.states))
        .number("status", status as u64)
        .flag("stopped", stopped)
        .value("stuck", Ok(parts.stuck))
        .build()
}

/// The parts of what is found, with these reports.
fn parts_of(
    alloc: Global,
    test: &str,
    reports: Value,
    settings: &Settings,
    searched: u64,
    ended: &SearchFindings,
    extent: Extent,
) -> Result<Parts, AllocError>
    ensures { IfOk result (λ parts. (view parts.observation ≡ spec.observation_data test.now ended.now.held
        ended.now.failed)
        × (view parts.reports ≡ view reports) × (view parts.searched ≡ spec.searched_data extent searched)
        × (view parts.settings ≡ values_spec.settings_data settings.now)
        × (view parts.states ≡ spec.states_data ended.now.states)
        × (view parts.stuck ≡ spec.stuck_data (extents.is_counted extent) ended.now.stuck)) }
{
    let observation = observation_value(alloc, test, ended.held(), ended.failed())?;
    let searched = searched_value(alloc, extent, searched)?;
    let settings = settings_value(alloc, settings)?;
    let states = array_value(state_values(alloc, ended.states())?);
    let stuck = stuck_value(alloc, is_counted(extent), ended.stuck())?;
    Ok(Parts {
        observation,
        reports,
        searched,
        settings,
        states,
        stuck,
    })
}

/// What is found of a file of this name, whose test has that one, as a value of JSON.
fn file_value(
    alloc: Global,
    name: &str,
    test: &str,
    sources: Sources<'_>,
    sites: &Sites,
    settings: &Settings,
    reported: &SearchFindings,
    ended: &SearchFindings,
    extent: Extent,
) -> Result<Value, AllocError>
    ensures { (places : List VariablePlace) → Lays places sources.entry.variables.now sources.entry.layout.now
        → IfOk result (λ value. view value ≡ spec.file_data name.now test.now places sources.entry.variables.now
        sources.entry.text.now (map (λ own. own.items) sources.entry.places.now) sites.now settings.now reported.now
        ended.now extent) }
{
    let reports = report_values(alloc, sources, sites, is_counted(extent), reported)?;
    let reports = array_value(reports);
    let parts = parts_of(
        alloc,
        test,
        reports,
        settings,
        reported.searched(),
        ended,
        extent,
    )?;
    let status = status_of(has_reports(reported), extent.stopped);
    let value = whole_value(alloc, name, status, extent.stopped, parts)?;
    Ok(value)
}

/// A value, as one line.
fn line_of_value(alloc: Global, value: &Value) -> Result<Vec<u8>, AllocError>
    ensures { IfOk result (λ text. spec.HasNoFloat (view value.now) → text.items ≡ spec.line (view value.now)) }
{
    let text = value.to_string(alloc)?;
    let line = joined(alloc, &[text.as_str().as_bytes(), b"\n"])?;
    Ok(line)
}

/// What is found of a file of this name, whose test has that one: the reports of the first, and how the schedules of
/// the other end. One object, in one line.
pub fn json_text(
    alloc: Global,
    name: &str,
    test: &str,
    sources: Sources<'_>,
    sites: &Sites,
    settings: &Settings,
    reported: &SearchFindings,
    ended: &SearchFindings,
    extent: Extent,
) -> Result<Vec<u8>, AllocError>
    ensures { (places : List VariablePlace) → Lays places sources.entry.variables.now sources.entry.layout.now
        → IfOk result (λ text. text.items ≡ spec.json_text name.now test.now places sources.entry.variables.now
        sources.entry.text.now (map (λ own. own.items) sources.entry.places.now) sites.now settings.now reported.now
        ended.now extent) }
{
    let value = file_value(
        alloc, name, test, sources, sites, settings, reported, ended, extent,
    )?;
    let line = line_of_value(alloc, &value)?;
    Ok(line)
}

/// The object of a file that isn't searched.
fn refused_value(alloc: Global, name: &str, status: u8, why: &[u8]) -> Result<Value, AllocError>
    ensures { IfOk result (λ value. view value ≡ spec.refused_data name.now status why.now) }
{
    ObjectBuilder::new(alloc)
        .value("error", text_value(alloc, why))
        .text("file", name)
        .value("observation", Ok(null_value()))
        .value("reports", Ok(no_items(alloc)))
        .value("searched", Ok(null_value()))
        .value("settings", Ok(null_value()))
        .value("states", Ok(no_items(alloc)))
        .number("status", status as u64)
        .value("stopped", Ok(null_value()))
        .value("stuck", Ok(null_value()))
        .build()
}

/// What is written of a file that isn't searched.
pub fn refused_json(
    alloc: Global,
    name: &str,
    status: u8,
    why: &[u8],
) -> Result<Vec<u8>, AllocError>
    ensures { IfOk result (λ text. text.items ≡ spec.refused_json name.now status why.now) }
{
    let value = refused_value(alloc, name, status, why)?;
    let line = line_of_value(alloc, &value)?;
    Ok(line)
}
