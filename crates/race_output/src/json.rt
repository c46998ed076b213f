//! What is written of the races of a text as JSON.

ghost use Rattle.std.specs.Prelude.{◌≡◌, ◌≤◌, IfOk, IfSome, length, map, option_map};
ghost use Rattle.executions.specs.execution.Run.{Run};
ghost use Rattle.output_pieces.specs.Values.{text_data};
ghost use Rattle.output_pieces.specs.Variables as variables_spec;
ghost use Rattle.race_output.specs.Json as spec;
ghost use Rattle.race_output.specs.Reasons.{texts};
ghost use Rattle.race_output.specs.Sites.{AreSourcesOf};
ghost use Rattle.serde_json.specs.Data.{array};
ghost use Rattle.serde_json.specs.View.{items_of, view};

use crate::reasons::reasons_of;
use crate::sites::{SiteTold, Sources, told_of};
use crate::words::{file_word, verdict_of, verdict_words};
use access_types::words;
use litmus_syntax::Variable;
use output_pieces::values::{
    array_value, column_value, line_value, schedule_value, settings_value, statement_value,
    text_value,
};
use output_pieces::variables::names_of;
use output_pieces::{ObjectBuilder, add_item};
use prepared_program::program_sites::Settings;
use program_table::text_pieces::joined;
use race_verdicts::RacesFound;
use races::{PairFound, Verdict};
use search_text::Entry;
use serde_json::Value;
use std::alloc::{AllocError, Global};

/// A site.
fn site_value(alloc: Global, text: &[u8], site: SiteTold) -> Result<Value, AllocError>
    requires { IfSome site.at (λ at. at ≤ length text.now) }
    ensures { IfOk result (λ value. view value ≡ spec.site_data text.now site) }
{
    ObjectBuilder::new(alloc)
        .text("access", words(&site.kind))
        .value("column", Ok(column_value(text, site.at)))
        .value("line", Ok(line_value(text, site.at)))
        .number("site", site.site as u64)
        .number("task", site.task as u64)
        .value("text", statement_value(alloc, text, site.at))
        .build()
}

/// The two sites of a pair.
fn sites_value(
    alloc: Global,
    text: &[u8],
    first: SiteTold,
    second: SiteTold,
) -> Result<Value, AllocError>
    requires first { IfSome first.at (λ at. at ≤ length text.now) }
    requires second { IfSome second.at (λ at. at ≤ length text.now) }
    ensures { IfOk result (λ value. view value ≡ spec.sites_data text.now first second) }
{
    let mut values = Vec::new(alloc);
    add_item(&mut values, site_value(alloc, text, first))?;
    add_item(&mut values, site_value(alloc, text, second))?;
    Ok(array_value(values))
}

/// A schedule, if there is one.
fn schedule_if_value(alloc: Global, schedule: &Option<Vec<Entry>>) -> Result<Value, AllocError>
    ensures { IfOk result (λ value. view value
        ≡ spec.schedule_if_data (option_map (λ entries. entries.items) schedule.now)) }
{
    match schedule {
        None => Ok(Value::Null),
        Some(entries) => schedule_value(alloc, entries.as_slice()),
    }
}

/// Texts.
fn texts_value(alloc: Global, all: &[Vec<u8>]) -> Result<Vec<Value>, AllocError>
    ensures { IfOk result (λ values. map view values.items ≡ map text_data (texts all.now)) }
{
    let mut values = Vec::new(alloc);
    for one in all {
        add_item(&mut values, text_value(alloc, one))?;
    }
    Ok(values)
}

/// The reasons for a verdict.
#[tactic(auto, unfolding(crate::specs::Json::why_data))]
fn why_value(
    alloc: Global,
    first: SiteTold,
    second: SiteTold,
    verdict: Verdict,
) -> Result<Value, AllocError>
    ensures { IfOk result (λ value. view value ≡ spec.why_data first second verdict) }
{
    let reasons = reasons_of(alloc, first, second, verdict)?;
    let values = texts_value(alloc, &reasons)?;
    Ok(array_value(values))
}

/// Whether the verdict is that a pair is reported.
fn is_reported(verdict: Verdict) -> bool
    ensures { result ≡ spec.is_reported verdict }
{
    matches!(verdict, Verdict::Reported)
}

/// The names of two variables, or that of both.
fn variable_value(
    alloc: Global,
    variables: &[Variable],
    first: usize,
    second: usize,
) -> Result<Value, AllocError>
    ensures { IfOk result (λ value. view value ≡ text_data (variables_spec.names_of variables.now first second)) }
{
    let names = names_of(alloc, variables, first, second)?;
    text_value(alloc, &names)
}

/// A pair with these sites.
fn told_value(
    alloc: Global,
    sources: Sources<'_>,
    first: SiteTold,
    second: SiteTold,
    one: &PairFound,
) -> Result<Value, AllocError>
    requires first { IfSome first.at (λ at. at ≤ length sources.text.now) }
    requires second { IfSome second.at (λ at. at ≤ length sources.text.now) }
    ensures { IfOk result (λ value. view value ≡ spec.told_data sources.entry.variables.now sources.entry.text.now
        first second one.now.verdict (option_map (λ entries. entries.items) one.now.schedule)) }
{
    let sites = sites_value(alloc, sources.text, first, second);
    let variable = variable_value(alloc, sources.variables, first.variable, second.variable);
    ObjectBuilder::new(alloc)
        .flag("reported", is_reported(one.verdict))
        .value("schedule", schedule_if_value(alloc, &one.schedule))
        .value("sites", sites)
        .value("variable", variable)
        .text("verdict", verdict_words(one.verdict))
        .value("why", why_value(alloc, first, second, one.verdict))
        .build()
}

/// A pair.
fn pair_value(alloc: Global, sources: Sources<'_>, one: &PairFound) -> Result<Value, AllocError>
    ensures { (run : Run) → AreSourcesOf run sources.entry.sites.now sources.entry.variables.now
        sources.entry.layout.now sources.entry.plain_writes_atomic
        → IfOk result (λ value. view value ≡ spec.pair_data run sources.entry.text.now
        (map (λ own. own.items) sources.entry.places.now) one.now) }
{
    let first = told_of(sources, one.pair.first);
    let second = told_of(sources, one.pair.second);
    let value = told_value(alloc, sources, first, second, one)?;
    Ok(value)
}

/// Pairs.
fn pairs_value(
    alloc: Global,
    sources: Sources<'_>,
    pairs: &[PairFound],
) -> Result<Vec<Value>, AllocError>
    ensures { (run : Run) → AreSourcesOf run sources.entry.sites.now sources.entry.variables.now
        sources.entry.layout.now sources.entry.plain_writes_atomic
        → IfOk result (λ values. map view values.items ≡ map (spec.pair_data run sources.entry.text.now
        (map (λ own. own.items) sources.entry.places.now)) pairs.now) }
{
    let mut values = Vec::new(alloc);
    for one in pairs {
        add_item(&mut values, pair_value(alloc, sources, one))?;
    }
    Ok(values)
}

/// How many states were visited.
fn states_value(alloc: Global, found: &RacesFound) -> Result<Value, AllocError>
    ensures { IfOk result (λ value. view value ≡ spec.states_data found.now) }
{
    ObjectBuilder::new(alloc)
        .number("with_watchpoints", found.states)
        .number("without_watchpoints", found.unwatched_states)
        .build()
}

/// Whether a walk was stopped.
fn is_stopped(found: &RacesFound) -> bool
    ensures { result ≡ spec.is_stopped found.now }
{
    found.unwatched_stopped.is_stopped() || found.stopped.is_stopped()
}

/// What was found under these settings of a file of this name, whose pairs are these.
fn whole_value(
    alloc: Global,
    name: &str,
    pairs: Value,
    settings: &Settings,
    found: &RacesFound,
) -> Result<Value, AllocError>
    ensures { IfOk result (λ value. view value ≡ spec.whole_data name.now (view pairs) settings.now found.now) }
{
    let word = file_word(verdict_of(found.pairs.as_slice()));
    ObjectBuilder::new(alloc)
        .text("file", name)
        .value("pairs", Ok(pairs))
        .number("schedules", found.schedules)
        .value("settings", settings_value(alloc, settings))
        .value("states", states_value(alloc, found))
        .flag("stopped", is_stopped(found))
        .text("verdict", word)
        .build()
}

/// What was found under these settings of a file of this name, as a value of JSON.
fn file_value(
    alloc: Global,
    name: &str,
    sources: Sources<'_>,
    settings: &Settings,
    found: &RacesFound,
) -> Result<Value, AllocError>
    ensures { (run : Run) → AreSourcesOf run sources.entry.sites.now sources.entry.variables.now
        sources.entry.layout.now sources.entry.plain_writes_atomic
        → IfOk result (λ value. view value ≡ spec.file_data name.now run sources.entry.text.now
        (map (λ own. own.items) sources.entry.places.now) settings.now found.now) }
{
    let pairs = pairs_value(alloc, sources, found.pairs.as_slice())?;
    let pairs = array_value(pairs);
    let value = whole_value(alloc, name, pairs, settings, found)?;
    Ok(value)
}

/// What is written of what was found under these settings of a file of this name: one object, in one line.
pub(crate) fn races_json(
    alloc: Global,
    name: &str,
    sources: Sources<'_>,
    settings: &Settings,
    found: &RacesFound,
) -> Result<Vec<u8>, AllocError>
    ensures { (run : Run) → AreSourcesOf run sources.entry.sites.now sources.entry.variables.now
        sources.entry.layout.now sources.entry.plain_writes_atomic
        → IfOk result (λ text. text.items ≡ spec.races_json name.now run sources.entry.text.now
        (map (λ own. own.items) sources.entry.places.now) settings.now found.now) }
{
    let value = file_value(alloc, name, sources, settings, found)?;
    let text = value.to_string(alloc)?;
    let line = joined(alloc, &[text.as_str().as_bytes(), b"\n"])?;
    Ok(line)
}
