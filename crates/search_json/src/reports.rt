//! The reports that are found, as values of JSON.

ghost use Rattle.std.specs.Prelude.{◌≡◌, ◌≤◌, IfOk, IfSome, List, length, map};
ghost use Rattle.std.specs.Option.{option_copied};
ghost use Rattle.litmus_semantics.specs.Layout.{VariablePlace};
ghost use Rattle.prepared_program.specs.program_layout.Lays.{Lays};
ghost use Rattle.report_text.specs.ReportOf.{report_text};
ghost use Rattle.search_json.specs.Reports as spec;
ghost use Rattle.serde_json.specs.View.{view};

use crate::values::{count_value, number_value};
use access_types::{Access, Bytes, Report, Sites, ValueChange, words};
use litmus_syntax::Variable;
use output_pieces::ObjectBuilder;
use output_pieces::spots::place_of;
use output_pieces::values::{
    column_value, line_value, schedule_value, statement_value, text_value,
};
use output_pieces::variables::{name_of, variable_of};
use prepared_program::program_layout::Layout;
use races::SiteName;
use report_text::write_report;
use search_text::seen::Seen;
use search_text::{MemorySink, SearchFindings};
use serde_json::Value;
use std::alloc::{AllocError, Global};

/// By what the accesses of reports are told of: the text of a program, where its sites begin there as far as that is
/// known, its variables and where these stand.
#[derive(Clone, Copy)]
pub struct Sources<'a> {
    pub text: &'a [u8],
    pub places: &'a [Vec<usize>],
    pub variables: &'a [Variable],
    pub layout: &'a Layout,
}

/// An access whose variable has this name, at this place in the text, if that is known.
fn told_value(
    alloc: Global,
    text: &[u8],
    at: Option<usize>,
    name: &str,
    access: &Access,
) -> Result<Value, AllocError>
    requires { IfSome at (λ at. at ≤ length text.now) }
    ensures { IfOk result (λ value. view value ≡ spec.told_data text.now at name.now access.now) }
{
    ObjectBuilder::new(alloc)
        .text("access", words(&access.kind()))
        .number("address", access.addr())
        .value("column", Ok(column_value(text, at)))
        .value("line", Ok(line_value(text, at)))
        .number("repetition", access.rep() as u64)
        .number("site", access.site() as u64)
        .number("size", access.size() as u64)
        .number("task", access.task() as u64)
        .value("text", statement_value(alloc, text, at))
        .value("variable", text_value(alloc, name.as_bytes()))
        .build()
}

/// Where an access begins in a text, if that is known.
fn place_in(text: &[u8], places: &[Vec<usize>], access: &Access) -> Option<usize>
    ensures place { result ≡ spec.place_in text.now (map (λ own. own.items) places.now) access.now }
    ensures within { IfSome result (λ at. at ≤ length text.now) }
{
    let name = SiteName {
        task: access.task(),
        site: access.site(),
    };
    place_of(text, places, name)
}

/// The number of the variable that an access touches.
fn variable_in(layout: &Layout, variables: &[Variable], access: &Access) -> usize
    ensures { (places : List VariablePlace) → Lays places variables.now layout.now
        → result ≡ spec.variable_in places variables.now access.now }
{
    let bytes = Bytes {
        addr: access.addr(),
        size: access.size(),
    };
    variable_of(layout, variables, bytes)
}

/// An access.
fn access_value(alloc: Global, sources: Sources<'_>, access: &Access) -> Result<Value, AllocError>
    ensures { (places : List VariablePlace) → Lays places sources.entry.variables.now sources.entry.layout.now
        → IfOk result (λ value. view value ≡ spec.access_data places sources.entry.variables.now sources.entry.text.now
        (map (λ own. own.items) sources.entry.places.now) access.now) }
{
    let at = place_in(sources.text, sources.places, access);
    let number = variable_in(sources.layout, sources.variables, access);
    let name = name_of(sources.variables, number);
    let value = told_value(alloc, sources.text, at, name, access)?;
    Ok(value)
}

/// An access, if it is there.
fn side_value(
    alloc: Global,
    sources: Sources<'_>,
    access: Option<&Access>,
) -> Result<Value, AllocError>
    ensures { (places : List VariablePlace) → Lays places sources.entry.variables.now sources.entry.layout.now
        → IfOk result (λ value. view value ≡ spec.side_data places sources.entry.variables.now sources.entry.text.now
        (map (λ own. own.items) sources.entry.places.now) (option_copied access.entry)) }
{
    match access {
        None => Ok(Value::Null),
        Some(access) => access_value(alloc, sources, access),
    }
}

/// The access that armed.
fn setter_of<'a>(sites: &'a Sites, report: Option<Report>) -> Option<&'a Access>
    ensures { option_copied result ≡ spec.setter_of sites.now report }
{
    match report {
        None => None,
        Some(Report::Two { setter, .. }) | Some(Report::Unknown { setter, .. }) => {
            sites.get(setter)
        }
    }
}

/// The access that took, if there is one.
fn finder_of<'a>(sites: &'a Sites, report: Option<Report>) -> Option<&'a Access>
    ensures { option_copied result ≡ spec.finder_of sites.now report }
{
    match report {
        None | Some(Report::Unknown { .. }) => None,
        Some(Report::Two { finder, .. }) => sites.get(finder),
    }
}

/// The change of the bytes, where one was seen.
fn change_of(report: Option<Report>) -> Option<ValueChange>
    ensures { result ≡ spec.change_of report }
{
    match report {
        None => None,
        Some(Report::Two { seen, .. }) => seen,
        Some(Report::Unknown { old, new, .. }) => Some(ValueChange { old, new }),
    }
}

/// What the bytes were before.
fn old_value(change: Option<ValueChange>) -> Value
    ensures { view result ≡ spec.old_data change }
{
    number_value(match change {
        None => None,
        Some(change) => Some(change.old),
    })
}

/// What they were behind.
fn new_value(change: Option<ValueChange>) -> Value
    ensures { view result ≡ spec.new_data change }
{
    number_value(match change {
        None => None,
        Some(change) => Some(change.new),
    })
}

/// A report of these two accesses that was seen in so many schedules.
fn seen_value(
    alloc: Global,
    setter: Value,
    finder: Value,
    change: Option<ValueChange>,
    counted: bool,
    seen: &Seen,
) -> Result<Value, AllocError>
    ensures { IfOk result (λ value. view value ≡ spec.seen_data (view setter) (view finder) change counted seen.now) }
{
    ObjectBuilder::new(alloc)
        .value("count", Ok(count_value(counted, seen.times())))
        .value("finder", Ok(finder))
        .value("new", Ok(new_value(change)))
        .value("old", Ok(old_value(change)))
        .value("schedule", schedule_value(alloc, seen.first()))
        .value("setter", Ok(setter))
        .build()
}

/// The text of a report, of the accesses that its tickets name among the sites.
fn text_of(alloc: Global, report: &Report, sites: &Sites) -> Result<Vec<u8>, AllocError>
    ensures { IfOk result (λ text. text.items ≡ report_text sites.now report.now) }
{
    let mut sink = MemorySink::new(alloc);
    match write_report(report, sites, &mut sink) {
        Ok(()) => Ok(sink.into_bytes()),
        Err(_) => Err(AllocError),
    }
}

/// The first of the reports that has a text.
fn report_with(
    alloc: Global,
    reports: &[Report],
    sites: &Sites,
    text: &[u8],
) -> Result<Option<Report>, AllocError>
    ensures { IfOk result (λ report. report ≡ spec.report_with sites.now reports.now text.now) }
{
    for report in reports {
        let own = text_of(alloc, report, sites)?;
        if text == own.as_slice() {
            return Ok(Some(*report));
        }
    }
    Ok(None)
}

/// A report that was seen in so many schedules, if it is known.
fn report_value(
    alloc: Global,
    sources: Sources<'_>,
    sites: &Sites,
    report: Option<Report>,
    counted: bool,
    seen: &Seen,
) -> Result<Value, AllocError>
    ensures { (places : List VariablePlace) → Lays places sources.entry.variables.now sources.entry.layout.now
        → IfOk result (λ value. view value ≡ spec.report_data places sources.entry.variables.now sources.entry.text.now
        (map (λ own. own.items) sources.entry.places.now) sites.now report counted seen.now) }
{
    let setter = side_value(alloc, sources, setter_of(sites, report))?;
    let finder = side_value(alloc, sources, finder_of(sites, report))?;
    let value = seen_value(alloc, setter, finder, change_of(report), counted, seen)?;
    Ok(value)
}

/// A text of a report that was seen in so many schedules.
fn sighting_value(
    alloc: Global,
    sources: Sources<'_>,
    sites: &Sites,
    known: &[Report],
    counted: bool,
    text: &[u8],
    seen: &Seen,
) -> Result<Value, AllocError>
    ensures { (places : List VariablePlace) → Lays places sources.entry.variables.now sources.entry.layout.now
        → IfOk result (λ value. view value ≡ spec.sighting_data places sources.entry.variables.now
        sources.entry.text.now
        (map (λ own. own.items) sources.entry.places.now) sites.now known.now counted (text.now, seen.now)) }
{
    let report = report_with(alloc, known, sites, text)?;
    let value = report_value(alloc, sources, sites, report, counted, seen)?;
    Ok(value)
}

/// The reports that are found, in their order.
pub(crate) fn report_values(
    alloc: Global,
    sources: Sources<'_>,
    sites: &Sites,
    counted: bool,
    found: &SearchFindings,
) -> Result<Vec<Value>, AllocError>
    ensures { (places : List VariablePlace) → Lays places sources.entry.variables.now sources.entry.layout.now
        → IfOk result (λ values. map view values.items ≡ map (spec.sighting_data places sources.entry.variables.now
        sources.entry.text.now (map (λ own. own.items) sources.entry.places.now) sites.now found.now.known.items
        counted) found.now.reports) }
{
    let known = found.known();
    let reports = found.reports();
    let mut values = Vec::new(alloc);
    for place in 0..reports.len() {
        match reports.get(place) {
            Some((text, seen)) => {
                let value = sighting_value(alloc, sources, sites, known, counted, text, seen)?;
                values.push(value)?;
            }
            None => unreachable!(),
        }
    }
    Ok(values)
}
