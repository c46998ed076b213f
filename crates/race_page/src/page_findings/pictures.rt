//! The picture of the execution that a schedule gives.

ghost use Rattle.std.specs.Global.{Global as Heap};
ghost use Rattle.std.specs.Prelude.{◌≡◌, IfOk, IfSome, Option, Vec};
ghost use Rattle.litmus_step.specs.Runs.{run_of};
ghost use Rattle.litmus_syntax.specs.Limits.{KeepsLimits};
ghost use Rattle.litmus_syntax.specs.Views.{program_of};
ghost use Rattle.race_page.specs.page_findings.Pictures as spec;
ghost use Rattle.race_page.specs.page_findings.Pictures.{IsPictureBy, IsSvgOf, IsTraceBy, IsLabelled};
ghost use Rattle.prepared_program.specs.program_sites.Prepared.{IsPrepared, sites_in};
ghost use Rattle.prepared_program.specs.step_schedule.Schedule.{entries_of};
ghost use Rattle.timeline.specs.picture.Ordered.{IsOrdered};

use litmus_parse::Reading;
use litmus_step::{Settings, World};
use litmus_syntax::Program;
use output_pieces::values::schedule_bytes;
use picture_svg::svg_bytes;
use prepared_program::program_sites::Prepared;
use prepared_program::step_schedule::{Entry, Schedule};
use run_output::trace_of;
use schedule_search::laws::law_schedules_lead_to_their_lists;
use source_places::picture_source::{labels_of, test_of};
use std::alloc::{AllocError, Global};
use timeline::picture::labels::Label;
use timeline::picture::{Picture, PictureError, picture_of};
use trace_replay::TraceError;

/// The schedule with these entries, as `step` reads it where it is written so.
fn schedule_of(alloc: Global, entries: &[Entry]) -> Result<Option<Schedule>, AllocError>
    ensures { IfOk result (λ read. IfSome read (λ schedule. entries_of schedule ≡ entries.now)) }
{
    let text = schedule_bytes(alloc, entries)?;
    let Ok(text) = str::from_utf8(&text) else {
        return Ok(None);
    };
    let Some(schedule) = Schedule::parse(alloc, text)? else {
        return Ok(None);
    };
    if schedule.entries() != entries {
        return Ok(None);
    }
    Ok(Some(schedule))
}

/// The trace of the execution that a schedule gives: its steps, and then those of the tasks in turn. None where it
/// comes to no end, since a task gets stuck.
fn trace_by(
    alloc: Global,
    program: &Program,
    settings: &Settings,
    prepared: &Prepared,
    schedule: &Schedule,
) -> Result<Option<Vec<u8>>, AllocError>
    requires limits { KeepsLimits (program_of program.now) }
    requires ready { IsPrepared program.now settings.now prepared.now }
    ensures { IfOk result (λ found. IfSome found (λ trace. IsTraceBy (run_of program.now settings.now (sites_in prepared.now))
        settings.now (entries_of schedule.now) trace.items)) }
{
    law_schedules_lead_to_their_lists();
    let mut world = World::prepared(alloc, program, prepared)?;
    if world.run(schedule).is_err() {
        return Ok(None);
    }
    // Called for its contract alone: the reports are those of the execution, and each is true.
    let _reports = world.reports();
    let trace = trace_of(alloc, settings, &world)?;
    Ok(Some(trace))
}

/// What is known of sites: nothing, where nothing was found.
fn labels_in<'a, 'b>(found: &'b Option<Vec<Label<'a>>>) -> &'b [Label<'a>]
    ensures { result.now ≡ spec.labels_in found.now }
{
    match found {
        Some(labels) => labels.as_slice(),
        None => &[],
    }
}

/// A picture as SVG, with the name of the test, and with what the text of its program says of the sites, where the
/// accesses can be those of the program.
fn labelled_svg(
    alloc: Global,
    text: &[u8],
    reading: &Reading,
    picture: &Picture,
) -> Result<Vec<u8>, AllocError>
    requires limits { KeepsLimits (program_of reading.now.program) }
    requires ordered { IsOrdered picture.now }
    ensures { IfOk result (λ svg. IsLabelled reading.now.program text.now picture.now svg.items) }
{
    let found = labels_of(alloc, text, reading, &picture.rows)?;
    let test = test_of(&reading.program);
    let svg = svg_bytes(alloc, picture, test, labels_in(&found))?;
    Ok(svg)
}

/// The picture of a trace, as SVG, with what the text of a program says of its sites. None where it has too many
/// accesses.
fn svg_of(
    alloc: Global,
    text: &[u8],
    reading: &Reading,
    trace: &[u8],
) -> Result<Option<Vec<u8>>, AllocError>
    requires { KeepsLimits (program_of reading.now.program) }
    ensures { IfOk result (λ found. IfSome found (λ svg. IsSvgOf reading.now.program text.now trace.now svg.items)) }
{
    match picture_of(alloc, trace) {
        Ok(picture) => {
            let svg = labelled_svg(alloc, text, reading, &picture)?;
            Ok(Some(svg))
        }
        Err(PictureError::Trace(TraceError::OutOfMemory)) => Err(AllocError),
        Err(_) => Ok(None),
    }
}

/// The picture of the execution that a schedule with these entries gives, as SVG: that which `show` draws of the trace
/// of `step` with what the litmus text says of it. None where the execution comes to no end, since a task gets stuck, or
/// has too many accesses.
pub fn picture_by(
    alloc: Global,
    text: &[u8],
    reading: &Reading,
    settings: &Settings,
    prepared: &Prepared,
    entries: &[Entry],
) -> Result<Option<Vec<u8>>, AllocError>
    requires limits { KeepsLimits (program_of reading.now.program) }
    requires ready { IsPrepared reading.now.program settings.now prepared.now }
    ensures { IfOk result (λ found. IfSome found (λ svg. IsPictureBy (run_of reading.now.program settings.now (sites_in prepared.now))
        reading.now.program settings.now text.now entries.now svg.items)) }
{
    let Some(schedule) = schedule_of(alloc, entries)? else {
        return Ok(None);
    };
    let Some(trace) = trace_by(alloc, &reading.program, settings, prepared, &schedule)? else {
        return Ok(None);
    };
    let svg = svg_of(alloc, text, reading, &trace)?;
    Ok(svg)
}
