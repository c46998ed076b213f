//! What was found of the races of a reading, as a page tells it.

ghost use Rattle.std.specs.Prelude.{◌≡◌, IfOk, IfSome, map};
ghost use Rattle.std.specs.List.{AllZip};
ghost use Rattle.litmus_step.specs.Runs.{run_of};
ghost use Rattle.litmus_syntax.specs.Limits.{KeepsLimits};
ghost use Rattle.litmus_syntax.specs.Views.{program_of};
ghost use Rattle.race_page.specs.page_findings.Told.{AreTold, IsPictureOfPair, IsTold, entries_in};
ghost use Rattle.prepared_program.specs.program_sites.Prepared.{IsPrepared, sites_in};
ghost use Rattle.race_output.specs.Sites.{AreSourcesOf};

use crate::page_findings::pictures::picture_by;
use crate::{PairTold, RacesTold};
use litmus_parse::Reading;
use litmus_step::Settings;
use output_pieces::variables::names_of;
use prepared_program::program_sites::Prepared;
use prepared_program::step_schedule::Entry;
use race_output::sites::{Sources, told_of};
use race_output::words::verdict_of;
use race_verdicts::RacesFound;
use races::{PairFound, Verdict};
use std::alloc::{AllocError, Global};

/// The picture of a pair that is reported or missed, by its schedule.
fn pair_picture(
    alloc: Global,
    text: &[u8],
    reading: &Reading,
    settings: &Settings,
    prepared: &Prepared,
    one: &PairFound,
) -> Result<Option<Vec<u8>>, AllocError>
    requires limits { KeepsLimits (program_of reading.now.program) }
    requires ready { IsPrepared reading.now.program settings.now prepared.now }
    ensures { IfOk result (λ found. IfSome found (λ svg. IsPictureOfPair
        (run_of reading.now.program settings.now (sites_in prepared.now)) reading.now.program settings.now text.now one.now svg.items)) }
{
    let Some(entries) = &one.schedule else {
        return Ok(None);
    };
    match one.verdict {
        Verdict::Reported | Verdict::Missed(_) => {
            picture_by(alloc, text, reading, settings, prepared, entries.as_slice())
        }
        _ => Ok(None),
    }
}

/// A schedule once more.
fn same_schedule(
    alloc: Global,
    schedule: &Option<Vec<Entry>>,
) -> Result<Option<Vec<Entry>>, AllocError>
    ensures { IfOk result (λ same. entries_in same ≡ entries_in schedule.now) }
{
    match schedule {
        None => Ok(None),
        Some(entries) => {
            let same = Vec::from_slice(alloc, entries)?;
            Ok(Some(same))
        }
    }
}

/// A pair, as it is told.
fn pair_told(
    alloc: Global,
    sources: Sources<'_>,
    reading: &Reading,
    settings: &Settings,
    prepared: &Prepared,
    one: &PairFound,
) -> Result<PairTold, AllocError>
    requires limits { KeepsLimits (program_of reading.now.program) }
    requires ready { IsPrepared reading.now.program settings.now prepared.now }
    requires sources { AreSourcesOf (run_of reading.now.program settings.now (sites_in prepared.now)) sources.sites.now
        sources.variables.now sources.layout.now sources.plain_writes_atomic }
    ensures { IfOk result (IsTold (run_of reading.now.program settings.now (sites_in prepared.now)) reading.now.program settings.now
        sources.entry.text.now (map (λ own. own.items) sources.entry.places.now) one.now) }
{
    let first = told_of(sources, one.pair.first);
    let second = told_of(sources, one.pair.second);
    let variable = names_of(alloc, sources.variables, first.variable, second.variable)?;
    let schedule = same_schedule(alloc, &one.schedule)?;
    let picture = pair_picture(alloc, sources.text, reading, settings, prepared, one)?;
    Ok(PairTold {
        first,
        second,
        variable,
        verdict: one.verdict,
        schedule,
        picture,
    })
}

/// Pairs, as they are told.
fn pairs_told(
    alloc: Global,
    sources: Sources<'_>,
    reading: &Reading,
    settings: &Settings,
    prepared: &Prepared,
    pairs: &[PairFound],
) -> Result<Vec<PairTold>, AllocError>
    requires limits { KeepsLimits (program_of reading.now.program) }
    requires ready { IsPrepared reading.now.program settings.now prepared.now }
    requires sources { AreSourcesOf (run_of reading.now.program settings.now (sites_in prepared.now)) sources.sites.now
        sources.variables.now sources.layout.now sources.plain_writes_atomic }
    ensures { IfOk result (λ told. AllZip (IsTold (run_of reading.now.program settings.now (sites_in prepared.now)) reading.now.program settings.now
        sources.entry.text.now (map (λ own. own.items) sources.entry.places.now)) pairs.now told.items) }
{
    let mut told = Vec::new(alloc);
    for one in pairs {
        let it = pair_told(alloc, sources, reading, settings, prepared, one)?;
        told.push(it)?;
    }
    Ok(told)
}

/// What was found, as it is told by the text of the program.
pub(crate) fn races_told(
    alloc: Global,
    sources: Sources<'_>,
    reading: &Reading,
    settings: &Settings,
    prepared: &Prepared,
    found: &RacesFound,
) -> Result<RacesTold, AllocError>
    requires limits { KeepsLimits (program_of reading.now.program) }
    requires ready { IsPrepared reading.now.program settings.now prepared.now }
    requires sources { AreSourcesOf (run_of reading.now.program settings.now (sites_in prepared.now)) sources.sites.now
        sources.variables.now sources.layout.now sources.plain_writes_atomic }
    ensures { IfOk result (AreTold (run_of reading.now.program settings.now (sites_in prepared.now)) reading.now.program settings.now
        sources.entry.text.now (map (λ own. own.items) sources.entry.places.now) found.now) }
{
    let pairs = pairs_told(
        alloc,
        sources,
        reading,
        settings,
        prepared,
        found.pairs.as_slice(),
    )?;
    Ok(RacesTold {
        verdict: verdict_of(found.pairs.as_slice()),
        pairs,
        unwatched_states: found.unwatched_states,
        unwatched_stopped: found.unwatched_stopped,
        schedules: found.schedules,
        states: found.states,
        stopped: found.stopped,
    })
}
