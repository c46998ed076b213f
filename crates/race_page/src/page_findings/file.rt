//! The races of the program of a litmus text, as they are written and as a page tells them.

ghost use Rattle.std.specs.Prelude.{◌≡◌, ◌<◌, ◌≤◌, ◌↔◌, Any, IfErr, IfOk, IsErrOf, length, map};
ghost use Rattle.litmus_parse.specs.Text.{IsTextByte, file_bytes};
ghost use Rattle.litmus_step.specs.Runs.{run_of};
ghost use Rattle.litmus_syntax.specs.Limits.{KeepsLimits};
ghost use Rattle.litmus_syntax.specs.Views.{program_of};
ghost use Rattle.race_page.specs.page_findings.Results.{AreFindingsOfProgram, AreFindingsOfText};
ghost use Rattle.race_page.specs.page_findings.Told.{AreTold};
ghost use Rattle.prepared_program.specs.program_sites.Prepared.{IsPrepared, sites_in};
ghost use Rattle.race_output.specs.Results.{AreRacesOfText, IsFree};
ghost use Rattle.run_output.specs.declared.error.EngineError.TheVariants.{Text};
ghost use Rattle.search_output.specs.Texts.{IsRefused, ProgramStops};

use crate::RacesTold;
use crate::page_findings::told::races_told;
use litmus_parse::{Limit, ParseError, Reading, read_text};
use litmus_step::Settings;
use prepared_program::program_sites::Prepared;
use race_output::file::written;
use race_output::sites::Sources;
use race_output::words::verdict_of;
use race_output::{FileRaces, FileVerdict, Format, RacesWanted};
use race_verdicts::{RacesFound, find_races};
use races::placed_sites;
use run_output::EngineError;
use search_output::SearchProgress;
use std::alloc::{AllocError, Global};

/// What comes of a file that is read: what is written of its races, the verdict, and what a page tells.
#[derive(Drop)]
pub struct FileFound {
    pub races: FileRaces,
    pub told: RacesTold,
}

/// What a page tells of what was found of a program that is made ready under these settings, whose text is read so.
fn told(
    alloc: Global,
    text: &[u8],
    reading: &Reading,
    settings: &Settings,
    prepared: &Prepared,
    found: &RacesFound,
) -> Result<RacesTold, AllocError>
    requires limits { KeepsLimits (program_of reading.now.program) }
    requires ready { IsPrepared reading.now.program settings.now prepared.now }
    ensures { IfOk result (AreTold (run_of reading.now.program settings.now (sites_in prepared.now)) reading.now.program settings.now text.now
        (map (λ own. own.items) reading.now.places.items) found.now) }
{
    let sites = placed_sites(alloc, &reading.program, prepared)?;
    let sources = Sources {
        text,
        places: &reading.places,
        sites: &sites,
        variables: reading.program.variables.as_slice(),
        layout: &*prepared.layout,
        plain_writes_atomic: settings.plain_writes_atomic,
    };
    let told = races_told(alloc, sources, reading, settings, prepared, found)?;
    Ok(told)
}

/// Finds the races of the program of a text that is read so, and keeps what is written and what is told of them.
fn program_findings<P: SearchProgress>(
    alloc: Global,
    name: &str,
    text: &[u8],
    reading: &Reading,
    settings: &Settings,
    wanted: RacesWanted,
    format: Format,
    progress: &P,
) -> Result<FileFound, EngineError>
    requires limits { KeepsLimits (program_of reading.now.program) }
    requires turns { 0 < settings.now.turns }
    ensures found { IfOk result (AreFindingsOfProgram reading.now.program settings.now format name.now text.now) }
    ensures stops { IfErr result (ProgramStops reading.now.program settings.now) }
{
    let prepared = Prepared::new(alloc, &reading.program, settings)?;
    let found = find_races(alloc, &reading.program, &prepared, wanted, progress)?;
    let output = written(
        alloc, name, text, reading, settings, &prepared, &found, format,
    )?;
    let told = told(alloc, text, reading, settings, &prepared, &found)?;
    let verdict = verdict_of(found.pairs.as_slice());
    Ok(FileFound {
        races: FileRaces { output, verdict },
        told,
    })
}

/// Finds the races of the program of a litmus text, in a file of this name, as `file_races` does: what is written of
/// them in this form, the verdict, and what a page tells of them.
///
/// `OutOfMemory` wherever there is no room.
pub fn file_findings<P: SearchProgress>(
    alloc: Global,
    name: &str,
    text: &[u8],
    settings: &Settings,
    wanted: RacesWanted,
    format: Format,
    progress: &P,
) -> Result<FileFound, EngineError>
    requires { 0 < settings.now.turns }
    ensures found { IfOk result (AreFindingsOfText text.now settings.now format name.now) }
    ensures races { IfOk result (λ file.
        AreRacesOfText text.now settings.now format name.now file.races.output.items file.races.verdict) }
    ensures free { IfOk result (λ file. file.races.verdict ≡ FileVerdict.Free → IsFree text.now settings.now) }
    ensures refused { IfErr result (IsRefused text.now settings.now) }
    ensures file_limit { IsErrOf result (Text (ParseError.Limit Limit.File)) ↔ (file_bytes < length text.now) }
    ensures not_ascii { IsErrOf result (Text ParseError.NotAscii) ↔
        ((length text.now ≤ file_bytes) × Any (λ byte. ¬ IsTextByte byte) text.now) }
{
    match read_text(alloc, text) {
        Ok(reading) => program_findings(
            alloc, name, text, &reading, settings, wanted, format, progress,
        ),
        Err(refused) => Err(EngineError::Text(refused.error)),
    }
}
