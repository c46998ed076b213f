//! The races of the program of a litmus text, and what is written of them.

ghost use Rattle.std.specs.Prelude.{◌≡◌, ◌<◌, ◌≤◌, ◌↔◌, Any, IfErr, IfOk, IsErrOf, length, map};
ghost use Rattle.litmus_parse.specs.Text.{IsTextByte, file_bytes};
ghost use Rattle.litmus_syntax.specs.Limits.{KeepsLimits};
ghost use Rattle.litmus_syntax.specs.Views.{program_of};
ghost use Rattle.prepared_program.specs.program_sites.Prepared.{IsPrepared, sites_in};
ghost use Rattle.litmus_step.specs.Runs.{run_of};
ghost use Rattle.race_output.specs.Results.{AreRacesOfText, AreRacesOfProgram, IsFree, written};
ghost use Rattle.race_output.specs.Words.{verdict_of};
ghost use Rattle.run_output.specs.declared.error.EngineError.TheVariants.{Text};
ghost use Rattle.search_output.specs.Texts.{IsRefused, ProgramStops};

use crate::json::races_json;
use crate::sites::Sources;
use crate::table::races_text;
use crate::words::{FileVerdict, verdict_of};
use litmus_parse::{Limit, ParseError, Reading, read_text};
use prepared_program::program_sites::{Prepared, Settings};
use race_verdicts::{RacesFound, RacesWanted, find_races};
use races::placed_sites;
use run_output::EngineError;
use search_output::SearchProgress;
use std::alloc::{AllocError, Global};

/// In which form the races of a file are written.
#[derive(Clone, Copy)]
pub enum Format {
    Text,
    Json,
}

/// What comes of a file that is read: what is written of its races, and the verdict.
#[derive(Drop)]
pub struct FileRaces {
    pub output: Vec<u8>,
    pub verdict: FileVerdict,
}

/// What is written of what was found of a program that is made ready under these settings, whose text is read so.
pub fn written(
    alloc: Global,
    name: &str,
    text: &[u8],
    reading: &Reading,
    settings: &Settings,
    prepared: &Prepared,
    found: &RacesFound,
    format: Format,
) -> Result<Vec<u8>, AllocError>
    requires limits { KeepsLimits (program_of reading.now.program) }
    requires ready { IsPrepared reading.now.program settings.now prepared.now }
    ensures { IfOk result (λ output. output.items
        ≡ written format name.now (run_of reading.now.program settings.now (sites_in prepared.now)) text.now
        (map (λ own. own.items) reading.now.places.items) settings.now found.now) }
{
    let sites = placed_sites(alloc, &reading.program, prepared)?;
    let sources = Sources {
        text,
        places: &reading.places,
        sites: &sites,
        variables: reading.program.variables.as_slice(),
        layout: &*prepared.layout,
        plain_writes_atomic: settings.plain_writes_atomic,
    };
    match format {
        Format::Text => {
            let output = races_text(alloc, sources, settings, found)?;
            Ok(output)
        }
        Format::Json => {
            let output = races_json(alloc, name, sources, settings, found)?;
            Ok(output)
        }
    }
}

/// Finds the races of the program of a text that is read so, and keeps what is written of them.
fn program_races<P: SearchProgress>(
    alloc: Global,
    name: &str,
    text: &[u8],
    reading: &Reading,
    settings: &Settings,
    wanted: RacesWanted,
    format: Format,
    progress: &P,
) -> Result<FileRaces, EngineError>
    requires limits { KeepsLimits (program_of reading.now.program) }
    requires turns { 0 < settings.now.turns }
    ensures races { IfOk result (λ races. AreRacesOfProgram reading.now.program settings.now format name.now text.now
        races.output.items races.verdict) }
    ensures stops { IfErr result (ProgramStops reading.now.program settings.now) }
{
    let prepared = Prepared::new(alloc, &reading.program, settings)?;
    let found = find_races(alloc, &reading.program, &prepared, wanted, progress)?;
    let output = written(
        alloc, name, text, reading, settings, &prepared, &found, format,
    )?;
    Ok(FileRaces {
        output,
        verdict: verdict_of(found.pairs.as_slice()),
    })
}

/// Finds the races of the program of a litmus text, in a file of this name: what is written of them in this form, and
/// the verdict. Each pair of sites whose accesses conflict is told of, with what is so of it as far as the walks over
/// the states came. Where the file is free of races no execution of its program has one, but for one by a mask.
///
/// `OutOfMemory` wherever there is no room.
pub fn file_races<P: SearchProgress>(
    alloc: Global,
    name: &str,
    text: &[u8],
    settings: &Settings,
    wanted: RacesWanted,
    format: Format,
    progress: &P,
) -> Result<FileRaces, EngineError>
    requires { 0 < settings.now.turns }
    ensures races { IfOk result (λ races.
        AreRacesOfText text.now settings.now format name.now races.output.items races.verdict) }
    ensures free { IfOk result (λ races. races.verdict ≡ FileVerdict.Free → IsFree text.now settings.now) }
    ensures refused { IfErr result (IsRefused text.now settings.now) }
    ensures file_limit { IsErrOf result (Text (ParseError.Limit Limit.File)) ↔ (file_bytes < length text.now) }
    ensures not_ascii { IsErrOf result (Text ParseError.NotAscii) ↔
        ((length text.now ≤ file_bytes) × Any (λ byte. ¬ IsTextByte byte) text.now) }
{
    match read_text(alloc, text) {
        Ok(reading) => program_races(
            alloc, name, text, &reading, settings, wanted, format, progress,
        ),
        Err(refused) => Err(EngineError::Text(refused.error)),
    }
}
