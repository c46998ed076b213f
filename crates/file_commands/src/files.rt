//! Litmus files that are gone over one after the other: what is said of each file is printed, or told.

ghost use Rattle.std.specs.Prelude.{◌≡◌, ◌≤◌, ◌<◌, ◌++◌, ℕ, List, [], IfNone, IfOk, IfSome, OnErr, None, if◌then◌else◌, length, true};
ghost use Rattle.cli.specs.Bounds.{KeepsBounds, KeepsRacesBounds, KeepsSearchesBounds};
ghost use Rattle.diagnostics.specs.check_output.Output.{IsMadeOf};
ghost use Rattle.diagnostics.specs.declared.text_check.checked.Check.{Check};
ghost use Rattle.file_commands.specs.Check.{IsLeftOver};
ghost use Rattle.file_commands.specs.Desks.{DeskState};
ghost use Rattle.file_commands.specs.FileWork as spec;
ghost use Rattle.file_commands.specs.FileWork.{AreLeftOut, AreSearched, CanCount, FilesEnd, IsLookedAt, IsLostOf, IsRefusedFor, IsSaidOf};
ghost use Rattle.file_commands.specs.FileWork.{files_of, has_names, once_given};
ghost use Rattle.file_search.specs.Work.{under_name};
ghost use Rattle.file_search.specs.Work.{last_line_of};
ghost use Rattle.file_commands.specs.FilesAsked.{asked_by};
ghost use Rattle.file_commands.specs.Races as requests;
ghost use Rattle.file_commands.specs.Races.{RacesEnds, SearchesEnd};
ghost use Rattle.file_commands.specs.Settings.{AskSettings};

use crate::advice::advise_check;
use crate::check::{Checked, print_checked, tell, tell_file, unread_complaint};
use crate::complaint::Complaint;
use crate::desk::{Desk, ReadFault};
use crate::failure::{Failure, NO_REPORT, OUT_OF_MEMORY, REPORTED, STOPPED};
use crate::settings::settings_for;
use crate::together::carry_together;
use cli::{RacesFormat, RacesRequest, RunOptions, SearchFormat, SearchesRequest, Switches};
use diagnostics::check_output::{Comes, Files, file_comes};
use file_search::additions::Additions;
use file_search::work::{
    RacesWork, SearchWork, TextFound, Work, begun, find, is_text, last_line, under_name,
    unsearched, worse,
};
use litmus_parse::FILE_BYTES;
use litmus_step::Settings;
use output_pieces::FileCounts;
use race_output::{FileVerdict, RacesWanted};
use run_output::EngineError;
use search_formats::{FileWanted, Preemptions, Refusal};
use std::alloc::{AllocError, Global};
use std::thread::Threads;

/// No file was counted.
pub const NO_COUNTS: FileCounts = FileCounts {
    free: 0,
    reported: 0,
    missed: 0,
    refused: 0,
    stopped: 0,
};

/// The files that are asked for, and what is done with each.
#[derive(Clone, Copy)]
pub struct FilesAsked<'a> {
    pub files: &'a [&'a str],
    pub options: RunOptions<'a>,
    pub work: Work,
    /// How many threads may share several files.
    pub jobs: u64,
}

/// What is said of a file.
#[derive(Drop)]
pub struct FileSaid {
    /// What is printed of it.
    pub text: Vec<u8>,
    /// The verdict, if there is one.
    pub verdict: Option<FileVerdict>,
    /// The status that it would have alone.
    pub status: u8,
}

/// What `check` would be asked of all files.
pub fn files_for(asked: &FilesAsked<'_>) -> Files
    ensures { result ≡ files_of (asked_by asked.now) }
{
    Files {
        several: asked.files.len() > 1,
        print: false,
    }
}

/// Whether each file goes under its name, and a line counts them all.
fn names_files(asked: &FilesAsked<'_>) -> bool
    ensures { result ≡ has_names (asked_by asked.now) }
{
    asked.files.len() > 1 && is_text(asked.work)
}

/// The status for a verdict.
fn verdict_status(verdict: FileVerdict) -> u8
    ensures { result ≡ spec.verdict_status_of verdict }
{
    match verdict {
        FileVerdict::Free => NO_REPORT,
        FileVerdict::Reported | FileVerdict::Missed => REPORTED,
        FileVerdict::Stopped => STOPPED,
    }
}

/// One file more, with this verdict or none.
pub fn counted(counts: FileCounts, verdict: Option<FileVerdict>) -> FileCounts
    requires { CanCount counts }
    ensures { result ≡ spec.counted counts verdict }
{
    match verdict {
        Some(FileVerdict::Free) => FileCounts {
            free: counts.free + 1,
            ..counts
        },
        Some(FileVerdict::Reported) => FileCounts {
            reported: counts.reported + 1,
            ..counts
        },
        Some(FileVerdict::Missed) => FileCounts {
            missed: counts.missed + 1,
            ..counts
        },
        Some(FileVerdict::Stopped) => FileCounts {
            stopped: counts.stopped + 1,
            ..counts
        },
        None => FileCounts {
            refused: counts.refused + 1,
            ..counts
        },
    }
}

/// What is printed of a file of this name that was looked into.
fn printed(
    alloc: Global,
    names: bool,
    work: Work,
    name: &str,
    output: Vec<u8>,
) -> Result<Vec<u8>, AllocError>
    ensures { IfOk result (λ text. text.items
        ≡ (if names then under_name work name.now output.items else output.items)) }
{
    if !names {
        return Ok(output);
    }
    let text = under_name(alloc, work, name, &output)?;
    Ok(text)
}

/// What is said of a file that is passed over with this status, of which this is printed.
pub fn passed_over(text: Vec<u8>, status: u8) -> FileSaid
    ensures text { result.text ≡ text }
    ensures verdict { result.verdict ≡ None }
    ensures status { result.status ≡ status }
{
    FileSaid {
        text,
        verdict: None,
        status,
    }
}

/// Why a text has no output.
pub fn refusal_in(error: EngineError) -> Refusal
    ensures { result ≡ spec.refusal_in error }
{
    match error {
        EngineError::Text(error) => Refusal::Text(error),
        EngineError::Run(_) | EngineError::SinkFailed => Refusal::BadPlace,
    }
}

/// Tells why a file of this name has no output, and answers what is said of it. Want of memory is not told.
pub fn refuse<D: Desk>(
    alloc: Global,
    work: Work,
    error: EngineError,
    name: &str,
    desk: &mut D,
) -> Result<FileSaid, AllocError>
    ensures refused { IfOk result (λ said. IsRefusedFor work name.now error said (D.state desk.old) (D.state desk.new)) }
    ensures untold { OnErr result (D.state desk.new ≡ D.state desk.old) }
{
    let failure = Failure::Engine(error);
    let status = failure.status();
    if status == OUT_OF_MEMORY {
        return Err(AllocError);
    }
    // There is room for what is printed before anything is told, so that no want of memory is told after it.
    let text = unsearched(alloc, work, name, status, refusal_in(error))?;
    let status = tell(Complaint::Failure(failure), desk);
    advise_check(failure, name, &*desk);
    Ok(passed_over(text, status))
}

/// What is said of a file of this name of whose text this was found.
pub fn said_of(
    alloc: Global,
    asked: &FilesAsked<'_>,
    name: &str,
    found: TextFound,
) -> Result<FileSaid, AllocError>
    ensures { (text : List ℕ) → IfOk result (IsSaidOf (has_names (asked_by asked.now)) asked.now.work
        (spec.Searched name.now text found.output.items found.verdict)) }
{
    let verdict = found.verdict;
    Ok(FileSaid {
        text: printed(alloc, names_files(asked), asked.work, name, found.output)?,
        verdict: Some(verdict),
        status: verdict_status(verdict),
    })
}

/// Looks into the text that a file of this name gave, which `check` reads or wasn't asked of.
fn look_into<D: Desk>(
    alloc: Global,
    asked: &FilesAsked<'_>,
    name: &str,
    text: &[u8],
    settings: &Settings,
    desk: &mut D,
) -> Result<FileSaid, AllocError>
    requires { AskSettings asked.now.options settings.now }
    ensures looked { (before : DeskState) → D.state desk.old ≡ once_given name.now text.now before → IfOk result (λ said.
        IsLookedAt (asked_by asked.now) settings.now name.now said before (D.state desk.new)) }
    ensures untold { OnErr result (D.state desk.new ≡ D.state desk.old) }
{
    match find(alloc, asked.work, name, text, settings, &*desk) {
        Ok(found) => said_of(alloc, asked, name, found),
        Err(error) => refuse(alloc, asked.work, error, name, desk),
    }
}

/// The status of a text that isn't read as a program, and why it isn't, by what comes of it.
pub fn refused_by(comes: &Comes) -> Option<(u8, Refusal)>
    ensures { (files : Files) (name : List ℕ) (check : Check) → IsMadeOf files name check comes.now
        → result ≡ spec.refused_by check }
{
    match comes {
        Comes::Read { .. } => None,
        Comes::Misplaced(_) => Some((64, Refusal::BadPlace)),
        Comes::Refused(error, _) => Some((65, Refusal::Text(*error))),
    }
}

/// Of several files one that isn't read as a program is told as `check` tells it, by its name: what is said of it.
fn tell_unread<D: Desk>(
    alloc: Global,
    asked: &FilesAsked<'_>,
    name: &str,
    text: &[u8],
    settings: &Settings,
    desk: &mut D,
) -> Result<Option<FileSaid>, AllocError>
    requires { (3 ≤ settings.now.slots) × (settings.now.slots ≤ 1024) }
    ensures found { (before : DeskState) → D.state desk.old ≡ once_given name.now text.now before
        → IfOk result (λ told. IfSome told (λ said.
        IsLookedAt (asked_by asked.now) settings.now name.now said before (D.state desk.new))) }
    ensures none { IfOk result (λ told. IfNone told (D.state desk.new ≡ D.state desk.old)) }
    ensures untold { OnErr result (D.state desk.new ≡ D.state desk.old) }
{
    let files = files_for(asked);
    if !files.several {
        return Ok(None);
    }
    let comes = file_comes(alloc, files, name, text, settings)?;
    let Some((status, why)) = refused_by(&comes) else {
        return Ok(None);
    };
    let text = unsearched(alloc, asked.work, name, status, why)?;
    let _end = tell_file(comes, desk);
    Ok(Some(passed_over(text, status)))
}

/// Looks into the text that a file of this name gave.
fn look_into_text<D: Desk>(
    alloc: Global,
    asked: &FilesAsked<'_>,
    name: &str,
    text: &[u8],
    settings: &Settings,
    desk: &mut D,
) -> Result<FileSaid, AllocError>
    requires { AskSettings asked.now.options settings.now }
    ensures looked { (before : DeskState) → D.state desk.old ≡ once_given name.now text.now before → IfOk result (λ said.
        IsLookedAt (asked_by asked.now) settings.now name.now said before (D.state desk.new)) }
    ensures untold { OnErr result (D.state desk.new ≡ D.state desk.old) }
{
    match tell_unread(alloc, asked, name, text, settings, desk)? {
        Some(said) => Ok(said),
        None => look_into(alloc, asked, name, text, settings, desk),
    }
}

/// Tells that a file of this name can't be read, and answers what is said of it.
pub fn tell_lost<D: Desk>(
    alloc: Global,
    asked: &FilesAsked<'_>,
    name: &str,
    desk: &mut D,
) -> Result<FileSaid, AllocError>
    ensures lost { IfOk result (λ said. IsLostOf (asked_by asked.now) name.now said (D.state desk.old) (D.state desk.new)) }
    ensures untold { OnErr result (D.state desk.new ≡ D.state desk.old) }
    ensures more { OnErr result (spec.is_more (asked_by asked.now) ≡ true) }
{
    let complaint = unread_complaint(alloc, files_for(asked), name)?;
    let text = unsearched(alloc, asked.work, name, 66, Refusal::CannotRead)?;
    Ok(passed_over(text, tell(complaint, desk)))
}

/// Looks into a file: what is said of it, once its read or its text was told where it is passed over.
fn look_into_file<D: Desk>(
    alloc: Global,
    asked: &FilesAsked<'_>,
    name: &str,
    settings: &Settings,
    desk: &mut D,
) -> Result<FileSaid, AllocError>
    requires { AskSettings asked.now.options settings.now }
    ensures looked { IfOk result (λ said.
        IsLookedAt (asked_by asked.now) settings.now name.now said (D.state desk.old) (D.state desk.new)) }
    ensures over { OnErr result (IsLeftOver (spec.is_more (asked_by asked.now)) (D.state desk.old) (D.state desk.new)) }
{
    match desk.read_file(alloc, name, FILE_BYTES) {
        Ok(text) => look_into_text(alloc, asked, name, &text, settings, desk),
        Err(ReadFault::OutOfMemory) => Err(AllocError),
        Err(ReadFault::CannotRead) => tell_lost(alloc, asked, name, desk),
    }
}

/// What is printed, with the line behind it that counts the files, if there is to be one.
pub fn with_last_line(
    alloc: Global,
    asked: &FilesAsked<'_>,
    mut output: Vec<u8>,
    counts: FileCounts,
) -> Result<Vec<u8>, AllocError>
    ensures text { IfOk result (λ text. text.items
        ≡ output.items ++ (if has_names (asked_by asked.now) then last_line_of asked.now.work counts else [])) }
    ensures several { OnErr result (has_names (asked_by asked.now) ≡ true) }
{
    if names_files(asked) {
        let line = last_line(alloc, asked.work, counts)?;
        output.extend_from_slice(&line)?;
    }
    Ok(output)
}

/// Looks into file after file: what is printed of them all, and the status.
fn look_into_files<D: Desk>(
    alloc: Global,
    asked: &FilesAsked<'_>,
    settings: &Settings,
    desk: &mut D,
) -> Result<Checked, AllocError>
    requires asks { AskSettings asked.now.options settings.now }
    requires some { 0 < length asked.now.files.now }
    ensures searched { IfOk result (λ checked. AreSearched (asked_by asked.now) checked.output.items checked.status
        (D.state desk.old) (D.state desk.new)) }
    ensures left { OnErr result (AreLeftOut (asked_by asked.now) (D.state desk.old) (D.state desk.new)) }
{
    let mut output = begun(alloc, asked.work)?;
    let mut counts = NO_COUNTS;
    let mut status = NO_REPORT;
    for name in asked.files {
        let said = look_into_file(alloc, asked, name, settings, desk)?;
        // Where nothing is printed of a file no memory is wanted after it.
        if !said.text.is_empty() {
            output.extend_from_slice(&said.text)?;
        }
        counts = counted(counts, said.verdict);
        status = worse(asked.work, status, said.status);
    }
    let output = with_last_line(alloc, asked, output, counts)?;
    Ok(Checked { output, status })
}

/// Goes over the files that are asked for, and answers the status that the program ends with: that which counts of
/// those that they would have alone.
fn carry_files<D: Desk>(alloc: Global, asked: &FilesAsked<'_>, desk: &mut D) -> u8
    requires bounds { KeepsBounds asked.now.options }
    requires some { 0 < length asked.now.files.now }
    ensures { FilesEnd (asked_by asked.now) result (D.state desk.old) (D.state desk.new) }
{
    let settings = match settings_for(alloc, &asked.options) {
        Ok(settings) => settings,
        Err(failure) => return tell(Complaint::Failure(failure), desk),
    };
    match look_into_files(alloc, asked, &settings, desk) {
        Ok(found) => print_checked(&found, desk),
        Err(_) => tell(Complaint::Failure(Failure::OutOfMemory), desk),
    }
}

/// How races are looked for, and written.
pub fn races_work(request: &RacesRequest<'_>) -> RacesWork
    ensures { result ≡ requests.races_work request.now }
{
    RacesWork {
        wanted: RacesWanted {
            limit: request.limit,
            seconds: request.seconds,
        },
        format: match request.format {
            RacesFormat::Text => race_output::Format::Text,
            RacesFormat::Json => race_output::Format::Json,
        },
    }
}

/// How many preemptions a schedule may have that is searched.
fn preemptions(switches: Switches) -> Preemptions
    ensures { result ≡ requests.preemptions_of switches }
{
    match switches {
        Switches::AtMost(most) => Preemptions::AtMost(most),
        Switches::All => Preemptions::Any,
    }
}

/// How what a search finds is written.
fn search_format(format: SearchFormat) -> search_formats::Format
    ensures { result ≡ requests.search_format_of format }
{
    match format {
        SearchFormat::Text => search_formats::Format::Text,
        SearchFormat::Json => search_formats::Format::Json,
        SearchFormat::Csv => search_formats::Format::Csv,
        SearchFormat::Herd => search_formats::Format::Herd,
        SearchFormat::Part { part, parts } => search_formats::Format::Part { part, parts },
    }
}

/// How files are searched, and in which format what is found is written.
fn search_wanted(request: &SearchesRequest<'_>) -> FileWanted
    ensures { result ≡ requests.search_wanted request.now }
{
    FileWanted {
        preemptions: preemptions(request.switches),
        limit: request.limit,
        seconds: request.seconds,
        reduces: request.reduces,
        format: search_format(request.format),
        unknown_origin: request.options.unknown_origin,
    }
}

/// What is printed beside what was found of each file, where standard output is a terminal or not.
fn search_additions(request: &SearchesRequest<'_>, at_terminal: bool) -> Additions
    ensures { result ≡ requests.search_additions request.now at_terminal }
{
    let as_text = matches!(request.format, SearchFormat::Text);
    Additions {
        places: as_text && request.options.located,
        deadlocks: as_text,
        settings: as_text && (request.settings || at_terminal),
    }
}

/// What is done with files that are searched.
fn search_work(request: &SearchesRequest<'_>, at_terminal: bool) -> SearchWork
    ensures { result ≡ requests.search_work request.now at_terminal }
{
    SearchWork {
        wanted: search_wanted(request),
        additions: search_additions(request, at_terminal),
    }
}

/// Goes over the files that are asked for: where there are several, as many threads share them as are asked for.
fn carry_asked<R: Threads + Sync, D: Desk + Sync>(
    rt: &R,
    alloc: Global,
    asked: &FilesAsked<'_>,
    desk: &mut D,
) -> u8
    requires bounds { KeepsBounds asked.now.options }
    requires some { 0 < length asked.now.files.now }
    ensures { FilesEnd (asked_by asked.now) result (D.state desk.old) (D.state desk.new) }
{
    if asked.files.len() > 1 && asked.jobs > 1 {
        return carry_together(rt, alloc, asked, desk);
    }
    carry_files(alloc, asked, desk)
}

/// Looks for the races of the files that are asked for, and answers the status that the program ends with: the greatest
/// of those that they would have alone.
pub fn carry_races<R: Threads + Sync, D: Desk + Sync>(
    rt: &R,
    alloc: Global,
    request: &RacesRequest<'_>,
    desk: &mut D,
) -> u8
    requires { KeepsRacesBounds request.now }
    ensures { RacesEnds request.now result (D.state desk.old) (D.state desk.new) }
{
    let asked = FilesAsked {
        files: request.files.as_slice(),
        options: request.options,
        work: Work::Races(races_work(request)),
        jobs: request.jobs,
    };
    carry_asked(rt, alloc, &asked, desk)
}

/// Searches the programs of the files that are asked for, and answers the status that the program ends with.
pub fn carry_searches<R: Threads + Sync, D: Desk + Sync>(
    rt: &R,
    alloc: Global,
    request: &SearchesRequest<'_>,
    desk: &mut D,
) -> u8
    requires { KeepsSearchesBounds request.now }
    ensures { SearchesEnd request.now result (D.state desk.old) (D.state desk.new) }
{
    let asked = FilesAsked {
        files: request.files.as_slice(),
        options: request.options,
        work: Work::Search(search_work(request, desk.is_terminal())),
        jobs: request.jobs,
    };
    carry_asked(rt, alloc, &asked, desk)
}
