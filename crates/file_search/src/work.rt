//! What is done with a litmus file of several: its races are looked for, or its program is searched.

ghost use Rattle.std.specs.Prelude.{◌≡◌, ◌<◌, IfErr, IfOk, OnErr, true};
ghost use Rattle.file_search.specs.Work as spec;
ghost use Rattle.file_search.specs.Work.{IsFoundIn};
ghost use Rattle.search_output.specs.Texts.{IsRefused};

use crate::additions::{Additions, with_additions};
use litmus_parse::ParseError;
use litmus_step::Settings;
use output_pieces::FileCounts;
use program_table::text_pieces::{joined, shown};
use race_output::{FileVerdict, RacesWanted, file_races};
use run_output::EngineError;
use search_formats::{FileWanted, Refusal, heading, refused_text, search_file};
use search_output::SearchProgress;
use std::alloc::{AllocError, Global};

/// How the races of a file are looked for, and written.
#[derive(Clone, Copy)]
pub struct RacesWork {
    pub wanted: RacesWanted,
    pub format: race_output::Format,
}

/// How the program of a file is searched, and what is printed of that.
#[derive(Clone, Copy)]
pub struct SearchWork {
    pub wanted: FileWanted,
    pub additions: Additions,
}

/// What is done with a file.
#[derive(Clone, Copy)]
pub enum Work {
    /// Its races are looked for.
    Races(RacesWork),
    /// Its program is searched.
    Search(SearchWork),
}

/// What was found of the text of a file: what is written of it, and the verdict.
#[derive(Drop)]
pub struct TextFound {
    pub output: Vec<u8>,
    pub verdict: FileVerdict,
}

/// Text is written of each file.
pub fn is_text(work: Work) -> bool
    ensures { result ≡ spec.is_text work }
{
    match work {
        Work::Races(work) => matches!(work.format, race_output::Format::Text),
        Work::Search(work) => matches!(work.wanted.format, search_formats::Format::Text),
    }
}

/// The verdict of a search.
fn search_verdict(raced: bool, stopped: bool) -> FileVerdict
    ensures { result ≡ spec.search_verdict_of raced stopped }
{
    if raced {
        FileVerdict::Reported
    } else if stopped {
        FileVerdict::Stopped
    } else {
        FileVerdict::Free
    }
}

/// Who is told how far the search of one file has come. Its seconds count from when that search began: from the next
/// whole second, since no other is told, so that no search is stopped early.
#[derive(Drop)]
pub struct FileProgress<'a, P> {
    progress: &'a P,
    /// So many seconds have gone by at that next one.
    begun: u64,
}

impl<P: SearchProgress> SearchProgress for FileProgress<'_, P> {
    fn nodes(&self, nodes: u64) {
        self.progress.nodes(nodes);
    }

    fn visited(&self, states: u64, left: u64) {
        self.progress.visited(states, left);
    }

    fn search_over(&self) {
        self.progress.search_over();
    }

    fn seconds(&self) -> u64 {
        self.progress.seconds().saturating_sub(self.begun)
    }
}

/// Who is told how far the search of a file has come that begins now.
pub fn from_now<P: SearchProgress>(progress: &P) -> FileProgress<'_, P> {
    FileProgress {
        progress,
        begun: progress.seconds().saturating_add(1),
    }
}

/// Searches the program of the text that a file of this name gave.
fn search<P: SearchProgress>(
    alloc: Global,
    work: SearchWork,
    name: &str,
    text: &[u8],
    settings: &Settings,
    progress: &P,
) -> Result<TextFound, EngineError>
    requires { 0 < settings.now.turns }
    ensures found { IfOk result (λ found. IsFoundIn (Work.Search work) settings.now name.now text.now found.output.items found.verdict) }
    ensures refused { IfErr result (IsRefused text.now settings.now) }
{
    let found = search_file(alloc, name, text, settings, work.wanted, progress)?;
    let Ok(output) = with_additions(alloc, work.additions, name, text, settings, found.output)
    else {
        return Err(EngineError::Text(ParseError::OutOfMemory));
    };
    Ok(TextFound {
        verdict: search_verdict(found.raced, found.stopped),
        output,
    })
}

/// Looks into the text that a file of this name gave.
pub fn find<P: SearchProgress>(
    alloc: Global,
    work: Work,
    name: &str,
    text: &[u8],
    settings: &Settings,
    progress: &P,
) -> Result<TextFound, EngineError>
    requires { 0 < settings.now.turns }
    ensures found { IfOk result (λ found. IsFoundIn work settings.now name.now text.now found.output.items found.verdict) }
    ensures refused { IfErr result (IsRefused text.now settings.now) }
{
    let progress = from_now(progress);
    match work {
        Work::Races(work) => {
            let races = file_races(
                alloc,
                name,
                text,
                settings,
                work.wanted,
                work.format,
                &progress,
            )?;
            Ok(TextFound {
                output: races.output,
                verdict: races.verdict,
            })
        }
        Work::Search(work) => search(alloc, work, name, text, settings, &progress),
    }
}

/// What is written of a file under its name.
#[tactic(auto, unfolding(crate::specs::Work::under_races_name, crate::specs::Work::under_search_name))]
pub fn under_name(
    alloc: Global,
    work: Work,
    name: &str,
    output: &[u8],
) -> Result<Vec<u8>, AllocError>
    ensures { IfOk result (λ text. text.items ≡ spec.under_name work name.now output.now) }
{
    let head = shown(alloc, name.as_bytes())?;
    match work {
        Work::Races(_) => joined(alloc, &[&head, b":\n\n", output, b"\n"]),
        Work::Search(_) => joined(alloc, &[b"== ", &head, b"\n", output]),
    }
}

/// Something is printed of each file for programs that read it, also of one that isn't looked into.
fn has_rows(work: Work) -> bool
    ensures { result ≡ spec.has_rows work }
{
    match work {
        Work::Races(_) => false,
        Work::Search(work) => matches!(
            work.wanted.format,
            search_formats::Format::Json | search_formats::Format::Csv
        ),
    }
}

/// What is printed of a file that isn't looked into, which comes with this status.
pub fn unsearched(
    alloc: Global,
    work: Work,
    name: &str,
    status: u8,
    why: Refusal,
) -> Result<Vec<u8>, AllocError>
    ensures text { IfOk result (λ text. text.items ≡ spec.unsearched_text work name.now status why) }
    ensures rows { OnErr result (spec.has_rows work ≡ true) }
{
    match work {
        Work::Search(searched) if has_rows(work) => {
            refused_text(alloc, name, searched.wanted.format, status, why)
        }
        _ => Ok(Vec::new(alloc)),
    }
}

/// What is written in front of all files.
pub fn begun(alloc: Global, work: Work) -> Result<Vec<u8>, AllocError>
    ensures { IfOk result (λ text. text.items ≡ spec.heading_of work) }
{
    match work {
        Work::Races(_) => Ok(Vec::new(alloc)),
        Work::Search(work) => heading(work.wanted.format).to_vec(alloc),
    }
}

/// The line that counts files.
pub fn last_line(alloc: Global, work: Work, counts: FileCounts) -> Result<Vec<u8>, AllocError>
    ensures { IfOk result (λ text. text.items ≡ spec.last_line_of work counts) }
{
    match work {
        Work::Races(_) => race_output::last_line(alloc, counts),
        Work::Search(_) => search_formats::last_line(alloc, counts),
    }
}

/// How high a status stands among those of searches. One that was stopped is the least of what may come, and a file
/// that is refused comes before a report.
fn rank(status: u8) -> u8
    ensures { result ≡ spec.rank status }
{
    if status == 75 { 1 } else { status }
}

/// Of two statuses that which counts.
pub fn worse(work: Work, status: u8, other: u8) -> u8
    ensures { result ≡ spec.worse work status other }
{
    match work {
        Work::Races(_) => status.max(other),
        Work::Search(_) => {
            if rank(status) < rank(other) {
                other
            } else {
                status
            }
        }
    }
}
