//! How many pairs of a file, and how many files, have which verdict; and how much was searched.

ghost use Rattle.std.specs.Prelude.{◌≡◌, IfOk};
ghost use Rattle.race_page.specs.Counts as spec;

use crate::values::{FileEnd, FileTold, PairTold, RacesTold};
use crate::verdicts::severity;
use output_pieces::{FileCounts, TextBuilder};
use race_output::FileVerdict;
use race_output::words::{Said, said_of};
use std::alloc::{AllocError, Global};

/// How many pairs have such a verdict.
fn count_told(pairs: &[PairTold], wanted: Said) -> usize
    ensures { result ≡ spec.count_told wanted pairs.now }
{
    pairs
        .iter()
        .filter(|one| severity(said_of(one.verdict)) == severity(wanted))
        .count()
}

/// How many pairs have such a verdict, as a cell of a table.
fn count_cell(alloc: Global, pairs: &[PairTold], wanted: Said) -> Result<Vec<u8>, AllocError>
    ensures { IfOk result (λ text. text.items ≡ spec.count_cell pairs.now wanted) }
{
    TextBuilder::new(alloc)
        .piece(b"<td>")
        .number(count_told(pairs, wanted))
        .piece(b"</td>")
        .build()
}

/// How many pairs have each verdict, as cells of a table.
pub(crate) fn count_cells(alloc: Global, pairs: &[PairTold]) -> Result<Vec<u8>, AllocError>
    ensures { IfOk result (λ text. text.items ≡ spec.count_cells pairs.now) }
{
    TextBuilder::new(alloc)
        .text(count_cell(alloc, pairs, Said::Reported))
        .text(count_cell(alloc, pairs, Said::Missed))
        .text(count_cell(alloc, pairs, Said::Race))
        .text(count_cell(alloc, pairs, Said::NoRace))
        .text(count_cell(alloc, pairs, Said::Apart))
        .text(count_cell(alloc, pairs, Said::NotSettled))
        .build()
}

/// A file has such a verdict.
fn has_verdict(wanted: FileVerdict, file: &FileTold) -> bool
    ensures { result ≡ spec.has_verdict wanted file.now }
{
    match &file.end {
        FileEnd::Found(races) => matches!(
            (wanted, races.verdict),
            (FileVerdict::Free, FileVerdict::Free)
                | (FileVerdict::Reported, FileVerdict::Reported)
                | (FileVerdict::Missed, FileVerdict::Missed)
                | (FileVerdict::Stopped, FileVerdict::Stopped)
        ),
        FileEnd::Refused(_) => false,
    }
}

/// How many files have such a verdict.
fn count_files(files: &[FileTold], wanted: FileVerdict) -> usize
    ensures { result ≡ spec.count_files files.now wanted }
{
    files
        .iter()
        .filter(|file| has_verdict(wanted, file))
        .count()
}

/// A file was refused.
fn is_refused(file: &FileTold) -> bool
    ensures { result ≡ spec.is_refused file.now }
{
    matches!(&file.end, FileEnd::Refused(_))
}

/// How many files were refused.
fn count_refused(files: &[FileTold]) -> usize
    ensures { result ≡ spec.count_refused files.now }
{
    files.iter().filter(|file| is_refused(file)).count()
}

/// How many files have each verdict.
pub(crate) fn file_counts(files: &[FileTold]) -> FileCounts
    ensures { result ≡ spec.file_counts files.now }
{
    FileCounts {
        free: count_files(files, FileVerdict::Free),
        reported: count_files(files, FileVerdict::Reported),
        missed: count_files(files, FileVerdict::Missed),
        refused: count_refused(files),
        stopped: count_files(files, FileVerdict::Stopped),
    }
}

/// That a walk was stopped, if it was.
fn stopped_words(stopped: bool) -> &'static str
    ensures { result.now ≡ spec.stopped_words stopped }
{
    if stopped {
        " (stopped there: others remain)"
    } else {
        ""
    }
}

/// How much was searched.
pub(crate) fn searched_text(alloc: Global, races: &RacesTold) -> Result<Vec<u8>, AllocError>
    ensures { IfOk result (λ text. text.items ≡ spec.searched_text races.now) }
{
    TextBuilder::new(alloc)
        .piece(b"<p class=\"small\">searched ")
        .number(races.unwatched_states as usize)
        .piece(b" states without watchpoints")
        .words(stopped_words(races.unwatched_stopped.is_stopped()))
        .piece(b", ")
        .number(races.schedules as usize)
        .piece(b" schedules, and ")
        .number(races.states as usize)
        .piece(b" states with watchpoints")
        .words(stopped_words(races.stopped.is_stopped()))
        .piece(b"</p>\n")
        .build()
}
