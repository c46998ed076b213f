//! What is written before all files, and behind them.

ghost use Rattle.std.specs.Prelude.{◌≡◌, IfOk};
ghost use Rattle.search_formats.specs.Several as spec;

use crate::wanted::Format;
use output_pieces::FileCounts;
use program_table::text_pieces::{joined, number};
use std::alloc::{AllocError, Global};

/// What stands before all files: in CSV the names of the columns.
pub fn heading(format: Format) -> &'static [u8]
    ensures { result.now ≡ spec.heading format }
{
    match format {
        Format::Csv => b"file,status,reports,pairs,states,stuck,positive,negative,error\n",
        Format::Text | Format::Json | Format::Herd | Format::Part { .. } => b"",
    }
}

/// A count, and what is counted.
#[tactic(auto, unfolding(crate::specs::Several::counted))]
fn counted(alloc: Global, count: usize, words: &str) -> Result<Vec<u8>, AllocError>
    ensures { IfOk result (λ text. text.items ≡ spec.counted count words.now) }
{
    let digits = number(alloc, count)?;
    joined(alloc, &[&digits, words.as_bytes()])
}

/// How many files there are. The number rests at 2^64 - 1.
fn files_in(counts: FileCounts) -> usize
    ensures { result ≡ spec.files_in counts }
{
    counts
        .free
        .saturating_add(counts.reported)
        .saturating_add(counts.missed)
        .saturating_add(counts.refused)
        .saturating_add(counts.stopped)
}

/// How many files were stopped without a report, where some were.
#[tactic(auto, unfolding(crate::specs::Several::stopped_text))]
fn stopped_text(alloc: Global, stopped: usize) -> Result<Vec<u8>, AllocError>
    ensures { IfOk result (λ text. text.items ≡ spec.stopped_text stopped) }
{
    if stopped == 0 {
        return Ok(Vec::new(alloc));
    }
    let stopped = counted(alloc, stopped, " stopped")?;
    joined(alloc, &[b", ", &stopped])
}

/// How many files came to which end, but for those that were stopped.
fn ended_counts(alloc: Global, counts: FileCounts) -> Result<Vec<u8>, AllocError>
    ensures { IfOk result (λ text. text.items ≡ spec.ended_counts counts) }
{
    let clean = counted(alloc, counts.free, " clean, ")?;
    let reported = counted(alloc, counts.reported, " with reports, ")?;
    let refused = counted(alloc, counts.refused, " refused")?;
    let text = joined(alloc, &[&clean, &reported, &refused])?;
    Ok(text)
}

/// The line behind all files, as text.
pub fn last_line(alloc: Global, counts: FileCounts) -> Result<Vec<u8>, AllocError>
    ensures { IfOk result (λ text. text.items ≡ spec.last_line counts) }
{
    let files = counted(alloc, files_in(counts), " files: ")?;
    let ended = ended_counts(alloc, counts)?;
    let stopped = stopped_text(alloc, counts.stopped)?;
    let text = joined(alloc, &[&files, &ended, &stopped, b"\n"])?;
    Ok(text)
}
