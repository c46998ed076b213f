//! What became of the watchpoints of an access, where that was no report of two accesses.

ghost use Rattle.std.specs.Prelude.{◌≡◌, ◌++◌};
ghost use Rattle.report_text.specs.Pieces.{piece_text, text_of};
ghost use Rattle.report_text.specs.Sink.{Writes};
ghost use Rattle.timeline.specs.Lengths.{len_of};
ghost use Rattle.picture_svg.specs.Notes as spec;

use crate::lines::{LINE_END, line_start};
use access_types::{ArmOutcome, HitResult, Stamped, ticket};
use report_text::pieces::{Piece, write_parts};
use report_text::{Sink, WriteError};
use timeline::lengths::parts_len;
use timeline::picture::Watch;

/// How many watchpoints of an access came to which end, up to 2^64 - 1.
#[derive(Clone, Copy)]
struct Tally {
    quiet: u64,
    origin: u64,
    encoding: u64,
    same: u64,
    masked: u64,
}

impl Tally {
    /// With one more that came to this end.
    fn with(self, outcome: ArmOutcome) -> Tally
        ensures { result ≡ spec.with_outcome self outcome }
    {
        match outcome {
            ArmOutcome::Quiet => Tally {
                quiet: self.quiet.saturating_add(1),
                ..self
            },
            ArmOutcome::Origin => Tally {
                origin: self.origin.saturating_add(1),
                ..self
            },
            ArmOutcome::Hit { result, .. } => self.with_hit(result),
        }
    }

    /// With one more that was hit, with this result.
    fn with_hit(self, hit: HitResult) -> Tally
        ensures { result ≡ spec.with_hit self hit }
    {
        match hit {
            HitResult::Report => self,
            HitResult::Encoding => Tally {
                encoding: self.encoding.saturating_add(1),
                ..self
            },
            HitResult::Same => Tally {
                same: self.same.saturating_add(1),
                ..self
            },
            HitResult::Masked => Tally {
                masked: self.masked.saturating_add(1),
                ..self
            },
        }
    }

    /// With one watchpoint more, if the access with this ticket had set it up.
    fn with_watch(self, setter: u32, watch: &Watch) -> Tally
        ensures { result ≡ spec.with_watch setter self watch.now }
    {
        if watch.arm.setter() == setter {
            self.with(watch.arm.outcome())
        } else {
            self
        }
    }
}

/// How many watchpoints of the access came to which end.
fn tally_of(watches: &[Watch], stamped: &Stamped) -> Tally
    ensures { result ≡ spec.tally_of watches.now stamped.now }
{
    let setter = ticket(&stamped.access());
    let mut tally = Tally {
        quiet: 0,
        origin: 0,
        encoding: 0,
        same: 0,
        masked: 0,
    };
    for watch in watches {
        tally = tally.with_watch(setter, watch);
    }
    tally
}

/// How often, if more than once.
fn times(count: u64) -> (Piece, Piece)
    ensures { piece_text result.0 ++ piece_text result.1 ≡ spec.times count }
{
    if count == 1 {
        (Piece::Text(""), Piece::Text(""))
    } else {
        (Piece::Decimal(count), Piece::Text(" "))
    }
}

/// That so many came to this end, behind those that are told already.
fn entry(is_first: bool, count: u64, word: &'static str) -> [Piece; 4]
    ensures { text_of result ≡ spec.entry is_first count word.now }
{
    if count == 0 {
        return [Piece::Text(""); 4];
    }
    let (count, blank) = times(count);
    let comma = if is_first { "" } else { ", " };
    [Piece::Text(comma), count, blank, Piece::Text(word)]
}

/// What is said of each end.
#[derive(Clone, Copy)]
struct Note {
    quiet: [Piece; 4],
    origin: [Piece; 4],
    encoding: [Piece; 4],
    same: [Piece; 4],
    masked: [Piece; 4],
}

/// What is said of so many watchpoints.
fn note_of(tally: Tally) -> Note
    ensures quiet { text_of result.quiet ≡ spec.quiet_entry tally }
    ensures origin { text_of result.origin ≡ spec.origin_entry tally }
    ensures encoding { text_of result.encoding ≡ spec.encoding_entry tally }
    ensures same { text_of result.same ≡ spec.same_entry tally }
    ensures masked { text_of result.masked ≡ spec.masked_entry tally }
{
    let no_quiet = tally.quiet == 0;
    let no_origin = no_quiet && tally.origin == 0;
    let no_encoding = no_origin && tally.encoding == 0;
    let no_same = no_encoding && tally.same == 0;
    Note {
        quiet: entry(true, tally.quiet, "quiet"),
        origin: entry(no_quiet, tally.origin, "unknown origin"),
        encoding: entry(no_origin, tally.encoding, "discarded: encoding"),
        same: entry(no_encoding, tally.same, "discarded: same"),
        masked: entry(no_same, tally.masked, "discarded: masked"),
    }
}

/// Nothing is said of any watchpoint.
fn is_silent(tally: Tally) -> bool
    ensures { result ≡ spec.is_silent tally }
{
    tally.quiet == 0
        && tally.origin == 0
        && tally.encoding == 0
        && tally.same == 0
        && tally.masked == 0
}

/// How long the note on the watchpoints of the access is.
pub(crate) fn note_len(watches: &[Watch], stamped: &Stamped) -> u64
    ensures { result ≡ len_of (spec.note watches.now stamped.now) }
{
    let note = note_of(tally_of(watches, stamped));
    parts_len(&[
        &note.quiet[..],
        &note.origin[..],
        &note.encoding[..],
        &note.same[..],
        &note.masked[..],
    ])
}

/// Writes the note on the watchpoints of the access, in the row in which it ends.
pub(crate) fn write_note<K: Sink>(
    sink: &mut K,
    watches: &[Watch],
    stamped: &Stamped,
    x: u64,
    y: u64,
) -> Result<(), WriteError>
    ensures { Writes K.written K.failures result (spec.note_text watches.now stamped.now x y) sink.old sink.new }
{
    let tally = tally_of(watches, stamped);
    if is_silent(tally) {
        return Ok(());
    }
    let start = line_start(x, y, "0.65");
    let note = note_of(tally);
    write_parts(
        sink,
        &[
            &start[..],
            &note.quiet[..],
            &note.origin[..],
            &note.encoding[..],
            &note.same[..],
            &note.masked[..],
            &[Piece::Text(LINE_END), Piece::Text("\n")],
        ],
    )
}
