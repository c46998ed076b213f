//! The line of counters, the line on the condition, and that on stuck runs.

ghost use Rattle.run_output.specs.Lines.{condition_line, counters_line, stuck_line};
ghost use Rattle.report_text.specs.Pieces.{text_of};
ghost use Rattle.report_text.specs.Sink.{Writes};

use report_text::pieces::{Piece, write_parts, write_pieces};
use report_text::{Sink, WriteError};
use task_log::Counters;

/// Writes the line of counters, with how many calls had nothing to end.
///
/// `SinkFailed`: the sink failed in this call, and holds a beginning of the line.
#[tactic(auto, unfolding(crate::specs::Lines::counters_line))]
pub fn write_counters<K: Sink>(
    counters: &Counters,
    unbalanced: u64,
    sink: &mut K,
) -> Result<(), WriteError>
    ensures { Writes K.written K.failures result (counters_line counters.now unbalanced) sink.old sink.new }
{
    let watched = [
        Piece::Text("arms "),
        Piece::Decimal(counters.arms),
        Piece::Text(" quiet "),
        Piece::Decimal(counters.quiet),
        Piece::Text(" taken "),
        Piece::Decimal(counters.taken),
        Piece::Text(" lost "),
        Piece::Decimal(counters.lost),
    ];
    let verdicts = [
        Piece::Text(" two-sided "),
        Piece::Decimal(counters.two_sided),
        Piece::Text(" unknown "),
        Piece::Decimal(counters.unknown),
        Piece::Text(" encoding "),
        Piece::Decimal(counters.encoding),
        Piece::Text(" same "),
        Piece::Decimal(counters.same),
        Piece::Text(" masked "),
        Piece::Decimal(counters.masked),
    ];
    let unwatched = [
        Piece::Text(" capacity "),
        Piece::Decimal(counters.capacity),
        Piece::Text(" unencodable "),
        Piece::Decimal(counters.unencodable),
        Piece::Text(" unbalanced "),
        Piece::Decimal(unbalanced),
        Piece::Text("\n"),
    ];
    write_parts(sink, &[&watched[..], &verdicts[..], &unwatched[..]])
}

/// Writes in how many of so many runs the condition held.
///
/// `SinkFailed`: the sink failed in this call, and holds a beginning of the line.
#[tactic(auto, unfolding(crate::specs::Lines::condition_line))]
pub fn write_condition<K: Sink>(held: u64, runs: u64, sink: &mut K) -> Result<(), WriteError>
    ensures { Writes K.written K.failures result (condition_line held runs) sink.old sink.new }
{
    write_pieces(
        sink,
        &[
            Piece::Text("condition held in "),
            Piece::Decimal(held),
            Piece::Text(" of "),
            Piece::Decimal(runs),
            Piece::Text(" runs\n"),
        ],
    )
}

/// Writes in how many of so many runs a task got stuck.
///
/// `SinkFailed`: the sink failed in this call, and holds a beginning of the line.
#[tactic(auto, unfolding(crate::specs::Lines::stuck_line))]
pub fn write_stuck<K: Sink>(stuck: u64, runs: u64, sink: &mut K) -> Result<(), WriteError>
    ensures { Writes K.written K.failures result (stuck_line stuck runs) sink.old sink.new }
{
    write_pieces(
        sink,
        &[
            Piece::Text("stuck in "),
            Piece::Decimal(stuck),
            Piece::Text(" of "),
            Piece::Decimal(runs),
            Piece::Text(" runs\n"),
        ],
    )
}
