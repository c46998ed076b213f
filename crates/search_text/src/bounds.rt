//! How many schedules were searched, and of which, as it is written.

ghost use Rattle.std.specs.Prelude.{◌≡◌};
ghost use Rattle.report_text.specs.Sink.{Writes};
ghost use Rattle.search_text.specs.Write as spec;
ghost use Rattle.search_text.specs.Write.{bounds_text, searched_line, stopped_line, stopped_text};

use crate::stopped::{Stopped, write_out_of_time};
use report_text::pieces::{Piece, write_pieces};
use report_text::{Sink, WriteError};

/// Which schedules were searched: those with at most so many preemptions, all of them or those that were searched
/// before the search was stopped.
#[derive(Clone, Copy, PartialEq, Eq)]
pub struct Asked {
    pub switches: u64,
    /// After how many nodes the search is stopped.
    pub nodes: u64,
    /// Whether it was.
    pub stopped: Stopped,
}

/// What stands before a number of schedules, which rests at its last value.
pub(crate) fn at_least(count: u64) -> &'static str
    ensures { result.now ≡ spec.at_least count }
{
    if count == u64::MAX { "at least " } else { "" }
}

/// Writes how many schedules were searched.
#[tactic(auto, unfolding(crate::specs::Write::searched_line))]
fn write_searched<K: Sink>(sink: &mut K, searched: u64, switches: u64) -> Result<(), WriteError>
    ensures { Writes K.written K.failures result (searched_line searched switches) sink.old sink.new }
{
    write_pieces(
        sink,
        &[
            Piece::Text("searched "),
            Piece::Text(at_least(searched)),
            Piece::Decimal(searched),
            Piece::Text(" schedules with at most "),
            Piece::Decimal(switches),
            Piece::Text(" switches\n"),
        ],
    )
}

/// Writes that the search was stopped after so many nodes.
#[tactic(auto, unfolding(crate::specs::Write::stopped_line))]
fn write_stopped_line<K: Sink>(sink: &mut K, nodes: u64) -> Result<(), WriteError>
    ensures { Writes K.written K.failures result (stopped_line nodes) sink.old sink.new }
{
    write_pieces(
        sink,
        &[
            Piece::Text("stopped after "),
            Piece::Decimal(nodes),
            Piece::Text(" nodes: others remain\n"),
        ],
    )
}

/// Writes that the search was stopped after so many nodes, or because its time was up, if it was.
fn write_stopped<K: Sink>(sink: &mut K, stopped: Stopped, nodes: u64) -> Result<(), WriteError>
    ensures { Writes K.written K.failures result (stopped_text stopped nodes) sink.old sink.new }
{
    match stopped {
        Stopped::No => Ok(()),
        Stopped::AtLimit => write_stopped_line(sink, nodes),
        Stopped::AfterSeconds(seconds) => write_out_of_time(sink, seconds),
    }
}

/// Writes how many lists were searched, of those with at most so many preemptions, and that others remain, if they do.
pub(crate) fn write_bounds<K: Sink>(
    sink: &mut K,
    searched: u64,
    asked: Asked,
) -> Result<(), WriteError>
    ensures { Writes K.written K.failures result (bounds_text searched asked.switches asked.nodes asked.stopped) sink.old sink.new }
{
    write_searched(sink, searched, asked.switches)?;
    write_stopped(sink, asked.stopped, asked.nodes)
}
