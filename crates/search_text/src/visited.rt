//! What a search over states writes, which visits each state once.

ghost use Rattle.std.specs.Prelude.{List};
ghost use Rattle.report_text.specs.Sink.{Writes};
ghost use Rattle.search_text.specs.SearchFindings.{Finds, Searched};
ghost use Rattle.search_text.specs.Write.{states_search_text, stopped_at_line, stopped_at_text, text_of_both, visited_line, visited_text};

use crate::firsts::write_deadlock;
use crate::found::SearchFindings;
use crate::stopped::{Stopped, write_out_of_time};
use crate::write::write_ending;
use report_text::pieces::{Piece, write_pieces};
use report_text::{Sink, WriteError};

/// How many states were searched: all of them, or those that were visited before the search was stopped.
#[derive(Clone, Copy)]
pub struct Visited {
    pub states: u64,
    /// Whether it was.
    pub stopped: Stopped,
}

/// Writes how many states were searched.
#[tactic(auto, unfolding(crate::specs::Write::visited_line))]
fn write_visited_line<K: Sink>(sink: &mut K, states: u64) -> Result<(), WriteError>
    ensures { Writes K.written K.failures result (visited_line states) sink.old sink.new }
{
    write_pieces(
        sink,
        &[
            Piece::Text("searched "),
            Piece::Decimal(states),
            Piece::Text(" states of all schedules\n"),
        ],
    )
}

/// Writes that the search was stopped after so many states.
#[tactic(auto, unfolding(crate::specs::Write::stopped_at_line))]
fn write_stopped_at_line<K: Sink>(sink: &mut K, states: u64) -> Result<(), WriteError>
    ensures { Writes K.written K.failures result (stopped_at_line states) sink.old sink.new }
{
    write_pieces(
        sink,
        &[
            Piece::Text("stopped after "),
            Piece::Decimal(states),
            Piece::Text(" states: others remain\n"),
        ],
    )
}

/// Writes that the search was stopped after so many states, or because its time was up, if it was.
fn write_stopped_at<K: Sink>(sink: &mut K, stopped: Stopped, states: u64) -> Result<(), WriteError>
    ensures { Writes K.written K.failures result (stopped_at_text stopped states) sink.old sink.new }
{
    match stopped {
        Stopped::No => Ok(()),
        Stopped::AtLimit => write_stopped_at_line(sink, states),
        Stopped::AfterSeconds(seconds) => write_out_of_time(sink, seconds),
    }
}

/// Writes how many states were searched, and that others remain, if they do.
fn write_visited<K: Sink>(sink: &mut K, visited: Visited) -> Result<(), WriteError>
    ensures { Writes K.written K.failures result (visited_text visited.states visited.stopped) sink.old sink.new }
{
    write_visited_line(sink, visited.states)?;
    write_stopped_at(sink, visited.stopped, visited.states)
}

/// Writes what is found, of the test of this name: the reports of the first, and how the lists of the other end.
fn write_both<K: Sink>(
    reported: &SearchFindings,
    ended: &SearchFindings,
    name: &str,
    visited: Visited,
    sink: &mut K,
) -> Result<(), WriteError>
    ensures { Writes K.written K.failures result (text_of_both name.now visited.stopped visited.states reported.now ended.now)
        sink.old sink.new }
{
    reported.reports.write_firsts(sink)?;
    write_deadlock(sink, &ended.stuck)?;
    write_visited(sink, visited)?;
    write_ending(sink, ended, name)
}

/// Writes what is found by a search over the states of the test of this name: the reports that fall at the last steps
/// of some lists, how many states were searched, and how others end. It counts states, and no lists.
///
/// `SinkFailed`: the sink failed in this call, and holds a beginning of the text.
pub fn write_states_search<K: Sink>(
    reported: &SearchFindings,
    ended: &SearchFindings,
    name: &str,
    visited: Visited,
    sink: &mut K,
) -> Result<(), WriteError>
    ensures { (reports ends : List Searched) → Finds reports reported.now → Finds ends ended.now
        → Writes K.written K.failures result (states_search_text name.now visited.stopped visited.states reports ends) sink.old sink.new }
{
    write_both(reported, ended, name, visited, sink)
}
