//! What a search writes.

ghost use Rattle.std.specs.Prelude.{◌≡◌, ◌++◌, List, codes, length};
ghost use Rattle.std.specs.List.{flat_map};
ghost use Rattle.report_text.specs.Sink.{Writes};
ghost use Rattle.prepared_program.specs.declared.step_schedule.schedule.Entry as entries;
ghost use Rattle.search_text.specs.SearchFindings.{Finds, Searched};
ghost use Rattle.search_text.specs.Write.{count_text, counted_text, endings_text, observation_line, observed, search_text, seen_text, sighting_text};
ghost use Rattle.search_text.specs.Write.{state_line, states_line, stuck_text, text_found, times_head, times_line, uncounted_text, word_of};

use crate::bounds::{Asked, at_least, write_bounds};
use crate::firsts::write_deadlock;
use crate::found::SearchFindings;
use crate::schedules::write_schedule;
use crate::seen::{Seen, Sightings};
use crate::stopped::Stopped;
use prepared_program::step_schedule::Entry;
use report_text::pieces::{Piece, write_pieces};
use report_text::{Sink, WriteError, write_all};

/// Writes in how many schedules something was, behind this word.
#[tactic(auto, unfolding(crate::specs::Write::times_head))]
fn write_times_head<K: Sink>(sink: &mut K, word: &'static str, times: u64) -> Result<(), WriteError>
    ensures { Writes K.written K.failures result (times_head word.now times) sink.old sink.new }
{
    write_pieces(
        sink,
        &[
            Piece::Text(word),
            Piece::Text(" in "),
            Piece::Text(at_least(times)),
            Piece::Decimal(times),
            Piece::Text(" schedules, first with --schedule "),
        ],
    )
}

/// Writes in how many schedules something was, behind this word, and the first of them.
fn write_times<K: Sink>(
    sink: &mut K,
    word: &'static str,
    times: u64,
    first: &[Entry],
) -> Result<(), WriteError>
    ensures { Writes K.written K.failures result (times_line word.now (times, first.now)) sink.old sink.new }
{
    write_times_head(sink, word, times)?;
    write_schedule(sink, first)?;
    write_all(sink, b"\n")
}

/// Writes the text of a report, and in how many schedules it was seen.
fn write_sighting<K: Sink>(
    sink: &mut K,
    text: &[u8],
    times: u64,
    first: &[Entry],
) -> Result<(), WriteError>
    ensures { Writes K.written K.failures result (sighting_text (text.now, (times, first.now))) sink.old sink.new }
{
    write_all(sink, text)?;
    write_times(sink, "seen", times, first)
}

/// Writes how many schedules end in a state.
fn write_ends<K: Sink>(sink: &mut K, times: u64) -> Result<(), WriteError>
    ensures { Writes K.written K.failures result (count_text times ++ codes ">") sink.old sink.new }
{
    write_pieces(
        sink,
        &[
            Piece::Text(at_least(times)),
            Piece::Decimal(times),
            Piece::Text(">"),
        ],
    )
}

/// Writes a final state, and how many schedules end so.
fn write_state<K: Sink>(sink: &mut K, state: &[u8], times: u64) -> Result<(), WriteError>
    ensures { (first : List entries.Entry) → Writes K.written K.failures result (state_line (state.now, (times, first))) sink.old sink.new }
{
    write_ends(sink, times)?;
    write_all(sink, state)?;
    write_all(sink, b"\n")
}

impl Sightings {
    /// Writes the text of each report, and in how many schedules it was seen.
    fn write_reports<K: Sink>(&self, sink: &mut K) -> Result<(), WriteError>
        ensures { Writes K.written K.failures result (flat_map sighting_text self.now) sink.old sink.new }
    {
        for (text, seen) in self.seen.iter() {
            write_sighting(sink, text.as_slice(), seen.times(), seen.first())?;
        }
        Ok(())
    }

    /// Writes each final state, and how many schedules end so.
    fn write_states<K: Sink>(&self, sink: &mut K) -> Result<(), WriteError>
        ensures { Writes K.written K.failures result (flat_map state_line self.now) sink.old sink.new }
    {
        for (text, seen) in self.seen.iter() {
            write_state(sink, text.as_slice(), seen.times())?;
        }
        Ok(())
    }
}

/// Writes in how many schedules not all tasks ended, if there are any.
fn write_stuck<K: Sink>(sink: &mut K, stuck: &Option<Seen>) -> Result<(), WriteError>
    ensures { Writes K.written K.failures result (stuck_text stuck.now) sink.old sink.new }
{
    match stuck {
        Some(seen) => write_times(sink, "stuck", seen.times(), seen.first()),
        None => Ok(()),
    }
}

/// Writes that there are so many final states.
#[tactic(auto, unfolding(crate::specs::Write::states_line))]
fn write_number<K: Sink>(sink: &mut K, states: u64) -> Result<(), WriteError>
    ensures { Writes K.written K.failures result (states_line states) sink.old sink.new }
{
    write_pieces(
        sink,
        &[
            Piece::Text("States "),
            Piece::Decimal(states),
            Piece::Text("\n"),
        ],
    )
}

/// Writes how many final states there are.
fn write_count<K: Sink>(sink: &mut K, states: &Sightings) -> Result<(), WriteError>
    ensures { Writes K.written K.failures result (states_line (length states.now)) sink.old sink.new }
{
    write_number(sink, states.len() as u64)
}

/// In which whole lists a proposition holds that holds in so many of them, and in so many doesn't.
fn word(held: u64, failed: u64) -> &'static str
    ensures { result.now ≡ word_of held failed }
{
    if held == 0 {
        "Never"
    } else if failed == 0 {
        "Always"
    } else {
        "Sometimes"
    }
}

/// Writes in how many whole lists a proposition holds, and in how many it doesn't.
#[tactic(auto, unfolding(crate::specs::Write::observed))]
fn write_observed<K: Sink>(sink: &mut K, held: u64, failed: u64) -> Result<(), WriteError>
    ensures { Writes K.written K.failures result (observed held failed) sink.old sink.new }
{
    write_pieces(
        sink,
        &[
            Piece::Text(" "),
            Piece::Text(word(held, failed)),
            Piece::Text(" "),
            Piece::Text(at_least(held)),
            Piece::Decimal(held),
            Piece::Text(" "),
            Piece::Text(at_least(failed)),
            Piece::Decimal(failed),
            Piece::Text("\n"),
        ],
    )
}

/// Writes in how many whole lists the proposition of the test of this name holds, and in how many it doesn't.
fn write_observation<K: Sink>(
    sink: &mut K,
    name: &str,
    held: u64,
    failed: u64,
) -> Result<(), WriteError>
    ensures { Writes K.written K.failures result (observation_line name.now held failed) sink.old sink.new }
{
    write_all(sink, b"Observation ")?;
    write_all(sink, name.as_bytes())?;
    write_observed(sink, held, failed)
}

/// Writes how whole lists end: how many final states there are, each of them, and whether a proposition holds there.
pub(crate) fn write_ending<K: Sink>(
    sink: &mut K,
    found: &SearchFindings,
    name: &str,
) -> Result<(), WriteError>
    ensures { Writes K.written K.failures result (endings_text name.now found.now.states found.now.held found.now.failed)
        sink.old sink.new }
{
    write_count(sink, &found.states)?;
    found.states.write_states(sink)?;
    write_observation(sink, name, found.held, found.failed)
}

/// Writes each report and in how many schedules it was seen, and in how many not all tasks ended.
fn write_counted<K: Sink>(sink: &mut K, found: &SearchFindings) -> Result<(), WriteError>
    ensures { Writes K.written K.failures result (counted_text found.now.reports found.now.stuck) sink.old sink.new }
{
    found.reports.write_reports(sink)?;
    write_stuck(sink, &found.stuck)
}

/// Writes each report and the schedule of the first list in which it was seen, and that of the first after which not
/// all tasks have ended.
fn write_uncounted<K: Sink>(sink: &mut K, found: &SearchFindings) -> Result<(), WriteError>
    ensures { Writes K.written K.failures result (uncounted_text found.now.reports found.now.stuck) sink.old sink.new }
{
    found.reports.write_firsts(sink)?;
    write_deadlock(sink, &found.stuck)
}

/// Writes the reports and the deadlocks of a search. Where it was stopped, they may be in more schedules than were
/// counted.
fn write_seen<K: Sink>(
    sink: &mut K,
    found: &SearchFindings,
    stopped: Stopped,
) -> Result<(), WriteError>
    ensures { Writes K.written K.failures result (seen_text stopped found.now.reports found.now.stuck) sink.old sink.new }
{
    if stopped.is_stopped() {
        write_uncounted(sink, found)
    } else {
        write_counted(sink, found)
    }
}

/// Writes what is found, of the test of this name.
fn write_found<K: Sink>(
    found: &SearchFindings,
    name: &str,
    asked: Asked,
    sink: &mut K,
) -> Result<(), WriteError>
    ensures { Writes K.written K.failures result (text_found name.now asked.switches asked.nodes asked.stopped found.now)
        sink.old sink.new }
{
    write_seen(sink, found, asked.stopped)?;
    write_bounds(sink, found.searched, asked)?;
    write_ending(sink, found, name)
}

/// Writes what is found of the lists that were searched, of the test of this name. Where the search was stopped, no
/// number of schedules is written of a report or of deadlocks.
///
/// `SinkFailed`: the sink failed in this call, and holds a beginning of the text.
pub fn write_search<K: Sink>(
    found: &SearchFindings,
    name: &str,
    asked: Asked,
    sink: &mut K,
) -> Result<(), WriteError>
    ensures { (lists : List Searched) → Finds lists found.now
        → Writes K.written K.failures result (search_text name.now asked.switches asked.nodes asked.stopped lists) sink.old sink.new }
{
    write_found(found, name, asked, sink)
}
