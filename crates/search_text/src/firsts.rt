//! The first lists with a report, and the first after which not all tasks have ended, as they are written.

ghost use Rattle.std.specs.Prelude.{◌++◌, codes};
ghost use Rattle.std.specs.List.{flat_map};
ghost use Rattle.report_text.specs.Sink.{Writes};
ghost use Rattle.search_text.specs.Write.{deadlock_text, first_line, first_text};

use crate::schedules::write_schedule;
use crate::seen::{Seen, Sightings};
use prepared_program::step_schedule::Entry;
use report_text::{Sink, WriteError, write_all};

/// Writes the schedule of the first list in which something was seen.
fn write_first<K: Sink>(sink: &mut K, first: &[Entry]) -> Result<(), WriteError>
    ensures { Writes K.written K.failures result (first_line first.now) sink.old sink.new }
{
    write_all(sink, b"first with --schedule ")?;
    write_schedule(sink, first)?;
    write_all(sink, b"\n")
}

/// Writes the text of a report, and the schedule of the first list in which it was seen.
fn write_report<K: Sink>(sink: &mut K, text: &[u8], first: &[Entry]) -> Result<(), WriteError>
    ensures { Writes K.written K.failures result (text.now ++ first_line first.now) sink.old sink.new }
{
    write_all(sink, text)?;
    write_first(sink, first)
}

impl Sightings {
    /// Writes the text of each report, and the schedule of the first list in which it was seen.
    pub(crate) fn write_firsts<K: Sink>(&self, sink: &mut K) -> Result<(), WriteError>
        ensures { Writes K.written K.failures result (flat_map first_text self.now) sink.old sink.new }
    {
        for (text, seen) in self.seen.iter() {
            write_report(sink, text.as_slice(), seen.first())?;
        }
        Ok(())
    }
}

/// Writes the schedule of a list after which not all tasks have ended.
fn write_deadlock_line<K: Sink>(sink: &mut K, first: &[Entry]) -> Result<(), WriteError>
    ensures { Writes K.written K.failures result (codes "stuck, " ++ first_line first.now) sink.old sink.new }
{
    write_all(sink, b"stuck, ")?;
    write_first(sink, first)
}

/// Writes the schedule of the first list after which not all tasks have ended, if there is one.
pub(crate) fn write_deadlock<K: Sink>(sink: &mut K, stuck: &Option<Seen>) -> Result<(), WriteError>
    ensures { Writes K.written K.failures result (deadlock_text stuck.now) sink.old sink.new }
{
    match stuck {
        Some(seen) => write_deadlock_line(sink, seen.first()),
        None => Ok(()),
    }
}
