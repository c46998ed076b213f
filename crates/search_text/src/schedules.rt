//! Schedules, as the program reads them.

ghost use Rattle.std.specs.List.{flat_map};
ghost use Rattle.report_text.specs.Sink.{Writes};
ghost use Rattle.search_text.specs.Schedules as spec;
ghost use Rattle.search_text.specs.Schedules.{entry_text, later_text};

use prepared_program::step_schedule::Entry;
use report_text::pieces::{Piece, write_pieces};
use report_text::{Sink, WriteError};

/// Writes an entry.
fn write_entry<K: Sink>(sink: &mut K, entry: Entry) -> Result<(), WriteError>
    ensures { Writes K.written K.failures result (entry_text entry) sink.old sink.new }
{
    write_pieces(
        sink,
        &[
            Piece::Decimal(entry.task),
            Piece::Text("x"),
            Piece::Decimal(entry.steps),
        ],
    )
}

/// Writes an entry behind another.
#[tactic(auto, unfolding(crate::specs::Schedules::later_text))]
fn write_later<K: Sink>(sink: &mut K, entry: Entry) -> Result<(), WriteError>
    ensures { Writes K.written K.failures result (later_text entry) sink.old sink.new }
{
    write_pieces(
        sink,
        &[
            Piece::Text(","),
            Piece::Decimal(entry.task),
            Piece::Text("x"),
            Piece::Decimal(entry.steps),
        ],
    )
}

/// Writes entries behind others.
fn write_more<K: Sink>(sink: &mut K, entries: &[Entry]) -> Result<(), WriteError>
    ensures { Writes K.written K.failures result (flat_map later_text entries.now) sink.old sink.new }
{
    for entry in entries {
        write_later(sink, *entry)?;
    }
    Ok(())
}

/// Writes a schedule: its entries, with commas between them.
///
/// `SinkFailed`: the sink failed in this call, and holds a beginning of the text.
pub fn write_schedule<K: Sink>(sink: &mut K, entries: &[Entry]) -> Result<(), WriteError>
    ensures { Writes K.written K.failures result (spec.schedule_text entries.now) sink.old sink.new }
{
    match entries.split_first() {
        Some((first, more)) => {
            write_entry(sink, *first)?;
            write_more(sink, more)
        }
        None => Ok(()),
    }
}
