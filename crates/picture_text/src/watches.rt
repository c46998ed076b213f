//! The watchpoints under a picture, and who took them.

ghost use Rattle.std.specs.Prelude.{◌≡◌};
ghost use Rattle.std.specs.List.{flat_map};
ghost use Rattle.report_text.specs.Sink.{Writes};
ghost use Rattle.report_text.specs.Pieces.{text_of};
ghost use Rattle.picture_text.specs.Watches as spec;
ghost use Rattle.picture_text.specs.Watches.{gap_text, taking_text, watch_text};

use report_text::pieces::{Piece, write_parts};
use report_text::{Sink, WriteError, write_all};
use timeline::picture::words::{outcome_words, place_of};
use timeline::picture::{Taking, Watch};

/// Writes an empty line, where there are watchpoints.
pub(crate) fn write_gap<K: Sink>(sink: &mut K, watches: &[Watch]) -> Result<(), WriteError>
    ensures { Writes K.written K.failures result (gap_text watches.now) sink.old sink.new }
{
    match watches.is_empty() {
        true => Ok(()),
        false => write_all(sink, b"\n"),
    }
}

/// The index of a watchpoint, where slots are shown.
fn index_words(slots: bool, index: usize) -> [Piece; 3]
    ensures { text_of result ≡ spec.index_words slots index }
{
    let blanks = Piece::Text("   ");
    match slots {
        true => [
            Piece::Text("   index "),
            Piece::Decimal(index as u64),
            blanks,
        ],
        false => [blanks, Piece::Text(""), Piece::Text("")],
    }
}

/// Writes a watchpoint: who set it up, at which index, where slots are shown, and what became of it.
fn write_watch<K: Sink>(sink: &mut K, slots: bool, watch: &Watch) -> Result<(), WriteError>
    ensures { Writes K.written K.failures result (watch_text slots watch.now) sink.old sink.new }
{
    let setter = place_of(&watch.setter);
    let index = index_words(slots, watch.arm.index());
    let outcome = outcome_words(watch.arm.outcome());
    write_parts(
        sink,
        &[
            &[Piece::Text("arm   ")],
            &setter[..],
            &index[..],
            &outcome[..],
            &[Piece::Text("\n")],
        ],
    )
}

/// Writes watchpoints.
pub(crate) fn write_watches<K: Sink>(
    sink: &mut K,
    slots: bool,
    watches: &[Watch],
) -> Result<(), WriteError>
    ensures { Writes K.written K.failures result (flat_map (watch_text slots) watches.now) sink.old sink.new }
{
    for watch in watches {
        write_watch(sink, slots, watch)?;
    }
    Ok(())
}

/// Writes a taking: who took, at which index, where slots are shown, and who had set up.
fn write_taking<K: Sink>(sink: &mut K, slots: bool, taking: &Taking) -> Result<(), WriteError>
    ensures { Writes K.written K.failures result (taking_text slots taking.now) sink.old sink.new }
{
    let finder = place_of(&taking.finder);
    let index = index_words(slots, taking.take.index());
    let setter = place_of(&taking.setter);
    write_parts(
        sink,
        &[
            &[Piece::Text("take  ")],
            &finder[..],
            &index[..],
            &[Piece::Text("set up by ")],
            &setter[..],
            &[Piece::Text("\n")],
        ],
    )
}

/// Writes takings.
pub(crate) fn write_takings<K: Sink>(
    sink: &mut K,
    slots: bool,
    takings: &[Taking],
) -> Result<(), WriteError>
    ensures { Writes K.written K.failures result (flat_map (taking_text slots) takings.now) sink.old sink.new }
{
    for taking in takings {
        write_taking(sink, slots, taking)?;
    }
    Ok(())
}
