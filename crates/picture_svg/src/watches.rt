//! Watchpoints, thin in the bars of their accesses, and arrows to them from the accesses that took them.

ghost use Rattle.std.specs.Prelude.{◌≡◌};
ghost use Rattle.std.specs.List.{flat_map};
ghost use Rattle.std.specs.List.Sorted.{IsNonDecreasingBy};
ghost use Rattle.report_text.specs.Pieces.{text_of};
ghost use Rattle.report_text.specs.Sink.{Writes};
ghost use Rattle.picture_svg.specs.Watches as spec;
ghost use Rattle.picture_svg.specs.Watches.{taking_text, watch_text};

use crate::lanes::Lanes;
use crate::lines::row_top;
use report_text::pieces::{Piece, write_parts};
use report_text::{Sink, WriteError};
use timeline::picture::words::{outcome_words, place_of};
use timeline::picture::{Row, Taking, Watch, rows_before};

/// The thin bar of a watchpoint.
fn watch_rect(x: u64, top: u64, bottom: u64) -> [Piece; 7]
    ensures { text_of result ≡ spec.watch_rect x top bottom }
{
    [
        Piece::Text("</title><rect x=\""),
        Piece::Decimal(x),
        Piece::Text(".4em\" y=\""),
        Piece::Decimal(top),
        Piece::Text("em\" width=\"0.2em\" height=\""),
        Piece::Decimal(bottom.saturating_sub(top)),
        Piece::Text("em\"/></g>\n"),
    ]
}

/// An index.
fn index_words(before: &'static str, index: usize, behind: &'static str) -> [Piece; 3]
    ensures { text_of result ≡ spec.index_words before.now index behind.now }
{
    [
        Piece::Text(before),
        Piece::Decimal(index as u64),
        Piece::Text(behind),
    ]
}

/// Where the bar of a watchpoint ends: that of one that was taken, below the row in which the later of the two accesses
/// begins, where the arrow to it stands; any other where its access ends.
fn watch_end(rows: &[Row], watch: &Watch) -> u64
    requires { IsNonDecreasingBy (λ row. row.stamp) rows.now }
    ensures { result ≡ spec.watch_end rows.now watch.now }
{
    let setter = watch.setter;
    let end = row_top(rows_before(rows, setter.end()));
    match watch.finder {
        Some(finder) => {
            let later = setter.begin().max(finder.begin());
            row_top(rows_before(rows, later)).saturating_add(2).min(end)
        }
        None => end,
    }
}

/// Writes a watchpoint, from where its access begins to where it was taken, or to the end of the access.
fn write_watch<K: Sink>(
    sink: &mut K,
    lanes: &Lanes,
    rows: &[Row],
    watch: &Watch,
) -> Result<(), WriteError>
    requires { IsNonDecreasingBy (λ row. row.stamp) rows.now }
    ensures { Writes K.written K.failures result (watch_text lanes.now rows.now watch.now) sink.old sink.new }
{
    let setter = watch.setter;
    let place = place_of(&setter);
    let index = index_words(", index ", watch.arm.index(), ", ");
    let outcome = outcome_words(watch.arm.outcome());
    let rect = watch_rect(
        lanes.start(setter.access().task()),
        row_top(rows_before(rows, setter.begin())),
        watch_end(rows, watch),
    );
    write_parts(
        sink,
        &[
            &[Piece::Text("<g class=\"watch\"><title>")],
            &place[..],
            &index[..],
            &outcome[..],
            &rect[..],
        ],
    )
}

/// Writes watchpoints.
pub(crate) fn write_watches<K: Sink>(
    sink: &mut K,
    lanes: &Lanes,
    rows: &[Row],
    watches: &[Watch],
) -> Result<(), WriteError>
    requires { IsNonDecreasingBy (λ row. row.stamp) rows.now }
    ensures { Writes K.written K.failures result (flat_map (watch_text lanes.now rows.now) watches.now) sink.old sink.new }
{
    for watch in watches {
        write_watch(sink, lanes, rows, watch)?;
    }
    Ok(())
}

/// An arrow from lane to lane, above the words of an access in the same row.
fn arrow(from: u64, to: u64, top: u64) -> [Piece; 9]
    ensures { text_of result ≡ spec.arrow from to top }
{
    [
        Piece::Text("</title><line x1=\""),
        Piece::Decimal(from),
        Piece::Text(".5em\" y1=\""),
        Piece::Decimal(top),
        Piece::Text(".1em\" x2=\""),
        Piece::Decimal(to),
        Piece::Text(".5em\" y2=\""),
        Piece::Decimal(top),
        Piece::Text(".1em\" marker-end=\"url(#tip)\"/></g>\n"),
    ]
}

/// Writes a taking, where the later of its two accesses begins.
fn write_taking<K: Sink>(
    sink: &mut K,
    lanes: &Lanes,
    rows: &[Row],
    taking: &Taking,
) -> Result<(), WriteError>
    requires { IsNonDecreasingBy (λ row. row.stamp) rows.now }
    ensures { Writes K.written K.failures result (taking_text lanes.now rows.now taking.now) sink.old sink.new }
{
    let (setter, finder) = (taking.setter, taking.finder);
    let took = place_of(&finder);
    let index = index_words(" took index ", taking.take.index(), " of ");
    let watched = place_of(&setter);
    let arrow = arrow(
        lanes.start(finder.access().task()),
        lanes.start(setter.access().task()),
        row_top(rows_before(rows, setter.begin().max(finder.begin()))),
    );
    write_parts(
        sink,
        &[
            &[Piece::Text("<g class=\"take\"><title>")],
            &took[..],
            &index[..],
            &watched[..],
            &arrow[..],
        ],
    )
}

/// Writes takings.
pub(crate) fn write_takings<K: Sink>(
    sink: &mut K,
    lanes: &Lanes,
    rows: &[Row],
    takings: &[Taking],
) -> Result<(), WriteError>
    requires { IsNonDecreasingBy (λ row. row.stamp) rows.now }
    ensures { Writes K.written K.failures result (flat_map (taking_text lanes.now rows.now) takings.now) sink.old sink.new }
{
    for taking in takings {
        write_taking(sink, lanes, rows, taking)?;
    }
    Ok(())
}
