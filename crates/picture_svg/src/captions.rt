//! What stands above a picture: its title and its settings.

ghost use Rattle.std.specs.Prelude.{◌≡◌};
ghost use Rattle.report_text.specs.Pieces.{piece_text, text_of};
ghost use Rattle.report_text.specs.Sink.{Writes};
ghost use Rattle.timeline.specs.Lengths.{len_of};
ghost use Rattle.timeline.specs.Texts.{unchanged};
ghost use Rattle.picture_svg.specs.Captions as spec;

use access_types::{ArmOutcome, HitResult};
use report_text::pieces::{Piece, write_parts, write_pieces};
use report_text::{Sink, WriteError, write_all};
use timeline::lengths::{LONGEST, parts_len, pieces_len, text_len};
use timeline::picture::labels::Label;
use timeline::picture::{Column, Mark, Picture, Row, Watch};
use timeline::texts::{Markup, write_known, write_text};
use trace_replay::trace_lines::{Head, Shape};
use watch_word::Layout;

/// What a reader knows of a trace beyond it. A text that isn't known is empty.
#[derive(Clone, Copy)]
pub struct Captions<'a> {
    /// The name of the test.
    pub test: &'a [u8],
    /// The settings of the run. Where they aren't known, those that the trace has are told.
    pub settings: &'a [u8],
    /// What is known of sites.
    pub labels: &'a [Label<'a>],
}

/// The task has accesses.
fn is_shown(column: &Column) -> bool
    ensures { result ≡ spec.is_shown column.now }
{
    !column.begins.is_empty()
}

/// A report stands in the row.
fn is_report(row: &Row) -> bool
    ensures { result ≡ spec.is_report row.now.mark }
{
    matches!(row.mark, Mark::Race { .. } | Mark::Origin { .. })
}

/// The watchpoint was taken without a report.
fn is_discard(watch: &Watch) -> bool
    ensures { result ≡ spec.is_discard watch.now.arm.outcome }
{
    match watch.arm.outcome() {
        ArmOutcome::Quiet | ArmOutcome::Origin => false,
        ArmOutcome::Hit { result, .. } => is_discarded(result),
    }
}

/// The hit isn't reported.
fn is_discarded(hit: HitResult) -> bool
    ensures { result ≡ spec.is_discarded hit }
{
    !matches!(hit, HitResult::Report)
}

/// A number in front of what it counts: 0 as a word.
fn number(count: usize) -> Piece
    ensures { piece_text result ≡ spec.number count }
{
    match count {
        0 => Piece::Text("no"),
        _ => Piece::Decimal(count as u64),
    }
}

/// What a noun ends with behind a number.
fn ending(count: usize) -> &'static str
    ensures { result.now ≡ spec.ending count }
{
    if count < 2 { "" } else { "s" }
}

/// So many of what the noun names.
fn counted(count: usize, noun: &'static str) -> [Piece; 4]
    ensures { text_of result ≡ spec.counted count noun.now }
{
    [
        number(count),
        Piece::Text(" "),
        Piece::Text(noun),
        Piece::Text(ending(count)),
    ]
}

/// How many tasks have accesses.
fn tasks(picture: &Picture) -> [Piece; 4]
    ensures { text_of result ≡ spec.tasks picture.now }
{
    let shown = picture.columns.iter().filter(|column| is_shown(column));
    counted(shown.count(), "task")
}

/// How many reports there are.
fn reports(picture: &Picture) -> [Piece; 4]
    ensures { text_of result ≡ spec.reports picture.now }
{
    let reports = picture.rows.iter().filter(|row| is_report(row));
    counted(reports.count(), "report")
}

/// How many watchpoints were taken without a report: nothing, where none was.
fn discards(picture: &Picture) -> [Piece; 5]
    ensures { text_of result ≡ spec.discards picture.now }
{
    let discards = picture.watches.iter().filter(|watch| is_discard(watch));
    let count = discards.count();
    if count == 0 {
        return [Piece::Text(""); 5];
    }
    [
        Piece::Text(", "),
        Piece::Decimal(count as u64),
        Piece::Text(" "),
        Piece::Text("discard"),
        Piece::Text(ending(count)),
    ]
}

/// What stands between the name of a test and its outcome.
fn colon(test: &[u8]) -> [Piece; 1]
    ensures { text_of result ≡ spec.colon test.now }
{
    match test {
        [] => [Piece::Text("")],
        _ => [Piece::Text(": ")],
    }
}

/// How long the title is.
pub(crate) fn title_len(picture: &Picture, test: &[u8]) -> u64
    ensures { result ≡ len_of (spec.title unchanged picture.now test.now) }
{
    let colon = colon(test);
    let tasks = tasks(picture);
    let reports = reports(picture);
    let discards = discards(picture);
    let outcome = parts_len(&[
        &colon[..],
        &tasks[..],
        &[Piece::Text(", ")],
        &reports[..],
        &discards[..],
    ]);
    LONGEST.min(text_len(test) + outcome)
}

/// Writes what stands behind the name of a test: its outcome, and a text.
fn write_outcome<K: Sink>(
    sink: &mut K,
    picture: &Picture,
    test: &[u8],
    behind: &'static str,
) -> Result<(), WriteError>
    ensures { Writes K.written K.failures result (spec.outcome picture.now test.now behind.now) sink.old sink.new }
{
    let colon = colon(test);
    let tasks = tasks(picture);
    let reports = reports(picture);
    let discards = discards(picture);
    let comma = [Piece::Text(", ")];
    write_parts(
        sink,
        &[
            &colon[..],
            &tasks[..],
            &comma[..],
            &reports[..],
            &discards[..],
            &[Piece::Text(behind)],
        ],
    )
}

/// Writes the title, between texts.
pub(crate) fn write_title<K: Sink>(
    sink: &mut K,
    picture: &Picture,
    test: &[u8],
    before: &[Piece],
    behind: &'static str,
) -> Result<(), WriteError>
    ensures { Writes K.written K.failures result (spec.title_between picture.now test.now (text_of before.now) behind.now) sink.old sink.new }
{
    write_pieces(sink, before)?;
    write_text(sink, Markup::Xml, test)?;
    write_outcome(sink, picture, test, behind)
}

/// The settings that a shape tells.
fn shape_words(shape: Shape) -> [Piece; 4]
    ensures { text_of result ≡ spec.shape_words shape }
{
    [
        Piece::Decimal(shape.slots),
        Piece::Text(" slots, watch words of "),
        Piece::Text(width_word(shape.layout)),
        Piece::Text(" bits"),
    ]
}

/// The settings that a trace has: in version 1 none.
fn head_words(head: Head) -> [Piece; 4]
    ensures { text_of result ≡ spec.head_words head }
{
    match head {
        Head::First => [Piece::Text(""); 4],
        Head::Second(shape) => shape_words(shape),
    }
}

/// How wide watch words are.
fn width_word(layout: Layout) -> &'static str
    ensures { result.now ≡ spec.width_word layout }
{
    match layout {
        Layout::W64 => "64",
        Layout::W32 => "32",
    }
}

/// How long the line of settings is.
pub(crate) fn settings_len(picture: &Picture, settings: &[u8]) -> u64
    ensures { result ≡ len_of (spec.settings_in unchanged picture.now settings.now) }
{
    match settings {
        [] => pieces_len(&head_words(picture.head)),
        told => text_len(told),
    }
}

/// Writes the line of settings.
pub(crate) fn write_settings<K: Sink>(
    sink: &mut K,
    picture: &Picture,
    settings: &[u8],
) -> Result<(), WriteError>
    ensures { Writes K.written K.failures result (spec.settings_line picture.now settings.now) sink.old sink.new }
{
    write_all(sink, b"<text x=\"1em\" y=\"2.5em\"><tspan>")?;
    write_known(sink, Markup::Xml, settings, &head_words(picture.head))?;
    write_all(sink, b"</tspan></text>\n")
}
