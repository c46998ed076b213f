//! The rows of a picture, as lines.

ghost use Rattle.std.specs.Prelude.{◌≡◌, All};
ghost use Rattle.timeline.specs.picture.Running.{IsInOrder};
ghost use Rattle.report_text.specs.Sink.{Writes};
ghost use Rattle.picture_text.specs.Rows as spec;

use crate::cells::{Shape, Style};
use crate::lines::{Margin, write_bars, write_line};
use access_types::Stamped;
use report_text::pieces::{Piece, write_parts};
use report_text::{Sink, WriteError, write_all};
use timeline::picture::labels::{Label, statement_of};
use timeline::picture::told::{first_len, second_len, write_first};
use timeline::picture::words::{place_of, site_words};
use timeline::picture::{Column, Mark, Row};
use timeline::texts::{Markup, write_shortened};

/// A label of an access, in one line or in two, has at most so many columns.
const ROOM: u64 = 65;

/// The access is told in one line.
fn is_short(labels: &[Label<'_>], stamped: &Stamped) -> bool
    ensures { result ≡ spec.is_short labels.now stamped.now }
{
    first_len(labels, stamped) + second_len(stamped) + 2 <= ROOM
}

/// Writes what stands in front of the words of an access that begins.
fn write_begins<K: Sink>(
    sink: &mut K,
    style: Style,
    columns: &[Column],
    stamp: u64,
    stamped: &Stamped,
) -> Result<(), WriteError>
    requires { All IsInOrder columns.now }
    ensures { Writes K.written K.failures result (spec.begin_bars style columns.now stamp stamped.now) sink.old sink.new }
{
    let task = stamped.access().task();
    let margin = Margin::Stamp { stamp };
    write_bars(sink, style, columns, stamp, margin, Shape::Begins { task })
}

/// Writes the begin of an access in one line.
fn write_short<K: Sink>(
    sink: &mut K,
    style: Style,
    columns: &[Column],
    labels: &[Label<'_>],
    stamp: u64,
    stamped: &Stamped,
) -> Result<(), WriteError>
    requires { All IsInOrder columns.now }
    ensures { Writes K.written K.failures result (spec.short_text style columns.now labels.now stamp stamped.now) sink.old sink.new }
{
    let site = site_words(stamped);
    write_begins(sink, style, columns, stamp, stamped)?;
    write_first(sink, Markup::Plain, labels, stamped)?;
    write_parts(
        sink,
        &[&[Piece::Text(", ")], &site[..], &[Piece::Text("\n")]],
    )
}

/// Writes the begin of an access in two lines.
fn write_long<K: Sink>(
    sink: &mut K,
    style: Style,
    columns: &[Column],
    labels: &[Label<'_>],
    stamp: u64,
    stamped: &Stamped,
) -> Result<(), WriteError>
    requires { All IsInOrder columns.now }
    ensures { Writes K.written K.failures result (spec.long_text style columns.now labels.now stamp stamped.now) sink.old sink.new }
{
    write_begins(sink, style, columns, stamp, stamped)?;
    write_first(sink, Markup::Plain, labels, stamped)?;
    write_all(sink, b"\n")?;
    write_second(sink, style, columns, stamp, stamped)
}

/// Writes the second of two lines.
fn write_second<K: Sink>(
    sink: &mut K,
    style: Style,
    columns: &[Column],
    stamp: u64,
    stamped: &Stamped,
) -> Result<(), WriteError>
    requires { All IsInOrder columns.now }
    ensures { Writes K.written K.failures result (spec.second_text style columns.now stamp stamped.now) sink.old sink.new }
{
    let site = site_words(stamped);
    write_line(
        sink,
        style,
        columns,
        stamp,
        Margin::Empty,
        Shape::Bars,
        &[&[Piece::Text("   ")], &site[..], &[Piece::Text("\n")]],
    )
}

/// Writes the begin of an access, without its statement.
fn write_label<K: Sink>(
    sink: &mut K,
    style: Style,
    columns: &[Column],
    labels: &[Label<'_>],
    stamp: u64,
    stamped: &Stamped,
) -> Result<(), WriteError>
    requires { All IsInOrder columns.now }
    ensures { Writes K.written K.failures result (spec.label_text style columns.now labels.now stamp stamped.now) sink.old sink.new }
{
    match is_short(labels, stamped) {
        true => write_short(sink, style, columns, labels, stamp, stamped),
        false => write_long(sink, style, columns, labels, stamp, stamped),
    }
}

/// Writes a statement on a line of its own.
fn write_known_statement<K: Sink>(
    sink: &mut K,
    style: Style,
    columns: &[Column],
    stamp: u64,
    statement: &[u8],
) -> Result<(), WriteError>
    requires { All IsInOrder columns.now }
    ensures { Writes K.written K.failures result (spec.known_statement style columns.now stamp statement.now) sink.old sink.new }
{
    write_bars(sink, style, columns, stamp, Margin::Empty, Shape::Bars)?;
    write_all(sink, b"   ")?;
    write_shortened(sink, Markup::Plain, statement)?;
    write_all(sink, b"\n")
}

/// Writes the statement that makes an access, if it is known.
fn write_statement<K: Sink>(
    sink: &mut K,
    style: Style,
    columns: &[Column],
    stamp: u64,
    statement: &[u8],
) -> Result<(), WriteError>
    requires { All IsInOrder columns.now }
    ensures { Writes K.written K.failures result (spec.statement_text style columns.now stamp statement.now) sink.old sink.new }
{
    match statement.is_empty() {
        true => Ok(()),
        false => write_known_statement(sink, style, columns, stamp, statement),
    }
}

/// Writes the begin of an access.
fn write_begin<K: Sink>(
    sink: &mut K,
    style: Style,
    columns: &[Column],
    labels: &[Label<'_>],
    stamp: u64,
    stamped: &Stamped,
) -> Result<(), WriteError>
    requires { All IsInOrder columns.now }
    ensures { Writes K.written K.failures result (spec.begin_text style columns.now labels.now stamp stamped.now) sink.old sink.new }
{
    write_label(sink, style, columns, labels, stamp, stamped)?;
    write_statement(sink, style, columns, stamp, statement_of(labels, stamped))
}

/// Writes the end of an access.
fn write_end<K: Sink>(
    sink: &mut K,
    style: Style,
    columns: &[Column],
    stamp: u64,
    stamped: &Stamped,
) -> Result<(), WriteError>
    requires { All IsInOrder columns.now }
    ensures { Writes K.written K.failures result (spec.end_text style columns.now stamp stamped.now) sink.old sink.new }
{
    let task = stamped.access().task();
    let place = place_of(stamped);
    write_line(
        sink,
        style,
        columns,
        stamp,
        Margin::Stamp { stamp },
        Shape::Ends { task },
        &[&place[..], &[Piece::Text(" ends\n")]],
    )
}

/// Writes a race.
fn write_race<K: Sink>(
    sink: &mut K,
    style: Style,
    columns: &[Column],
    stamp: u64,
    setter: &Stamped,
    finder: &Stamped,
) -> Result<(), WriteError>
    requires { All IsInOrder columns.now }
    ensures { Writes K.written K.failures result (spec.race_text style columns.now stamp setter.now finder.now) sink.old sink.new }
{
    let watched = setter.access().task();
    let found = finder.access().task();
    let from = watched.min(found);
    let to = watched.max(found);
    let setter = place_of(setter);
    let finder = place_of(finder);
    write_line(
        sink,
        style,
        columns,
        stamp,
        Margin::Empty,
        Shape::Race { from, to },
        &[
            &setter[..],
            &[Piece::Text(" with ")],
            &finder[..],
            &[Piece::Text("\n")],
        ],
    )
}

/// Writes whose bytes changed with nobody telling why.
fn write_changed<K: Sink>(
    sink: &mut K,
    style: Style,
    columns: &[Column],
    stamp: u64,
    setter: &Stamped,
) -> Result<(), WriteError>
    requires { All IsInOrder columns.now }
    ensures { Writes K.written K.failures result (spec.changed_line style columns.now stamp setter.now) sink.old sink.new }
{
    let place = place_of(setter);
    write_line(
        sink,
        style,
        columns,
        stamp,
        Margin::Empty,
        Shape::Bars,
        &[&place[..], &[Piece::Text(": unknown origin\n")]],
    )
}

/// Writes from which value to which.
fn write_values<K: Sink>(
    sink: &mut K,
    style: Style,
    columns: &[Column],
    stamp: u64,
    old: u64,
    new: u64,
) -> Result<(), WriteError>
    requires { All IsInOrder columns.now }
    ensures { Writes K.written K.failures result (spec.values_line style columns.now stamp old new) sink.old sink.new }
{
    write_line(
        sink,
        style,
        columns,
        stamp,
        Margin::Empty,
        Shape::Bars,
        &[&[
            Piece::Text("   old 0x"),
            Piece::Hex(1, old),
            Piece::Text(", new 0x"),
            Piece::Hex(1, new),
            Piece::Text("\n"),
        ]],
    )
}

/// Writes a change of unknown origin.
fn write_origin<K: Sink>(
    sink: &mut K,
    style: Style,
    columns: &[Column],
    stamp: u64,
    setter: &Stamped,
    old: u64,
    new: u64,
) -> Result<(), WriteError>
    requires { All IsInOrder columns.now }
    ensures { Writes K.written K.failures result (spec.origin_text style columns.now stamp setter.now old new) sink.old sink.new }
{
    write_changed(sink, style, columns, stamp, setter)?;
    write_values(sink, style, columns, stamp, old, new)
}

/// Writes a row.
fn write_row<K: Sink>(
    sink: &mut K,
    style: Style,
    columns: &[Column],
    labels: &[Label<'_>],
    row: &Row,
) -> Result<(), WriteError>
    requires { All IsInOrder columns.now }
    ensures { Writes K.written K.failures result (spec.row_text style columns.now labels.now row.now) sink.old sink.new }
{
    let stamp = row.stamp;
    match &row.mark {
        Mark::Begin(stamped) => write_begin(sink, style, columns, labels, stamp, stamped),
        Mark::End(stamped) => write_end(sink, style, columns, stamp, stamped),
        Mark::Race { setter, finder } => write_race(sink, style, columns, stamp, setter, finder),
        Mark::Origin { setter, old, new } => {
            write_origin(sink, style, columns, stamp, setter, *old, *new)
        }
    }
}

/// Writes rows.
pub(crate) fn write_rows<K: Sink>(
    sink: &mut K,
    style: Style,
    columns: &[Column],
    labels: &[Label<'_>],
    rows: &[Row],
) -> Result<(), WriteError>
    requires { All IsInOrder columns.now }
    ensures { Writes K.written K.failures result (spec.rows_text style columns.now labels.now rows.now) sink.old sink.new }
{
    for row in rows {
        write_row(sink, style, columns, labels, row)?;
    }
    Ok(())
}
