//! The lines of a picture: a stamp or none, a column a task, and what is said there.

ghost use Rattle.std.specs.Prelude.{◌≡◌, ◌++◌, All};
ghost use Rattle.std.specs.List.{flat_map};
ghost use Rattle.timeline.specs.picture.Running.{IsInOrder};
ghost use Rattle.report_text.specs.Pieces.{text_of_parts};
ghost use Rattle.report_text.specs.Sink.{Writes};
ghost use Rattle.picture_text.specs.Lines as spec;
ghost use Rattle.picture_text.specs.Lines.{cells, column_text, line_of, stamp_text};

use crate::cells::{Shape, Style, cell_of, cell_text};
use report_text::pieces::{Piece, write_parts, write_pieces};
use report_text::{Sink, WriteError, write_all};
use timeline::picture::Column;

/// What stands in front of a line.
#[derive(Clone, Copy)]
pub(crate) enum Margin {
    /// Nothing.
    Empty,
    /// The stamp of its row.
    Stamp { stamp: u64 },
}

/// What fills a stamp up to five signs.
fn fill(stamp: u64) -> &'static str
    ensures { result.now ≡ spec.fill stamp }
{
    match stamp {
        0..=9 => "    ",
        10..=99 => "   ",
        100..=999 => "  ",
        1000..=9999 => " ",
        _ => "",
    }
}

/// What stands behind a stamp: one of more than five digits stands on a line of its own.
fn gap(stamp: u64) -> &'static str
    ensures { result.now ≡ spec.gap stamp }
{
    if stamp < 100_000 { "  " } else { "\n       " }
}

/// Writes what stands in front of a line.
fn write_margin<K: Sink>(sink: &mut K, margin: Margin) -> Result<(), WriteError>
    ensures { Writes K.written K.failures result (spec.margin_text margin) sink.old sink.new }
{
    match margin {
        Margin::Empty => write_all(sink, b"       "),
        Margin::Stamp { stamp } => write_stamp(sink, stamp),
    }
}

/// Writes a stamp.
fn write_stamp<K: Sink>(sink: &mut K, stamp: u64) -> Result<(), WriteError>
    ensures { Writes K.written K.failures result (stamp_text stamp) sink.old sink.new }
{
    write_pieces(
        sink,
        &[
            Piece::Text(fill(stamp)),
            Piece::Decimal(stamp),
            Piece::Text(gap(stamp)),
        ],
    )
}

/// Writes what stands in a column of a line at this stamp. A task without accesses has none.
fn write_column<K: Sink>(
    sink: &mut K,
    style: Style,
    shape: Shape,
    stamp: u64,
    column: &Column,
) -> Result<(), WriteError>
    requires { IsInOrder column.now }
    ensures { Writes K.written K.failures result (column_text style shape stamp column.now) sink.old sink.new }
{
    if column.begins.is_empty() {
        return Ok(());
    }
    let cell = cell_of(shape, column.task, column.running(stamp));
    write_all(sink, cell_text(style, cell).as_bytes())
}

/// Writes what stands in the columns of a line.
fn write_cells<K: Sink>(
    sink: &mut K,
    style: Style,
    shape: Shape,
    stamp: u64,
    columns: &[Column],
) -> Result<(), WriteError>
    requires { All IsInOrder columns.now }
    ensures { Writes K.written K.failures result (cells style shape stamp columns.now) sink.old sink.new }
{
    for column in columns {
        write_column(sink, style, shape, stamp, column)?;
    }
    Ok(())
}

/// Writes what stands in front of the words of a line at this stamp.
pub(crate) fn write_bars<K: Sink>(
    sink: &mut K,
    style: Style,
    columns: &[Column],
    stamp: u64,
    margin: Margin,
    shape: Shape,
) -> Result<(), WriteError>
    requires { All IsInOrder columns.now }
    ensures { Writes K.written K.failures result (spec.bars style columns.now stamp margin shape) sink.old sink.new }
{
    write_margin(sink, margin)?;
    write_cells(sink, style, shape, stamp, columns)
}

/// Writes a line at this stamp.
pub(crate) fn write_line<K: Sink>(
    sink: &mut K,
    style: Style,
    columns: &[Column],
    stamp: u64,
    margin: Margin,
    shape: Shape,
    words: &[&[Piece]],
) -> Result<(), WriteError>
    requires { All IsInOrder columns.now }
    ensures { Writes K.written K.failures result (line_of style columns.now stamp margin shape (text_of_parts words.now))
        sink.old sink.new }
{
    write_bars(sink, style, columns, stamp, margin, shape)?;
    write_parts(sink, words)
}
