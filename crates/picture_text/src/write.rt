//! A picture, as text.

ghost use Rattle.std.specs.Prelude.{◌≡◌};
ghost use Rattle.std.specs.List.{flat_map};
ghost use Rattle.timeline.specs.picture.Ordered.{IsOrdered};
ghost use Rattle.report_text.specs.Sink.{Writes};
ghost use Rattle.picture_text.specs.Text as spec;
ghost use Rattle.picture_text.specs.Text.{head_text, heading, picture_text};

use crate::cells::Style;
use crate::rows::write_rows;
use crate::watches::{write_gap, write_takings, write_watches};
use report_text::pieces::{Piece, write_pieces};
use report_text::{Sink, WriteError, write_all};
use timeline::picture::labels::Label;
use timeline::picture::{Column, Picture};

/// What fills the heading of a task up to seven signs.
fn fill(task: u32) -> &'static str
    ensures { result.now ≡ spec.fill task }
{
    if task < 10 { "     " } else { "    " }
}

/// Writes the heading of a column. A task without accesses has none.
fn write_heading<K: Sink>(sink: &mut K, column: &Column) -> Result<(), WriteError>
    ensures { Writes K.written K.failures result (heading column.now) sink.old sink.new }
{
    if column.begins.is_empty() {
        return Ok(());
    }
    write_pieces(
        sink,
        &[
            Piece::Text("P"),
            Piece::Decimal(column.task as u64),
            Piece::Text(fill(column.task)),
        ],
    )
}

/// Writes the headings of columns.
fn write_headings<K: Sink>(sink: &mut K, columns: &[Column]) -> Result<(), WriteError>
    ensures { Writes K.written K.failures result (flat_map heading columns.now) sink.old sink.new }
{
    for column in columns {
        write_heading(sink, column)?;
    }
    Ok(())
}

/// Writes the first line.
fn write_head<K: Sink>(sink: &mut K, columns: &[Column]) -> Result<(), WriteError>
    ensures { Writes K.written K.failures result (head_text columns.now) sink.old sink.new }
{
    write_all(sink, b"stamp  ")?;
    write_headings(sink, columns)?;
    write_all(sink, b"access\n")
}

/// What a picture tells beside what a trace has.
#[derive(Clone, Copy)]
pub struct Details<'a> {
    /// What is known of sites.
    pub labels: &'a [Label<'a>],
    /// The index of each watchpoint is told.
    pub slots: bool,
}

/// Writes the picture: a line of headings; then the rows, time downwards, with a column for each task that has
/// accesses; and under them the watchpoints that were set up and those that were taken. Of a site that has a label the
/// variable is named in place of its address, and the statement stands below.
///
/// `SinkFailed`: the sink failed in this call, and holds a beginning of the text.
pub fn write_detailed_picture<K: Sink>(
    picture: &Picture,
    details: Details<'_>,
    style: Style,
    sink: &mut K,
) -> Result<(), WriteError>
    requires { IsOrdered picture.now }
    ensures { Writes K.written K.failures result
        (spec.detailed_picture details.entry.labels.now details.entry.slots style picture.now) sink.old sink.new }
{
    let slots = details.slots;
    write_head(sink, &picture.columns)?;
    write_rows(sink, style, &picture.columns, details.labels, &picture.rows)?;
    write_gap(sink, &picture.watches)?;
    write_watches(sink, slots, &picture.watches)?;
    write_takings(sink, slots, &picture.takings)
}

/// Writes the picture of a trace of which nothing more is known, without indices.
///
/// `SinkFailed`: the sink failed in this call, and holds a beginning of the text.
pub fn write_picture<K: Sink>(
    picture: &Picture,
    style: Style,
    sink: &mut K,
) -> Result<(), WriteError>
    requires { IsOrdered picture.now }
    ensures { Writes K.written K.failures result (picture_text style picture.now) sink.old sink.new }
{
    let nothing = Details {
        labels: &[],
        slots: false,
    };
    write_detailed_picture(picture, nothing, style, sink)
}
