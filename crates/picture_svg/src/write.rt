//! A picture, as a file in SVG.

ghost use Rattle.std.specs.Prelude.{◌≡◌, ◌≤◌, [], IfOk};
ghost use Rattle.std.specs.List.{flat_map};
ghost use Rattle.report_text.specs.Pieces.{text_of};
ghost use Rattle.report_text.specs.Sink.{Writes};
ghost use Rattle.timeline.specs.picture.Ordered.{IsOrdered};
ghost use Rattle.picture_svg.specs.Svg as spec;

use crate::captions::{Captions, settings_len, title_len, write_settings, write_title};
use crate::lanes::{Lanes, lanes_of};
use crate::legend::write_legend;
use crate::lines::row_top;
use crate::marks::write_rows;
use crate::watches::{write_takings, write_watches};
use report_text::pieces::{Piece, write_pieces};
use report_text::{MemorySink, Sink, WriteError, write_all};
use std::alloc::{AllocError, Global};
use timeline::picture::labels::Label;
use timeline::picture::{Column, Picture};

/// How everything looks, in light and in dark; the tip of an arrow; and the page behind all.
const LOOKS: &str = "<style>\
.page{fill:#fff;fill-opacity:1}text{fill:#222}tspan{font-size:12px}rect{fill-opacity:.6}\
.lane{stroke:#bbb}\
.plain rect{fill:#9cf;stroke:#036}\
.marked rect{fill:#cfc;stroke:#063;stroke-width:3;stroke-dasharray:6 4}\
.assertion rect{fill:#fd9;stroke:#630;stroke-dasharray:2 3}\
.watch rect{fill:#222;fill-opacity:1}\
.take line{stroke:#222}.tip{fill:#222}\
.race line{stroke:#c00;stroke-width:3}.race text{fill:#c00}\
@media (prefers-color-scheme:dark){\
.page{fill:#111}text{fill:#eee}.lane{stroke:#555}\
.plain rect{fill:#247;stroke:#9cf}\
.marked rect{fill:#253;stroke:#cfc}\
.assertion rect{fill:#642;stroke:#fd9}\
.watch rect{fill:#eee}.take line{stroke:#eee}.tip{fill:#eee}\
.race line{stroke:#f66}.race text{fill:#f66}}\
</style>\n\
<defs><marker id=\"tip\" viewBox=\"0 0 8 8\" refX=\"8\" refY=\"4\" markerWidth=\"8\" markerHeight=\"8\" orient=\"auto\">\
<path class=\"tip\" d=\"M0 0L8 4L0 8z\"/></marker></defs>\n\
<rect class=\"page\" width=\"100%\" height=\"100%\"/>\n";

/// How wide a line of text is, behind its margin, whose signs are so many hundredths of an em wide.
fn line_width(len: u64, sign: u64) -> u64
    requires len { len ≤ 200 }
    requires sign { sign ≤ 100 }
    ensures { result ≡ spec.line_width len sign }
{
    2 + (sign * len + 99) / 100
}

/// How wide the picture is: as wide as its lanes, its title or its settings, and at least as its legend.
fn width_of(picture: &Picture, captions: Captions<'_>, lanes: &Lanes) -> u64
    ensures { result ≡ spec.width_of picture.now captions.entry.test.now captions.entry.settings.now lanes.now }
{
    let title = line_width(title_len(picture, captions.test), 60);
    let settings = line_width(settings_len(picture, captions.settings), 36);
    lanes.width().max(title).max(settings).max(24)
}

/// The beginning of the file, up to its title.
fn opening(width: u64, height: u64) -> [Piece; 5]
    ensures { text_of result ≡ spec.opening width height }
{
    [
        Piece::Text("<svg xmlns=\"http://www.w3.org/2000/svg\" width=\""),
        Piece::Decimal(width),
        Piece::Text("em\" height=\""),
        Piece::Decimal(height),
        Piece::Text("em\" font-size=\"20\" font-family=\"monospace\">\n<title>"),
    ]
}

/// Writes how everything looks.
fn write_looks<K: Sink>(sink: &mut K) -> Result<(), WriteError>
    ensures { Writes K.written K.failures result spec.looks sink.old sink.new }
{
    write_pieces(sink, &[Piece::Text(LOOKS)])
}

/// Writes what stands in front of the lanes.
fn write_front<K: Sink>(
    sink: &mut K,
    picture: &Picture,
    captions: Captions<'_>,
    lanes: &Lanes,
) -> Result<(), WriteError>
    ensures { Writes K.written K.failures result
        (spec.front picture.now captions.entry.test.now captions.entry.settings.now lanes.now) sink.old sink.new }
{
    let width = width_of(picture, captions, lanes);
    let height = row_top(picture.rows.len()).saturating_add(10);
    let opening = opening(width, height);
    let above = [Piece::Text("<text x=\"1em\" y=\"1.5em\" font-weight=\"bold\">")];
    write_title(sink, picture, captions.test, &opening[..], "</title>\n")?;
    write_looks(sink)?;
    write_title(sink, picture, captions.test, &above[..], "</text>\n")?;
    write_settings(sink, picture, captions.settings)
}

/// Writes the lane of a task. A task without accesses has none.
fn write_heading<K: Sink>(sink: &mut K, lanes: &Lanes, column: &Column) -> Result<(), WriteError>
    ensures { Writes K.written K.failures result (spec.heading lanes.now column.now) sink.old sink.new }
{
    if column.begins.is_empty() {
        return Ok(());
    }
    let x = lanes.start(column.task);
    write_pieces(
        sink,
        &[
            Piece::Text("<text x=\""),
            Piece::Decimal(x),
            Piece::Text("em\" y=\"4.5em\">P"),
            Piece::Decimal(column.task as u64),
            Piece::Text("</text><line class=\"lane\" x1=\""),
            Piece::Decimal(x),
            Piece::Text(".5em\" y1=\"5em\" x2=\""),
            Piece::Decimal(x),
            Piece::Text(".5em\" y2=\"100%\"/>\n"),
        ],
    )
}

/// Writes the lanes.
fn write_headings<K: Sink>(
    sink: &mut K,
    lanes: &Lanes,
    columns: &[Column],
) -> Result<(), WriteError>
    ensures { Writes K.written K.failures result (flat_map (spec.heading lanes.now) columns.now) sink.old sink.new }
{
    for column in columns {
        write_heading(sink, lanes, column)?;
    }
    Ok(())
}

/// Writes what stands in front of the rows.
fn write_head<K: Sink>(
    sink: &mut K,
    picture: &Picture,
    captions: Captions<'_>,
    lanes: &Lanes,
) -> Result<(), WriteError>
    ensures { Writes K.written K.failures result
        (spec.head_text picture.now captions.entry.test.now captions.entry.settings.now lanes.now) sink.old sink.new }
{
    write_front(sink, picture, captions, lanes)?;
    write_headings(sink, lanes, &picture.columns)?;
    write_all(sink, b"<svg y=\"6em\" overflow=\"visible\">\n")
}

/// Writes the picture as one file in SVG, without scripts and fonts from outside, with what a reader knows of the trace
/// beyond it. Its title says the test and how many tasks, reports and discards there are; below it stand the settings.
/// Time goes downwards, a row two em high; a task has a lane, as wide as its texts, an access a bar, its watchpoints
/// thin bars in it, and what became of them where it ends; a taking is an arrow, and a race red, with the title of its
/// report; a legend stands below. Texts from elsewhere are escaped.
///
/// `SinkFailed`: the sink failed in this call, and holds a beginning of the text.
pub fn write_captioned_svg<K: Sink>(
    picture: &Picture,
    captions: Captions<'_>,
    sink: &mut K,
) -> Result<(), WriteError>
    requires { IsOrdered picture.now }
    ensures { Writes K.written K.failures result
        (spec.captioned_svg picture.now captions.entry.test.now captions.entry.settings.now captions.entry.labels.now)
        sink.old sink.new }
{
    let lanes = lanes_of(picture, captions.labels);
    write_head(sink, picture, captions, &lanes)?;
    write_rows(sink, picture, captions.labels, &lanes)?;
    write_watches(sink, &lanes, &picture.rows, &picture.watches)?;
    write_takings(sink, &lanes, &picture.rows, &picture.takings)?;
    write_legend(sink)
}

/// Writes the picture of a trace of which nothing more is known.
///
/// `SinkFailed`: the sink failed in this call, and holds a beginning of the text.
pub fn write_svg<K: Sink>(picture: &Picture, sink: &mut K) -> Result<(), WriteError>
    requires { IsOrdered picture.now }
    ensures { Writes K.written K.failures result (spec.picture_svg picture.now) sink.old sink.new }
{
    let nothing = Captions {
        test: &[],
        settings: &[],
        labels: &[],
    };
    write_captioned_svg(picture, nothing, sink)
}

/// The picture as one file in SVG, as `write_captioned_svg` writes it, with the name of its test and with what is known
/// of sites. The only error is want of memory.
pub fn svg_bytes(
    alloc: Global,
    picture: &Picture,
    test: &[u8],
    labels: &[Label<'_>],
) -> Result<Vec<u8>, AllocError>
    requires { IsOrdered picture.now }
    ensures { IfOk result (λ svg. svg.items ≡ spec.captioned_svg picture.now test.now [] labels.now) }
{
    let mut sink = MemorySink::new(alloc);
    let captions = Captions {
        test,
        settings: &[],
        labels,
    };
    match write_captioned_svg(picture, captions, &mut sink) {
        Ok(()) => Ok(sink.into_bytes()),
        Err(_) => Err(AllocError),
    }
}
