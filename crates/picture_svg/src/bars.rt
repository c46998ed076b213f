//! Bars of accesses, with their labels.

ghost use Rattle.std.specs.Prelude.{◌≡◌};
ghost use Rattle.report_text.specs.Pieces.{text_of};
ghost use Rattle.report_text.specs.Sink.{Writes};
ghost use Rattle.picture_svg.specs.Bars as spec;

use crate::lanes::Lanes;
use crate::lines::{LINE_END, line_start, row_top};
use access_types::Stamped;
use report_text::pieces::{Piece, write_parts, write_pieces};
use report_text::{Sink, WriteError, write_all};
use timeline::picture::labels::{Label, statement_of};
use timeline::picture::told::write_first;
use timeline::picture::words::site_words;
use timeline::texts::{Markup, write_shortened};

/// How an access is drawn: one that counted as marked, an assertion, or a plain one.
fn class(stamped: &Stamped) -> &'static str
    ensures { result.now ≡ spec.class stamped.now }
{
    if stamped.marked() {
        "marked"
    } else if stamped.access().kind().is_assertion() {
        "assertion"
    } else {
        "plain"
    }
}

/// The bar of an access, in the lane at x.
fn bar_rect(stamped: &Stamped, x: u64, top: u64, bottom: u64) -> [Piece; 9]
    ensures { text_of result ≡ spec.bar_rect stamped.now x top bottom }
{
    [
        Piece::Text("<g class=\""),
        Piece::Text(class(stamped)),
        Piece::Text("\"><rect x=\""),
        Piece::Decimal(x),
        Piece::Text("em\" y=\""),
        Piece::Decimal(top),
        Piece::Text("em\" width=\"1em\" height=\""),
        Piece::Decimal(bottom.saturating_sub(top)),
        Piece::Text("em\"/>"),
    ]
}

/// Writes the bar, and of its label the two lines that each has.
fn write_bar_lines<K: Sink>(
    sink: &mut K,
    labels: &[Label<'_>],
    stamped: &Stamped,
    x: u64,
    top: u64,
    bottom: u64,
) -> Result<(), WriteError>
    ensures { Writes K.written K.failures result (spec.bar_lines labels.now stamped.now x top bottom) sink.old sink.new }
{
    let rect = bar_rect(stamped, x, top, bottom);
    let first = line_start(x, top, "0.65");
    let second = line_start(x, top, "1.2");
    let site = site_words(stamped);
    let end = Piece::Text(LINE_END);
    write_parts(sink, &[&rect[..], &first[..]])?;
    write_first(sink, Markup::Xml, labels, stamped)?;
    write_parts(sink, &[&[end], &second[..], &site[..], &[end]])
}

/// Writes the third line of a label, where the statement is known.
fn write_statement<K: Sink>(
    sink: &mut K,
    statement: &[u8],
    x: u64,
    top: u64,
) -> Result<(), WriteError>
    ensures { Writes K.written K.failures result (spec.statement_line statement.now x top) sink.old sink.new }
{
    if statement.is_empty() {
        return Ok(());
    }
    write_pieces(sink, &line_start(x, top, "1.75"))?;
    write_shortened(sink, Markup::Xml, statement)?;
    write_all(sink, LINE_END.as_bytes())
}

/// Writes the bar of an access, from one row down to another, with its label.
pub(crate) fn write_bar<K: Sink>(
    sink: &mut K,
    labels: &[Label<'_>],
    lanes: &Lanes,
    stamped: &Stamped,
    top: usize,
    bottom: usize,
) -> Result<(), WriteError>
    ensures { Writes K.written K.failures result (spec.bar labels.now lanes.now stamped.now top bottom) sink.old sink.new }
{
    let x = lanes.start(stamped.access().task());
    let upper = row_top(top);
    let lower = row_top(bottom);
    write_bar_lines(sink, labels, stamped, x, upper, lower)?;
    write_statement(sink, statement_of(labels, stamped), x, upper)?;
    write_all(sink, b"</g>\n")
}
