//! Reports, in red.

ghost use Rattle.std.specs.Prelude.{◌≡◌};
ghost use Rattle.report_text.specs.Pieces.{text_of};
ghost use Rattle.report_text.specs.Sink.{Writes};
ghost use Rattle.picture_svg.specs.Reports as spec;

use crate::lanes::Lanes;
use crate::lines::{LINE_END, line_start};
use access_types::Stamped;
use report_text::pieces::{Piece, write_parts};
use report_text::{Sink, WriteError};

/// What a race is called: one with an assertion has a name of its own.
fn race_name(asserted: bool) -> &'static str
    ensures { result.now ≡ spec.race_name asserted }
{
    if asserted {
        "assert: race"
    } else {
        "data-race"
    }
}

/// The title of the report of two accesses.
fn race_title(setter: &Stamped, finder: &Stamped) -> [Piece; 6]
    ensures { text_of result ≡ spec.race_title setter.now finder.now }
{
    let watched = setter.access();
    let found = finder.access();
    let asserted = watched.kind().is_assertion() || found.kind().is_assertion();
    [
        Piece::Text("BUG: KCSAN: "),
        Piece::Text(race_name(asserted)),
        Piece::Text(" in P"),
        Piece::Decimal(watched.task().min(found.task()) as u64),
        Piece::Text(" / P"),
        Piece::Decimal(watched.task().max(found.task()) as u64),
    ]
}

/// The line of a race, from lane to lane.
fn race_line(from: u64, to: u64, top: u64) -> [Piece; 9]
    ensures { text_of result ≡ spec.race_line from to top }
{
    [
        Piece::Text("</title><line x1=\""),
        Piece::Decimal(from),
        Piece::Text(".5em\" y1=\""),
        Piece::Decimal(top),
        Piece::Text(".9em\" x2=\""),
        Piece::Decimal(to),
        Piece::Text(".5em\" y2=\""),
        Piece::Decimal(top),
        Piece::Text(".9em\"/>"),
    ]
}

/// Writes a race, from lane to lane. What it is stands right of its line, in a row in which nothing begins.
pub(crate) fn write_race<K: Sink>(
    sink: &mut K,
    lanes: &Lanes,
    setter: &Stamped,
    finder: &Stamped,
    top: u64,
) -> Result<(), WriteError>
    ensures { Writes K.written K.failures result (spec.race lanes.now setter.now finder.now top) sink.old sink.new }
{
    let title = race_title(setter, finder);
    let from = lanes.start(setter.access().task());
    let to = lanes.start(finder.access().task());
    let line = race_line(from, to, top);
    let words = line_start(from.max(to), top, "1.1");
    write_parts(
        sink,
        &[
            &[Piece::Text("<g class=\"race\"><title>")],
            &title[..],
            &line[..],
            &words[..],
            &[
                Piece::Text("RACE"),
                Piece::Text(LINE_END),
                Piece::Text("</g>\n"),
            ],
        ],
    )
}

/// The title of a report of unknown origin.
fn origin_title(setter: &Stamped) -> [Piece; 4]
    ensures { text_of result ≡ spec.origin_title setter.now }
{
    let access = setter.access();
    [
        Piece::Text("BUG: KCSAN: "),
        Piece::Text(race_name(access.kind().is_assertion())),
        Piece::Text(" in P"),
        Piece::Decimal(access.task() as u64),
    ]
}

/// A value, behind a word.
fn value_words(word: &'static str, value: u64) -> [Piece; 3]
    ensures { text_of result ≡ spec.value_words word.now value }
{
    [Piece::Text(word), Piece::Text(" 0x"), Piece::Hex(1, value)]
}

/// Writes a change of unknown origin, in the lane of its access.
pub(crate) fn write_origin<K: Sink>(
    sink: &mut K,
    lanes: &Lanes,
    setter: &Stamped,
    old: u64,
    new: u64,
    top: u64,
) -> Result<(), WriteError>
    ensures { Writes K.written K.failures result (spec.origin lanes.now setter.now old new top) sink.old sink.new }
{
    let title = origin_title(setter);
    let x = lanes.start(setter.access().task());
    let (first, second, third) = (
        line_start(x, top, "0.65"),
        line_start(x, top, "1.2"),
        line_start(x, top, "1.75"),
    );
    let from = value_words("from", old);
    let to = value_words("to", new);
    let end = Piece::Text(LINE_END);
    write_parts(
        sink,
        &[
            &[Piece::Text("<g class=\"race\"><title>")],
            &title[..],
            &[Piece::Text("</title>")],
            &first[..],
            &[Piece::Text("unknown origin"), end],
            &second[..],
            &from[..],
            &[end],
            &third[..],
            &to[..],
            &[end, Piece::Text("</g>\n")],
        ],
    )
}
