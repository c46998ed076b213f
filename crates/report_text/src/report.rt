//! Reports, as KCSAN prints them.

ghost use Rattle.std.specs.Prelude.{◌≡◌, ◌++◌};
ghost use Rattle.access_types.specs.Kind.{access_words};
ghost use Rattle.access_types.specs.ReportText as spec;
ghost use Rattle.access_types.specs.ReportText.{two_sided_text, unknown_text};
ghost use Rattle.report_text.specs.Pieces.{piece_text, text_of};
ghost use Rattle.report_text.specs.ReportOf.{report_text};
ghost use Rattle.report_text.specs.Sink.{Writes};

use crate::pieces::{Piece, write_parts};
use crate::sink::{Sink, WriteError};
use access_types::{Access, Report, Sites, ValueChange, words};

/// Writes the report, of the accesses that its tickets name among the sites. Where one names none, the report has no
/// text.
///
/// `SinkFailed`: the sink failed in this call, and holds a beginning of the text.
pub fn write_report<K: Sink>(report: &Report, sites: &Sites, sink: &mut K) -> Result<(), WriteError>
    ensures { Writes K.written K.failures result (report_text sites.now report.now)
        sink.old sink.new }
{
    match *report {
        Report::Two {
            setter,
            finder,
            seen,
        } => match (sites.get(setter), sites.get(finder)) {
            (Some(setter), Some(finder)) => write_two_sided(sink, setter, finder, seen),
            _ => Ok(()),
        },
        Report::Unknown { setter, old, new } => match sites.get(setter) {
            Some(setter) => write_unknown(sink, setter, ValueChange { old, new }),
            None => Ok(()),
        },
    }
}

/// Writes the report of two accesses.
#[tactic(auto, unfolding(access_types::specs::ReportText::two_sided_text))]
fn write_two_sided<K: Sink>(
    sink: &mut K,
    setter: &Access,
    finder: &Access,
    seen: Option<ValueChange>,
) -> Result<(), WriteError>
    ensures { Writes K.written K.failures result (two_sided_text setter.now finder.now seen)
        sink.old sink.new }
{
    let title = two_sided_title(setter, finder);
    let found = access_line(finder);
    let found_at = site_line(finder);
    let watched = access_line(setter);
    let watched_at = site_line(setter);
    let change = seen_lines(setter.size(), seen);
    write_parts(
        sink,
        &[
            &[rule()],
            &title[..],
            &[Piece::Text("\n")],
            &found[..],
            &found_at[..],
            &[Piece::Text("\n")],
            &watched[..],
            &watched_at[..],
            &change[..],
            &[rule()],
        ],
    )
}

/// Writes the report of a change whose origin is unknown.
#[tactic(auto, unfolding(access_types::specs::ReportText::unknown_text))]
fn write_unknown<K: Sink>(
    sink: &mut K,
    setter: &Access,
    change: ValueChange,
) -> Result<(), WriteError>
    ensures { Writes K.written K.failures result (unknown_text setter.now change)
        sink.old sink.new }
{
    let title = unknown_title(setter);
    let watched = access_line(setter);
    let watched_at = site_line(setter);
    let change = seen_lines(setter.size(), Some(change));
    write_parts(
        sink,
        &[
            &[rule()],
            &title[..],
            &[Piece::Text("\nrace at unknown origin, with ")],
            &watched[..],
            &watched_at[..],
            &change[..],
            &[rule()],
        ],
    )
}

/// The line round a report.
#[tactic(auto, unfolding(access_types::specs::ReportText::rule))]
fn rule() -> Piece
    ensures { piece_text result ≡ spec.rule }
{
    Piece::Text("==================================================================\n")
}

/// The title of a report of two accesses, the smaller task first: one race has one title, whoever found it. KCSAN
/// orders the two functions of a title by name for this.
#[tactic(auto, unfolding(access_types::specs::ReportText::two_sided_title))]
fn two_sided_title(setter: &Access, finder: &Access) -> [Piece; 7]
    ensures { text_of result ≡ spec.two_sided_title setter.now finder.now }
{
    let asserted = setter.kind().is_assertion() || finder.kind().is_assertion();
    [
        Piece::Text("BUG: KCSAN: "),
        Piece::Text(race_name(asserted)),
        Piece::Text(" in P"),
        Piece::Decimal(setter.task().min(finder.task()) as u64),
        Piece::Text(" / P"),
        Piece::Decimal(setter.task().max(finder.task()) as u64),
        Piece::Text("\n"),
    ]
}

/// The title of a report of unknown origin.
#[tactic(auto, unfolding(access_types::specs::ReportText::unknown_title))]
fn unknown_title(setter: &Access) -> [Piece; 5]
    ensures { text_of result ≡ spec.unknown_title setter.now }
{
    [
        Piece::Text("BUG: KCSAN: "),
        Piece::Text(race_name(setter.kind().is_assertion())),
        Piece::Text(" in P"),
        Piece::Decimal(setter.task() as u64),
        Piece::Text("\n"),
    ]
}

/// The line on what an access does to which bytes, and whose it is.
#[tactic(auto, unfolding(access_types::specs::ReportText::access_line))]
fn access_line(access: &Access) -> [Piece; 8]
    ensures { text_of result ≡ spec.access_line (access_words access.now.kind)
        access.now.addr access.now.size access.now.task }
{
    [
        Piece::Text(words(&access.kind())),
        Piece::Text(" to 0x"),
        Piece::Hex(16, access.addr()),
        Piece::Text(" of "),
        Piece::Decimal(access.size()),
        Piece::Text(" bytes by task "),
        Piece::Decimal(access.task() as u64),
        Piece::Text(":\n"),
    ]
}

/// The line on where an access stands.
#[tactic(auto, unfolding(access_types::specs::ReportText::site_line))]
fn site_line(access: &Access) -> [Piece; 7]
    ensures { text_of result ≡ spec.site_line access.now.task access.now.site access.now.rep }
{
    let (repeat, rep) = repeat_words(access.rep());
    [
        Piece::Text(" P"),
        Piece::Decimal(access.task() as u64),
        Piece::Text(" site "),
        Piece::Decimal(access.site() as u64),
        repeat,
        rep,
        Piece::Text("\n"),
    ]
}

/// What is said of a repetition: nothing of the first.
fn repeat_words(rep: u32) -> (Piece, Piece)
    ensures { piece_text result.0 ++ piece_text result.1 ≡ spec.repeat_words rep }
{
    if rep == 0 {
        (Piece::Text(""), Piece::Text(""))
    } else {
        (Piece::Text(" repeat "), Piece::Decimal(rep as u64))
    }
}

/// The lines on a change of the bytes, if one was seen: two digits for each byte.
#[tactic(auto, unfolding(access_types::specs::ReportText::seen_lines, access_types::specs::ReportText::change_line))]
fn seen_lines(size: u64, seen: Option<ValueChange>) -> [Piece; 5]
    ensures { text_of result ≡ spec.seen_lines size seen }
{
    match seen {
        None => [Piece::Text(""); 5],
        Some(change) => {
            let digits = 2 * size.min(8) as usize;
            [
                Piece::Text("\nvalue changed: 0x"),
                Piece::Hex(digits, change.old),
                Piece::Text(" -> 0x"),
                Piece::Hex(digits, change.new),
                Piece::Text("\n"),
            ]
        }
    }
}

/// What a race is called: one with an assertion has a name of its own.
fn race_name(asserted: bool) -> &'static str
    ensures { result.now ≡ spec.race_name asserted }
{
    if asserted {
        "assert: race"
    } else {
        "data-race"
    }
}
