//! What is said of an access.

ghost use Rattle.std.specs.Prelude.{◌≡◌, ◌++◌};
ghost use Rattle.access_types.specs.ReportText as report;
ghost use Rattle.access_types.specs.Ticket.{rep_in, site_in, task_in};
ghost use Rattle.report_text.specs.Pieces.{piece_text, text_of};
ghost use Rattle.timeline.specs.picture.Words as spec;

use access_types::{ArmOutcome, HitResult, Stamped, rep_of, site_of, task_of, words};
use report_text::pieces::Piece;

/// The access of a task at a site and a repetition.
fn place(task: u32, site: u32, rep: u32) -> [Piece; 6]
    ensures { text_of result ≡ spec.place task site rep }
{
    let (repeat, rep) = repeat_words(rep);
    [
        Piece::Text("P"),
        Piece::Decimal(task as u64),
        Piece::Text(" site "),
        Piece::Decimal(site as u64),
        repeat,
        rep,
    ]
}

/// The access.
pub fn place_of(stamped: &Stamped) -> [Piece; 6]
    ensures { text_of result ≡ spec.place_of stamped.now }
{
    let access = stamped.access();
    place(access.task(), access.site(), access.rep())
}

/// The access that a ticket names.
pub fn place_in(ticket: u32) -> [Piece; 6]
    ensures { text_of result ≡ spec.place_in ticket }
{
    let (task, site, rep) = parts_of(ticket);
    place(task, site, rep)
}

/// The task, the site and the repetition in a ticket, also in 0, which is none.
fn parts_of(ticket: u32) -> (u32, u32, u32)
    ensures { result ≡ (task_in ticket, site_in ticket, rep_in ticket) }
{
    if ticket == 0 {
        return (0, 0, 0);
    }
    (task_of(ticket), site_of(ticket), rep_of(ticket))
}

/// What is said of a repetition: nothing of the first.
fn repeat_words(rep: u32) -> (Piece, Piece)
    ensures { piece_text result.0 ++ piece_text result.1 ≡ report.repeat_words rep }
{
    if rep == 0 {
        (Piece::Text(""), Piece::Text(""))
    } else {
        (Piece::Text(" repeat "), Piece::Decimal(rep as u64))
    }
}

/// What the access does, in front of where it does it.
pub fn doing(stamped: &Stamped) -> [Piece; 5]
    ensures { text_of result ≡ spec.doing stamped.now }
{
    let access = stamped.access();
    [
        Piece::Text("P"),
        Piece::Decimal(access.task() as u64),
        Piece::Text(" "),
        Piece::Text(words(&access.kind())),
        Piece::Text(" "),
    ]
}

/// The address of its first byte.
pub fn address(stamped: &Stamped) -> [Piece; 2]
    ensures { text_of result ≡ spec.address stamped.now }
{
    [Piece::Text("0x"), Piece::Hex(1, stamped.access().addr())]
}

/// How many bytes it has.
pub fn size_words(stamped: &Stamped) -> [Piece; 2]
    ensures { text_of result ≡ spec.size_words stamped.now }
{
    [
        Piece::Decimal(stamped.access().size()),
        Piece::Text(" bytes"),
    ]
}

/// Its site and repetition, and what its task's context made of it.
pub fn site_words(stamped: &Stamped) -> [Piece; 6]
    ensures { text_of result ≡ spec.site_words stamped.now }
{
    let access = stamped.access();
    let (repeat, rep) = repeat_words(access.rep());
    [
        Piece::Text("site "),
        Piece::Decimal(access.site() as u64),
        repeat,
        rep,
        Piece::Text(marked_words(stamped)),
        Piece::Text(silenced_words(stamped)),
    ]
}

/// What is said of an access that counted as marked and isn't declared so.
fn marked_words(stamped: &Stamped) -> &'static str
    ensures { result.now ≡ spec.marked_words stamped.now }
{
    if stamped.marked() && !stamped.access().kind().is_marked() {
        " (counts as marked)"
    } else {
        ""
    }
}

/// What is said of a silenced access.
fn silenced_words(stamped: &Stamped) -> &'static str
    ensures { result.now ≡ spec.silenced_words stamped.now }
{
    if stamped.silenced() {
        " (silenced)"
    } else {
        ""
    }
}

/// What became of a watchpoint.
pub fn outcome_words(outcome: ArmOutcome) -> [Piece; 8]
    ensures { text_of result ≡ spec.outcome_words outcome }
{
    let empty = Piece::Text("");
    let word = match outcome {
        ArmOutcome::Quiet => "quiet",
        ArmOutcome::Origin => "unknown origin",
        ArmOutcome::Hit { finder, result } => return hit_words(finder, result),
    };
    [
        Piece::Text(word),
        empty,
        empty,
        empty,
        empty,
        empty,
        empty,
        empty,
    ]
}

/// Who took a watchpoint, and what became of that.
fn hit_words(finder: u32, outcome: HitResult) -> [Piece; 8]
    ensures { text_of result ≡ spec.hit_words finder outcome }
{
    let (task, site, rep) = parts_of(finder);
    let (repeat, rep) = repeat_words(rep);
    [
        Piece::Text("taken by P"),
        Piece::Decimal(task as u64),
        Piece::Text(" site "),
        Piece::Decimal(site as u64),
        repeat,
        rep,
        Piece::Text(": "),
        Piece::Text(result_word(outcome)),
    ]
}

/// What became of a hit.
pub(crate) fn result_word(outcome: HitResult) -> &'static str
    ensures { result.now ≡ spec.result_word outcome }
{
    match outcome {
        HitResult::Report => "report",
        HitResult::Encoding => "encoding",
        HitResult::Same => "same",
        HitResult::Masked => "masked",
    }
}
