//! Traces: what happened in a run, line by line, so that it can be handed on and checked.

ghost use Rattle.std.specs.Prelude.{◌≡◌, ◌++◌};
ghost use Rattle.std.specs.List.{flat_map};
ghost use Rattle.access_types.specs.Ticket.{rep_in, site_in, task_in};
ghost use Rattle.report_text.specs.Line as spec;
ghost use Rattle.report_text.specs.Line.{spell_access, spell_arm, spell_report, spell_take};
ghost use Rattle.report_text.specs.Pieces.{piece_text, text_of};
ghost use Rattle.report_text.specs.Sink.{Writes};
ghost use Rattle.report_text.specs.TraceText as text;
ghost use Rattle.report_text.specs.TraceText.{written_trace};

use crate::pieces::{Piece, write_parts, write_pieces};
use crate::sink::{Sink, WriteError};
use access_types::{
    Arm, ArmOutcome, Claim, HitResult, Kind, Operation, Report, Stamped, Take, rep_of, site_of,
    task_of,
};
use watch_word::Layout;

/// Writes the trace of a run, in version 2: its slots and the layout of its watch words, its
/// accesses, its armings, its takings and its reports, each in the order given.
///
/// `SinkFailed`: the sink failed in this call, and holds a beginning of the text.
pub fn write_trace<K: Sink>(
    slots: usize,
    layout: Layout,
    accesses: &[Stamped],
    arms: &[Arm],
    takes: &[Take],
    reports: &[Report],
    sink: &mut K,
) -> Result<(), WriteError>
    ensures { Writes K.written K.failures result
        (written_trace slots layout accesses.now arms.now takes.now reports.now)
        sink.old sink.new }
{
    write_head(sink, slots, layout)?;
    write_accesses(sink, accesses)?;
    write_arms(sink, arms)?;
    write_takes(sink, takes)?;
    write_reports(sink, reports)?;
    write_pieces(sink, &[Piece::Text("end\n")])
}

/// Writes the first line, and the line on slots and layout.
#[tactic(auto, unfolding(crate::specs::TraceText::second_version, crate::specs::TraceText::shape_line))]
fn write_head<K: Sink>(sink: &mut K, slots: usize, layout: Layout) -> Result<(), WriteError>
    ensures { Writes K.written K.failures result (text.second_version ++ text.shape_line slots layout)
        sink.old sink.new }
{
    write_pieces(
        sink,
        &[
            Piece::Text("KCSAN-TRACE 2\nshape "),
            Piece::Decimal(slots as u64),
            Piece::Text(" "),
            Piece::Text(width_word(layout)),
            Piece::Text("\n"),
        ],
    )
}

/// How wide watch words are.
fn width_word(layout: Layout) -> &'static str
    ensures { result.now ≡ text.width_word layout }
{
    match layout {
        Layout::W64 => "64",
        Layout::W32 => "32",
    }
}

/// Writes the lines of accesses.
fn write_accesses<K: Sink>(sink: &mut K, accesses: &[Stamped]) -> Result<(), WriteError>
    ensures { Writes K.written K.failures result (flat_map spell_access accesses.now)
        sink.old sink.new }
{
    for stamped in accesses {
        write_access(sink, stamped)?;
    }
    Ok(())
}

/// Writes the lines of armings.
fn write_arms<K: Sink>(sink: &mut K, arms: &[Arm]) -> Result<(), WriteError>
    ensures { Writes K.written K.failures result (flat_map spell_arm arms.now) sink.old sink.new }
{
    for arm in arms {
        write_arm(sink, arm)?;
    }
    Ok(())
}

/// Writes the lines of takings.
fn write_takes<K: Sink>(sink: &mut K, takes: &[Take]) -> Result<(), WriteError>
    ensures { Writes K.written K.failures result (flat_map spell_take takes.now) sink.old sink.new }
{
    for take in takes {
        write_take(sink, take)?;
    }
    Ok(())
}

/// Writes the lines of reports.
fn write_reports<K: Sink>(sink: &mut K, reports: &[Report]) -> Result<(), WriteError>
    ensures { Writes K.written K.failures result (flat_map spell_report reports.now)
        sink.old sink.new }
{
    for report in reports {
        write_report_line(sink, report)?;
    }
    Ok(())
}

/// Writes the line of an access.
#[tactic(auto, unfolding(crate::specs::Line::spell_access))]
fn write_access<K: Sink>(sink: &mut K, stamped: &Stamped) -> Result<(), WriteError>
    ensures { Writes K.written K.failures result (spell_access stamped.now) sink.old sink.new }
{
    let access = stamped.access();
    let name = name(access.task(), access.site(), access.rep());
    let letters = letters(stamped);
    write_parts(
        sink,
        &[
            &[Piece::Text("access ")],
            &name[..],
            &[Piece::Text(" ")],
            &letters[..],
            &[
                Piece::Text(" 0x"),
                Piece::Hex(16, access.addr()),
                Piece::Text(" "),
                Piece::Decimal(access.size()),
            ],
            &[
                Piece::Text(" 0x"),
                Piece::Hex(16, access.mask().unwrap_or(0)),
                Piece::Text(" "),
                Piece::Decimal(stamped.begin()),
                Piece::Text(" "),
                Piece::Decimal(stamped.end()),
                Piece::Text("\n"),
            ],
        ],
    )
}

/// Writes the line of an arming.
#[tactic(auto, unfolding(crate::specs::Line::spell_arm))]
fn write_arm<K: Sink>(sink: &mut K, arm: &Arm) -> Result<(), WriteError>
    ensures { Writes K.written K.failures result (spell_arm arm.now) sink.old sink.new }
{
    let setter = name_in(arm.setter());
    let outcome = outcome_words(arm.outcome());
    write_parts(
        sink,
        &[
            &[Piece::Text("arm ")],
            &setter[..],
            &[
                Piece::Text(" "),
                Piece::Decimal(arm.number()),
                Piece::Text(" "),
                Piece::Decimal(arm.index() as u64),
                Piece::Text(" 0x"),
                Piece::Hex(16, arm.watch_word()),
                Piece::Text(" "),
            ],
            &outcome[..],
            &[Piece::Text("\n")],
        ],
    )
}

/// Writes the line of a taking.
#[tactic(auto, unfolding(crate::specs::Line::spell_take))]
fn write_take<K: Sink>(sink: &mut K, take: &Take) -> Result<(), WriteError>
    ensures { Writes K.written K.failures result (spell_take take.now) sink.old sink.new }
{
    let finder = name_in(take.finder());
    let setter = name_in(take.setter());
    write_parts(
        sink,
        &[
            &[Piece::Text("take ")],
            &finder[..],
            &[
                Piece::Text(" "),
                Piece::Decimal(take.index() as u64),
                Piece::Text(" "),
            ],
            &setter[..],
            &[Piece::Text("\n")],
        ],
    )
}

/// Writes the line of a report.
fn write_report_line<K: Sink>(sink: &mut K, report: &Report) -> Result<(), WriteError>
    ensures { Writes K.written K.failures result (spell_report report.now) sink.old sink.new }
{
    match *report {
        Report::Two { setter, finder, .. } => write_race(sink, setter, finder),
        Report::Unknown { setter, old, new } => write_origin(sink, setter, old, new),
    }
}

/// Writes the line of a race.
#[tactic(auto, unfolding(crate::specs::Line::spell_race))]
fn write_race<K: Sink>(sink: &mut K, setter: u32, finder: u32) -> Result<(), WriteError>
    ensures { Writes K.written K.failures result (spec.spell_race setter finder) sink.old sink.new }
{
    let setter = name_in(setter);
    let finder = name_in(finder);
    write_parts(
        sink,
        &[
            &[Piece::Text("race ")],
            &setter[..],
            &[Piece::Text(" ")],
            &finder[..],
            &[Piece::Text("\n")],
        ],
    )
}

/// Writes the line of a change of unknown origin.
#[tactic(auto, unfolding(crate::specs::Line::spell_origin))]
fn write_origin<K: Sink>(sink: &mut K, setter: u32, old: u64, new: u64) -> Result<(), WriteError>
    ensures { Writes K.written K.failures result (spec.spell_origin setter old new)
        sink.old sink.new }
{
    let setter = name_in(setter);
    write_parts(
        sink,
        &[
            &[Piece::Text("origin ")],
            &setter[..],
            &[
                Piece::Text(" 0x"),
                Piece::Hex(16, old),
                Piece::Text(" 0x"),
                Piece::Hex(16, new),
                Piece::Text("\n"),
            ],
        ],
    )
}

/// What became of an arming.
fn outcome_words(outcome: ArmOutcome) -> [Piece; 7]
    ensures { text_of result ≡ spec.outcome_words outcome }
{
    let empty = Piece::Text("");
    let word = match outcome {
        ArmOutcome::Quiet => "quiet",
        ArmOutcome::Origin => "origin",
        ArmOutcome::Hit { finder, result } => return hit_words(finder, result),
    };
    [Piece::Text(word), empty, empty, empty, empty, empty, empty]
}

/// Who hit a watchpoint, and what became of that.
fn hit_words(finder: u32, outcome: HitResult) -> [Piece; 7]
    ensures { text_of result ≡ spec.name_in finder ++ spec.hit_word outcome }
{
    let (task, site, rep) = parts_of(finder);
    let (dot, repetition) = repetition(rep);
    [
        Piece::Decimal(task as u64),
        Piece::Text(" "),
        Piece::Decimal(site as u64),
        dot,
        repetition,
        Piece::Text(match outcome {
            HitResult::Report => " report",
            HitResult::Encoding => " encoding",
            HitResult::Same => " same",
            HitResult::Masked => " masked",
        }),
        Piece::Text(""),
    ]
}

/// The access that a ticket names.
fn name_in(ticket: u32) -> [Piece; 5]
    ensures { text_of result ≡ spec.name_in ticket }
{
    let (task, site, rep) = parts_of(ticket);
    name(task, site, rep)
}

/// An access by its task, its site and its repetition.
fn name(task: u32, site: u32, rep: u32) -> [Piece; 5]
    ensures { text_of result ≡ spec.name task site rep }
{
    let (dot, repetition) = repetition(rep);
    [
        Piece::Decimal(task as u64),
        Piece::Text(" "),
        Piece::Decimal(site as u64),
        dot,
        repetition,
    ]
}

/// A repetition above 0 stands behind a dot.
fn repetition(rep: u32) -> (Piece, Piece)
    ensures { piece_text result.0 ++ piece_text result.1 ≡ spec.repetition rep }
{
    if rep == 0 {
        (Piece::Text(""), Piece::Text(""))
    } else {
        (Piece::Text("."), Piece::Decimal(rep as u64))
    }
}

/// The task, the site and the repetition in a ticket, also in 0, which is none.
fn parts_of(ticket: u32) -> (u32, u32, u32)
    ensures { result ≡ (task_in ticket, site_in ticket, rep_in ticket) }
{
    if ticket == 0 {
        return (0, 0, 0);
    }
    (task_of(ticket), site_of(ticket), rep_of(ticket))
}

/// The letters of an access: what it is, whether it counted as marked, and whether it was silenced.
fn letters(stamped: &Stamped) -> [Piece; 3]
    ensures { text_of result ≡ spec.letters stamped.now }
{
    [
        Piece::Text(kind_letters(&stamped.access().kind())),
        letter_if(stamped.marked(), "c"),
        letter_if(stamped.silenced(), "s"),
    ]
}

/// The letters of what an access is.
fn kind_letters(kind: &Kind) -> &'static str
    ensures { result.now ≡ spec.kind_letters kind.now }
{
    match kind {
        Kind::Plain(Operation::Read) => "r",
        Kind::Plain(Operation::Write) => "w",
        Kind::Plain(Operation::ReadWrite) => "u",
        Kind::Marked(Operation::Read) => "rm",
        Kind::Marked(Operation::Write) => "wm",
        Kind::Marked(Operation::ReadWrite) => "um",
        Kind::Assert(Claim::NoWrites) | Kind::AssertScoped(Claim::NoWrites) => "ra",
        Kind::Assert(Claim::NoAccesses) | Kind::AssertScoped(Claim::NoAccesses) => "wa",
    }
}

/// A letter that stands if this holds.
fn letter_if(holds: bool, letter: &'static str) -> Piece
    ensures { piece_text result ≡ spec.letter_if holds letter.now }
{
    Piece::Text(if holds { letter } else { "" })
}
