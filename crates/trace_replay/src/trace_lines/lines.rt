//! The lines of a trace.

ghost use Rattle.std.specs.Prelude.{◌≡◌, ◌++◌, MatchOption};
ghost use Rattle.report_text.specs.Faults.{BeginsWith};
ghost use Rattle.report_text.specs.TraceText.{end_line};
ghost use Rattle.trace_replay.specs.trace_lines.FieldReaders.{AreInLimits};
ghost use Rattle.trace_replay.specs.trace_lines.LineReaders.{access_at, access_of, arm_at, line_at, origin_at, race_at, take_at};
ghost use Rattle.trace_replay.specs.trace_lines.Reading.{IsLineAt, Reads, seen};

use crate::trace_lines::fields::{
    AccessLetters, AccessName, blank, letters, line_end, name, next_decimal, next_hexadecimal,
    next_ticket, outcome, past, ticket,
};
use access_types::{Access, Arm, Report, Stamped, Take};
use report_text::Line;

/// The line that the bytes begin with and the bytes behind it, or `None` where they begin with none.
pub fn read_line(bytes: &[u8]) -> Option<(Line, &[u8])>
    ensures { Reads (IsLineAt bytes.now) (seen result) }
{
    line(bytes)
}

/// The bytes behind the last line, or `None` where the bytes don't begin with it.
pub fn read_end(bytes: &[u8]) -> Option<&[u8]>
    ensures { MatchOption result (¬ BeginsWith end_line bytes.now) (λ rest. bytes.now ≡ end_line ++ rest.now) }
{
    past(bytes, b"end\n")
}

/// A line and the bytes behind it.
#[tactic(auto, unfolding(crate::specs::trace_lines::LineReaders::line_at))]
fn line(bytes: &[u8]) -> Option<(Line, &[u8])>
    ensures { seen result ≡ line_at bytes.now }
{
    if let Some(rest) = past(bytes, b"access ") {
        return access(rest);
    }
    if let Some(rest) = past(bytes, b"arm ") {
        return arm(rest);
    }
    if let Some(rest) = past(bytes, b"take ") {
        return take(rest);
    }
    if let Some(rest) = past(bytes, b"race ") {
        return race(rest);
    }
    origin(past(bytes, b"origin ")?)
}

/// The rest of the line of an access.
#[tactic(auto, unfolding(crate::specs::trace_lines::LineReaders::access_at))]
fn access(bytes: &[u8]) -> Option<(Line, &[u8])>
    ensures { seen result ≡ access_at bytes.now }
{
    let (name, rest) = name(bytes)?;
    let (letters, rest) = letters(past(rest, b" ")?)?;
    let (addr, rest) = next_hexadecimal(Some(rest));
    let (size, rest) = next_decimal(rest);
    let (mask, rest) = next_hexadecimal(rest);
    let (begin, rest) = next_decimal(rest);
    let (end, rest) = next_decimal(rest);
    let rest = line_end(rest)?;
    Some((
        access_of(name, letters, addr, size, mask, begin, end)?,
        rest,
    ))
}

/// The access of these fields, where there is one.
#[tactic(auto, unfolding(crate::specs::trace_lines::LineReaders::access_of))]
fn access_of(
    name: AccessName,
    letters: AccessLetters,
    addr: u64,
    size: u64,
    mask: u64,
    begin: u64,
    end: u64,
) -> Option<Line>
    requires { AreInLimits name }
    ensures { result ≡ access_of name letters addr size mask begin end }
{
    if size == 0 {
        return None;
    }
    let AccessName { task, site, rep } = name;
    let access = Access::new_rep(task, site, rep, addr, size, letters.kind, Some(mask)).ok()?;
    Some(Line::Access(Stamped::new(access, begin, end, letters.marked, letters.silenced)))
}

/// The rest of the line of an arming.
#[tactic(auto, unfolding(crate::specs::trace_lines::LineReaders::arm_at))]
fn arm(bytes: &[u8]) -> Option<(Line, &[u8])>
    ensures { seen result ≡ arm_at bytes.now }
{
    let (setter, rest) = ticket(bytes)?;
    let (number, rest) = next_decimal(Some(rest));
    let (index, rest) = next_decimal(rest);
    let (word, rest) = next_hexadecimal(rest);
    let (outcome, rest) = outcome(blank(rest)?)?;
    let rest = line_end(Some(rest))?;
    let arm = Arm::new(setter, number, index as usize, word, outcome);
    Some((Line::Arm(arm), rest))
}

/// The rest of the line of a taking.
#[tactic(auto, unfolding(crate::specs::trace_lines::LineReaders::take_at))]
fn take(bytes: &[u8]) -> Option<(Line, &[u8])>
    ensures { seen result ≡ take_at bytes.now }
{
    let (finder, rest) = ticket(bytes)?;
    let (index, rest) = next_decimal(Some(rest));
    let (setter, rest) = next_ticket(rest);
    let rest = line_end(rest)?;
    Some((Line::Take(Take::new(finder, index as usize, setter)), rest))
}

/// The rest of the line of a race.
#[tactic(auto, unfolding(crate::specs::trace_lines::LineReaders::race_at))]
fn race(bytes: &[u8]) -> Option<(Line, &[u8])>
    ensures { seen result ≡ race_at bytes.now }
{
    let (setter, rest) = ticket(bytes)?;
    let (finder, rest) = next_ticket(Some(rest));
    let rest = line_end(rest)?;
    let seen = None;
    Some((
        Line::Report(Report::Two {
            setter,
            finder,
            seen,
        }),
        rest,
    ))
}

/// The rest of the line of a change of unknown origin.
#[tactic(auto, unfolding(crate::specs::trace_lines::LineReaders::origin_at))]
fn origin(bytes: &[u8]) -> Option<(Line, &[u8])>
    ensures { seen result ≡ origin_at bytes.now }
{
    let (setter, rest) = ticket(bytes)?;
    let (old, rest) = next_hexadecimal(Some(rest));
    let (new, rest) = next_hexadecimal(rest);
    let rest = line_end(rest)?;
    Some((Line::Report(Report::Unknown { setter, old, new }), rest))
}
