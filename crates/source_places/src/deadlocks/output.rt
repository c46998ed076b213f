//! The output of a search, with why no task goes on.

ghost use Rattle.std.specs.Prelude.{◌≡◌, ◌≤◌, ◌<◌, ◌↔◌, ℕ, IfOk, List, MatchOption, Some, false, length, option_map, true};
ghost use Rattle.source_places.specs.deadlocks.Explained as spec;
ghost use Rattle.source_places.specs.deadlocks.Explained.{AreSaidOf, IsExplained, IsLineEnd, NamesSchedule};
ghost use Rattle.prepared_program.specs.declared.step_schedule.schedule.Entry.{Entry};
ghost use Rattle.prepared_program.specs.step_schedule.Schedule.{entries_of};

use crate::deadlocks::explain::deadlock_lines;
use litmus_step::Settings;
use prepared_program::step_schedule::Schedule;
use program_table::text_pieces::joined;
use std::alloc::{AllocError, Global};

/// A line that begins with `stuck` begins here.
fn begins_stuck(output: &[u8], start: usize) -> bool
    requires { start < length output.now }
    ensures { result ≡ spec.begins_stuck output.now start }
{
    (start == 0 || output[start - 1] == b'\n') && output[start..].starts_with(b"stuck")
}

/// Where the first line begins that begins with `stuck`, if there is one.
fn stuck_line(output: &[u8]) -> Option<usize>
    ensures { MatchOption result ((at : ℕ) → at < length output.now → spec.begins_stuck output.now at ≡ false)
        (λ start. (start < length output.now) × (spec.begins_stuck output.now start ≡ true)
        × ((at : ℕ) → at < start → spec.begins_stuck output.now at ≡ false)) }
{
    for start in 0..output.len() {
        if begins_stuck(output, start) {
            return Some(start);
        }
    }
    None
}

/// Where a line ends that begins here.
fn line_end(output: &[u8], start: usize) -> usize
    requires { start < length output.now }
    ensures { IsLineEnd output.now start result }
{
    for at in start..output.len() {
        if output[at] == b'\n' {
            return at;
        }
    }
    output.len()
}

/// What stands behind the first `--schedule ` of a line; nothing where it has none.
fn behind_option(line: &[u8]) -> &[u8]
    ensures { result.now ≡ spec.behind_option line.now }
{
    let mut rest = line;
    while let [_, more @ ..] = rest {
        if rest.starts_with(b"--schedule ") {
            return &rest[b"--schedule ".len()..];
        }
        rest = more;
    }
    rest
}

/// The schedule that a line names, if it names one.
fn schedule_in(alloc: Global, line: &[u8]) -> Result<Option<Schedule>, AllocError>
    ensures { IfOk result (λ found. (entries : List Entry) → NamesSchedule line.now entries ↔ (option_map entries_of found ≡ Some entries)) }
{
    match std::str::from_utf8(behind_option(line)) {
        Ok(words) => Schedule::parse(alloc, words),
        Err(_) => Ok(None),
    }
}

/// What is said of the deadlock that a line of an output tells of.
fn lines_on(
    alloc: Global,
    file: &str,
    text: &[u8],
    settings: &Settings,
    line: &[u8],
) -> Result<Vec<u8>, AllocError>
    ensures { IfOk result (λ said. AreSaidOf file.now text.now settings.now line.now said.items) }
{
    match schedule_in(alloc, line)? {
        Some(schedule) => deadlock_lines(alloc, file, text, settings, schedule.entries()),
        None => Ok(Vec::new(alloc)),
    }
}

/// The output of a search of the text of a file of this name, where behind the line on deadlocks it is said of the first
/// of them which task waits for which lock. It fails for want of memory alone, where the text is read as a program that
/// the settings suit, as one that has an output is.
pub fn with_deadlocks(
    alloc: Global,
    file: &str,
    text: &[u8],
    settings: &Settings,
    output: &[u8],
) -> Result<Vec<u8>, AllocError>
    ensures { IfOk result (λ found. IsExplained file.now text.now settings.now output.now found.items) }
{
    let Some(start) = stuck_line(output) else {
        return Vec::from_slice(alloc, output);
    };
    let end = line_end(output, start);
    let said = lines_on(alloc, file, text, settings, &output[start..end])?;
    let behind = output.len().min(end + 1);
    joined(alloc, &[&output[..behind], &said, &output[behind..]])
}
