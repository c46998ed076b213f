//! A trace is read in one pass, and each of its lines is checked.

ghost use Rattle.std.specs.Prelude.{◌≡◌, ◌≢◌, ◌↔◌, ◌++◌, ◌<◌, ◌≤◌, ◌^◌, [], ℕ, Err, IfErr, IfOk, List, Result, length};
ghost use Rattle.report_text.specs.Faults.{BeginsTruly, BeginsWithLine, HeadStands, next_line, size_limit};
ghost use Rattle.report_text.specs.TraceText.{head_text};
ghost use Rattle.report_text.specs.declared.line.Line.{Line};
ghost use Rattle.trace_replay.specs.trace_lines.HeadReading.{head_of};
ghost use Rattle.trace_replay.specs.trace_lines.Reading.{IsPlain};
ghost use Rattle.trace_replay.specs.Answer.{IsAccepted, IsAnswerTo, IsRefused, IsTakenIn};
ghost use Rattle.trace_replay.specs.Story.{IsStoryOf};
ghost use Rattle.trace_replay.specs.declared.accepted.TraceError.TheVariants.{OutOfMemory};

use crate::accepted::{Accepted, TraceError};
use crate::laws::law_bytes_have_one_answer;
use crate::story::Story;
use crate::trace_lines::laws::law_plain_lines_stand;
use crate::trace_lines::{Head, read_end, read_head, read_line};
use report_text::Line;
use std::alloc::Global;

/// A trace has at most so many bytes.
pub const SIZE_LIMIT: usize = 33_554_432;

/// The one answer to any bytes: that they are a true trace, with its numbers, or their first line that fails. Only of
/// a trace that can't be kept for want of memory is it said that memory ran out.
pub fn replay(alloc: Global, bytes: &[u8]) -> Result<Accepted, TraceError>
    ensures accepted { IfOk result (IsAccepted bytes.now) }
    ensures refused { IfErr result (IsRefused bytes.now) }
    ensures exact { result ≢ Err OutOfMemory → (answer : Result Accepted TraceError) → IsAnswerTo bytes.now answer ↔ (answer ≡ result) }
{
    law_bytes_have_one_answer();
    read_whole(alloc, bytes)
}

/// Reads a trace from its first line to its last.
fn read_whole(alloc: Global, bytes: &[u8]) -> Result<Accepted, TraceError>
    ensures accepted { IfOk result (IsAccepted bytes.now) }
    ensures refused { IfErr result (IsRefused bytes.now) }
{
    if bytes.len() > SIZE_LIMIT {
        return Err(TraceError::BadTrace { line: 0 });
    }
    match read_head(bytes) {
        Ok((head, rest)) => replay_lines(alloc, head, rest),
        Err(line) => Err(TraceError::BadTrace { line }),
    }
}

/// Reads the lines behind a head, to the end.
fn replay_lines(alloc: Global, head: Head, bytes: &[u8]) -> Result<Accepted, TraceError>
    requires stands { HeadStands (head_of head) }
    requires within { length (head_text (head_of head) ++ bytes.now) ≤ size_limit }
    ensures accepted { IfOk result (IsAccepted (head_text (head_of head) ++ bytes.now)) }
    ensures refused { IfErr result (IsRefused (head_text (head_of head) ++ bytes.now)) }
{
    let mut story = Story::new(alloc, bytes.len() as u64);
    let answer = read_lines(&mut story, head, bytes);
    drop(story);
    answer
}

/// Reads the lines behind a head, to the end, into a story of no line. The story is lent: a loop is cheaper to prove
/// where it owns nothing that each way out of it would have to let go.
fn read_lines(story: &mut Story, head: Head, bytes: &[u8]) -> Result<Accepted, TraceError>
    requires empty { IsStoryOf [] story.old }
    requires stands { HeadStands (head_of head) }
    requires within { length (head_text (head_of head) ++ bytes.now) ≤ size_limit }
    ensures accepted { IfOk result (IsAccepted (head_text (head_of head) ++ bytes.now)) }
    ensures refused { IfErr result (IsRefused (head_text (head_of head) ++ bytes.now)) }
{
    law_plain_lines_stand();
    let mut rest = bytes;
    let mut number = first_number(head);
    while let Some((next, more)) = read_line(rest) {
        if let Err(error) = take_in(story, head, &next, number) {
            return Err(error);
        }
        rest = more;
        number += 1;
    }
    end(story, head, rest, number)
}

/// The number of the line behind the head.
fn first_number(head: Head) -> u64
    ensures { result ≡ next_line (head_of head) [] }
{
    match head {
        Head::First => 2,
        Head::Second(_) => 3,
    }
}

/// Checks the line of this number, and keeps it.
fn take_in(story: &mut Story, head: Head, next: &Line, number: u64) -> Result<(), TraceError>
    requires stands { HeadStands (head_of head) }
    requires plain { IsPlain next.now }
    requires story { (all : List Line) × IsStoryOf all story.old × (length all < 2 ^ 62) }
    ensures { (all : List Line) → IsStoryOf all story.old → IsTakenIn (head_of head) all next.now number result story.new }
{
    if !story.may_follow(head, next) {
        return Err(TraceError::BadTrace { line: number });
    }
    if !story.is_true(head, next) {
        return Err(TraceError::FalseReport { line: number });
    }
    story.keep(next)?;
    Ok(())
}

/// Reads the last line, of this number, where no other line stands.
fn end(story: &Story, head: Head, rest: &[u8], number: u64) -> Result<Accepted, TraceError>
    requires { number < 2 ^ 63 }
    ensures accepted { (bytes : List ℕ) (all : List Line) → BeginsTruly bytes (head_of head) all rest.now → IsStoryOf all story.now
        → number ≡ next_line (head_of head) all → IfOk result (IsAccepted bytes) }
    ensures refused { (bytes : List ℕ) (all : List Line) → BeginsTruly bytes (head_of head) all rest.now → IsStoryOf all story.now
        → number ≡ next_line (head_of head) all → ¬ BeginsWithLine (head_of head) all rest.now → IfErr result (IsRefused bytes) }
{
    let Some(behind) = read_end(rest) else {
        return Err(TraceError::BadTrace { line: number });
    };
    if !story.may_end(head) {
        return Err(TraceError::FalseReport { line: number });
    }
    if !behind.is_empty() {
        return Err(TraceError::BadTrace { line: number + 1 });
    }
    Ok(story.accepted(head))
}
