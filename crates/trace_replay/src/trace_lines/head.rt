//! The head of a trace: its version and, in version 2, its slots and the layout of its watch words.

ghost use Rattle.std.specs.Prelude.{◌≡◌, ◌≤◌, IfErr, IfOk};
ghost use Rattle.trace_replay.specs.trace_lines.HeadReading.{HeadFailsAt, IsHeadAt, IsShapeAt, head_of, shape_at, layout_at};
ghost use Rattle.trace_replay.specs.trace_lines.Reading.{Reads, seen};

use crate::trace_lines::fields::{decimal, past};
use watch_word::Layout;

/// How many slots there are, and the layout of watch words.
#[derive(Clone, Copy, Debug, PartialEq, Eq)]
pub struct Shape {
    pub slots: u64,
    pub layout: Layout,
}

/// What stands before the lines of a trace.
#[derive(Clone, Copy, Debug, PartialEq, Eq)]
pub enum Head {
    /// Version 1.
    First,
    /// Version 2.
    Second(Shape),
}

/// The head that the bytes begin with and the bytes behind it, or the number of the line that fails.
pub fn read_head(bytes: &[u8]) -> Result<(Head, &[u8]), u64>
    ensures head { IfOk result (λ found. IsHeadAt bytes.now (head_of found.0) found.1.now) }
    ensures fails { IfErr result (λ line. HeadFailsAt bytes.now line) }
{
    if let Some(rest) = past(bytes, b"KCSAN-TRACE 1\n") {
        return Ok((Head::First, rest));
    }
    let Some(rest) = past(bytes, b"KCSAN-TRACE 2\n") else {
        return Err(1);
    };
    match read_shape(rest) {
        Some((shape, rest)) => Ok((Head::Second(shape), rest)),
        None => Err(2),
    }
}

/// The line on slots and layout that the bytes begin with.
fn read_shape(bytes: &[u8]) -> Option<(Shape, &[u8])>
    ensures { Reads (IsShapeAt bytes.now) (seen result) }
{
    shape_line(bytes)
}

/// A line on slots and layout.
#[tactic(auto, unfolding(crate::specs::trace_lines::HeadReading::shape_at))]
fn shape_line(bytes: &[u8]) -> Option<(Shape, &[u8])>
    ensures { seen result ≡ shape_at bytes.now }
{
    let (slots, rest) = decimal(past(bytes, b"shape ")?)?;
    let (layout, rest) = layout(rest)?;
    if slots < 3 || slots > 1024 {
        return None;
    }
    Some((Shape { slots, layout }, rest))
}

/// The width of watch words, behind a blank, and the end of the line.
#[tactic(auto, unfolding(crate::specs::trace_lines::HeadReading::layout_at))]
fn layout(bytes: &[u8]) -> Option<(Layout, &[u8])>
    ensures { seen result ≡ layout_at bytes.now }
{
    if let Some(rest) = past(bytes, b" 64\n") {
        return Some((Layout::W64, rest));
    }
    Some((Layout::W32, past(bytes, b" 32\n")?))
}
