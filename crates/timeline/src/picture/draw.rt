//! The picture of a trace.

ghost use Rattle.std.specs.Prelude.{◌≡◌, IfErr, IfOk};
ghost use Rattle.timeline.specs.picture.Drawn.{IsPictureOf, IsUndrawn, Shows};
ghost use Rattle.timeline.specs.picture.Ordered.{IsOrdered};
ghost use Rattle.timeline.specs.picture.Sound.{IsSound};

use crate::picture::columns::{Column, columns};
use crate::picture::error::PictureError;
use crate::picture::named::Named;
use crate::picture::parts::{Parts, read_parts};
use crate::picture::rows::{Row, rows};
use crate::picture::watches::{Taking, Watch, takings, watches};
use std::alloc::{AllocError, Global};
use trace_replay::trace_lines::{Head, read_head};
use trace_replay::{TraceError, replay};

/// A picture has at most so many accesses.
pub const ACCESS_LIMIT: usize = 10_000;

/// What is drawn of a trace.
#[derive(Drop)]
pub struct Picture {
    /// The trace's version and, in version 2, its slots and the layout of its watch words.
    pub head: Head,
    /// One of each task, from 0 to 15.
    pub columns: Vec<Column>,
    /// In rising order of their stamps.
    pub rows: Vec<Row>,
    /// In the order of the trace's arms.
    pub watches: Vec<Watch>,
    /// In the order of the trace's takes.
    pub takings: Vec<Taking>,
}

/// The picture of the lines behind a head.
fn drawn(alloc: Global, head: Head, parts: &Parts) -> Result<Picture, AllocError>
    requires { IsSound parts.now.accesses.items parts.now.arms.items parts.now.takes.items parts.now.reports.items }
    ensures head { IfOk result (λ picture. picture.head ≡ head) }
    ensures shows { IfOk result (Shows parts.now.accesses.items parts.now.arms.items parts.now.takes.items parts.now.reports.items) }
{
    let named = Named::new(alloc, &parts.accesses)?;
    Ok(Picture {
        head,
        columns: columns(alloc, &parts.accesses)?,
        rows: rows(alloc, &named, &parts.accesses, &parts.reports)?,
        watches: watches(alloc, &named, &parts.arms)?,
        takings: takings(alloc, &named, &parts.takes)?,
    })
}

/// The picture of a trace. Each access, arm, take and report of the trace stands in it once.
///
/// `Trace`: as `replay` refuses the bytes. `TooLong`: the trace has more than 10,000 accesses.
pub fn picture_of(alloc: Global, bytes: &[u8]) -> Result<Picture, PictureError>
    ensures drawn { IfOk result (IsPictureOf bytes.now) }
    ensures ordered { IfOk result IsOrdered }
    ensures undrawn { IfErr result (IsUndrawn bytes.now) }
{
    if let Err(fault) = replay(alloc, bytes) {
        return Err(PictureError::Trace(fault));
    }
    let (head, rest) = match read_head(bytes) {
        Ok(read) => read,
        Err(line) => return Err(PictureError::Trace(TraceError::BadTrace { line })),
    };
    let parts = read_parts(alloc, rest)?;
    if parts.accesses.len() > ACCESS_LIMIT {
        return Err(PictureError::TooLong);
    }
    let picture = drawn(alloc, head, &parts)?;
    Ok(picture)
}
