//! The lines of a trace, by their kinds.

ghost use Rattle.std.specs.Prelude.{◌++◌, ◌∷◌, [], IfOk, List, OnOk};
ghost use Rattle.report_text.specs.declared.line.Line.{Line};
ghost use Rattle.timeline.specs.picture.Parts.{ArePartsOf, AreSpelled};

use access_types::{Arm, Report, Stamped, Take};
use report_text::Line;
use std::alloc::{AllocError, Global};
use trace_replay::trace_lines::read_line;

/// The lines of a trace, each kind in the order of the trace.
#[derive(Drop)]
pub(crate) struct Parts {
    pub(crate) accesses: Vec<Stamped>,
    pub(crate) arms: Vec<Arm>,
    pub(crate) takes: Vec<Take>,
    pub(crate) reports: Vec<Report>,
}

impl Parts {
    /// No line. The lines that are kept later take their memory from this allocator.
    fn new(alloc: Global) -> Parts
        ensures { ArePartsOf [] result }
    {
        Parts {
            accesses: Vec::new(alloc),
            arms: Vec::new(alloc),
            takes: Vec::new(alloc),
            reports: Vec::new(alloc),
        }
    }

    /// Keeps one line more. The only error is want of memory.
    fn keep(&mut self, line: Line) -> Result<(), AllocError>
        ensures { (all : List Line) → ArePartsOf all self.old → OnOk result (ArePartsOf (all ++ line ∷ []) self.new) }
    {
        match line {
            Line::Access(access) => self.accesses.push(access)?,
            Line::Arm(arm) => self.arms.push(arm)?,
            Line::Take(take) => self.takes.push(take)?,
            Line::Report(report) => self.reports.push(report)?,
        }
        Ok(())
    }
}

/// Reads lines up to the last line of a trace. The only error is want of memory.
pub(crate) fn read_parts(alloc: Global, bytes: &[u8]) -> Result<Parts, AllocError>
    ensures { (all : List Line) → AreSpelled all bytes.now → IfOk result (ArePartsOf all) }
{
    let mut parts = Parts::new(alloc);
    let mut rest = bytes;
    while let Some((line, more)) = read_line(rest) {
        parts.keep(line)?;
        rest = more;
    }
    Ok(parts)
}
