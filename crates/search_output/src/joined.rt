//! What is found of lists and of later ones, joined; and what is found as plain data.

ghost use Rattle.std.specs.Prelude.{◌≡◌, ◌++◌, Bool, IfOk, List, OnOk};
ghost use Rattle.prepared_program.specs.declared.program_sites.settings.Settings as terms;
ghost use Rattle.executions.specs.execution.Run.{Run};
ghost use Rattle.search_output.specs.Findings.{FindsOf};
ghost use Rattle.search_output.specs.Joined.{IsPartOf};
ghost use Rattle.search_output.specs.Lists.{OneList};

use crate::findings::Findings;
use search_text::FindingsParts;
use std::alloc::{AllocError, Global};

/// What is found of lists of a program, as plain data.
#[derive(Drop)]
pub struct FoundPart {
    /// Their reports, how they end, and how many they are.
    pub found: FindingsParts,
    /// The trace of the first list with a report, if it was wanted and there is such a list.
    pub trace: Option<Vec<u8>>,
}

impl Findings {
    /// What is found, as plain data. The only error is want of memory.
    pub fn into_part(self, alloc: Global) -> Result<FoundPart, AllocError>
        ensures { (settings : terms.Settings) (traced : Bool) (run : Run) (lists : List (OneList run))
            → FindsOf settings traced run lists self → IfOk result (IsPartOf settings traced run lists) }
    {
        let found = self.found.into_parts(alloc)?;
        Ok(FoundPart {
            found,
            trace: self.trace,
        })
    }

    /// Adds what is found of later lists of the program, as plain data: it is then what is found of these lists and the
    /// later ones behind them.
    ///
    /// The only error is want of memory, after which what is found is of no use.
    pub fn join_part(&mut self, later: FoundPart) -> Result<(), AllocError>
        ensures { (settings : terms.Settings) (traced : Bool) (run : Run) (lists more : List (OneList run))
            → FindsOf settings traced run lists self.old → IsPartOf settings traced run more later
            → OnOk result (FindsOf settings traced run (lists ++ more) self.new) }
    {
        self.trace = self.trace.take().or(later.trace);
        self.found.join_parts(later.found)?;
        Ok(())
    }

    /// Adds what is found of later lists of the program: it is then what is found of these lists and the later ones
    /// behind them.
    ///
    /// The only error is want of memory, after which what is found is of no use.
    pub fn join(&mut self, alloc: Global, later: Findings) -> Result<(), AllocError>
        ensures { (settings : terms.Settings) (traced : Bool) (run : Run) (lists more : List (OneList run))
            → FindsOf settings traced run lists self.old → FindsOf settings traced run more later
            → OnOk result (FindsOf settings traced run (lists ++ more) self.new) }
    {
        let part = later.into_part(alloc)?;
        self.join_part(part)?;
        Ok(())
    }
}
