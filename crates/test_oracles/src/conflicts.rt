//! The pairs of sites whose accesses conflict, in their order.

ghost use Rattle.litmus_syntax.specs.Limits.{KeepsLimits};
ghost use Rattle.litmus_syntax.specs.Views.{program_of};

use crate::definitions::tell;
use crate::words::Fault;
use litmus_parse::Program;
use litmus_step::{Prepared, Settings};
use races::{SiteName, SitePair, conflicting_pairs};
use std::alloc::{AllocError, Global};

/// The pairs of a program under some settings; `none` where there is none.
pub fn pairs_of(alloc: Global, program: &Program, settings: &Settings) -> Result<String, Fault>
    requires { KeepsLimits (program_of program.now) }
{
    let prepared = Prepared::new(alloc, program, settings)?;
    let pairs = conflicting_pairs(alloc, program, &prepared);
    drop(prepared);
    Ok(in_words(alloc, pairs?.as_slice())?)
}

/// Pairs, with a blank between two of them.
fn in_words(alloc: Global, pairs: &[SitePair]) -> Result<String, AllocError> {
    let mut came = String::new(alloc);
    for pair in pairs {
        let (SiteName { task, site }, second) = (pair.first, pair.second);
        tell(
            &mut came,
            &format!(in alloc; "{task}.{site}/{}.{}", second.task, second.site)?,
        )?;
    }
    if came.is_empty() {
        came.push_str("none")?;
    }
    Ok(came)
}
