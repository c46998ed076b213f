//! What is left of runs, with what is wanted beside the output.

ghost use Rattle.std.specs.Prelude.{◌≡◌, IfOk};
ghost use Rattle.file_search.specs.Additions.{HasAdditions};

use file_search::additions::{Additions, with_additions};
use litmus_step::Settings;
use run_output::Written;
use std::alloc::{AllocError, Global};

/// What is left of runs of the text of a file, with what is wanted beside the output.
pub(crate) fn added(
    alloc: Global,
    wanted: Additions,
    file: &str,
    text: &[u8],
    settings: &Settings,
    written: Written,
) -> Result<Written, AllocError>
    ensures output { IfOk result (λ own. HasAdditions wanted file.now text.now settings.now written.output.items own.output.items) }
    ensures trace { IfOk result (λ own. own.trace ≡ written.trace) }
    ensures raced { IfOk result (λ own. own.raced ≡ written.raced) }
{
    let Written {
        output,
        trace,
        raced,
    } = written;
    let output = with_additions(alloc, wanted, file, text, settings, output)?;
    Ok(Written {
        output,
        trace,
        raced,
    })
}
