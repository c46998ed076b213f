//! What is written of the races of a text.

ghost use Rattle.std.specs.Prelude.{◌≡◌, IfOk, map};
ghost use Rattle.std.specs.List.{flat_map};
ghost use Rattle.executions.specs.execution.Run.{Run};
ghost use Rattle.race_output.specs.Sites.{AreSourcesOf};
ghost use Rattle.race_output.specs.Blocks.{pair_text};
ghost use Rattle.race_output.specs.Table as spec;

use crate::blocks::pair_text;
use crate::counts::{pairs_line, search_lines};
use crate::settings_text::settings_line;
use crate::sites::Sources;
use output_pieces::{TextBuilder, add_text};
use prepared_program::program_sites::Settings;
use race_verdicts::RacesFound;
use races::PairFound;
use std::alloc::{AllocError, Global};

/// What is written of pairs.
fn pairs_text(
    alloc: Global,
    sources: Sources<'_>,
    pairs: &[PairFound],
) -> Result<Vec<u8>, AllocError>
    ensures { (run : Run) → AreSourcesOf run sources.entry.sites.now sources.entry.variables.now
        sources.entry.layout.now sources.entry.plain_writes_atomic
        → IfOk result (λ text. text.items ≡ flat_map
        (pair_text run sources.entry.text.now (map (λ own. own.items) sources.entry.places.now)) pairs.now) }
{
    let mut lines = Vec::new(alloc);
    for one in pairs {
        add_text(&mut lines, pair_text(alloc, sources, one))?;
    }
    Ok(lines)
}

/// What is written of what was found under these settings.
pub(crate) fn races_text(
    alloc: Global,
    sources: Sources<'_>,
    settings: &Settings,
    found: &RacesFound,
) -> Result<Vec<u8>, AllocError>
    ensures { (run : Run) → AreSourcesOf run sources.entry.sites.now sources.entry.variables.now
        sources.entry.layout.now sources.entry.plain_writes_atomic
        → IfOk result (λ text. text.items ≡ spec.races_text run sources.entry.text.now
        (map (λ own. own.items) sources.entry.places.now) settings.now found.now) }
{
    let pairs = found.pairs.as_slice();
    TextBuilder::new(alloc)
        .text(pairs_text(alloc, sources, pairs))
        .text(settings_line(alloc, settings))
        .text(search_lines(alloc, found))
        .text(pairs_line(alloc, pairs))
        .build()
}
