//! What is printed of a litmus text beside what was found of it.

ghost use Rattle.std.specs.Prelude.{◌≡◌, ◌++◌, IfOk};
ghost use Rattle.file_search.specs.Additions as spec;
ghost use Rattle.file_search.specs.Additions.{HasAdditions, HasDeadlocks, HasPlaces};

use litmus_step::Settings;
use race_output::settings_text::settings_line;
use source_places::deadlocks::with_deadlocks;
use source_places::with_places;
use std::alloc::{AllocError, Global};

/// What is printed beside what was found of a litmus text.
#[derive(Clone, Copy)]
pub struct Additions {
    /// Behind each line that names a site, where that stands in the text.
    pub places: bool,
    /// Behind the line on deadlocks, which task waits for which lock in the first of them.
    pub deadlocks: bool,
    /// Behind all, the line of the settings.
    pub settings: bool,
}

/// The output of the text of a file of this name, with where its sites stand, if that is wanted.
fn placed(
    alloc: Global,
    wanted: bool,
    file: &str,
    text: &[u8],
    settings: &Settings,
    output: Vec<u8>,
) -> Result<Vec<u8>, AllocError>
    ensures { IfOk result (λ found. HasPlaces wanted file.now text.now settings.now output.items found.items) }
{
    if !wanted {
        return Ok(output);
    }
    with_places(alloc, file, text, settings, &output)
}

/// The output of the text of a file of this name, with why no task goes on behind the line on deadlocks, if that is
/// wanted.
fn explained(
    alloc: Global,
    wanted: bool,
    file: &str,
    text: &[u8],
    settings: &Settings,
    output: Vec<u8>,
) -> Result<Vec<u8>, AllocError>
    ensures { IfOk result (λ found. HasDeadlocks wanted file.now text.now settings.now output.items found.items) }
{
    if !wanted {
        return Ok(output);
    }
    with_deadlocks(alloc, file, text, settings, &output)
}

/// The output with the line of the settings behind it, if that is wanted.
fn with_settings(
    alloc: Global,
    wanted: bool,
    settings: &Settings,
    mut output: Vec<u8>,
) -> Result<Vec<u8>, AllocError>
    ensures { IfOk result (λ found. found.items ≡ output.items ++ spec.settings_part wanted settings.now) }
{
    if !wanted {
        return Ok(output);
    }
    let line = settings_line(alloc, settings)?;
    output.extend_from_slice(&line)?;
    Ok(output)
}

/// The output of the text of a file of this name, with what is wanted beside it.
pub fn with_additions(
    alloc: Global,
    wanted: Additions,
    file: &str,
    text: &[u8],
    settings: &Settings,
    output: Vec<u8>,
) -> Result<Vec<u8>, AllocError>
    ensures { IfOk result (λ found. HasAdditions wanted file.now text.now settings.now output.items found.items) }
{
    let output = placed(alloc, wanted.places, file, text, settings, output)?;
    let output = explained(alloc, wanted.deadlocks, file, text, settings, output)?;
    let output = with_settings(alloc, wanted.settings, settings, output)?;
    Ok(output)
}
