//! The output of a litmus text, with where its sites stand.

ghost use Rattle.std.specs.Prelude.{IfOk};
ghost use Rattle.litmus_syntax.specs.Limits.{KeepsLimits};
ghost use Rattle.litmus_syntax.specs.Views.{program_of};
ghost use Rattle.source_places.specs.Located.{IsLocated, IsLocatedIn};

use crate::lines::located;
use crate::sites::{Sources, site_places};
use litmus_parse::{Reading, read_text};
use prepared_program::program_sites::{Prepared, Settings};
use races::placed_sites;
use std::alloc::{AllocError, Global};

/// The output, with where the site stands behind each line that names one, of a text of a file of this name, that is
/// read so.
fn with_program(
    alloc: Global,
    file: &[u8],
    text: &[u8],
    reading: &Reading,
    settings: &Settings,
    output: &[u8],
) -> Result<Vec<u8>, AllocError>
    requires { KeepsLimits (program_of reading.now.program) }
    ensures { IfOk result (λ found. IsLocatedIn reading.now.program file.now text.now settings.now output.now found.items) }
{
    let program = &reading.program;
    let Ok(prepared) = Prepared::new(alloc, program, settings) else {
        return Err(AllocError);
    };
    let sites = placed_sites(alloc, program, &prepared)?;
    let sources = Sources {
        file,
        text,
        places: &reading.places,
        variables: program.variables.as_slice(),
        layout: &*prepared.layout,
    };
    let places = site_places(alloc, sources, &sites)?;
    located(alloc, &places, output)
}

/// The output of a litmus text in a file of this name, with where the site stands behind each line that names one.
///
/// It fails for want of memory alone, where the text is read as a program that the settings suit, as one that has an
/// output is.
pub fn with_places(
    alloc: Global,
    file: &str,
    text: &[u8],
    settings: &Settings,
    output: &[u8],
) -> Result<Vec<u8>, AllocError>
    ensures { IfOk result (λ found. IsLocated file.now text.now settings.now output.now found.items) }
{
    match read_text(alloc, text) {
        Ok(reading) => with_program(alloc, file.as_bytes(), text, &reading, settings, output),
        Err(_) => Err(AllocError),
    }
}
