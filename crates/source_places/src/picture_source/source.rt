//! What the text of a program says of a trace.

ghost use Rattle.std.specs.Prelude.{◌≡◌, [], IfOk};
ghost use Rattle.litmus_syntax.specs.Limits.{KeepsLimits};
ghost use Rattle.litmus_syntax.specs.Views.{program_of};
ghost use Rattle.source_places.specs.picture_source.Source.{AreLabelsIn};

use crate::picture_source::fit::fits;
use crate::picture_source::labels::{Sources, labels};
use litmus_parse::Reading;
use litmus_syntax::Program;
use prepared_program::program_sites::{Prepared, Settings};
use races::placed_sites;
use std::alloc::{AllocError, Global};
use timeline::picture::Row;
use timeline::picture::labels::Label;
use watch_word::Layout;

/// Settings without a place list. A site has its bytes whatever the other settings are.
fn plain_settings(alloc: Global) -> Settings
    ensures { result.places.items ≡ [] }
{
    Settings {
        slots: 64,
        skip: 0,
        randomize: false,
        seed: 0,
        value_change_only: true,
        plain_writes_atomic: true,
        layout: Layout::W64,
        turns: 1,
        places: Vec::new(alloc),
    }
}

/// The name of the test.
pub fn test_of(program: &Program) -> &[u8]
    ensures { result.now ≡ program.now.name }
{
    program.name.as_str().as_bytes()
}

/// What a program that is read of this text says of the sites of a trace with these rows: nothing, if its accesses can't
/// be those of the trace.
///
/// The only error is want of memory.
pub fn labels_of<'a>(
    alloc: Global,
    text: &'a [u8],
    reading: &'a Reading,
    rows: &[Row],
) -> Result<Option<Vec<Label<'a>>>, AllocError>
    requires { KeepsLimits (program_of reading.now.program) }
    ensures { IfOk result (AreLabelsIn reading.now.program text.now rows.now) }
{
    let program = &reading.program;
    let settings = plain_settings(alloc);
    let Ok(prepared) = Prepared::new(alloc, program, &settings) else {
        return Err(AllocError);
    };
    let sites = placed_sites(alloc, program, &prepared)?;
    if !fits(alloc, &sites, rows)? {
        return Ok(None);
    }
    let sources = Sources {
        text,
        places: &reading.places,
        variables: program.variables.as_slice(),
        layout: &*prepared.layout,
    };
    let found = labels(alloc, sources, &sites)?;
    Ok(Some(found))
}
