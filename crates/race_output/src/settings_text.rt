//! The line of the settings.

ghost use Rattle.std.specs.Prelude.{◌≡◌, IfOk};
ghost use Rattle.race_output.specs.Settings as spec;

use output_pieces::TextBuilder;
use prepared_program::program_sites::Settings;
use std::alloc::{AllocError, Global};

/// Whether aligned plain writes count as marked.
fn atomic_words(plain_writes_atomic: bool) -> &'static str
    ensures { result.now ≡ spec.atomic_words plain_writes_atomic }
{
    if plain_writes_atomic {
        "aligned plain writes count as marked"
    } else {
        "aligned plain writes may race"
    }
}

/// Whether a report needs a changed value.
fn change_words(value_change_only: bool) -> &'static str
    ensures { result.now ≡ spec.change_words value_change_only }
{
    if value_change_only {
        "a report needs a changed value"
    } else {
        "a report needs no changed value"
    }
}

/// The line of the settings.
pub fn settings_line(alloc: Global, settings: &Settings) -> Result<Vec<u8>, AllocError>
    ensures { IfOk result (λ text. text.items ≡ spec.settings_line settings.now) }
{
    TextBuilder::new(alloc)
        .piece(b"settings: ")
        .words(atomic_words(settings.plain_writes_atomic))
        .piece(b"; ")
        .words(change_words(settings.value_change_only))
        .piece(b"; skip ")
        .number(settings.skip as usize)
        .piece(b"; slots ")
        .number(settings.slots)
        .piece(b"\n")
        .build()
}
