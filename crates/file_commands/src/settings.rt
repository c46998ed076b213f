//! What a program is run under, as the options ask for it.

ghost use Rattle.std.specs.Prelude.{◌≡◌, ◌⊎◌, IfErr, IfOk};
ghost use Rattle.cli.specs.Bounds.{KeepsBounds};
ghost use Rattle.file_commands.specs.Lists.{SpellsNoPlaces};
ghost use Rattle.file_commands.specs.Settings.{AskSettings, settings_of};
ghost use Rattle.file_commands.specs.Statuses.{status_of};
ghost use Rattle.file_commands.specs.declared.failure.Failure.TheVariants.{BadPlace, OutOfMemory};

use crate::failure::Failure;
use cli::RunOptions;
use litmus_step::Settings;
use prepared_program::place_list::parse_places;
use prepared_program::program_layout::Place;
use std::alloc::Global;

/// What a run goes by, as it is asked for.
pub(crate) fn settings(options: &RunOptions<'_>, places: Vec<Place>) -> Settings
    ensures { result ≡ settings_of options.now places }
{
    Settings {
        slots: options.slots,
        skip: options.skip,
        randomize: options.randomize,
        seed: options.seed,
        value_change_only: options.value_change_only,
        plain_writes_atomic: options.plain_writes_atomic,
        layout: options.layout,
        turns: options.turns,
        places,
    }
}

/// The settings that are asked for, with the places that the text of the options spells.
pub fn settings_for(alloc: Global, options: &RunOptions<'_>) -> Result<Settings, Failure>
    requires { KeepsBounds options.now }
    ensures asks { IfOk result (AskSettings options.now) }
    ensures misused { IfErr result (λ failure. status_of failure ≡ 64 → SpellsNoPlaces options.now.places.now) }
    ensures early { IfErr result (λ failure. (status_of failure ≡ 64) ⊎ (status_of failure ≡ 71)) }
    ensures known { IfErr result (λ failure. ((failure ≡ BadPlace) × SpellsNoPlaces options.now.places.now) ⊎ (failure ≡ OutOfMemory)) }
{
    match parse_places(alloc, options.places)? {
        Some(places) => Ok(settings(options, places)),
        None => Err(Failure::BadPlace),
    }
}
