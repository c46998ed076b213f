//! What a search goes by, and how a part tells it.

ghost use Rattle.std.specs.Prelude.{◌≡◌, ◌<◌, ◌^◌, IfOk};
ghost use Rattle.part_search.specs.part_file.Views.{part_view};
ghost use Rattle.part_search.specs.declared.part_file.part.PartSettings as told;
ghost use Rattle.part_search.specs.Settings as spec;
ghost use Rattle.part_search.specs.Settings.{GoesBy};

use crate::part_file::{Part, PartSettings};
use litmus_step::Settings;
use litmus_syntax::Name;
use prepared_program::program_layout::Place;
use search_run::Wanted;
use std::alloc::{AllocError, Global};

/// What is wanted, and no trace.
pub(crate) fn untraced(wanted: Wanted) -> Wanted
    ensures { result ≡ spec.untraced wanted }
{
    Wanted {
        switches: wanted.switches,
        limit: wanted.limit,
        seconds: wanted.seconds,
        traced: false,
        unknown_origin: wanted.unknown_origin,
    }
}

/// Settings and bounds, but for where variables stand.
pub(crate) fn part_settings(settings: &Settings, wanted: Wanted) -> PartSettings
    ensures { result ≡ spec.part_settings settings.now wanted }
{
    PartSettings {
        slots: settings.slots as u64,
        skip: settings.skip,
        randomize: settings.randomize,
        seed: settings.seed,
        value_change_only: settings.value_change_only,
        plain_writes_atomic: settings.plain_writes_atomic,
        layout: settings.layout,
        turns: settings.turns,
        switches: wanted.switches,
        limit: wanted.limit,
        seconds: wanted.seconds,
        traced: wanted.traced,
        unknown_origin: wanted.unknown_origin,
    }
}

/// The bounds that a part tells.
pub(crate) fn wanted_of(settings: PartSettings) -> Wanted
    ensures { result ≡ spec.wanted_of settings }
{
    Wanted {
        switches: settings.switches,
        limit: settings.limit,
        seconds: settings.seconds,
        traced: settings.traced,
        unknown_origin: settings.unknown_origin,
    }
}

/// The same place.
fn place_copy(alloc: Global, place: &Place) -> Result<Place, AllocError>
    ensures { IfOk result (λ copy. copy ≡ place.now) }
{
    Ok(Place {
        name: Name::from_string(String::from_str(alloc, place.name.as_str())?),
        addr: place.addr,
    })
}

/// The same places, in their order.
pub(crate) fn places_copy(alloc: Global, places: &[Place]) -> Result<Vec<Place>, AllocError>
    ensures { IfOk result (λ copies. copies.items ≡ places.now) }
{
    let mut copies = Vec::new(alloc);
    for place in places {
        let copy = place_copy(alloc, place)?;
        copies.push(copy)?;
    }
    Ok(copies)
}

/// The settings by which the search of a part went. The only error is want of memory.
pub fn settings_of_part(alloc: Global, part: &Part) -> Result<Settings, AllocError>
    ensures { IfOk result (λ settings. GoesBy settings (spec.wanted_of part.now.settings) (part_view part.now)) }
{
    let places = places_copy(alloc, part.places.as_slice())?;
    let told = part.settings;
    Ok(Settings {
        slots: told.slots as usize,
        skip: told.skip,
        randomize: told.randomize,
        seed: told.seed,
        value_change_only: told.value_change_only,
        plain_writes_atomic: told.plain_writes_atomic,
        layout: told.layout,
        turns: told.turns,
        places,
    })
}
