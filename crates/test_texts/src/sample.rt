//! Parts of searches.

use access_types::{Report, ValueChange};
use litmus_syntax::Name;
use part_search::part_file::{Part, PartSettings};
use prepared_program::program_layout::Place;
use prepared_program::step_schedule::Entry;
use search_text::{FindingsParts, Seen, SeenText, Stopped};
use std::alloc::{AllocError, Global};
use watch_word::Layout;

/// A text that was seen so often, first in this schedule.
fn seen(alloc: Global, text: &str, times: u64, first: &[Entry]) -> Result<SeenText, AllocError> {
    let text = Vec::from_slice(alloc, text.as_bytes())?;
    let first = first.to_vec(alloc)?;
    Ok(SeenText {
        text,
        seen: Seen::new(times, first),
    })
}

/// So many steps of a task.
fn steps(task: u64, steps: u64) -> Entry {
    Entry { task, steps }
}

/// Each form of a report.
fn known(alloc: Global) -> Result<Vec<Report>, AllocError> {
    let mut known = Vec::new(alloc);
    known.push(Report::Two {
        setter: 7,
        finder: 4_294_967_295,
        seen: Some(ValueChange { old: 0, new: 1 }),
    })?;
    known.push(Report::Two {
        setter: 7,
        finder: 8,
        seen: None,
    })?;
    known.push(Report::Unknown {
        setter: 5,
        old: 2,
        new: 3,
    })?;
    Ok(known)
}

/// Findings with something of each kind.
fn findings(alloc: Global) -> Result<FindingsParts, AllocError> {
    let mut reports = Vec::new(alloc);
    reports.push(seen(alloc, "r\n\"q\"\\", 2, &[steps(0, 3), steps(1, 2)])?)?;
    let mut states = Vec::new(alloc);
    states.push(seen(alloc, "1:r0=0;", 3, &[steps(0, 1)])?)?;
    states.push(seen(alloc, "1:r0=1;", 1, &[])?)?;
    let stuck = Seen::new(1, [steps(1, 1)].to_vec(alloc)?);
    Ok(FindingsParts {
        reports,
        known: known(alloc)?,
        stuck: Some(stuck),
        states,
        searched: 6,
        held: 1,
        failed: 3,
    })
}

/// Settings.
fn settings() -> PartSettings {
    PartSettings {
        slots: 64,
        skip: 0,
        randomize: false,
        seed: 1,
        value_change_only: true,
        plain_writes_atomic: true,
        layout: Layout::W64,
        turns: 1000,
        switches: 2,
        limit: 100_000,
        seconds: None,
        traced: true,
        unknown_origin: true,
    }
}

/// Where two variables stand.
fn places(alloc: Global) -> Result<Vec<Place>, AllocError> {
    let mut places = Vec::new(alloc);
    places.push(Place {
        name: Name::from_string(String::from_str(alloc, "x")?),
        addr: 4096,
    })?;
    places.push(Place {
        name: Name::from_string(String::from_str(alloc, "flag")?),
        addr: 8200,
    })?;
    Ok(places)
}

/// The part of the rows.
pub fn sample(alloc: Global) -> Result<Part, AllocError> {
    Ok(Part {
        file: String::from_str(alloc, "mp.litmus")?,
        text: Vec::from_slice(alloc, b"C mp\n{}\n")?,
        places: places(alloc)?,
        settings: settings(),
        part: 1,
        parts: 2,
        nodes: u64::MAX,
        stopped: Stopped::No,
        found: findings(alloc)?,
        trace: Some(Vec::from_slice(alloc, b"trace 1\n")?),
    })
}

/// The part `N/COUNT`, of another file if a `f` stands before it, of another search if a `s` does, and with one place
/// less if a `p` does.
pub fn numbered(alloc: Global, word: &str) -> Result<Option<Part>, AllocError> {
    let (file, word) = match word.strip_prefix('f') {
        Some(word) => ("C sb\n", word),
        None => ("C mp\n", word),
    };
    let (seed, word) = match word.strip_prefix('s') {
        Some(word) => (2, word),
        None => (1, word),
    };
    let (places, word) = match word.strip_prefix('p') {
        Some(word) => (1, word),
        None => (2, word),
    };
    let Some((part, parts)) = word.split_once('/') else {
        return Ok(None);
    };
    let (Ok(part), Ok(parts)) = (part.parse::<u64>(), parts.parse::<u64>()) else {
        return Ok(None);
    };
    let mut whole = sample(alloc)?;
    whole.text = Vec::from_slice(alloc, file.as_bytes())?;
    whole.settings.seed = seed;
    whole.places.truncate(places);
    whole.part = part;
    whole.parts = parts;
    Ok(Some(whole))
}
