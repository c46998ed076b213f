//! Rows of checks: texts with settings, place lists and schedules, and what is said of them.

use diagnostics::option_diagnostics::{place_fault, schedule_fault};
use diagnostics::text_check::{Check, calls, check_text};
use prepared_program::place_list::parse_places;
use prepared_program::program_layout::Place;
use prepared_program::program_sites::{RunError, Settings};
use prepared_program::step_schedule::{Entry, Schedule};
use std::alloc::{AllocError, Global};
use test_rows::escapes::unescaped;
use watch_word::Layout;

/// What a row is about.
#[derive(Clone, Copy)]
enum Kind {
    /// A litmus text, under watch words of this layout.
    Text(Layout),
    /// The warnings on a litmus text.
    Warnings,
    /// What is said of a place list.
    Places,
    /// What is said of a schedule.
    Schedule,
    /// The places that a place list spells.
    PlacesRead,
    /// The entries that a schedule spells, in a program of so many tasks.
    EntriesRead(u64),
}

/// A text, what it is checked with, and what is to be said of it.
#[derive(Drop)]
pub struct Row {
    kind: Kind,
    slots: usize,
    places: String,
    text: String,
    pub wanted: String,
}

impl Row {
    /// The row of a line: the bits of a watch word, `warnings`, `places`, `schedule`, `places_read` or `entries_read`;
    /// the number of page slots, or of tasks for `entries_read`; a place list or `-`; a text, `=>`, and what is said of
    /// it.
    pub fn read(alloc: Global, line: &str) -> Result<Option<Row>, AllocError> {
        let Some((word, rest)) = line.split_once(' ') else {
            return Ok(None);
        };
        let Some((slots, rest)) = rest.split_once(' ') else {
            return Ok(None);
        };
        let (Some((places, rest)), Ok(slots)) = (rest.split_once(' '), slots.parse::<usize>())
        else {
            return Ok(None);
        };
        let Some((text, wanted)) = rest.split_once(" => ") else {
            return Ok(None);
        };
        let kind = match word {
            "32" => Kind::Text(Layout::W32),
            "64" => Kind::Text(Layout::W64),
            "warnings" => Kind::Warnings,
            "places" => Kind::Places,
            "schedule" => Kind::Schedule,
            "places_read" => Kind::PlacesRead,
            "entries_read" => Kind::EntriesRead(slots as u64),
            _ => return Ok(None),
        };
        let places = if places == "-" { "" } else { places };
        Ok(Some(Row {
            kind,
            slots,
            places: String::from_str(alloc, places)?,
            text: unescaped(alloc, text)?,
            wanted: unescaped(alloc, wanted)?,
        }))
    }
}

/// The settings of a row.
fn settings(row: &Row, layout: Layout, places: Vec<Place>) -> Settings {
    Settings {
        slots: row.slots,
        skip: 0,
        randomize: false,
        seed: 1,
        value_change_only: true,
        plain_writes_atomic: true,
        layout,
        turns: 1_000_000,
        places,
    }
}

/// Bytes as text.
fn text_of(alloc: Global, bytes: &[u8]) -> Result<String, AllocError> {
    match str::from_utf8(bytes) {
        Ok(text) => String::from_str(alloc, text),
        Err(_) => String::from_str(alloc, "bytes that are no text"),
    }
}

/// What is said of the items of a list.
fn fault_of(alloc: Global, fault: Option<Vec<u8>>) -> Result<String, AllocError> {
    match fault {
        Some(line) => text_of(alloc, &line),
        None => String::from_str(alloc, "each item reads"),
    }
}

/// The places that a place list spells, each with a blank before it.
fn places_read(alloc: Global, text: &str) -> Result<String, AllocError> {
    let Some(places) = parse_places(alloc, text)? else {
        return String::from_str(alloc, "no place list");
    };
    let mut shown = String::from_str(alloc, "places:")?;
    for Place { name, addr } in &places {
        let name = name.as_str();
        shown.push_str(format!(in alloc; " {name}={addr}")?.as_str())?;
    }
    Ok(shown)
}

/// The entries that a schedule spells, each with a blank before it, and whether one is of a task that isn't among so
/// many.
fn entries_read(alloc: Global, text: &str, tasks: u64) -> Result<String, AllocError> {
    let Some(schedule) = Schedule::parse(alloc, text)? else {
        return String::from_str(alloc, "no schedule");
    };
    let mut shown = String::from_str(alloc, "entries:")?;
    for Entry { task, steps } in schedule.entries() {
        shown.push_str(format!(in alloc; " {task}x{steps}")?.as_str())?;
    }
    if schedule.names_stranger(tasks) {
        shown.push_str(", of a task that isn't there")?;
    }
    Ok(shown)
}

/// What comes of a row.
pub fn outcome(alloc: Global, row: &Row) -> Result<String, AllocError> {
    match row.kind {
        Kind::Text(layout) => check_of(alloc, row, layout),
        Kind::Warnings => warnings_of(alloc, row),
        Kind::Places => fault_of(alloc, place_fault(alloc, &row.text)?),
        Kind::Schedule => fault_of(alloc, schedule_fault(alloc, &row.text)?),
        Kind::PlacesRead => places_read(alloc, &row.text),
        Kind::EntriesRead(tasks) => entries_read(alloc, &row.text, tasks),
    }
}

/// The warnings on a row's text.
fn warnings_of(alloc: Global, row: &Row) -> Result<String, AllocError> {
    let settings = settings(row, Layout::W64, Vec::new(alloc));
    let check = match check_text(alloc, b"t.litmus", row.text.as_bytes(), &settings) {
        Ok(check) => check,
        Err(RunError::OutOfMemory) => return Err(AllocError),
        Err(error) => return format!(in alloc; "{error}"),
    };
    let Check::Reads { warnings, .. } = check else {
        return String::from_str(alloc, "no program");
    };
    if warnings.is_empty() {
        return String::from_str(alloc, "no warning");
    }
    text_of(alloc, &warnings)
}

/// What is said of the check of a row's text, or the calls that are read, where it is `--calls`.
fn check_of(alloc: Global, row: &Row, layout: Layout) -> Result<String, AllocError> {
    if row.text.as_str() == "--calls" {
        return String::from_str(alloc, calls());
    }
    let Some(places) = parse_places(alloc, &row.places)? else {
        return String::from_str(alloc, "no place list");
    };
    let settings = settings(row, layout, places);
    match check_text(alloc, b"t.litmus", row.text.as_bytes(), &settings) {
        Ok(
            Check::Reads {
                tables,
                printed,
                warnings,
            },
        ) => {
            let tables = text_of(alloc, &tables)?;
            let warnings = text_of(alloc, &warnings)?;
            format!(in alloc; "{tables}\n{printed}{warnings}")
        }
        Ok(Check::Misplaced { why }) => {
            let why = text_of(alloc, &why)?;
            format!(in alloc; "bad place\n{why}")
        }
        Ok(Check::Refused { error, why }) => {
            let why = text_of(alloc, &why)?;
            format!(in alloc; "{error}\n{why}")
        }
        Err(RunError::OutOfMemory) => Err(AllocError),
        Err(error) => format!(in alloc; "{error}"),
    }
}
