//! Rows of records of texts with accesses: whether they are in the written order, and whether lists that are bent
//! aren't.

ghost use Rattle.std.specs.Prelude.{IfOk};
ghost use Rattle.litmus_syntax.specs.Limits.{KeepsLimits};
ghost use Rattle.litmus_syntax.specs.Views.{program_of};

use crate::bends::{BENDS, bent};
use crate::blocks::Blocks;
use crate::fault::Fault;
use crate::numbers::{number, small};
use crate::steps::records_of;
use litmus_parse::{ParseError, Program, parse};
use litmus_syntax::Name;
use oracle_steps::oracle_accesses::reading::{Reading, read_text};
use prepared_program::program_layout::Place;
use prepared_program::program_sites::Settings;
use slot_table::Record;
use std::alloc::Global;
use std::fmt::Write;
use watch_word::Layout;

/// Whose records are read: a task of a text, under these settings.
#[derive(Drop)]
struct Given<'a> {
    text: &'a str,
    task: u32,
    settings: Settings,
}

/// Each access is watched that may be.
fn watched(alloc: Global) -> Settings {
    Settings {
        slots: 64,
        skip: 0,
        randomize: false,
        seed: 1,
        value_change_only: true,
        plain_writes_atomic: true,
        layout: Layout::W64,
        turns: 1000,
        places: Vec::new(alloc),
    }
}

/// Shows what the steps of a task are of its text, and where they are the whole of it, which bent lists aren't read as
/// they have to be: `TEXT TASK`, and behind that settings.
pub fn show(
    alloc: Global,
    blocks: &Blocks,
    row: &str,
    steps: &str,
    shown: &mut String,
) -> Result<(), Fault> {
    let given = given_in(alloc, blocks, row)?;
    let records = records_of(alloc, given.task, steps)?;
    let reading = read(alloc, &given, &records)?;
    writeln!(shown, "{reading:?}")?;
    if reading == Reading::Whole {
        show_bent(alloc, &given, &records, shown)?;
    }
    Ok(())
}

/// Whose records a row gives.
fn given_in<'a>(alloc: Global, blocks: &'a Blocks, row: &str) -> Result<Given<'a>, Fault> {
    let mut words = row.split_whitespace();
    let text = blocks.text(words.next().ok_or(Fault::NoRow)?);
    let mut given = Given {
        text: text.ok_or(Fault::NoRow)?,
        task: small(words.next().ok_or(Fault::NoRow)?)?,
        settings: watched(alloc),
    };
    for setting in words {
        set(alloc, &mut given, setting)?;
    }
    Ok(given)
}

/// Takes a setting: `skip=COUNT`, `turns=COUNT`, or a place `NAME@ADDRESS`.
fn set(alloc: Global, given: &mut Given<'_>, setting: &str) -> Result<(), Fault> {
    if let Some(skip) = setting.strip_prefix("skip=") {
        given.settings.skip = number(skip)?;
    } else if let Some(turns) = setting.strip_prefix("turns=") {
        given.settings.turns = number(turns)?;
    } else {
        let (name, addr) = setting.split_once('@').ok_or(Fault::NoRow)?;
        given.settings.places.push(Place {
            name: Name::from_string(String::from_str(alloc, name)?),
            addr: number(addr)?,
        })?;
    }
    Ok(())
}

/// The program that a text spells.
fn parsed(alloc: Global, text: &str) -> Result<Program, ParseError>
    ensures { IfOk result (λ program. KeepsLimits (program_of program)) }
{
    parse(alloc, text.as_bytes())
}

/// What records are of the text of the task.
fn read(alloc: Global, given: &Given<'_>, records: &[Record]) -> Result<Reading, Fault> {
    let program = parsed(alloc, given.text)?;
    let number = given.task;
    if number as usize >= program.tasks.as_slice().len() {
        return Err(Fault::NoRow);
    }
    let reading = read_text(alloc, &program, &given.settings, number, records);
    reading.ok().ok_or(Fault::NoTask)
}

/// Shows which of the lists that are bent at one place aren't read as they have to be, with the place, from 0.
fn show_bent(
    alloc: Global,
    given: &Given<'_>,
    records: &[Record],
    shown: &mut String,
) -> Result<(), Fault> {
    for (place, record) in records.iter().enumerate() {
        for bend in BENDS {
            let Some(list) = bent(alloc, records, place, *record, bend)? else {
                continue;
            };
            let reading = read(alloc, given, &list)?;
            if reading != bend.reading() {
                writeln!(shown, "{bend:?} at {place}: {reading:?}")?;
            }
        }
    }
    Ok(())
}
