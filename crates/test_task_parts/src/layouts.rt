//! Where the variables of a program stand, and the accesses of its texts.

ghost use Rattle.litmus_syntax.specs.Limits.{KeepsLimits};
ghost use Rattle.litmus_syntax.specs.Views.{program_of};

use crate::fault::{Fault, written};
use crate::notation::{cut, number, push_all, push_number, push_optional};
use crate::process::{VARIABLES, body_of, layout_of, program_from, program_of};
use crate::script::{Asked, begin_word, push_blank};
use access_types::{Access, Bytes, Sites};
use litmus_parse::Program;
use litmus_semantics::site::{Site, text_sites};
use litmus_syntax::Variable;
use prepared_program::place_list::parse_places;
use prepared_program::program_layout::{Layout, LayoutError, Place};
use prepared_program::program_sites::{RunError, sites_of};
use std::alloc::{AllocError, Global};

/// What comes of the layout of a program with places: `PLACES BLOCK P0 PROCESS`.
pub fn layout(alloc: Global, start: &str, script: &str) -> Result<String, Fault> {
    let (places, rest) = cut(start, ' ')?;
    let (block, process) = rest.split_once(" P0").ok_or(Fault::NoRow)?;
    let places = places_of(alloc, places)?;
    let program = program_from(alloc, block, process)?;
    laid(
        alloc,
        program.variables.as_slice(),
        places.as_slice(),
        script,
    )
}

/// Places with commas between them; `-` for none.
fn places_of(alloc: Global, text: &str) -> Result<Vec<Place>, Fault> {
    if text == "-" {
        return Ok(Vec::new(alloc));
    }
    parse_places(alloc, text)?.ok_or(Fault::NoRow)
}

/// What comes of the layout of variables with places.
fn laid(
    alloc: Global,
    variables: &[Variable],
    places: &[Place],
    script: &str,
) -> Result<String, Fault> {
    if variables.len() > VARIABLES {
        return Err(Fault::NoRow);
    }
    match Layout::new(alloc, variables, places) {
        Ok(layout) => said(alloc, &layout, script),
        Err(LayoutError::BadPlace) => Ok(String::from_str(alloc, "BadPlace")?),
        Err(LayoutError::OutOfMemory) => Err(Fault::OutOfMemory),
    }
}

/// What a layout says by a script.
fn said(alloc: Global, layout: &Layout, script: &str) -> Result<String, Fault> {
    let mut came = String::new(alloc);
    for word in script.split(' ') {
        goes_on(alloc, &mut came, layout, word)?;
    }
    Ok(came)
}

/// What comes at a word of the script.
fn goes_on(alloc: Global, came: &mut String, layout: &Layout, word: &str) -> Result<(), Fault> {
    let Asked::Question(phrase) = begin_word(came, word)? else {
        return Err(Fault::NoRow);
    };
    let pushed = match phrase.name {
        "bytes" => push_bytes(came, layout.bytes_in(phrase.index()?)),
        "cells" => push_all(came, layout.cells(alloc)?.as_slice()),
        "words" => push_all(came, layout.cells_at_first(alloc)?.as_slice()),
        "locks" => push_number(came, layout.locks() as u64),
        "variables" => push_number(came, layout.all_bytes(alloc)?.len() as u64),
        _ => return Err(Fault::NoRow),
    };
    written(pushed)
}

/// Writes where bytes stand, and how many they are.
fn push_bytes(came: &mut String, bytes: Bytes) -> Result<(), AllocError> {
    let Bytes { addr, size } = bytes;
    write!(came, "{addr:#x}+{size}")
}

/// The accesses of tickets of a program with places: `PLACES PROCESSES`. Where memory is refused, they are asked for
/// once more: a later try succeeds.
pub fn tickets(alloc: Global, start: &str, script: &str) -> Result<String, Fault> {
    match asked(alloc, start, script) {
        Err(Fault::OutOfMemory) => asked(alloc, start, script),
        came => came,
    }
}

/// The accesses of tickets.
fn asked(alloc: Global, start: &str, script: &str) -> Result<String, Fault> {
    let (places, process) = cut(start, ' ')?;
    let places = places_of(alloc, places)?;
    let program = program_of(alloc, process)?;
    found(alloc, &program, places.as_slice(), script)
}

/// The accesses of tickets of a program with places.
fn found(alloc: Global, program: &Program, places: &[Place], script: &str) -> Result<String, Fault>
    requires { KeepsLimits (program_of program.now) }
{
    match sites_of(alloc, program, places) {
        Ok(sites) => accessed(alloc, &sites, script),
        Err(RunError::BadPlace) => Ok(String::from_str(alloc, "BadPlace")?),
        Err(_) => Err(Fault::OutOfMemory),
    }
}

/// The accesses of the tickets of a script.
fn accessed(alloc: Global, sites: &Sites, script: &str) -> Result<String, Fault> {
    let mut came = String::new(alloc);
    for word in script.split(' ') {
        let Asked::Question(ticket) = begin_word(&mut came, word)? else {
            return Err(Fault::NoRow);
        };
        let ticket = u32::try_from(number(ticket.name)?)
            .ok()
            .ok_or(Fault::NoRow)?;
        push_access(&mut came, sites.get(ticket))?;
    }
    Ok(came)
}

/// Writes an access, if there is one.
fn push_access(came: &mut String, access: Option<&Access>) -> Result<(), AllocError> {
    let Some(access) = access else {
        return came.push_str("none");
    };
    let (addr, size, kind) = (access.addr(), access.size(), access.kind());
    write!(came, "{addr:#x}+{size},{kind:?},")?;
    push_optional(came, access.mask())
}

/// The sites of a process, each with its bytes, its kind, its mask and how often it begins at most.
pub fn sites(alloc: Global, process: &str) -> Result<String, Fault> {
    let program = program_of(alloc, process)?;
    sites_in(alloc, &program)
}

/// The sites of the process of a program.
fn sites_in(alloc: Global, program: &Program) -> Result<String, Fault> {
    let bytes = layout_of(alloc, program)?.all_bytes(alloc)?;
    let sites = text_sites(alloc, body_of(program)?, bytes.as_slice())?;
    let mut came = String::new(alloc);
    for site in sites.as_slice() {
        push_site(&mut came, site)?;
    }
    Ok(came)
}

/// Writes a site.
fn push_site(came: &mut String, site: &Site) -> Result<(), AllocError> {
    push_blank(came)?;
    push_bytes(came, site.bytes)?;
    let (kind, times) = (site.kind, site.times);
    write!(came, ",{kind:?},{times},")?;
    push_optional(came, site.mask)
}
