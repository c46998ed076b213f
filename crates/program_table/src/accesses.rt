//! The lines of a row: where its access stands and what it is, and what a check of it goes by.

ghost use Rattle.std.specs.Prelude.{◌≡◌, ◌≤◌, ◌<◌, ◌++◌, IfOk, OnOk, map};
ghost use Rattle.std.specs.List.{flat_map};
ghost use Rattle.program_table.specs.Accesses as spec;
ghost use Rattle.program_table.specs.Accesses.{HasSlots};
ghost use Rattle.program_table.specs.Rows.{rows_of, rows_of_task};
ghost use Rattle.program_table.specs.Words.{AreWords};
ghost use Rattle.litmus_syntax.specs.Limits.{KeepsLimits};
ghost use Rattle.litmus_syntax.specs.Views.{program_of};

use crate::hex::hexed;
use crate::rows::{Listed, Made, SiteRow, Spot, row_of, site_count};
use crate::text_pieces::{joined, number, padded};
use access_types::{Access, words};
use litmus_syntax::Program;
use slot_table::index_order::ProbeIndex;
use slot_table::page_slot;
use std::alloc::{AllocError, Global};

/// One of the two tables that have a line a row.
#[derive(Clone, Copy)]
pub(crate) enum Table {
    /// Where accesses stand and what they are.
    Places,
    /// What checks of them go by, where there are so many page slots.
    Checks { slots: usize },
}

/// What a row is called: its task and its site.
#[tactic(auto, unfolding(crate::specs::Accesses::name))]
fn name(alloc: Global, row: &SiteRow) -> Result<Vec<u8>, AllocError>
    ensures { IfOk result (λ text. text.items ≡ spec.name row.now) }
{
    let task = number(alloc, row.task)?;
    let site = number(alloc, row.site)?;
    let text = joined(alloc, &[b"P", &task, b" site ", &site])?;
    padded(alloc, &text, 15)
}

/// A line and a column.
fn spot_text(alloc: Global, spot: Spot) -> Result<Vec<u8>, AllocError>
    ensures { IfOk result (λ text. text.items ≡ spec.spot_text spot) }
{
    match spot {
        Spot::Unknown => Vec::from_slice(alloc, b"-"),
        Spot::At { line, column } => {
            let line = number(alloc, line)?;
            let column = number(alloc, column)?;
            joined(alloc, &[&line, b":", &column])
        }
    }
}

/// The line and the column of a row.
#[tactic(auto, unfolding(crate::specs::Accesses::place))]
fn place(alloc: Global, row: &SiteRow) -> Result<Vec<u8>, AllocError>
    ensures { IfOk result (λ text. text.items ≡ spec.place row.now) }
{
    let text = spot_text(alloc, row.spot)?;
    padded(alloc, &text, 13)
}

/// A plain write that counts as marked, unless `--strict` is set.
#[tactic(auto, unfolding(crate::specs::Accesses::is_atomic_write))]
fn is_atomic_write(access: &Access) -> bool
    ensures { result ≡ spec.is_atomic_write access.now }
{
    let kind = access.kind();
    let size = access.size();
    let is_write = kind.write() && !kind.is_assertion() && !kind.is_compound();
    is_write && size > 0 && size <= 8 && access.addr() % size == 0
}

/// What makes an access count as marked, whatever was called before it.
#[tactic(auto, unfolding(crate::specs::Accesses::mark_words))]
fn mark_words(access: &Access) -> &'static str
    ensures { result.now ≡ spec.mark_words access.now }
{
    if access.kind().is_marked() {
        return "its form";
    }
    if is_atomic_write(access) {
        return "an aligned plain write, but for --strict";
    }
    "nothing"
}

/// What an access does.
fn deed(made: Made) -> &'static str
    ensures { result.now ≡ spec.deed made }
{
    match made {
        Made::First { access, .. } => words(&access.kind()),
        Made::Never => "never made",
    }
}

/// By what it counts as marked.
fn mark(made: Made) -> &'static str
    ensures { result.now ≡ spec.mark made }
{
    match made {
        Made::First { access, .. } => mark_words(&access),
        Made::Never => "",
    }
}

/// The line that says where an access stands and what it is.
#[tactic(auto, unfolding(crate::specs::Accesses::place_line))]
fn place_line(alloc: Global, row: &SiteRow) -> Result<Vec<u8>, AllocError>
    ensures { IfOk result (λ text. text.items ≡ spec.place_line row.now) }
{
    let name = name(alloc, row)?;
    let place = place(alloc, row)?;
    let deed = padded(alloc, deed(row.made).as_bytes(), 21)?;
    joined(
        alloc,
        &[&name, &place, &deed, mark(row.made).as_bytes(), b"\n"],
    )
}

/// The watch word of an access, or that it has none.
fn word_text(alloc: Global, word: Option<u64>) -> Result<Vec<u8>, AllocError>
    ensures { IfOk result (λ text. text.items ≡ spec.word_text word) }
{
    match word {
        Some(word) => hexed(alloc, word),
        None => Vec::from_slice(alloc, b"none"),
    }
}

/// The three indices at which an access looks for watchpoints, in their order.
#[tactic(auto, unfolding(crate::specs::Accesses::indices))]
fn indices(alloc: Global, slots: usize, access: &Access) -> Result<Vec<u8>, AllocError>
    requires some { 0 < slots }
    requires few { slots ≤ 1024 }
    ensures { IfOk result (λ text. text.items ≡ spec.indices slots access.now) }
{
    let slot = page_slot(access.addr(), slots);
    let first = number(alloc, ProbeIndex::First.of_look_up(slot))?;
    let second = number(alloc, ProbeIndex::Second.of_look_up(slot))?;
    let third = number(alloc, ProbeIndex::Third.of_look_up(slot))?;
    joined(alloc, &[&first, b" ", &second, b" ", &third])
}

/// What a check of an access goes by: its bytes, its watch word and its indices.
#[tactic(auto, unfolding(crate::specs::Accesses::check_text))]
fn check_text(
    alloc: Global,
    slots: usize,
    access: &Access,
    word: Option<u64>,
) -> Result<Vec<u8>, AllocError>
    requires some { 0 < slots }
    requires few { slots ≤ 1024 }
    ensures { IfOk result (λ text. text.items ≡ spec.check_text slots access.now word) }
{
    let addr = hexed(alloc, access.addr())?;
    let addr = padded(alloc, &addr, 20)?;
    let size = number(alloc, access.size() as usize)?;
    let size = padded(alloc, &size, 9)?;
    let word = word_text(alloc, word)?;
    let word = padded(alloc, &word, 20)?;
    let slots = indices(alloc, slots, access)?;
    joined(alloc, &[&addr, &size, &word, &slots])
}

/// The line that says what a check of an access goes by.
#[tactic(auto, unfolding(crate::specs::Accesses::check_line))]
fn check_line(alloc: Global, slots: usize, row: &SiteRow) -> Result<Vec<u8>, AllocError>
    requires some { 0 < slots }
    requires few { slots ≤ 1024 }
    ensures { IfOk result (λ text. text.items ≡ spec.check_line slots row.now) }
{
    let Made::First { access, word } = row.made else {
        return Ok(Vec::new(alloc));
    };
    let name = name(alloc, row)?;
    let check = check_text(alloc, slots, &access, word)?;
    joined(alloc, &[&name, &check, b"\n"])
}

/// The line of a row in a table.
#[tactic(auto, unfolding(crate::specs::Accesses::line_of))]
fn line_of(alloc: Global, table: Table, row: &SiteRow) -> Result<Vec<u8>, AllocError>
    requires { HasSlots table }
    ensures { IfOk result (λ text. text.items ≡ spec.line_of table row.now) }
{
    match table {
        Table::Places => place_line(alloc, row),
        Table::Checks { slots } => check_line(alloc, slots, row),
    }
}

/// Adds the lines of the sites of a task in a table, which are so many.
fn add_task(
    lines: &mut Vec<u8>,
    alloc: Global,
    table: Table,
    listed: Listed<'_>,
    task: usize,
    count: usize,
) -> Result<(), AllocError>
    requires slots { HasSlots table }
    requires task { task < 16 }
    requires sites { count ≤ 256 }
    ensures { (words : AreWords listed.entry.layout) → OnOk result (lines.new.items ≡ lines.old.items ++ flat_map (spec.line_of table)
        (rows_of_task listed.entry.text.now (map (λ own. own.items) listed.entry.places.now) words.of listed.entry.sites.now task count)) }
{
    for site in 0..count {
        let row = row_of(listed, task, site);
        let line = line_of(alloc, table, &row)?;
        lines.extend_from_slice(&line)?;
    }
    Ok(())
}

/// The lines of a table of a program, task by task and site by site.
pub(crate) fn table_lines(
    alloc: Global,
    table: Table,
    program: &Program,
    listed: Listed<'_>,
) -> Result<Vec<u8>, AllocError>
    requires slots { HasSlots table }
    requires limits { KeepsLimits (program_of program.now) }
    ensures { (words : AreWords listed.entry.layout) → IfOk result (λ lines. lines.items ≡ flat_map (spec.line_of table)
        (rows_of listed.entry.text.now (map (λ own. own.items) listed.entry.places.now) words.of listed.entry.sites.now (program_of program.now))) }
{
    let mut lines = Vec::new(alloc);
    for (number, task) in program.tasks.as_slice().iter().enumerate() {
        let count = site_count(alloc, task)?;
        add_task(&mut lines, alloc, table, listed, number, count)?;
    }
    Ok(lines)
}
