//! What is written of a pair.

ghost use Rattle.std.specs.Prelude.{◌≡◌, ◌≤◌, IfOk, IfSome, length, map, option_map};
ghost use Rattle.executions.specs.execution.Run.{Run};
ghost use Rattle.race_output.specs.Blocks as spec;
ghost use Rattle.race_output.specs.Sites.{AreSourcesOf};
ghost use Rattle.search_text.specs.Schedules.{schedule_text};

use crate::reasons::reasons_text;
use crate::sites::{SiteTold, Sources, told_of};
use crate::words::verdict_words;
use output_pieces::spots::{spot_text, statement_text};
use output_pieces::values::schedule_bytes;
use output_pieces::variables::label;
use program_table::text_pieces::{blanks, joined, number, padded};
use races::{PairFound, Verdict};
use search_text::Entry;
use std::alloc::{AllocError, Global};

/// How many columns a line has, but for one with a schedule.
const COLUMNS: usize = 100;

/// What a site is called, and where it stands in the text.
#[tactic(auto, unfolding(crate::specs::Blocks::site_text))]
fn site_text(alloc: Global, text: &[u8], site: SiteTold) -> Result<Vec<u8>, AllocError>
    requires { IfSome site.at (λ at. at ≤ length text.now) }
    ensures { IfOk result (λ found. found.items ≡ spec.site_text text.now site) }
{
    let task = number(alloc, site.task)?;
    let own = number(alloc, site.site)?;
    let spot = spot_text(alloc, text, site.at)?;
    joined(alloc, &[b"P", &task, b" site ", &own, b"  ", &spot])
}

/// How many columns are left behind so many, and those of two blanks.
fn room_behind(columns: usize, more: usize) -> usize
    ensures exact { result ≡ spec.room_behind columns more }
    ensures some { 2 ≤ result }
{
    (COLUMNS - 2)
        .saturating_sub(columns)
        .saturating_sub(more)
        .max(2)
}

/// The line of a site behind what stands before it: what the site is called, where it stands, and what is written
/// there.
#[tactic(auto, unfolding(crate::specs::Blocks::site_line))]
fn site_line(
    alloc: Global,
    before: &[u8],
    text: &[u8],
    site: SiteTold,
) -> Result<Vec<u8>, AllocError>
    requires { IfSome site.at (λ at. at ≤ length text.now) }
    ensures { IfOk result (λ found. found.items ≡ spec.site_line before.now text.now site) }
{
    let called = site_text(alloc, text, site)?;
    let room = room_behind(before.len(), called.len());
    let statement = statement_text(alloc, text, site.at, room)?;
    joined(alloc, &[before, &called, &statement, b"\n"])
}

/// What is told of the schedule of a pair, if it has one.
fn by_text(
    alloc: Global,
    verdict: Verdict,
    schedule: &Option<Vec<Entry>>,
) -> Result<Vec<u8>, AllocError>
    ensures { IfOk result (λ text. text.items
        ≡ spec.by_text verdict (option_map (λ entries. entries.items) schedule.now)) }
{
    let Some(entries) = schedule else {
        return Ok(Vec::new(alloc));
    };
    let entries = schedule_bytes(alloc, entries.as_slice())?;
    match verdict {
        Verdict::Reported => joined(alloc, &[b"step --schedule ", &entries]),
        _ => joined(alloc, &[b"at once by step --schedule ", &entries]),
    }
}

/// The line behind those of the sites, behind so many blanks: the reasons, and the schedule. None where there is
/// neither.
#[tactic(auto, unfolding(crate::specs::Blocks::last_line))]
fn last_line(alloc: Global, indent: usize, reasons: &[u8], by: &[u8]) -> Result<Vec<u8>, AllocError>
    ensures { IfOk result (λ text. text.items ≡ spec.last_line indent reasons.now by.now) }
{
    let margin = blanks(alloc, indent)?;
    match (reasons.is_empty(), by.is_empty()) {
        (true, true) => Ok(Vec::new(alloc)),
        (true, false) => joined(alloc, &[&margin, by, b"\n"]),
        (false, true) => joined(alloc, &[&margin, reasons, b"\n"]),
        (false, false) => joined(alloc, &[&margin, reasons, b"; ", by, b"\n"]),
    }
}

/// What is written of accesses at these sites, under what stands before the first.
#[tactic(auto, unfolding(crate::specs::Blocks::lines_of))]
fn lines_of(
    alloc: Global,
    before: &[u8],
    text: &[u8],
    first: SiteTold,
    second: SiteTold,
    one: &PairFound,
) -> Result<Vec<u8>, AllocError>
    requires first { IfSome first.at (λ at. at ≤ length text.now) }
    requires second { IfSome second.at (λ at. at ≤ length text.now) }
    ensures { IfOk result (λ lines. lines.items ≡ spec.lines_of before.now text.now first second one.now.verdict
        (option_map (λ entries. entries.items) one.now.schedule)) }
{
    let top = site_line(alloc, before, text, first)?;
    let margin = blanks(alloc, before.len())?;
    let middle = site_line(alloc, &margin, text, second)?;
    let reasons = reasons_text(alloc, first, second, one.verdict)?;
    let by = by_text(alloc, one.verdict, &one.schedule)?;
    let last = last_line(alloc, before.len(), &reasons, &by)?;
    joined(alloc, &[&top, &middle, &last])
}

/// What stands before the first site of a pair: the verdict and the variable.
#[tactic(auto, unfolding(crate::specs::Blocks::before_of))]
fn before_of(
    alloc: Global,
    sources: Sources<'_>,
    first: SiteTold,
    second: SiteTold,
    verdict: Verdict,
) -> Result<Vec<u8>, AllocError>
    ensures { IfOk result (λ text. text.items ≡ spec.before_of sources.entry.variables.now first second verdict) }
{
    let words = padded(alloc, verdict_words(verdict).as_bytes(), 13)?;
    let label = label(alloc, sources.variables, first.variable, second.variable)?;
    joined(alloc, &[&words, &label, b"  "])
}

/// What is written of a pair.
pub(crate) fn pair_text(
    alloc: Global,
    sources: Sources<'_>,
    one: &PairFound,
) -> Result<Vec<u8>, AllocError>
    ensures { (run : Run) → AreSourcesOf run sources.entry.sites.now sources.entry.variables.now
        sources.entry.layout.now sources.entry.plain_writes_atomic
        → IfOk result (λ text. text.items ≡ spec.pair_text run sources.entry.text.now
        (map (λ own. own.items) sources.entry.places.now) one.now) }
{
    let first = told_of(sources, one.pair.first);
    let second = told_of(sources, one.pair.second);
    let before = before_of(alloc, sources, first, second, one.verdict)?;
    let lines = lines_of(alloc, &before, sources.text, first, second, one)?;
    Ok(lines)
}
