//! A pair of sites, with the reasons for its verdict, a schedule that shows it, and the picture of that.

ghost use Rattle.std.specs.Prelude.{◌≡◌, ◌++◌, IfOk, OnOk, map, option_map};
ghost use Rattle.std.specs.List.{flat_map};
ghost use Rattle.race_output.specs.Reasons.{texts};
ghost use Rattle.race_page.specs.Pairs as spec;

use crate::escape::escaped;
use crate::sites::site_row;
use crate::values::PairTold;
use crate::verdicts::said_text;
use output_pieces::values::schedule_bytes;
use output_pieces::{TextBuilder, add_text};
use race_output::reasons::reasons_of;
use race_output::words::said_of;
use races::Verdict;
use search_text::Entry;
use std::alloc::{AllocError, Global};

/// A reason.
fn reason_text(alloc: Global, reason: &[u8]) -> Result<Vec<u8>, AllocError>
    ensures { IfOk result (λ text. text.items ≡ spec.reason_text reason.now) }
{
    TextBuilder::new(alloc)
        .piece(b"<p>")
        .text(escaped(alloc, reason))
        .piece(b"</p>\n")
        .build()
}

/// Reasons.
fn reasons_text(alloc: Global, reasons: &[Vec<u8>]) -> Result<Vec<u8>, AllocError>
    ensures { IfOk result (λ text. text.items ≡ flat_map spec.reason_text (texts reasons.now)) }
{
    let mut text = Vec::new(alloc);
    for reason in reasons {
        add_text(&mut text, reason_text(alloc, reason))?;
    }
    Ok(text)
}

/// The reasons for the verdict on a pair.
fn why_text(alloc: Global, one: &PairTold) -> Result<Vec<u8>, AllocError>
    ensures { IfOk result (λ text. text.items ≡ spec.why_text one.now) }
{
    let reasons = reasons_of(alloc, one.first, one.second, one.verdict)?;
    let text = reasons_text(alloc, &reasons)?;
    Ok(text)
}

/// What a schedule shows: a report of the two, or that they are at once.
fn by_words(verdict: Verdict) -> &'static str
    ensures { result.now ≡ spec.by_words verdict }
{
    match verdict {
        Verdict::Reported => "reported by",
        _ => "at once by",
    }
}

/// A schedule, and what it shows.
fn by_schedule(alloc: Global, verdict: Verdict, entries: &[Entry]) -> Result<Vec<u8>, AllocError>
    ensures { IfOk result (λ text. text.items ≡ spec.by_schedule verdict entries.now) }
{
    TextBuilder::new(alloc)
        .piece(b"<p>")
        .words(by_words(verdict))
        .piece(b" <code>step --schedule ")
        .text(schedule_bytes(alloc, entries))
        .piece(b"</code></p>\n")
        .build()
}

/// The schedule of a pair, if there is one.
fn by_text(
    alloc: Global,
    verdict: Verdict,
    schedule: &Option<Vec<Entry>>,
) -> Result<Vec<u8>, AllocError>
    ensures { IfOk result (λ text. text.items
        ≡ spec.by_text verdict (option_map (λ entries. entries.items) schedule.now)) }
{
    match schedule {
        Some(entries) => by_schedule(alloc, verdict, entries.as_slice()),
        None => Ok(Vec::new(alloc)),
    }
}

/// A picture, if there is one. It is written as it stands.
fn picture_text(alloc: Global, picture: &Option<Vec<u8>>) -> Result<Vec<u8>, AllocError>
    ensures { IfOk result (λ text. text.items ≡ spec.picture_text (option_map (λ svg. svg.items) picture.now)) }
{
    let Some(svg) = picture else {
        return Ok(Vec::new(alloc));
    };
    TextBuilder::new(alloc)
        .piece(b"<figure>\n")
        .piece(svg)
        .piece(b"</figure>\n")
        .build()
}

/// The verdict on a pair, and its variable.
fn pair_heading(alloc: Global, one: &PairTold) -> Result<Vec<u8>, AllocError>
    ensures { IfOk result (λ text. text.items ≡ spec.pair_heading one.now) }
{
    TextBuilder::new(alloc)
        .piece(b"<h3>")
        .text(said_text(alloc, said_of(one.verdict)))
        .piece(b" <code>")
        .text(escaped(alloc, &one.variable))
        .piece(b"</code></h3>\n")
        .build()
}

/// The sites of a pair of the file of this number.
fn pair_sites(
    alloc: Global,
    file: usize,
    text: &[u8],
    one: &PairTold,
) -> Result<Vec<u8>, AllocError>
    ensures { IfOk result (λ found. found.items ≡ spec.pair_sites file text.now one.now) }
{
    TextBuilder::new(alloc)
        .piece(b"<table>\n")
        .text(site_row(alloc, file, text, one.first))
        .text(site_row(alloc, file, text, one.second))
        .piece(b"</table>\n")
        .build()
}

/// A pair of the file of this number.
fn pair_text(alloc: Global, file: usize, text: &[u8], one: &PairTold) -> Result<Vec<u8>, AllocError>
    ensures { IfOk result (λ found. found.items ≡ spec.pair_text file text.now one.now) }
{
    TextBuilder::new(alloc)
        .piece(b"<article>\n")
        .text(pair_heading(alloc, one))
        .text(pair_sites(alloc, file, text, one))
        .text(why_text(alloc, one))
        .text(by_text(alloc, one.verdict, &one.schedule))
        .text(picture_text(alloc, &one.picture))
        .piece(b"</article>\n")
        .build()
}

/// Pairs of the file of this number.
pub(crate) fn pairs_text(
    alloc: Global,
    file: usize,
    text: &[u8],
    pairs: &[PairTold],
) -> Result<Vec<u8>, AllocError>
    ensures { IfOk result (λ found. found.items ≡ flat_map (spec.pair_text file text.now) pairs.now) }
{
    let mut found = Vec::new(alloc);
    for one in pairs {
        add_text(&mut found, pair_text(alloc, file, text, one))?;
    }
    Ok(found)
}
