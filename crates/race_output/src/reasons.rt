//! The reasons for verdicts.

ghost use Rattle.std.specs.Prelude.{◌≡◌, IfOk, OnOk};
ghost use Rattle.race_output.specs.Reasons as spec;
ghost use Rattle.race_output.specs.Reasons.{AddsIf, texts};

use crate::sites::SiteTold;
use program_table::text_pieces::{joined, number};
use races::{HowMarked, MissedWhy, NoRaceWhy, Verdict};
use std::alloc::{AllocError, Global};

/// How an access counts as marked.
pub fn how_words(how: HowMarked) -> &'static str
    ensures { result.now ≡ spec.how_words how }
{
    match how {
        HowMarked::Form => "by form",
        HowMarked::AlignedWrite => "as an aligned plain write",
        HowMarked::RegionOrNext => "by a region or kcsan_atomic_next()",
    }
}

/// That both accesses count as marked, and how each does.
#[tactic(auto, unfolding(crate::specs::Reasons::both_marked))]
fn both_marked(alloc: Global, first: SiteTold, second: SiteTold) -> Result<Vec<u8>, AllocError>
    ensures { IfOk result (λ text. text.items ≡ spec.both_marked first second) }
{
    let one = number(alloc, first.task)?;
    let other = number(alloc, second.task)?;
    joined(
        alloc,
        &[
            b"both marked (P",
            &one,
            b" ",
            how_words(first.how).as_bytes(),
            b", P",
            &other,
            b" ",
            how_words(second.how).as_bytes(),
            b")",
        ],
    )
}

/// Adds a reason, where it holds.
fn add_if(
    reasons: &mut Vec<Vec<u8>>,
    alloc: Global,
    holds: bool,
    reason: &str,
) -> Result<(), AllocError>
    ensures { OnOk result (AddsIf holds reason.now reasons.old.items reasons.new.items) }
{
    if holds {
        reasons.push(Vec::from_slice(alloc, reason.as_bytes())?)?;
    }
    Ok(())
}

/// Why a race is missed.
fn missed_reasons(alloc: Global, why: MissedWhy) -> Result<Vec<Vec<u8>>, AllocError>
    ensures { IfOk result (λ reasons. texts reasons.items ≡ spec.missed_reasons why) }
{
    let mut reasons = Vec::new(alloc);
    add_if(&mut reasons, alloc, why.same_value, "same value")?;
    add_if(&mut reasons, alloc, why.masked, "masked")?;
    add_if(&mut reasons, alloc, why.origin, "origin")?;
    add_if(&mut reasons, alloc, why.never_taken, "never taken")?;
    add_if(&mut reasons, alloc, why.never_armed, "never armed")?;
    Ok(reasons)
}

/// Why accesses that are in progress at one moment are no race.
fn no_race_reasons(
    alloc: Global,
    first: SiteTold,
    second: SiteTold,
    why: NoRaceWhy,
) -> Result<Vec<Vec<u8>>, AllocError>
    ensures { IfOk result (λ reasons. texts reasons.items ≡ spec.no_race_reasons first second why) }
{
    let mut reasons = Vec::new(alloc);
    if why.both_marked {
        reasons.push(both_marked(alloc, first, second)?)?;
    }
    add_if(&mut reasons, alloc, why.silenced, "silenced")?;
    add_if(&mut reasons, alloc, why.other_bits, "other bits")?;
    Ok(reasons)
}

/// The reasons for the verdict on accesses at these sites.
pub fn reasons_of(
    alloc: Global,
    first: SiteTold,
    second: SiteTold,
    verdict: Verdict,
) -> Result<Vec<Vec<u8>>, AllocError>
    ensures { IfOk result (λ reasons. texts reasons.items ≡ spec.reasons_of first second verdict) }
{
    match verdict {
        Verdict::Missed(why) | Verdict::Race(why) => missed_reasons(alloc, why),
        Verdict::NoRace(why) => no_race_reasons(alloc, first, second, why),
        Verdict::Reported | Verdict::Apart | Verdict::NotSettled => Ok(Vec::new(alloc)),
    }
}

/// Texts, with commas between them.
fn separated(alloc: Global, all: &[Vec<u8>]) -> Result<Vec<u8>, AllocError>
    ensures { IfOk result (λ text. text.items ≡ spec.separated (texts all.now)) }
{
    let Some((first, more)) = all.split_first() else {
        return Ok(Vec::new(alloc));
    };
    let mut text = Vec::from_slice(alloc, first)?;
    for one in more {
        text.extend_from_slice(b", ")?;
        text.extend_from_slice(one)?;
    }
    Ok(text)
}

/// The reasons as they are told: of a race that was not reported before a walk was stopped there may be none so far.
pub(crate) fn reasons_text(
    alloc: Global,
    first: SiteTold,
    second: SiteTold,
    verdict: Verdict,
) -> Result<Vec<u8>, AllocError>
    ensures { IfOk result (λ text. text.items ≡ spec.reasons_text first second verdict) }
{
    let reasons = reasons_of(alloc, first, second, verdict)?;
    match verdict {
        Verdict::Race(_) if reasons.is_empty() => Vec::from_slice(alloc, b"not reported so far"),
        _ => separated(alloc, &reasons),
    }
}
