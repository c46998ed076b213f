//! The lines on what was searched and on how many pairs have which verdict.

ghost use Rattle.std.specs.Prelude.{◌≡◌, IfOk};
ghost use Rattle.race_output.specs.Counts as spec;
ghost use Rattle.race_output.specs.Words.{count_said};

use crate::words::{Said, count_said};
use output_pieces::TextBuilder;
use program_table::text_pieces::joined;
use race_verdicts::RacesFound;
use races::PairFound;
use search_text::Stopped;
use std::alloc::{AllocError, Global};

/// The line that says after how much a walk was stopped.
fn stopped_after(alloc: Global, count: u64, unit: &str, walk: &str) -> Result<Vec<u8>, AllocError>
    ensures { IfOk result (λ text. text.items ≡ spec.stopped_after count unit.now walk.now) }
{
    TextBuilder::new(alloc)
        .piece(b"stopped after ")
        .number(count as usize)
        .words(unit)
        .words(walk)
        .piece(b": others remain\n")
        .build()
}

/// The line that says that a walk was stopped, where it was: after so many states, or after so many seconds.
#[tactic(auto, unfolding(crate::specs::Counts::stopped_line))]
fn stopped_line(
    alloc: Global,
    stopped: Stopped,
    states: u64,
    walk: &str,
) -> Result<Vec<u8>, AllocError>
    ensures { IfOk result (λ text. text.items ≡ spec.stopped_line stopped states walk.now) }
{
    match stopped {
        Stopped::No => Ok(Vec::new(alloc)),
        Stopped::AtLimit => stopped_after(alloc, states, " states ", walk),
        Stopped::AfterSeconds(seconds) => stopped_after(alloc, seconds, " seconds ", walk),
    }
}

/// A count, and what is counted.
pub(crate) fn counted(alloc: Global, count: usize, words: &str) -> Result<Vec<u8>, AllocError>
    ensures { IfOk result (λ text. text.items ≡ spec.counted count words.now) }
{
    TextBuilder::new(alloc).number(count).words(words).build()
}

/// The line on how much was searched.
fn searched_line(alloc: Global, found: &RacesFound) -> Result<Vec<u8>, AllocError>
    ensures { IfOk result (λ text. text.items ≡ spec.searched_line found.now) }
{
    let unwatched = counted(
        alloc,
        found.unwatched_states as usize,
        " states without watchpoints, ",
    );
    let schedules = counted(alloc, found.schedules as usize, " schedules, and ");
    let states = counted(alloc, found.states as usize, " states with watchpoints\n");
    TextBuilder::new(alloc)
        .piece(b"searched ")
        .text(unwatched)
        .text(schedules)
        .text(states)
        .build()
}

/// The lines on what was searched.
pub(crate) fn search_lines(alloc: Global, found: &RacesFound) -> Result<Vec<u8>, AllocError>
    ensures { IfOk result (λ text. text.items ≡ spec.search_lines found.now) }
{
    let bare = stopped_line(
        alloc,
        found.unwatched_stopped,
        found.unwatched_states,
        "without watchpoints",
    );
    let all = stopped_line(alloc, found.stopped, found.states, "with watchpoints");
    TextBuilder::new(alloc)
        .text(bare)
        .text(all)
        .text(searched_line(alloc, found))
        .build()
}

/// How many pairs have a verdict that not all searches come to: nothing where none has.
#[tactic(auto, unfolding(crate::specs::Counts::count_if_some))]
fn count_if_some(alloc: Global, count: usize, words: &str) -> Result<Vec<u8>, AllocError>
    ensures { IfOk result (λ text. text.items ≡ spec.count_if_some count words.now) }
{
    if count == 0 {
        return Ok(Vec::new(alloc));
    }
    let counted = counted(alloc, count, words)?;
    joined(alloc, &[b", ", &counted])
}

/// How many pairs have such a verdict.
fn said_text(
    alloc: Global,
    pairs: &[PairFound],
    wanted: Said,
    words: &str,
) -> Result<Vec<u8>, AllocError>
    ensures { IfOk result (λ text. text.items ≡ spec.counted (count_said pairs.now wanted) words.now) }
{
    counted(alloc, count_said(pairs, wanted), words)
}

/// How many pairs have such a verdict: nothing where none has.
fn some_said(
    alloc: Global,
    pairs: &[PairFound],
    wanted: Said,
    words: &str,
) -> Result<Vec<u8>, AllocError>
    ensures { IfOk result (λ text. text.items ≡ spec.count_if_some (count_said pairs.now wanted) words.now) }
{
    count_if_some(alloc, count_said(pairs, wanted), words)
}

/// How many pairs have verdicts that each search may come to.
fn settled_counts(alloc: Global, pairs: &[PairFound]) -> Result<Vec<u8>, AllocError>
    ensures { IfOk result (λ text. text.items ≡ spec.settled_counts pairs.now) }
{
    TextBuilder::new(alloc)
        .text(counted(alloc, pairs.len(), " pairs conflict: "))
        .text(said_text(alloc, pairs, Said::Reported, " reported, "))
        .text(said_text(alloc, pairs, Said::Missed, " missed, "))
        .text(said_text(alloc, pairs, Said::NoRace, " no race, "))
        .text(said_text(alloc, pairs, Said::Apart, " apart"))
        .build()
}

/// The line on how many pairs have which verdict.
pub(crate) fn pairs_line(alloc: Global, pairs: &[PairFound]) -> Result<Vec<u8>, AllocError>
    ensures { IfOk result (λ text. text.items ≡ spec.pairs_line pairs.now) }
{
    TextBuilder::new(alloc)
        .text(settled_counts(alloc, pairs))
        .text(some_said(alloc, pairs, Said::Race, " race"))
        .text(some_said(alloc, pairs, Said::NotSettled, " not settled"))
        .piece(b"\n")
        .build()
}
