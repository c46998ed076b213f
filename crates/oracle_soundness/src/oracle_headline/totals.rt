//! How often each thing came of the checks of a list, and whether these totals agree.

ghost use Rattle.std.specs.Prelude.{◌≡◌, ◌+◌, ◌≤◌, IsTrue, Some, count_by};
ghost use Rattle.oracle_soundness.specs.oracle_headline.Kinds.{is_made};
ghost use Rattle.oracle_soundness.specs.oracle_headline.Tried as spec;
ghost use Rattle.oracle_soundness.specs.oracle_headline.Tried.{came_so, made_so};
ghost use Rattle.task_log.specs.Counters as counted;

use crate::oracle_headline::told::{Came, ToldExecution};
use setup_access::Outcome;
use slot_table::{Answer, Record, Step};

/// What the totals count of records.
#[derive(Clone, Copy)]
pub enum Made {
    /// A watchpoint is set up.
    Arming,
    /// One ends that nobody hit.
    Quiet,
    /// One ends that an access hit.
    Taken,
    /// One that was found is tried.
    Try,
    /// The try comes too late.
    Lost,
}

/// The record is of the kind.
fn is_made(made: &Record, kind: Made) -> bool
    ensures { result ≡ is_made kind made.now.step made.now.answer }
{
    let so = (made.step, made.answer);
    match kind {
        Made::Arming => matches!(so, (Step::Insert(..), Answer::Flag(true))),
        Made::Quiet => matches!(so, (Step::Consume(_), Answer::Flag(true))),
        Made::Taken => matches!(so, (Step::Consume(_), Answer::Flag(false))),
        Made::Try => matches!(made.step, Step::TryConsume(..)),
        Made::Lost => matches!(so, (Step::TryConsume(..), Answer::Flag(false))),
    }
}

/// How many records are of the kind.
#[tactic(auto, using(std::proofs::lemmas::List::Sums::count_by_more_yes, std::proofs::lemmas::List::Sums::count_by_more_no))]
fn count_made(records: &[Record], kind: Made) -> usize
    ensures { result ≡ made_so (is_made kind) records.now }
{
    let mut count = 0;
    for made in records {
        if is_made(made, kind) {
            count += 1;
        }
    }
    count
}

/// What came is a report of two sides or a named discard.
pub(crate) fn is_answer(came: &Came) -> bool
    ensures { result ≡ spec.is_answer came.now.outcome }
{
    matches!(came.outcome, Outcome::Report { .. } | Outcome::Dropped(_))
}

/// How many outcomes are a report of two sides or a named discard.
#[tactic(auto, using(std::proofs::lemmas::List::Sums::count_by_more_yes, std::proofs::lemmas::List::Sums::count_by_more_no))]
fn count_answered(outcomes: &[Came]) -> usize
    ensures { result ≡ count_by (λ came. spec.is_answer came.outcome) outcomes.now }
{
    let mut count = 0;
    for came in outcomes {
        if is_answer(came) {
            count += 1;
        }
    }
    count
}

/// How many hits are reported or dropped, counted by what came of each.
fn answered(outcomes: &[Came]) -> usize
    ensures { result
        ≡ came_so counted.is_two_sided outcomes.now + came_so counted.is_encoding outcomes.now
        + came_so counted.is_same outcomes.now + came_so counted.is_masked outcomes.now }
{
    count_answered(outcomes)
}

/// A change of unknown origin is reported.
fn is_unknown(came: &Came) -> bool
    ensures { result ≡ counted.is_unknown (Some came.now.outcome) }
{
    matches!(came.outcome, Outcome::Unknown { .. })
}

/// How many changes of unknown origin are reported.
#[tactic(auto, using(std::proofs::lemmas::List::Sums::count_by_more_yes, std::proofs::lemmas::List::Sums::count_by_more_no))]
fn count_unknown(outcomes: &[Came]) -> usize
    ensures { result ≡ came_so counted.is_unknown outcomes.now }
{
    let mut count = 0;
    for came in outcomes {
        if is_unknown(came) {
            count += 1;
        }
    }
    count
}

/// The totals agree.
pub fn law_totals_agree(told: &ToldExecution) -> bool
    ensures { IsTrue result → spec.Totals told.now.records.items told.now.outcomes.items }
{
    let (records, outcomes) = (told.records.as_slice(), told.outcomes.as_slice());
    let quiet = count_made(records, Made::Quiet);
    let taken = count_made(records, Made::Taken);
    let lost = count_made(records, Made::Lost);
    count_made(records, Made::Arming) as u128 == quiet as u128 + taken as u128
        && count_made(records, Made::Try) as u128 == taken as u128 + lost as u128
        && taken == answered(outcomes)
        && count_unknown(outcomes) <= quiet
}
