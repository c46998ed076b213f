//! Which armings have one answer, a report or a named discard.

ghost use Rattle.std.specs.Prelude.{◌≡◌, All, IsTrue, count_by};
ghost use Rattle.oracle_soundness.specs.oracle_headline.Tried.{Answered, IsAnswered, account_of, answers};

use crate::oracle_headline::meetings::Meeting;
use crate::oracle_headline::told::{Came, ToldExecution};
use crate::oracle_headline::totals::is_answer;

/// What came is a report of two sides or a named discard, for the arming.
fn answers(index: usize, number: usize, came: &Came) -> bool
    ensures { result ≡ answers index number came.now }
{
    match came.arming {
        Some(arming) => is_answer(came) && arming.index == index && arming.number == number,
        None => false,
    }
}

/// How many answers the arming has.
#[tactic(auto, using(std::proofs::lemmas::List::Sums::count_by_more_yes, std::proofs::lemmas::List::Sums::count_by_more_no))]
fn answers_to(told: &ToldExecution, index: usize, number: usize) -> usize
    ensures { result ≡ count_by (answers index number) told.now.outcomes.items }
{
    let mut count = 0;
    for came in told.outcomes.as_slice() {
        if answers(index, number, came) {
            count += 1;
        }
    }
    count
}

/// It has one.
pub fn is_answered(told: &ToldExecution, index: usize, number: usize) -> bool
    ensures { IsTrue result → Answered (account_of told.now) index number }
{
    answers_to(told, index, number) == 1
}

/// The meeting's arming has one answer.
fn is_answered_met(told: &ToldExecution, met: &Meeting) -> bool
    ensures { IsTrue result → IsAnswered (account_of told.now) met.now }
{
    is_answered(told, met.index, met.number)
}

/// Each of these meetings has one answer.
pub fn all_answered(told: &ToldExecution, met: &[Meeting]) -> bool
    ensures { IsTrue result → All (IsAnswered (account_of told.now)) met.now }
{
    for meeting in met {
        if !is_answered_met(told, meeting) {
            return false;
        }
    }
    true
}
