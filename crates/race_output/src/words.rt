//! The words for verdicts, how many pairs have each, and the verdict on a file.

ghost use Rattle.std.specs.Prelude.{◌≡◌};
ghost use Rattle.race_output.specs.Words as spec;

use races::{PairFound, Verdict};

/// What is said of a pair, without the reasons.
#[derive(Clone, Copy)]
pub enum Said {
    Reported,
    Missed,
    Race,
    NoRace,
    Apart,
    NotSettled,
}

/// What a verdict says.
pub fn said_of(verdict: Verdict) -> Said
    ensures { result ≡ spec.said_of verdict }
{
    match verdict {
        Verdict::Reported => Said::Reported,
        Verdict::Missed(_) => Said::Missed,
        Verdict::Race(_) => Said::Race,
        Verdict::NoRace(_) => Said::NoRace,
        Verdict::Apart => Said::Apart,
        Verdict::NotSettled => Said::NotSettled,
    }
}

/// The words for a verdict.
pub fn verdict_words(verdict: Verdict) -> &'static str
    ensures { result.now ≡ spec.verdict_words verdict }
{
    match said_of(verdict) {
        Said::Reported => "reported",
        Said::Missed => "missed",
        Said::Race => "race",
        Said::NoRace => "no race",
        Said::Apart => "apart",
        Said::NotSettled => "not settled",
    }
}

/// The verdict says this.
fn is_said(wanted: Said, verdict: Verdict) -> bool
    ensures { result ≡ spec.is_said wanted verdict }
{
    matches!(
        (wanted, said_of(verdict)),
        (Said::Reported, Said::Reported)
            | (Said::Missed, Said::Missed)
            | (Said::Race, Said::Race)
            | (Said::NoRace, Said::NoRace)
            | (Said::Apart, Said::Apart)
            | (Said::NotSettled, Said::NotSettled)
    )
}

/// How many pairs have such a verdict.
pub fn count_said(pairs: &[PairFound], wanted: Said) -> usize
    ensures { result ≡ spec.count_said pairs.now wanted }
{
    pairs
        .iter()
        .filter(|one| is_said(wanted, one.verdict))
        .count()
}

/// Some pair has such a verdict.
fn has_said(pairs: &[PairFound], wanted: Said) -> bool
    ensures { result ≡ spec.has_said pairs.now wanted }
{
    pairs.iter().any(|one| is_said(wanted, one.verdict))
}

/// The verdict on a file, by those on its pairs.
#[derive(Clone, Copy)]
pub enum FileVerdict {
    /// No pair is a race: each is none, or is apart.
    Free,
    /// A pair is reported, and no race is missed or, where a walk was stopped, not reported so far.
    Reported,
    /// A race is missed, or, where a walk was stopped, not reported so far.
    Missed,
    /// No race was found, and a walk was stopped before that was settled of each pair.
    Stopped,
}

/// The verdict on a file with these pairs.
pub fn verdict_of(pairs: &[PairFound]) -> FileVerdict
    ensures { result ≡ spec.verdict_of pairs.now }
{
    if has_said(pairs, Said::Missed) || has_said(pairs, Said::Race) {
        FileVerdict::Missed
    } else if has_said(pairs, Said::Reported) {
        FileVerdict::Reported
    } else if has_said(pairs, Said::NotSettled) {
        FileVerdict::Stopped
    } else {
        FileVerdict::Free
    }
}

/// The word for the verdict on a file.
pub fn file_word(verdict: FileVerdict) -> &'static str
    ensures { result.now ≡ spec.file_word verdict }
{
    match verdict {
        FileVerdict::Free => "free",
        FileVerdict::Reported => "reported",
        FileVerdict::Missed => "missed",
        FileVerdict::Stopped => "stopped",
    }
}
