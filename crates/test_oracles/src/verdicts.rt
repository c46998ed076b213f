//! Verdicts on pairs of sites, by executions that rows give.

use crate::definitions::{is_lax, tell};
use crate::histories::add_moment;
use crate::steps::reason_of;
use crate::words::{Fault, Words, small_of};
use access_types::Report;
use oracle_soundness::oracle_races::{Observed, Taking, verdict};
use races::{MissedWhy, NoRaceWhy, SiteName, SitePair, Verdict};
use std::alloc::{AllocError, Global};

/// `RULE SITE SITE`: the verdict on the two by these executions, and the reasons for it.
pub fn answer(alloc: Global, asked: &str, told: &str) -> Result<String, Fault> {
    let mut words = Words::of(asked);
    let atomic = is_lax(words.word()?)?;
    let first = site_of(words.word()?)?;
    let second = site_of(words.word()?)?;
    words.end()?;
    let executions = executions_of(alloc, told)?;
    let pair = SitePair { first, second };
    let found = verdict(alloc, atomic, executions.as_slice(), pair)?;
    let mut answer = String::new(alloc);
    say(&mut answer, found)?;
    Ok(answer)
}

/// The site of `TASK.SITE`.
fn site_of(word: &str) -> Result<SiteName, Fault> {
    let (task, site) = word.split_once('.').ok_or(Fault::NoRow)?;
    Ok(SiteName {
        task: small_of(task)?,
        site: small_of(site)?,
    })
}

/// The executions of a text, with a semicolon between two of them.
fn executions_of(alloc: Global, text: &str) -> Result<Vec<Observed>, Fault> {
    let mut executions = Vec::new(alloc);
    for execution in text.split(" ; ") {
        executions.push(execution_of(alloc, execution)?)?;
    }
    Ok(executions)
}

/// The execution of a text, with a comma between two things that are observed.
fn execution_of(alloc: Global, text: &str) -> Result<Observed, Fault> {
    let mut told = Observed {
        history: Vec::new(alloc),
        reports: Vec::new(alloc),
        dropped: Vec::new(alloc),
        taken: Vec::new(alloc),
        armed: Vec::new(alloc),
    };
    for observed in text.split(", ") {
        add(&mut told, observed)?;
    }
    Ok(told)
}

/// Adds what a text says is observed: a moment, where no other word begins it.
fn add(told: &mut Observed, text: &str) -> Result<(), Fault> {
    let mut words = Words::of(text);
    match words.word()? {
        "armed" => told.armed.push(words.small()?)?,
        "told" => told.taken.push(taking_of(words.word()?)?)?,
        "dropped" => {
            let reason = reason_of(words.word()?)?;
            told.dropped.push((taking_of(words.word()?)?, reason))?;
        }
        "report" => told.reports.push(report_of(words.word()?)?)?,
        "unknown" => told.reports.push(origin_of(words.small()?))?,
        _ => return add_moment(&mut told.history, text),
    }
    words.end()
}

/// The taking of `SETTER/FINDER`.
fn taking_of(word: &str) -> Result<Taking, Fault> {
    let (setter, finder) = word.split_once('/').ok_or(Fault::NoRow)?;
    Ok(Taking {
        setter: small_of(setter)?,
        finder: small_of(finder)?,
    })
}

/// The report of `SETTER/FINDER`, of no change that was seen.
fn report_of(word: &str) -> Result<Report, Fault> {
    let Taking { setter, finder } = taking_of(word)?;
    Ok(Report::Two {
        setter,
        finder,
        seen: None,
    })
}

/// A report of unknown origin that names the setter.
fn origin_of(setter: u32) -> Report {
    Report::Unknown {
        setter,
        old: 0,
        new: 1,
    }
}

/// Says a verdict, and the reasons for it.
fn say(answer: &mut String, found: Verdict) -> Result<(), AllocError> {
    match found {
        Verdict::Reported => tell(answer, "reported"),
        Verdict::Missed(why) => {
            tell(answer, "missed")?;
            say_missed(answer, why)
        }
        Verdict::Race(why) => {
            tell(answer, "race")?;
            say_missed(answer, why)
        }
        Verdict::NoRace(why) => {
            tell(answer, "no_race")?;
            say_no_race(answer, why)
        }
        Verdict::Apart => tell(answer, "apart"),
        Verdict::NotSettled => tell(answer, "not_settled"),
    }
}

/// Says why a race is missed.
fn say_missed(answer: &mut String, why: MissedWhy) -> Result<(), AllocError> {
    say_if(answer, why.same_value, "same_value")?;
    say_if(answer, why.masked, "masked")?;
    say_if(answer, why.origin, "origin")?;
    say_if(answer, why.never_taken, "never_taken")?;
    say_if(answer, why.never_armed, "never_armed")
}

/// Says why accesses that are at once are no race.
fn say_no_race(answer: &mut String, why: NoRaceWhy) -> Result<(), AllocError> {
    say_if(answer, why.both_marked, "both_marked")?;
    say_if(answer, why.silenced, "silenced")?;
    say_if(answer, why.other_bits, "other_bits")
}

/// Says a reason that holds.
fn say_if(answer: &mut String, holds: bool, reason: &str) -> Result<(), AllocError> {
    if holds { tell(answer, reason) } else { Ok(()) }
}
