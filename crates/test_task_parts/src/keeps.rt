//! What a task keeps over a few of its doings, and of its steps.

use crate::fault::{Fault, written};
use crate::notation::{Phrase, cut, kind_of, number, push_all, push_flag, push_number};
use crate::process::SITES;
use crate::script::{Asked, Scripted, begin_word, came_of};
use access_types::Access;
use setup_access::Begun;
use slot_table::{Answer, Step};
use std::alloc::{AllocError, Global};
use task_log::counters::Counters;
use task_log::log::TaskLog;
use task_log::noted::Noted;
use task_plan::Progress;

/// What a task keeps of what it did: `REGISTERS VARIABLES`.
pub fn progress(alloc: Global, start: &str, script: &str) -> Result<String, Fault> {
    let (registers, variables) = cut(start, ' ')?;
    let (registers, variables) = (number(registers)? as usize, number(variables)? as usize);
    kept_from(alloc, &Progress::new(alloc, registers, variables)?, script)
}

/// What is kept from a first one on.
fn kept_from(alloc: Global, first: &Progress, script: &str) -> Result<String, Fault> {
    let progress = first.copy(alloc)?;
    let mut kept = Kept { progress, first };
    let came = came_of(alloc, script, &mut kept);
    // By a call: where it goes out of scope, the proof follows the drop of all that is in it.
    drop(kept);
    came
}

/// What is kept, and what was kept first.
#[derive(Drop)]
struct Kept<'p> {
    progress: Progress,
    first: &'p Progress,
}

impl Scripted for Kept<'_> {
    fn goes_on(&mut self, came: &mut String, word: &str) -> Result<(), Fault> {
        goes_on(came, &mut self.progress, self.first, word)
    }
}

/// What comes at a word: what is kept, whether that is what was kept first, or something that the task does.
fn goes_on(
    came: &mut String,
    progress: &mut Progress,
    first: &Progress,
    word: &str,
) -> Result<(), Fault> {
    let Asked::Question(phrase) = begin_word(came, word)? else {
        return Err(Fault::NoRow);
    };
    let pushed = match phrase.name {
        "as_first" => push_flag(came, progress.keeps_as(first)),
        "registers" => push_all(came, progress.registers()),
        "unbalanced" => push_number(came, progress.unbalanced()),
        "counts" => {
            progress.counts_unbalanced();
            Ok(())
        }
        _ => return goes_on_at(came, progress, phrase, phrase.index()?),
    };
    written(pushed)
}

/// What comes at a word with an index.
fn goes_on_at(
    came: &mut String,
    progress: &mut Progress,
    phrase: Phrase<'_>,
    index: usize,
) -> Result<(), Fault> {
    let pushed = match phrase.name {
        "begun" => push_number(came, progress.begun_at(index)),
        "has" => push_flag(came, progress.has_lock(index)),
        _ => return does(progress, phrase, index),
    };
    written(pushed)
}

/// The task does something with a register, a site or a lock.
fn does(progress: &mut Progress, phrase: Phrase<'_>, index: usize) -> Result<(), Fault> {
    match phrase.name {
        "assign" => progress.assign(index, phrase.number(1)?),
        "begins" => return begins(progress, index),
        "takes" => progress.set_lock(index, true),
        "gives" => progress.set_lock(index, false),
        _ => return Err(Fault::NoRow),
    }
    Ok(())
}

/// An access begins at a site.
fn begins(progress: &mut Progress, site: usize) -> Result<(), Fault> {
    if site >= SITES {
        return Err(Fault::NoRow);
    }
    progress.begins_at(site);
    Ok(())
}

/// What a log keeps of an access that has begun, and goes on: `KIND STAMP`.
pub fn log(alloc: Global, start: &str) -> Result<String, Fault> {
    let (kind, stamp) = cut(start, ' ')?;
    let access = Access::new(1, 0, 0x10000, 4, kind_of(kind)?, None)?;
    let begins = Noted {
        step: Step::Clock,
        answer: Answer::Word(number(stamp)?),
        begins: Some(Begun {
            access,
            marked: true,
            silenced: false,
        }),
        outcome: None,
    };
    let mut log = TaskLog::new(alloc, 2, 1)?;
    let is_reported = log.note(&begins).is_some();
    kept_in(alloc, &log, is_reported)
}

/// What a log keeps.
fn kept_in(alloc: Global, log: &TaskLog, is_reported: bool) -> Result<String, Fault> {
    let accesses = log.accesses(alloc)?.len();
    let (arms, takes) = (log.arms().len(), log.takes().len());
    let mut kept = format!(in alloc;
        "reported={is_reported} accesses={accesses} arms={arms} takes={takes} "
    )?;
    push_counters(&mut kept, log.counters())?;
    Ok(kept)
}

/// Writes counters, the last of them of their sum with themselves.
fn push_counters(text: &mut String, counters: Counters) -> Result<(), AllocError> {
    let mut sum = counters;
    sum.add(&counters);
    let (armed, lost, quiet) = (counters.arms, counters.lost, sum.quiet);
    write!(text, "armed={armed} lost={lost} quiet={quiet}")
}
