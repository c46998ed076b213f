//! Steps, their answers and what comes of a check, as rows write them.

use crate::words::{Fault, Words, number_of, small_of};
use access_types::ValueChange;
use setup_access::Outcome;
use slot::Pair;
use slot_table::{Answer, Record, Step};
use value_filter::Reason;

/// The step of a text: its name, then the index or the cell, and its words or tickets.
pub fn step_of(text: &str) -> Result<Step, Fault> {
    let mut words = Words::of(text);
    let step = match words.word()? {
        "clock" => Step::Clock,
        "load" => Step::Load(words.index()?),
        "insert" => Step::Insert(words.index()?, words.number()?),
        "try_consume" => Step::TryConsume(words.index()?, words.number()?),
        "consume" => Step::Consume(words.index()?),
        "remove" => Step::Remove(words.index()?),
        "pair" => Step::PairLoad(words.index()?),
        "name" => Step::Name(words.index()?, words.small()?),
        "tell" => Step::Tell(words.index()?, words.small()?),
        "clear" => Step::Clear(words.index()?),
        "cell" => Step::CellLoad(words.index()?),
        "lock_try" => Step::LockTry(words.index()?, words.small()?),
        "lock_store" => Step::LockStore(words.index()?),
        "exchange" => Step::CellExchange(words.index()?, words.number()?, words.number()?),
        _ => return Err(Fault::NoRow),
    };
    words.end()?;
    Ok(step)
}

/// The answer of a text: a word, whether the step was accepted, both halves of a pair, or nothing.
pub fn answer_of(text: &str) -> Result<Answer, Fault> {
    match text {
        "yes" => Ok(Answer::Flag(true)),
        "no" => Ok(Answer::Flag(false)),
        "done" => Ok(Answer::Done),
        _ => match text.split_once('/') {
            Some((setter, finder)) => Ok(Answer::Halves(small_of(setter)?, small_of(finder)?)),
            None => Ok(Answer::Word(number_of(text)?)),
        },
    }
}

/// The record of `TASK STEP = ANSWER`.
pub fn record_of(text: &str) -> Result<Record, Fault> {
    let (made, answer) = text.split_once(" = ").ok_or(Fault::NoRow)?;
    let (task, step) = made.split_once(' ').ok_or(Fault::NoRow)?;
    Ok(Record {
        task: small_of(task)?,
        step: step_of(step)?,
        answer: answer_of(answer)?,
    })
}

/// What comes of a check, by a text: a pair is `SETTER/FINDER`, and a change `OLD NEW`.
pub fn outcome_of(text: &str) -> Result<Outcome, Fault> {
    let mut words = Words::of(text);
    let outcome = match words.word()? {
        "nothing" => Outcome::Nothing,
        "lost" => Outcome::Lost,
        "told" => Outcome::Told {
            pair: pair_of(words.word()?)?,
        },
        "capacity" => Outcome::Capacity,
        "unencodable" => Outcome::Unencodable,
        "quiet" => Outcome::Quiet,
        "report" => Outcome::Report {
            pair: pair_of(words.word()?)?,
            seen: None,
        },
        "report_change" => Outcome::Report {
            pair: pair_of(words.word()?)?,
            seen: Some(ValueChange {
                old: words.number()?,
                new: words.number()?,
            }),
        },
        "unknown" => Outcome::Unknown {
            old: words.number()?,
            new: words.number()?,
        },
        "dropped" => Outcome::Dropped(reason_of(words.word()?)?),
        _ => return Err(Fault::NoRow),
    };
    words.end()?;
    Ok(outcome)
}

/// The pair of `SETTER/FINDER`.
fn pair_of(word: &str) -> Result<Pair, Fault> {
    let (setter, finder) = word.split_once('/').ok_or(Fault::NoRow)?;
    let mut pair = Pair::new();
    pair.name(small_of(setter)?);
    pair.tell(small_of(finder)?);
    Ok(pair)
}

/// Why a hit isn't reported.
pub fn reason_of(word: &str) -> Result<Reason, Fault> {
    match word {
        "encoding" => Ok(Reason::Encoding),
        "same_value" => Ok(Reason::SameValue),
        "masked_bits" => Ok(Reason::MaskedBits),
        _ => Err(Fault::NoRow),
    }
}
