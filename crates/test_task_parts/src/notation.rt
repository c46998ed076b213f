//! How numbers, steps, kinds and operations are written in rows.

use crate::fault::Fault;
use access_run::memory_operation::{Change, Operation};
use access_types::{Claim, Kind, Operation as Touch};
use slot_table::{Answer, Step};
use std::alloc::AllocError;

/// A name, with numbers behind it or none: `CellLoad(0)`, `Clock`.
#[derive(Clone, Copy)]
pub struct Phrase<'t> {
    pub name: &'t str,
    numbers: &'t str,
}

impl<'t> Phrase<'t> {
    /// The phrase of a text.
    pub fn read(text: &'t str) -> Phrase<'t> {
        match text.split_once('(') {
            Some((name, numbers)) => Phrase {
                name,
                numbers: numbers.strip_suffix(')').unwrap_or(numbers),
            },
            None => Phrase {
                name: text,
                numbers: "",
            },
        }
    }

    /// What stands at a place, from 0, among its numbers.
    pub fn word(self, place: usize) -> Result<&'t str, Fault> {
        self.numbers.split(',').nth(place).ok_or(Fault::NoRow)
    }

    /// Its number at a place, from 0.
    pub fn number(self, place: usize) -> Result<u64, Fault> {
        number(self.word(place)?)
    }

    /// Its first number, where it is that of an index, a cell or the like.
    pub fn index(self) -> Result<usize, Fault> {
        Ok(self.number(0)? as usize)
    }

    /// The operation that it spells.
    pub fn operation(self) -> Result<Operation, Fault> {
        if self.name == "Load" {
            return Ok(Operation::Load);
        }
        let value = self.number(0)?;
        match self.name {
            "Add" => Ok(Operation::Add(value)),
            "Write" => Ok(Operation::Change(Change::Write(value))),
            "Exchange" => Ok(Operation::Change(Change::Exchange(value))),
            "AtomicAdd" => Ok(Operation::Change(Change::AtomicAdd(value))),
            "CompareExchange" => Ok(Operation::Change(Change::CompareExchange {
                expected: value,
                replacement: self.number(1)?,
            })),
            _ => Err(Fault::NoRow),
        }
    }

    /// The step of another task that it spells, with a `+` before it.
    pub fn step(self) -> Result<Step, Fault> {
        let index = self.index()?;
        if self.name == "+LockStore" {
            return Ok(Step::LockStore(index));
        }
        let second = self.number(1)?;
        match self.name {
            "+TryConsume" => Ok(Step::TryConsume(index, second)),
            "+CellExchange" => Ok(Step::CellExchange(index, second, self.number(2)?)),
            "+LockTry" => Ok(Step::LockTry(index, short(second)?)),
            _ => Err(Fault::NoRow),
        }
    }
}

/// The number that a text spells, in decimal digits or, behind `0x`, in hexadecimal ones.
pub fn number(text: &str) -> Result<u64, Fault> {
    let number = match text.strip_prefix("0x") {
        Some(digits) => u64::from_str_radix(digits, 16).ok(),
        None => u64::from_str_radix(text, 10).ok(),
    };
    number.ok_or(Fault::NoRow)
}

/// A number of 32 bits.
pub fn short(number: u64) -> Result<u32, Fault> {
    u32::try_from(number).ok().ok_or(Fault::NoRow)
}

/// What stands before and behind the first such character of a text.
pub fn cut(text: &str, at: char) -> Result<(&str, &str), Fault> {
    text.split_once(at).ok_or(Fault::NoRow)
}

/// The kind of an access.
pub fn kind_of(text: &str) -> Result<Kind, Fault> {
    match text {
        "Plain(Read)" => Ok(Kind::Plain(Touch::Read)),
        "Plain(Write)" => Ok(Kind::Plain(Touch::Write)),
        "Plain(ReadWrite)" => Ok(Kind::Plain(Touch::ReadWrite)),
        "Marked(Read)" => Ok(Kind::Marked(Touch::Read)),
        "Marked(Write)" => Ok(Kind::Marked(Touch::Write)),
        "Marked(ReadWrite)" => Ok(Kind::Marked(Touch::ReadWrite)),
        "Assert(NoWrites)" => Ok(Kind::Assert(Claim::NoWrites)),
        "Assert(NoAccesses)" => Ok(Kind::Assert(Claim::NoAccesses)),
        _ => Err(Fault::NoRow),
    }
}

/// Writes a number: one digit, or hexadecimal ones.
pub fn push_number(text: &mut String, number: u64) -> Result<(), AllocError> {
    if number < 10 {
        write!(text, "{number}")
    } else {
        write!(text, "{number:#x}")
    }
}

/// Writes a number, or `-` where there is none.
pub fn push_optional(text: &mut String, number: Option<u64>) -> Result<(), AllocError> {
    match number {
        Some(number) => push_number(text, number),
        None => text.push_str("-"),
    }
}

/// Writes numbers with commas between them.
pub fn push_all(text: &mut String, numbers: &[u64]) -> Result<(), AllocError> {
    for (place, number) in numbers.iter().enumerate() {
        if place > 0 {
            text.push(',')?;
        }
        push_number(text, *number)?;
    }
    Ok(())
}

/// Writes two numbers with a comma between them, each `-` where there is none.
pub fn push_two(
    text: &mut String,
    first: Option<u64>,
    second: Option<u64>,
) -> Result<(), AllocError> {
    push_optional(text, first)?;
    text.push(',')?;
    push_optional(text, second)
}

/// Writes whether something is so.
pub fn push_flag(text: &mut String, flag: bool) -> Result<(), AllocError> {
    text.push_str(if flag { "yes" } else { "no" })
}

/// Writes an answer.
pub fn push_answer(text: &mut String, answer: Answer) -> Result<(), AllocError> {
    match answer {
        Answer::Word(word) => push_number(text, word),
        Answer::Flag(flag) => push_flag(text, flag),
        Answer::Halves(setter, finder) => {
            push_two(text, Some(setter as u64), Some(finder as u64))
        }
        Answer::Done => text.push_str("done"),
    }
}

/// Writes a step, or `none`.
pub fn push_step(text: &mut String, step: Option<Step>) -> Result<(), AllocError> {
    match step {
        None => text.push_str("none"),
        Some(Step::Clock) => text.push_str("Clock"),
        Some(Step::Load(index)) => push_call(text, "Load", index, &[]),
        Some(Step::Insert(index, word)) => push_call(text, "Insert", index, &[word]),
        Some(Step::TryConsume(index, word)) => push_call(text, "TryConsume", index, &[word]),
        Some(Step::Consume(index)) => push_call(text, "Consume", index, &[]),
        Some(Step::Remove(index)) => push_call(text, "Remove", index, &[]),
        Some(Step::PairLoad(index)) => push_call(text, "PairLoad", index, &[]),
        Some(Step::Name(index, ticket)) => push_call(text, "Name", index, &[ticket as u64]),
        Some(Step::Tell(index, ticket)) => push_call(text, "Tell", index, &[ticket as u64]),
        Some(Step::Clear(index)) => push_call(text, "Clear", index, &[]),
        Some(Step::CellLoad(cell)) => push_call(text, "CellLoad", cell, &[]),
        Some(Step::CellExchange(cell, expected, new)) => {
            push_call(text, "CellExchange", cell, &[expected, new])
        }
        Some(Step::LockTry(lock, task)) => push_call(text, "LockTry", lock, &[task as u64]),
        Some(Step::LockStore(lock)) => push_call(text, "LockStore", lock, &[]),
    }
}

/// Writes a name and numbers behind it: an index in decimal digits, and others.
fn push_call(
    text: &mut String,
    name: &str,
    index: usize,
    others: &[u64],
) -> Result<(), AllocError> {
    write!(text, "{name}({index}")?;
    for other in others {
        text.push(',')?;
        push_number(text, *other)?;
    }
    text.push(')')
}
