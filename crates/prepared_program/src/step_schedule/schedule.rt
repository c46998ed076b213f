//! The schedule: how many steps which task makes, in order.

ghost use Rattle.std.specs.Prelude.{◌≡◌, ◌==◌, ◌↔◌, ℕ, List, IfOk, Some, map, option_map};
ghost use Rattle.std.specs.Char.{is_ascii_digit};
ghost use Rattle.std.specs.List.{list_all, slice_split};
ghost use Rattle.prepared_program.specs.step_schedule.Schedule.{entries_of, names_stranger};
ghost use Rattle.prepared_program.specs.step_schedule.Spelling.{Spells, SpellsEntry, SpellsNumber};

use std::alloc::{AllocError, Global};

/// One task makes so many steps.
#[derive(Clone, Copy, Debug, PartialEq, Eq)]
pub struct Entry {
    pub task: u64,
    pub steps: u64,
}

/// Which task makes how many steps, in order. After it the tasks take turns.
#[derive(Drop)]
pub struct Schedule {
    entries: Vec<Entry>,
}

/// It is made of decimal digits alone.
fn is_digits(text: &str) -> bool
    ensures { result ≡ list_all is_ascii_digit text.now }
{
    text.bytes().all(|byte| byte.is_ascii_digit())
}

/// The number that decimal digits spell, below 2^64. No sign is read.
fn number(text: &str) -> Option<u64>
    ensures { (n : ℕ) → SpellsNumber text.now n ↔ (result ≡ Some n) }
{
    if is_digits(text) {
        text.parse().ok()
    } else {
        None
    }
}

impl Entry {
    /// The entry that the text `TxC` spells: task T makes C steps, both in decimal digits and below
    /// 2^64.
    fn parse(text: &str) -> Option<Entry>
        ensures { (entry : Entry) → SpellsEntry text.now entry ↔ (result ≡ Some entry) }
    {
        let (task, steps) = text.split_once('x')?;
        Some(Entry {
            task: number(task)?,
            steps: number(steps)?,
        })
    }
}

/// The texts between the commas of a text.
fn items(alloc: Global, text: &str) -> Result<Vec<&str>, AllocError>
    ensures { IfOk result (λ items. map (λ item. item.now) items.items ≡ slice_split (λ byte. byte == 44) text.now) }
{
    text.split(',').collect(alloc)
}

impl Schedule {
    /// The schedule of the text: entries `TxC` joined by commas, without blanks or signs. The empty text
    /// is the empty schedule. `None`: the text spells no schedule.
    pub fn parse(alloc: Global, text: &str) -> Result<Option<Schedule>, AllocError>
        ensures { IfOk result (λ read. (entries : List Entry) → Spells text.now entries ↔ (option_map entries_of read ≡ Some entries)) }
    {
        let mut entries = Vec::new(alloc);
        if text.is_empty() {
            return Ok(Some(Schedule { entries }));
        }
        let items = items(alloc, text)?;
        for item in &items {
            match Entry::parse(item) {
                Some(entry) => entries.push(entry)?,
                None => return Ok(None),
            }
        }
        Ok(Some(Schedule { entries }))
    }

    /// Its entries, in order.
    pub fn entries(&self) -> &[Entry]
        ensures { result.now ≡ entries_of self.now }
    {
        &self.entries
    }

    /// It names a task that isn't there in a program of so many tasks, also where it gives that task no
    /// steps.
    pub fn names_stranger(&self, tasks: u64) -> bool
        ensures { result ≡ names_stranger tasks (entries_of self.now) }
    {
        self.entries.iter().any(|entry| entry.task >= tasks)
    }
}
