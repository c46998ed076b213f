//! Values by numbers.

ghost use Rattle.std.specs.Prelude.{◌≡◌, ◌<◌, ℕ, OnOk, cond, get_or, length, nat_eq};
ghost use Rattle.trace_replay.specs.Table.{in_rows, value_at};

use indexmap::IndexMap;
use std::alloc::{AllocError, Global};

/// So many numbers in order have their values in one row.
const ROW: usize = 256;

/// A value by each number. The numbers below a limit have theirs in rows, each no longer than what was set in it asks
/// for: so no hash is needed, and few numbers take little room. The others have theirs by hash.
#[derive(Drop)]
pub struct Table<V: Copy + Drop> {
    alloc: Global,
    limit: u64,
    /// The value of a number that none was set of.
    none: V,
    rows: Vec<Vec<V>>,
    others: IndexMap<u64, V>,
}

impl<V: Copy + Drop> Table<V> {
    /// Every number has this value. What is set takes its memory from this allocator.
    pub fn new(alloc: Global, limit: u64, none: V) -> Table<V>
        ensures { (number : ℕ) → value_at result number ≡ none }
    {
        Table {
            alloc,
            limit,
            none,
            rows: Vec::new(alloc),
            others: IndexMap::new(alloc),
        }
    }

    /// The value of the number.
    pub fn at(&self, number: u64) -> V
        ensures { result ≡ value_at self.now number }
    {
        if number < self.limit {
            self.in_row(number as usize)
        } else {
            self.others.get(&number).copied().unwrap_or(self.none)
        }
    }

    /// The value of the number in its row.
    fn in_row(&self, number: usize) -> V
        ensures { result ≡ in_rows self.now.rows.items self.now.none number }
    {
        match self.rows.get(number / ROW) {
            Some(row) => row.get(number % ROW).copied().unwrap_or(self.none),
            None => self.none,
        }
    }

    /// Sets the value of the number. The only error is want of memory.
    pub fn set(&mut self, number: u64, value: V) -> Result<(), AllocError>
        ensures { OnOk result ((other : ℕ) → value_at self.new other ≡ cond (nat_eq number other) value (value_at self.old other)) }
    {
        if number < self.limit {
            reach(&mut self.rows, self.alloc, number as usize / ROW)?;
            put(
                &mut self.rows[number as usize / ROW],
                number as usize % ROW,
                self.none,
                value,
            )
        } else {
            self.others.insert(number, value)?;
            Ok(())
        }
    }
}

/// Makes rows up to this one, in which no number has a value of its own. The only error is want of memory.
#[tactic(auto, using(crate::proofs::Rows::one_row_more))]
fn reach<V: Copy + Drop>(
    rows: &mut Vec<Vec<V>>,
    alloc: Global,
    row: usize,
) -> Result<(), AllocError>
    ensures values { (none : V) (number : ℕ) → in_rows rows.new.items none number ≡ in_rows rows.old.items none number }
    ensures reached { OnOk result (row < length rows.new.items) }
{
    while rows.len() <= row {
        rows.push(Vec::new(alloc))?;
    }
    Ok(())
}

/// Sets the value at the place of the row. The only error is want of memory.
fn put<V: Copy + Drop>(row: &mut Vec<V>, place: usize, none: V, value: V) -> Result<(), AllocError>
    requires { place < 256 }
    ensures { OnOk result ((other : ℕ) → get_or row.new.items other none ≡ cond (nat_eq place other) value (get_or row.old.items other none)) }
{
    if row.len() <= place {
        row.resize(place + 1, none)?;
    }
    row[place] = value;
    Ok(())
}
