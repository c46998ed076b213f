//! The columns of a picture: when accesses of each task are in progress.

ghost use Rattle.std.specs.Prelude.{◌≡◌, IfOk};
ghost use Rattle.std.specs.List.{AllZip};
ghost use Rattle.timeline.specs.picture.Columns.{IsColumnOf, begins_in, ends_in, tasks};
ghost use Rattle.timeline.specs.picture.Running.{IsInOrder, running};

use access_types::Stamped;
use std::alloc::{AllocError, Global};

/// The tasks that there can be.
pub const TASKS: [u32; 16] = [0, 1, 2, 3, 4, 5, 6, 7, 8, 9, 10, 11, 12, 13, 14, 15];

/// The column of a task: the stamps at which its accesses begin, and those at which they end, in rising order.
#[derive(Drop)]
pub struct Column {
    pub task: u32,
    pub begins: Vec<u64>,
    pub ends: Vec<u64>,
}

/// When accesses of a task begin.
fn begins_of(alloc: Global, task: u32, accesses: &[Stamped]) -> Result<Vec<u64>, AllocError>
    ensures { IfOk result (λ begins. begins.items ≡ begins_in accesses.now task) }
{
    let mut begins = Vec::new(alloc);
    for access in accesses {
        if access.access().task() == task {
            begins.push(access.begin())?;
        }
    }
    Ok(begins)
}

/// When accesses of a task end.
fn ends_of(alloc: Global, task: u32, accesses: &[Stamped]) -> Result<Vec<u64>, AllocError>
    ensures { IfOk result (λ ends. ends.items ≡ ends_in accesses.now task) }
{
    let mut ends = Vec::new(alloc);
    for access in accesses {
        if access.access().task() == task {
            ends.push(access.end())?;
        }
    }
    Ok(ends)
}

/// The column of a task.
fn column_of(alloc: Global, task: u32, accesses: &[Stamped]) -> Result<Column, AllocError>
    ensures { IfOk result (IsColumnOf accesses.now task) }
{
    let mut begins = begins_of(alloc, task, accesses)?;
    begins.sort()?;
    let mut ends = ends_of(alloc, task, accesses)?;
    ends.sort()?;
    Ok(Column { task, begins, ends })
}

/// The columns of all tasks. The only error is want of memory.
pub(crate) fn columns(alloc: Global, accesses: &[Stamped]) -> Result<Vec<Column>, AllocError>
    ensures { IfOk result (λ columns. AllZip (IsColumnOf accesses.now) tasks columns.items) }
{
    let mut columns = Vec::new(alloc);
    for task in TASKS {
        let column = column_of(alloc, task, accesses)?;
        columns.push(column)?;
    }
    Ok(columns)
}

impl Column {
    /// How many accesses of the task are in progress at the stamp.
    pub fn running(&self, stamp: u64) -> usize
        requires { IsInOrder self.now }
        ensures { result ≡ running self.now stamp }
    {
        let begun = self.begins.partition_point(|begin| *begin <= stamp);
        let ended = self.ends.partition_point(|end| *end <= stamp);
        begun.saturating_sub(ended)
    }
}
