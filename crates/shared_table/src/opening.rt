//! What a table was made for.

ghost use Rattle.std.specs.Prelude.{◌≡◌, ◌≤◌, IfOk};
ghost use Rattle.shared_table.specs.Row.{first_row};

use slot_table::Shape;
use std::alloc::{AllocError, Global};
use std::marker::Model;

/// How many page slots, tasks and locks there are, and what the cells of memory held at first.
#[derive(Drop)]
pub struct Opening {
    pub(crate) slots: usize,
    pub(crate) tasks: u32,
    pub(crate) locks: usize,
    pub(crate) cells: Vec<u64>,
}

impl Model for Opening {
    ghost use Rattle.shared_table.specs.Given.{Given};

    ghost Value = { Given };

    ghost view = { λ o. record {
      page_slots = o.slots;
      tasks = o.tasks;
      locks = o.locks;
      cells = o.cells.items;
    } };
}

impl Opening {
    /// What a shape asks for.
    pub(crate) fn of(alloc: Global, shape: Shape<'_>) -> Result<Opening, AllocError>
        ensures { IfOk result (λ o. o ≡ record {
          page_slots = shape.entry.slots;
          tasks = shape.entry.tasks;
          locks = shape.entry.locks;
          cells = shape.entry.cells.now;
        }) }
    {
        Ok(Opening {
            slots: shape.slots,
            tasks: shape.tasks,
            locks: shape.locks,
            cells: shape.cells.to_vec(alloc)?,
        })
    }

    /// The row of words before the first step.
    pub(crate) fn first_row(&self, alloc: Global) -> Result<Vec<u64>, AllocError>
        requires { self.now.page_slots ≤ 1024 }
        ensures { IfOk result (λ row. row.items ≡ first_row self.now) }
    {
        let indices = self.slots + 2;
        let mut row = vec![in alloc; 0; indices + indices]?;
        row.extend_from_slice(&self.cells)?;
        let locks = vec![in alloc; 0; self.locks]?;
        row.extend_from_slice(&locks)?;
        row.push(0)?;
        Ok(row)
    }
}
