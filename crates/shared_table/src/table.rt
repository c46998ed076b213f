//! The table of the shared words.

ghost use Rattle.std.specs.Prelude.{◌≡◌, ◌+◌, ◌≤◌, ◌<◌, ◌⊎◌, ◌↔◌, [], IfOk, IsErrOf, length};
ghost use Rattle.slot_table.specs.declared.board.BoardError.TheVariants.{BadSlots};
ghost use Rattle.shared_table.specs.Row.{cells_from};
ghost use Rattle.shared_table.specs.Seats.{new_seats};
ghost use Rattle.shared_table.specs.Views.{everyone};

use crate::opening::Opening;
use crate::plays::FirstTask;
use crate::rule::Running;
use crate::seat::TaskSeat;
use crate::view::View;
use atomic_table::{Seat, Table};
use slot_table::{BoardError, Shape};
use std::alloc::{AllocError, Global};
use std::marker::Model;

/// The atomic words, which many threads share.
pub(crate) type Row = Table<(), View, Opening, Running, Global>;

/// All words of a run, for many threads at once.
#[derive(Drop)]
pub struct SharedTable {
    pub(crate) row: Row,
    pub(crate) opening: Opening,
    /// Room for what the cells hold at the end.
    pub(crate) room: Vec<u64>,
}

impl Model for SharedTable {
    ghost use Rattle.std.specs.Prelude.{◌≡◌, ◌<◌, ◌^◌, length, vec_len};
    ghost use Rattle.shared_table.specs.Row.{row_length};
    ghost use Rattle.shared_table.specs.Seats.{Opened};

    ghost Value = { Opened };

    ghost view = { λ t. record { id = t.row.shared.table_id; given = t.opening } };

    ghost invariant = { λ t. (t.row.shared.key ≡ t.opening)
        × (t.row.shared.table_id.words ≡ row_length t.opening)
        × (t.row.shared.table_id.slots ≡ 0)
        × (row_length t.opening < 2 ^ 64)
        × (vec_len t.room ≡ length t.opening.cells) };
}

impl SharedTable {
    /// The table before the first step, and a seat for each task: no watchpoint is set up, nobody
    /// is named, all locks are free and the clock stands at 0.
    ///
    /// `BadSlots`: there are fewer than 3 page slots, or more than 1,024.
    pub fn new(alloc: Global, shape: Shape<'_>) -> Result<(SharedTable, Vec<TaskSeat>), BoardError>
        requires some_task { 1 ≤ shape.tasks }
        requires task_limit { shape.tasks ≤ 16 }
        ensures made { IfOk result (λ made. made.0.given ≡ record {
          page_slots = shape.entry.slots;
          tasks = shape.entry.tasks;
          locks = shape.entry.locks;
          cells = shape.entry.cells.now;
        }) }
        ensures seats { IfOk result
            (λ made. made.1.items ≡ new_seats made.0 shape.entry.tasks) }
        ensures bad_slots { IsErrOf result BadSlots
            ↔ (shape.entry.slots < 3 ⊎ 1024 < shape.entry.slots) }
    {
        if shape.slots < 3 || shape.slots > 1024 {
            return Err(BoardError::BadSlots);
        }
        let opening = Opening::of(alloc, shape)?;
        let room = shape.cells.to_vec(alloc)?;
        let words = opening.first_row(alloc)?;
        let (row, first) = Table::of_words(alloc, words.as_slice(), &opening)?;
        let seats = deal(alloc, &row, first, shape.tasks)?;
        let table = SharedTable { row, opening, room };
        Ok((table, seats))
    }
}

impl SharedTable {
    /// How many tasks there are.
    pub(crate) fn tasks(&self) -> u32
        ensures { result ≡ self.now.given.tasks }
    {
        self.opening.tasks
    }

    /// Where in the row the cells begin.
    pub(crate) fn cells_from(&self) -> usize
        ensures { result ≡ cells_from self.now.given }
    {
        let indices = self.opening.slots + 2;
        indices + indices
    }
}

/// Cuts the first seat, which holds all tasks, into one seat a task.
fn deal(
    alloc: Global,
    row: &Row,
    mut first: Seat<(), View>,
    tasks: u32,
) -> Result<Vec<TaskSeat>, AllocError>
    requires one { first.table_id ≡ row.now.shared.table_id }
    requires some_word { 0 < row.now.shared.table_id.words }
    requires all { first.me ≡ (everyone row.now.shared.key, []) }
    requires tasks { tasks ≡ row.now.shared.key.tasks }
    ensures { IfOk result (λ seats. seats.items
        ≡ new_seats (record { id = row.now.shared.table_id; given = row.now.shared.key }) tasks) }
{
    let mut seats = Vec::with_capacity(alloc, tasks as usize)?;
    for task in 0..tasks {
        let seat = row.shared.split_seat::<FirstTask>(&mut first);
        seats.push_reserved(TaskSeat::new(task, seat));
    }
    Ok(seats)
}
