//! What is left of a table when all its seats are gathered: one legal list, with all that each of
//! them has seen.

ghost use Rattle.std.specs.Prelude.{◌≡◌, ◌≢◌, ◌<◌, ◌≤◌, ◌+◌, ◌⊎◌, ℕ, List, [], All, MatchBool};
ghost use Rattle.std.specs.Prelude.{IfNone, IfSome, length, map, vec_len};
ghost use Rattle.std.specs.Slots.{IsFull, slots_items, slots_len};
ghost use Rattle.std.specs.Prelude.{AllPairs};
ghost use Rattle.std.specs.List.Sorted.{IsPermutation};
ghost use Rattle.slot_table.specs.Armings.{MeetOnce, armings_taken};
ghost use Rattle.slot_table.specs.Discipline.{IsFinished};
ghost use Rattle.slot_table.specs.Meetings.{finders_told, numbers_met, setters_heard};
ghost use Rattle.slot_table.specs.declared.records.Record.{Record};
ghost use Rattle.shared_table.specs.Ended.{HasSeat, HasUnfinished, IsListOf, IsMissing, held_by};
ghost use Rattle.shared_table.specs.Row.{section};

use crate::opening::Opening;
use crate::plays::{AllTasks, Sit};
use crate::seat::TaskSeat;
use crate::table::{Row, SharedTable};
use crate::view::View;
use atomic_table::{Closed, Seat};
use slot_table::laws::{law_armings_are_met_once, law_heard_is_told};
use std::alloc::Global;
use std::marker::Model;
use std::snapshot::Snapshot;

/// What the cells hold at the end. Whoever has it knows one legal list with all that the seats have
/// seen.
#[derive(Drop)]
pub struct Gathered {
    opening: Opening,
    cells: Vec<u64>,
    seats: Snapshot<Vec<TaskSeat>>,
}

impl Model for Gathered {
    ghost use Rattle.std.specs.Prelude.{List};
    ghost use Rattle.slot_table.specs.declared.records.Record.{Record};
    ghost use Rattle.shared_table.specs.Ended.{Ended, IsListOf};

    ghost Value = { Ended };

    ghost view = { λ g. record {
      given = g.opening;
      cells = g.cells.items;
      seats = g.seats.value.items;
    } };

    ghost invariant = { λ g. (records : List Record) × IsListOf (record {
      given = g.opening;
      cells = g.cells.items;
      seats = g.seats.value.items;
    }) records };
}

impl Gathered {
    /// What the cells hold.
    pub fn cells(&self) -> &[u64]
        ensures { result.now ≡ self.now.cells }
    {
        &self.cells
    }

    /// Law: there is one legal list with all records of all seats.
    pub fn law_has_one_list(&self)
        ensures { (records : List Record) × IsListOf self.now records }
    {
        let _ = &self.opening;
    }

    /// Law: in that list each arming is taken at most once, the pairs of halves that setters heard
    /// are those that finders told, as a bag, and each arming is in it at most once. Each call of a law
    /// tells of a list of its own, so who needs several of these facts of one list takes them here.
    pub fn law_has_its_laws(&self)
        ensures { (records : List Record) × IsListOf self.now records × MeetOnce records
            × AllPairs ◌≢◌ (armings_taken records)
            × IsPermutation (setters_heard records) (finders_told records)
            × AllPairs ◌≢◌ (numbers_met (finders_told records)) }
    {
        self.law_has_one_list();
        law_armings_are_met_once();
        law_heard_is_told();
    }
}

impl SharedTable {
    /// Puts all seats together, and ends the table. `None` where the seat of a task is missing, or
    /// has a check unfinished: an arming without its remove, or a taking without its tell.
    pub fn gather(self, seats: Vec<TaskSeat>) -> Option<Gathered>
        requires { All (λ seat. seat.table ≡ self) seats.items }
        ensures none { IfNone result
            (IsMissing self.given seats.items ⊎ HasUnfinished seats.items) }
        ensures same { IfSome result
            (λ gathered. (gathered.given ≡ self.given) × (gathered.seats ≡ seats.items)) }
        ensures list { IfSome result
            (λ gathered. (records : List Record) × IsListOf gathered records) }
    {
        let tasks = self.tasks();
        if !has_all_seats(&seats, tasks) {
            return None;
        }
        if has_unfinished(&seats) {
            return None;
        }
        let gathered = self.end(seats);
        gathered.law_has_one_list();
        Some(gathered)
    }

    /// Ends the table, once each task has a seat here and none has a check unfinished.
    fn end(self, seats: Vec<TaskSeat>) -> Gathered
        requires theirs { All (λ seat. seat.table ≡ self) seats.items }
        requires everyone { (task : ℕ) → task < self.given.tasks → HasSeat task seats.items }
        requires finished { All (λ seat. IsFinished seat.records) seats.items }
        ensures given { result.given ≡ self.given }
        ensures seats { result.seats ≡ seats.items }
    {
        let seen = Snapshot::of(&seats);
        let from = self.cells_from();
        let SharedTable { row, opening, room } = self;
        let whole = join_all(&row, seats);
        let closed = row.close_with(whole);
        let cells = read_cells(&closed, from, room);
        closed.free();
        Gathered {
            opening,
            cells,
            seats: seen,
        }
    }
}

/// One seat with all that these hold.
fn join_all(row: &Row, mut seats: Vec<TaskSeat>) -> Seat<(), View>
    requires some_word { 0 < row.now.shared.table_id.words }
    requires theirs { All (λ seat. seat.table
        ≡ record { id = row.now.shared.table_id; given = row.now.shared.key }) seats.items }
    ensures id { result.table_id ≡ row.now.shared.table_id }
    ensures slots { result.me.1 ≡ [] }
    ensures held { result.me.0.held ≡ map held_by seats.items }
{
    let (_, mut whole) = row.shared.load_new_seat::<Sit>(0);
    while let Some(seat) = seats.pop() {
        let token = seat.into_token();
        row.shared.join_seat::<AllTasks>(&mut whole, token);
    }
    whole
}

/// Reads the cells, which stand from this place on in the row, into as much room.
fn read_cells(closed: &Closed<(), Global>, from: usize, mut cells: Vec<u64>) -> Vec<u64>
    requires full { IsFull closed.now.words }
    requires fits { from + vec_len cells ≤ slots_len closed.now.words }
    ensures { result.items ≡ section from (vec_len cells) (slots_items closed.now.words) }
{
    for cell in 0..cells.len() {
        cells[cell] = closed.word(from + cell);
    }
    cells
}

/// Whether each of so many tasks has a seat among these.
fn has_all_seats(seats: &[TaskSeat], tasks: u32) -> bool
    ensures { MatchBool result ((task : ℕ) → task < tasks → HasSeat task seats.now)
        ((task : ℕ) × (task < tasks) × All (λ seat. seat.task ≢ task) seats.now) }
{
    for task in 0..tasks {
        if !has_seat(seats, task) {
            return false;
        }
    }
    true
}

/// Whether a task has a seat among these.
fn has_seat(seats: &[TaskSeat], task: u32) -> bool
    ensures { MatchBool result (HasSeat task seats.now) (All (λ seat. seat.task ≢ task) seats.now) }
{
    for seat in seats {
        if seat.task() == task {
            return true;
        }
    }
    false
}

/// Whether some seat has a check unfinished.
fn has_unfinished(seats: &[TaskSeat]) -> bool
    ensures { MatchBool result (HasUnfinished seats.now)
        (All (λ seat. IsFinished seat.records) seats.now) }
{
    for seat in seats {
        if seat.is_unfinished() {
            return true;
        }
    }
    false
}
