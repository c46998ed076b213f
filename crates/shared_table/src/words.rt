//! What a step has of a table, and what it makes its operations with.
//!
//! It reaches no allocator: here are numbers and the row's words, and no list, since a list lends the
//! allocator that it was made with. And it makes one operation: each one here notes one record at the
//! seat, where a step has one. The row's own operations, some of which need no seat, can be reached in
//! this file alone, so each function here is one call of one of them.

ghost use Rattle.std.specs.Prelude.{◌≡◌, ◌==◌, ◌+◌, ◌%◌, ◌^◌, ◌<◌, [], length};
ghost use mathlib.Core.Option.{none};
ghost use prog.Atomic.{either};
ghost use Rattle.std.specs.Int.Bits.{bit_or};
ghost use Rattle.atomic_table.specs.Table.{step};
ghost use Rattle.shared_table.specs.Row.{cells_from, clock_at, indices, locks_from, pairs_from};
ghost use Rattle.shared_table.specs.Touches.{HasList, HasTouched, MayTouch, NotesOne};

use crate::opening::Opening;
use crate::plays::Noted;
use crate::rule::Running;
use crate::table::SharedTable;
use crate::view::View;
use atomic_table::{Play, Seat, Shared};
use std::marker::Model;

/// The words of a table, for the steps of one task, and how many there are.
#[derive(Drop)]
pub(crate) struct SharedWords<'a> {
    row: &'a Shared<(), View, Opening, Running>,
    index_count: usize,
    cell_count: usize,
    lock_count: usize,
}

impl<'a> Model for SharedWords<'a> {
    ghost use Rattle.std.specs.Prelude.{◌≡◌, ◌<◌, ◌^◌, length};
    ghost use Rattle.shared_table.specs.Row.{indices, row_length};
    ghost use Rattle.shared_table.specs.Seats.{Opened};

    ghost Value = { Opened };

    ghost view = { λ w. record { id = w.row.now.table_id; given = w.row.now.key } };

    ghost invariant = { λ w. (w.row.now.table_id.words ≡ row_length w.row.now.key)
        × (row_length w.row.now.key < 2 ^ 64)
        × (w.index_count ≡ indices w.row.now.key)
        × (w.cell_count ≡ length w.row.now.key.cells)
        × (w.lock_count ≡ w.row.now.key.locks) };
}

/// A seat of one task at the row. Whoever has it knows a legal list with all that it holds.
#[derive(Drop)]
pub(crate) struct RowSeat {
    seat: Seat<(), View>,
}

impl Model for RowSeat {
    ghost use Rattle.std.specs.Prelude.{◌≡◌};
    ghost use Rattle.atomic_table.specs.declared.shared.Seat.{Seat};
    ghost use Rattle.shared_table.specs.Touches.{HasList};
    ghost use Rattle.shared_table.specs.declared.view.View.{View};

    ghost Value = { Seat (Unit {0}) View };

    ghost view = { λ s. s.seat };

    ghost invariant = { λ s. HasList s.seat.me.0 };
}

impl RowSeat {
    /// A seat, as it is.
    pub(crate) fn new(seat: Seat<(), View>) -> RowSeat
        requires { HasList seat.me.0 }
        ensures { result ≡ seat }
    {
        RowSeat { seat }
    }

    /// The seat, as it is.
    pub(crate) fn into_seat(self) -> Seat<(), View>
        ensures { result ≡ self }
    {
        self.seat
    }

    /// Law: a legal list has just the records that it holds.
    pub(crate) fn law_has_one_list(&self)
        ensures { HasList self.now.me.0 }
    {
        let _ = &self.seat;
    }
}

impl SharedTable {
    /// What a step has of it.
    pub(crate) fn words(&self) -> SharedWords<'_>
        ensures { result ≡ self.now }
    {
        SharedWords {
            row: &self.row.shared,
            index_count: self.opening.slots + 2,
            cell_count: self.opening.cells.len(),
            lock_count: self.opening.locks,
        }
    }
}

impl<'a> SharedWords<'a> {
    /// Where in the row the pair word of an index stands.
    pub(crate) fn pair_at(&self, index: usize) -> usize
        requires { index < indices self.now.given }
        ensures { result ≡ pairs_from self.now.given + index }
    {
        self.index_count + index
    }

    /// Where in the row a cell stands.
    pub(crate) fn cell_at(&self, cell: usize) -> usize
        requires { cell < length self.now.given.cells }
        ensures { result ≡ cells_from self.now.given + cell }
    {
        self.index_count + self.index_count + cell
    }

    /// Where in the row a lock word stands.
    pub(crate) fn lock_at(&self, lock: usize) -> usize
        requires { lock < self.now.given.locks }
        ensures { result ≡ locks_from self.now.given + lock }
    {
        self.index_count + self.index_count + self.cell_count + lock
    }

    /// Where in the row the clock stands.
    pub(crate) fn clock_at(&self) -> usize
        ensures { result ≡ clock_at self.now.given }
    {
        self.index_count + self.index_count + self.cell_count + self.lock_count
    }
}

impl<'a> SharedWords<'a> {
    /// Reads a word.
    pub(crate) fn load<M: Play<(), View>>(&self, seat: &mut RowSeat, place: usize) -> u64
        requires { MayTouch self.now seat.old place (λ n. n)
            (M.then (step self.now.id.slots place 0 0 none) seat.old.me) }
        ensures told { HasTouched seat.old seat.new
            (M.then (step self.now.id.slots place 0 0 none) seat.old.me result) }
        ensures noted { NotesOne seat.old.me.0 seat.new.me.0 }
    {
        self.row.load::<Noted<M>>(&mut seat.seat, place)
    }

    /// Writes a word.
    pub(crate) fn store<M: Play<(), View>>(&self, seat: &mut RowSeat, place: usize, new: u64)
        requires { MayTouch self.now seat.old place (λ _. new)
            (λ _. M.then (step self.now.id.slots place new 0 none) seat.old.me new) }
        ensures told { HasTouched seat.old seat.new
            (M.then (step self.now.id.slots place new 0 none) seat.old.me new) }
        ensures noted { NotesOne seat.old.me.0 seat.new.me.0 }
    {
        self.row.store::<Noted<M>>(&mut seat.seat, place, new)
    }

    /// Writes a word, and answers what it was.
    pub(crate) fn swap<M: Play<(), View>>(&self, seat: &mut RowSeat, place: usize, new: u64) -> u64
        requires { MayTouch self.now seat.old place (λ _. new)
            (M.then (step self.now.id.slots place new 0 none) seat.old.me) }
        ensures told { HasTouched seat.old seat.new
            (M.then (step self.now.id.slots place new 0 none) seat.old.me result) }
        ensures noted { NotesOne seat.old.me.0 seat.new.me.0 }
    {
        self.row.swap::<Noted<M>>(&mut seat.seat, place, new)
    }

    /// Adds to a word, and answers what it was.
    pub(crate) fn fetch_add<M: Play<(), View>>(
        &self,
        seat: &mut RowSeat,
        place: usize,
        more: u64,
    ) -> u64
        requires { MayTouch self.now seat.old place (λ n. (n + more) % 2 ^ 64)
            (M.then (step self.now.id.slots place more 0 none) seat.old.me) }
        ensures told { HasTouched seat.old seat.new
            (M.then (step self.now.id.slots place more 0 none) seat.old.me result) }
        ensures noted { NotesOne seat.old.me.0 seat.new.me.0 }
    {
        self.row.fetch_add::<Noted<M>>(&mut seat.seat, place, more)
    }

    /// Sets bits of a word, and answers what it was.
    pub(crate) fn fetch_or<M: Play<(), View>>(
        &self,
        seat: &mut RowSeat,
        place: usize,
        bits: u64,
    ) -> u64
        requires { MayTouch self.now seat.old place (λ n. bit_or n bits)
            (M.then (step self.now.id.slots place bits 0 none) seat.old.me) }
        ensures told { HasTouched seat.old seat.new
            (M.then (step self.now.id.slots place bits 0 none) seat.old.me result) }
        ensures noted { NotesOne seat.old.me.0 seat.new.me.0 }
    {
        self.row.fetch_or::<Noted<M>>(&mut seat.seat, place, bits)
    }

    /// Writes a word that is the expected one, and answers what it was.
    pub(crate) fn compare_exchange<M: Play<(), View>>(
        &self,
        seat: &mut RowSeat,
        place: usize,
        expected: u64,
        new: u64,
    ) -> u64
        requires { MayTouch self.now seat.old place (λ n. either (n == expected) new n)
            (M.then (step self.now.id.slots place expected new none) seat.old.me) }
        ensures told { HasTouched seat.old seat.new
            (M.then (step self.now.id.slots place expected new none) seat.old.me result) }
        ensures noted { NotesOne seat.old.me.0 seat.new.me.0 }
    {
        self.row
            .compare_exchange::<Noted<M>>(&mut seat.seat, place, expected, new)
    }
}
