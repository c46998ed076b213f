//! The board of one task on the shared words. Code that is written for any `Board` runs on it as it
//! is.

ghost use Rattle.std.specs.Prelude.{◌≡◌, ◌↔◌, ℕ, IsTrue, List};
ghost use Rattle.slot_table.specs.Answer.{Answers};
ghost use Rattle.slot_table.specs.Records.{words_after};
ghost use Rattle.slot_table.specs.Roles.{Stands};
ghost use Rattle.slot_table.specs.StepLine.{Names};
ghost use Rattle.slot_table.specs.declared.records.Record.{Record};
ghost use Rattle.shared_table.specs.Given.{first_words};
ghost use Rattle.shared_table.specs.Seats.{IsListAt, MayMake, seat_after};

use crate::seat::TaskSeat;
use crate::table::SharedTable;
use crate::words::SharedWords;
use slot::CONSUMED;
use slot_table::laws::law_roles;
use slot_table::{Answer, Board, Step};
use std::marker::Model;

/// A task at its seat, before the shared words. Each step is one atomic operation on one word, which
/// can't fail: each operation in its reach notes one record, and a step has one. Nothing in its reach
/// lends an allocator.
#[derive(Drop)]
pub struct SharedBoard<'a> {
    words: SharedWords<'a>,
    seat: TaskSeat,
}

impl<'a> Model for SharedBoard<'a> {
    ghost use Rattle.std.specs.Prelude.{◌≡◌};
    ghost use Rattle.shared_table.specs.Seats.{Sitting};

    ghost Value = { Sitting };

    ghost view = { λ b. b.seat };

    ghost invariant = { λ b. b.seat.table ≡ b.words };
}

impl SharedTable {
    /// The board of the task whose seat it is.
    pub fn board(&self, seat: TaskSeat) -> SharedBoard<'_>
        requires { seat.table ≡ self.now }
        ensures { result ≡ seat }
    {
        SharedBoard {
            words: self.words(),
            seat,
        }
    }
}

impl SharedTable {
    /// Whether the step names one of its words, and sets up or claims a watch word above 1 alone.
    #[tactic(auto, using(crate::proofs::Sections::lengths))]
    pub fn has(&self, step: Step) -> bool
        ensures { IsTrue result ↔ Names (first_words self.now.given) step }
    {
        let indices = self.opening.slots + 2;
        match step {
            Step::Load(index) | Step::Consume(index) | Step::Remove(index) => index < indices,
            Step::Insert(index, word) | Step::TryConsume(index, word) => {
                index < indices && word > CONSUMED
            }
            Step::PairLoad(index)
            | Step::Name(index, _)
            | Step::Tell(index, _)
            | Step::Clear(index) => index < indices,
            Step::CellLoad(cell) | Step::CellExchange(cell, _, _) => {
                cell < self.opening.cells.len()
            }
            Step::LockTry(lock, _) | Step::LockStore(lock) => lock < self.opening.locks,
            Step::Clock => true,
        }
    }
}

impl<'a> SharedBoard<'a> {
    /// The seat, with all that the task has seen.
    pub fn into_seat(self) -> TaskSeat
        ensures { result ≡ self.entry }
    {
        self.seat
    }

    /// Law: a list that is legal from the first words on, each task by the discipline, has just the
    /// seat's records of its task. No step is made. Each call tells of a list of its own.
    pub fn law_has_one_list(&self)
        ensures { (records : List Record) × IsListAt self.now records }
    {
        self.seat.law_has_one_list();
    }

    /// Law: in such a list the words and the parts of all tasks stand, index by index, as the table of
    /// roles has it. Who needs both facts of one list takes them here.
    pub fn law_has_roles(&self)
        ensures { (records : List Record) × IsListAt self.now records
            × ((index : ℕ) → Stands (words_after (first_words self.now.table.given) records) records index) }
    {
        law_roles();
        self.seat.law_has_one_list();
    }

    /// Makes a step, by the operation of its kind.
    fn make(&mut self, step: Step) -> Answer
        requires { MayMake self.old step }
        ensures kind { Answers step result }
        ensures made { self.new ≡ seat_after self.old step result }
    {
        let words = &self.words;
        let seat = &mut self.seat;
        match step {
            Step::Load(index) => seat.load(words, index),
            Step::Insert(index, word) => seat.insert(words, index, word),
            Step::TryConsume(index, word) => seat.try_consume(words, index, word),
            Step::Consume(index) => seat.consume(words, index),
            Step::Remove(index) => seat.remove(words, index),
            Step::PairLoad(index) => seat.pair_load(words, index),
            Step::Name(index, ticket) => seat.name(words, index, ticket),
            Step::Tell(index, ticket) => seat.tell(words, index, ticket),
            Step::Clear(index) => seat.clear(words, index),
            Step::CellLoad(cell) => seat.cell_load(words, cell),
            Step::CellExchange(cell, expected, new) => {
                seat.cell_exchange(words, cell, expected, new)
            }
            Step::LockTry(lock, task) => seat.lock_try(words, lock, task),
            Step::LockStore(lock) => seat.lock_store(words, lock),
            Step::Clock => seat.tick(words),
        }
    }
}

impl<'a> Board for SharedBoard<'a> {
    ghost may_make = { MayMake };

    ghost makes = { λ old step answer new. new ≡ seat_after old step answer };

    fn step(&mut self, step: Step) -> Answer
        requires { MayMake self.old step }
        ensures kind { Answers step result }
        ensures made { self.new ≡ seat_after self.old step result }
        ensures list { (records : List Record) × IsListAt self.new records }
    {
        let answer = self.make(step);
        self.law_has_one_list();
        answer
    }
}
