//! A task's seat: the token of what the task has seen. Each step on the shared words needs it and
//! keeps it.

ghost use Rattle.std.specs.Prelude.{◌≡◌, ◌==◌, ◌<◌, ◌*◌, ◌^◌, ℕ, List, true, [], if◌then◌else◌, is_some};
ghost use Rattle.slot_table.specs.declared.step.Answer.TheVariants as answers;
ghost use Rattle.slot_table.specs.Answer.{Answers};
ghost use Rattle.slot_table.specs.Discipline.{in_hand};
ghost use Rattle.slot_table.specs.declared.records.Record.{Record};
ghost use Rattle.slot_table.specs.declared.step.Step.TheVariants as steps;
ghost use Rattle.shared_table.specs.Seats.{IsListAt, MayMake, seat_after};
ghost use Rattle.shared_table.specs.Views.{alone};

use crate::plays;
use crate::view::View;
use crate::words::{RowSeat, SharedWords};
use atomic_table::Seat;
use slot::CONSUMED;
use slot_table::Answer;
use std::marker::Model;

/// The setter's half of a pair word is above so many bits, and the finder's below.
const HALF: u32 = 32;

/// The bits of the finder's half.
const LOWER_HALF: u64 = 0xFFFF_FFFF;

/// The token of what a task has seen.
#[derive(Drop)]
pub struct TaskSeat {
    task: u32,
    /// Whether a handshake is in hand.
    is_open: bool,
    seat: RowSeat,
}

impl Model for TaskSeat {
    ghost use Rattle.std.specs.Prelude.{◌≡◌, ◌<◌, ◌≤◌, [], is_some};
    ghost use Rattle.slot_table.specs.Discipline.{in_hand};
    ghost use Rattle.shared_table.specs.Seats.{Sitting};
    ghost use Rattle.shared_table.specs.Views.{alone, own_records};

    ghost Value = { Sitting };

    ghost view = { λ s. record {
      table = record { id = s.seat.table_id; given = s.seat.me.0.opening };
      task = s.task;
      records = own_records s.seat.me.0.held;
    } };

    ghost invariant = { λ s.
        (s.seat.me ≡ (alone s.seat.me.0.opening s.task (own_records s.seat.me.0.held), []))
        × (s.is_open ≡ is_some (in_hand (own_records s.seat.me.0.held)))
        × (s.task < s.seat.me.0.opening.tasks) };
}

impl TaskSeat {
    /// A seat of a task that has made no step.
    pub(crate) fn new(task: u32, seat: Seat<(), View>) -> TaskSeat
        requires alone { seat.me ≡ (alone seat.me.0.opening task [], []) }
        requires below { task < seat.me.0.opening.tasks }
        ensures { result ≡ record {
          table = record { id = seat.table_id; given = seat.me.0.opening };
          task = task;
          records = [];
        } }
    {
        TaskSeat {
            task,
            is_open: false,
            seat: RowSeat::new(seat),
        }
    }

    /// Whose seat it is.
    pub fn task(&self) -> u32
        ensures { result ≡ self.now.task }
    {
        self.task
    }

    /// Whether the task has a check unfinished: an arming without its remove, or a taking without
    /// its tell.
    pub fn is_unfinished(&self) -> bool
        ensures { result ≡ is_some (in_hand self.now.records) }
    {
        self.is_open
    }

    /// What it knows, apart.
    pub(crate) fn into_token(self) -> Seat<(), View>
        ensures id { result.table_id ≡ self.table.id }
        ensures me { result.me ≡ (alone self.table.given self.task self.records, []) }
    {
        self.seat.into_seat()
    }

    /// Law: a list that is legal from the first words on, each task by the discipline, has just these
    /// records of the task. Each call tells of a list of its own.
    pub fn law_has_one_list(&self)
        ensures { (records : List Record) × IsListAt self.now records }
    {
        self.seat.law_has_one_list();
    }

    /// Reads the watch word at an index.
    pub(crate) fn load(&mut self, words: &SharedWords<'_>, index: usize) -> Answer
        requires table { self.old.table ≡ words.now }
        requires may { MayMake self.old (steps.Load index) }
        ensures kind { Answers (steps.Load index) result }
        ensures made { self.new ≡ seat_after self.old (steps.Load index) result }
    {
        Answer::Word(words.load::<plays::Load>(&mut self.seat, index))
    }

    /// Sets up a watchpoint at an index, if there is none.
    pub(crate) fn insert(&mut self, words: &SharedWords<'_>, index: usize, word: u64) -> Answer
        requires table { self.old.table ≡ words.now }
        requires may { MayMake self.old (steps.Insert index word) }
        ensures kind { Answers (steps.Insert index word) result }
        ensures made { self.new ≡ seat_after self.old (steps.Insert index word) result }
    {
        let found = words.compare_exchange::<plays::Insert>(&mut self.seat, index, 0, word);
        self.is_open = found == 0;
        Answer::Flag(self.is_open)
    }

    /// Claims the watchpoint at an index, if it is still this word.
    pub(crate) fn try_consume(&mut self, words: &SharedWords<'_>, index: usize, word: u64) -> Answer
        requires table { self.old.table ≡ words.now }
        requires may { MayMake self.old (steps.TryConsume index word) }
        ensures kind { Answers (steps.TryConsume index word) result }
        ensures made { self.new ≡ seat_after self.old (steps.TryConsume index word) result }
    {
        let found = words.compare_exchange::<plays::TryConsume>(
            &mut self.seat,
            index,
            word,
            CONSUMED,
        );
        self.is_open = found == word;
        Answer::Flag(self.is_open)
    }

    /// Ends the watch at an index.
    pub(crate) fn consume(&mut self, words: &SharedWords<'_>, index: usize) -> Answer
        requires table { self.old.table ≡ words.now }
        requires may { MayMake self.old (steps.Consume index) }
        ensures kind { Answers (steps.Consume index) result }
        ensures made { self.new ≡ seat_after self.old (steps.Consume index) result }
    {
        let found = words.swap::<plays::Consume>(&mut self.seat, index, CONSUMED);
        self.is_open = true;
        Answer::Flag(found != 0 && found != CONSUMED)
    }

    /// Frees an index.
    pub(crate) fn remove(&mut self, words: &SharedWords<'_>, index: usize) -> Answer
        requires table { self.old.table ≡ words.now }
        requires may { MayMake self.old (steps.Remove index) }
        ensures kind { Answers (steps.Remove index) result }
        ensures made { self.new ≡ seat_after self.old (steps.Remove index) result }
    {
        words.store::<plays::Remove>(&mut self.seat, index, 0);
        self.is_open = false;
        Answer::Done
    }

    /// Reads both halves of the pair word at an index.
    pub(crate) fn pair_load(&mut self, words: &SharedWords<'_>, index: usize) -> Answer
        requires table { self.old.table ≡ words.now }
        requires may { MayMake self.old (steps.PairLoad index) }
        ensures kind { Answers (steps.PairLoad index) result }
        ensures made { self.new ≡ seat_after self.old (steps.PairLoad index) result }
    {
        let place = words.pair_at(index);
        let both = words.load::<plays::PairLoad>(&mut self.seat, place);
        Answer::Halves((both >> HALF) as u32, (both & LOWER_HALF) as u32)
    }

    /// Names the setter at an index by its ticket.
    pub(crate) fn name(&mut self, words: &SharedWords<'_>, index: usize, ticket: u32) -> Answer
        requires table { self.old.table ≡ words.now }
        requires may { MayMake self.old (steps.Name index ticket) }
        ensures kind { Answers (steps.Name index ticket) result }
        ensures made { self.new ≡ seat_after self.old (steps.Name index ticket) result }
    {
        let place = words.pair_at(index);
        let half = setters_half(ticket);
        words.fetch_or::<plays::Name>(&mut self.seat, place, half);
        self.is_open = true;
        Answer::Done
    }

    /// Tells the setter at an index who took its watchpoint, by the finder's ticket.
    pub(crate) fn tell(&mut self, words: &SharedWords<'_>, index: usize, ticket: u32) -> Answer
        requires table { self.old.table ≡ words.now }
        requires may { MayMake self.old (steps.Tell index ticket) }
        ensures kind { Answers (steps.Tell index ticket) result }
        ensures made { self.new ≡ seat_after self.old (steps.Tell index ticket) result }
    {
        let place = words.pair_at(index);
        let half = u64::from(ticket);
        words.fetch_or::<plays::Tell>(&mut self.seat, place, half);
        self.is_open = false;
        Answer::Done
    }

    /// Empties both halves of the pair word at an index.
    pub(crate) fn clear(&mut self, words: &SharedWords<'_>, index: usize) -> Answer
        requires table { self.old.table ≡ words.now }
        requires may { MayMake self.old (steps.Clear index) }
        ensures kind { Answers (steps.Clear index) result }
        ensures made { self.new ≡ seat_after self.old (steps.Clear index) result }
    {
        let place = words.pair_at(index);
        words.store::<plays::Clear>(&mut self.seat, place, 0);
        self.is_open = true;
        Answer::Done
    }

    /// Reads a cell.
    pub(crate) fn cell_load(&mut self, words: &SharedWords<'_>, cell: usize) -> Answer
        requires table { self.old.table ≡ words.now }
        requires may { MayMake self.old (steps.CellLoad cell) }
        ensures kind { Answers (steps.CellLoad cell) result }
        ensures made { self.new ≡ seat_after self.old (steps.CellLoad cell) result }
    {
        let place = words.cell_at(cell);
        Answer::Word(words.load::<plays::CellLoad>(&mut self.seat, place))
    }

    /// Puts a new value into a cell, if it holds the expected one.
    pub(crate) fn cell_exchange(
        &mut self,
        words: &SharedWords<'_>,
        cell: usize,
        expected: u64,
        new: u64,
    ) -> Answer
        requires table { self.old.table ≡ words.now }
        requires may { MayMake self.old (steps.CellExchange cell expected new) }
        ensures kind { Answers (steps.CellExchange cell expected new) result }
        ensures made { self.new ≡ seat_after self.old (steps.CellExchange cell expected new) result }
    {
        let place = words.cell_at(cell);
        let found = words.compare_exchange::<plays::CellExchange>(
            &mut self.seat,
            place,
            expected,
            new,
        );
        exchanged(found, expected)
    }

    /// Takes a lock for a task, if it is free.
    pub(crate) fn lock_try(&mut self, words: &SharedWords<'_>, lock: usize, task: u32) -> Answer
        requires table { self.old.table ≡ words.now }
        requires may { MayMake self.old (steps.LockTry lock task) }
        ensures kind { Answers (steps.LockTry lock task) result }
        ensures made { self.new ≡ seat_after self.old (steps.LockTry lock task) result }
    {
        let place = words.lock_at(lock);
        let holder = 1 + u64::from(task);
        let found = words.compare_exchange::<plays::LockTry>(&mut self.seat, place, 0, holder);
        Answer::Flag(found == 0)
    }

    /// Frees a lock.
    pub(crate) fn lock_store(&mut self, words: &SharedWords<'_>, lock: usize) -> Answer
        requires table { self.old.table ≡ words.now }
        requires may { MayMake self.old (steps.LockStore lock) }
        ensures kind { Answers (steps.LockStore lock) result }
        ensures made { self.new ≡ seat_after self.old (steps.LockStore lock) result }
    {
        let place = words.lock_at(lock);
        words.store::<plays::LockStore>(&mut self.seat, place, 0);
        Answer::Done
    }

    /// Advances the clock.
    pub(crate) fn tick(&mut self, words: &SharedWords<'_>) -> Answer
        requires table { self.old.table ≡ words.now }
        requires may { MayMake self.old (steps.Clock) }
        ensures kind { Answers (steps.Clock) result }
        ensures made { self.new ≡ seat_after self.old (steps.Clock) result }
    {
        let place = words.clock_at();
        Answer::Word(words.fetch_add::<plays::Clock>(&mut self.seat, place, 1))
    }
}

/// A pair word with this ticket in the setter's half, and nothing in the finder's.
fn setters_half(ticket: u32) -> u64
    ensures { result ≡ ticket * 2 ^ 32 }
{
    u64::from(ticket) << HALF
}

/// What an exchange of a cell answers, by what it found there.
fn exchanged(found: u64, expected: u64) -> Answer
    ensures kind { (cell new : ℕ) → Answers (steps.CellExchange cell expected new) result }
    ensures value { result
        ≡ (if found == expected then answers.Flag true else answers.Word found) }
{
    if found == expected {
        Answer::Flag(true)
    } else {
        Answer::Word(found)
    }
}
