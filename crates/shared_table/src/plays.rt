//! What each kind of step tells the seat that makes it: that it has noted this step, with the
//! answer that the word found gives. And how a seat of all tasks is cut into one seat
//! a task, and put together again.

ghost use Rattle.shared_table.specs.Plays.{Clears, Consumes, ExchangesCell, Inserts, Loads};
ghost use Rattle.shared_table.specs.Plays.{LoadsCell, LoadsPair, Names, Removes, Sits, StoresLock};
ghost use Rattle.shared_table.specs.Plays.{TellsFinder, Ticks, TriesLock, TriesToConsume};

use crate::view::View;
use atomic_table::{Join, Play, Split};
use std::marker::PhantomData;

pub struct Load;

impl Play<(), View> for Load {
    ghost then = { Loads };
}

pub struct Insert;

impl Play<(), View> for Insert {
    ghost then = { Inserts };
}

pub struct TryConsume;

impl Play<(), View> for TryConsume {
    ghost then = { TriesToConsume };
}

pub struct Consume;

impl Play<(), View> for Consume {
    ghost then = { Consumes };
}

pub struct Remove;

impl Play<(), View> for Remove {
    ghost then = { Removes };
}

pub struct PairLoad;

impl Play<(), View> for PairLoad {
    ghost then = { LoadsPair };
}

pub struct Name;

impl Play<(), View> for Name {
    ghost then = { Names };
}

pub struct Tell;

impl Play<(), View> for Tell {
    ghost then = { TellsFinder };
}

pub struct Clear;

impl Play<(), View> for Clear {
    ghost then = { Clears };
}

pub struct CellLoad;

impl Play<(), View> for CellLoad {
    ghost then = { LoadsCell };
}

pub struct CellExchange;

impl Play<(), View> for CellExchange {
    ghost then = { ExchangesCell };
}

pub struct LockTry;

impl Play<(), View> for LockTry {
    ghost then = { TriesLock };
}

pub struct LockStore;

impl Play<(), View> for LockStore {
    ghost then = { StoresLock };
}

pub struct Clock;

impl Play<(), View> for Clock {
    ghost then = { Ticks };
}

/// The first task of a seat gets a seat of its own.
pub struct FirstTask;

impl Split<View> for FirstTask {
    ghost use Rattle.shared_table.specs.Views.{first_of, without_first};

    ghost left = { λ v. record v { held = without_first v.held } };

    ghost right = { λ v. record v { held = first_of v.held } };
}

/// A new seat sits down.
pub struct Sit;

impl Play<(), View> for Sit {
    ghost then = { Sits };
}

/// One seat takes in what the others hold.
pub struct AllTasks;

impl Join<View> for AllTasks {
    ghost use Rattle.shared_table.specs.Views.{nothing_held, with_both};

    ghost both = { with_both };

    ghost spent = { nothing_held };
}

/// What a play tells, of an operation that notes one record at the seat.
pub struct Noted<M> {
    of: PhantomData<M>,
}

impl<M: Play<(), View>> Play<(), View> for Noted<M> {
    ghost use Rattle.shared_table.specs.Touches.{NotesAndKeeps};

    ghost then = { λ on before found after. NotesAndKeeps (M.then on before) before found after };
}
