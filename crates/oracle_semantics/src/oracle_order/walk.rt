//! How far a task has come whose records are read.

ghost use Rattle.std.specs.Prelude.{◌≡◌, ◌∷◌, [], IfOk};
ghost use Rattle.litmus_semantics.specs.Task as spec;
ghost use Rattle.oracle_semantics.specs.oracle_order.Walks.{stands};

use crate::oracle_meaning::NoMeaning;
use access_types::Happening;
use litmus_syntax::Variable;
use slot_table::Record;
use std::alloc::{AllocError, AllocFailed};
use thiserror::Error;

/// Why records aren't said to spell a text.
#[derive(Clone, Copy, Debug, PartialEq, Eq, Error)]
pub enum NotSpelled {
    #[error("a record is missing, or is of another step, task or answer")]
    Other,
    #[error("records are left after the text")]
    TooMany,
    #[error("the text makes an access, or a mark")]
    NotRead,
    #[error("out of memory")]
    OutOfMemory,
}

impl From<NoMeaning> for NotSpelled {
    fn from(_: NoMeaning) -> NotSpelled {
        NotSpelled::NotRead
    }
}

impl From<AllocError> for NotSpelled {
    fn from(_: AllocError) -> NotSpelled {
        NotSpelled::OutOfMemory
    }
}

impl<T: Drop> From<AllocFailed<T>> for NotSpelled {
    fn from(_: AllocFailed<T>) -> NotSpelled {
        NotSpelled::OutOfMemory
    }
}

/// The task whose text it is, and the program's variables.
#[derive(Clone, Copy)]
pub struct Given<'a> {
    pub task: u32,
    pub variables: &'a [Variable],
}

/// What a task did so far and its registers, and the records that are left, the oldest first.
#[derive(Drop)]
pub struct Walk {
    pub did: Vec<Happening>,
    pub registers: Vec<u64>,
    pub left: Vec<Record>,
}

impl Walk {
    /// The first record that is left, and the task after it.
    pub fn next(self) -> Result<(Record, Walk), NotSpelled>
        ensures first { IfOk result (λ found. self.left.items ≡ found.0 ∷ found.1.left.items) }
        ensures stays { IfOk result (λ found. stands found.1 ≡ stands self) }
    {
        let mut after = self;
        let Some(first) = after.left.first().copied() else {
            return Err(NotSpelled::Other);
        };
        after.left.remove(0);
        Ok((first, after))
    }

    /// After this has happened.
    pub fn doing(self, happening: Happening) -> Result<Walk, NotSpelled>
        ensures comes { IfOk result (λ after. stands after ≡ spec.doing (stands self) (happening ∷ [])) }
        ensures left { IfOk result (λ after. after.left.items ≡ self.left.items) }
    {
        let mut after = self;
        after.did.push(happening)?;
        Ok(after)
    }

    /// After a register has got a value. One that isn't there gets none.
    pub fn assigning(self, register: usize, value: u64) -> Walk
        ensures comes { stands result ≡ spec.assigning (stands self) register value }
        ensures left { result.left.items ≡ self.left.items }
    {
        let mut after = self;
        if let Some(place) = after.registers.get_mut(register) {
            *place = value;
        }
        after
    }

    /// The task has the lock of a number.
    pub fn has_lock(&self, lock: u32) -> bool
        ensures { result ≡ spec.has_lock lock self.now.did.items }
    {
        let mut has = false;
        for happening in &self.did {
            match *happening {
                Happening::Lock(at) if at == lock => has = true,
                Happening::Unlock(at) if at == lock => has = false,
                _ => {}
            }
        }
        has
    }
}
