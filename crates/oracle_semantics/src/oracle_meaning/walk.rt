//! How far a task has come, and how it goes on.

ghost use Rattle.std.specs.Prelude.{◌≡◌, ◌∷◌, [], IfOk, count_by};
ghost use Rattle.access_types.specs.declared.history.Happening.TheVariants.{Read};
ghost use Rattle.litmus_semantics.specs.Task as spec;
ghost use Rattle.oracle_semantics.specs.oracle_meaning.Walks.{Takes, stands, value_read};

use access_types::{Bytes, Happening};
use litmus_semantics::cut;
use std::alloc::{AllocError, AllocFailed};
use thiserror::Error;

/// Why a text has no meaning with the values that are given for its reads.
#[derive(Clone, Copy, Debug, PartialEq, Eq, Error)]
pub enum NoMeaning {
    #[error("a read has no value left")]
    TooFew,
    #[error("values are left after the last read")]
    TooMany,
    #[error("a value doesn't fit the bytes that are read")]
    TooLarge,
    #[error("an access is outside of the limits")]
    NoAccess,
    #[error("out of memory")]
    OutOfMemory,
}

impl From<AllocError> for NoMeaning {
    fn from(_: AllocError) -> NoMeaning {
        NoMeaning::OutOfMemory
    }
}

impl<T: Drop> From<AllocFailed<T>> for NoMeaning {
    fn from(_: AllocFailed<T>) -> NoMeaning {
        NoMeaning::OutOfMemory
    }
}

/// The task whose text it is, and the bytes of the program's variables, by their numbers.
#[derive(Clone, Copy)]
pub struct Given<'a> {
    pub task: u32,
    pub bytes: &'a [Bytes],
}

/// What a task did so far and its registers, and the values of the reads that are still to come.
#[derive(Drop)]
pub struct Walk {
    pub did: Vec<Happening>,
    pub registers: Vec<u64>,
    pub values: Vec<u64>,
}

impl Walk {
    /// After this has happened, which is no read.
    pub fn doing(self, happening: Happening) -> Result<Walk, NoMeaning>
        requires { value_read happening ≡ [] }
        ensures comes { IfOk result (λ after. stands after ≡ spec.doing (stands self) (happening ∷ [])) }
        ensures takes { IfOk result (Takes self) }
    {
        let mut after = self;
        after.did.push(happening)?;
        Ok(after)
    }

    /// After a read of these bytes, and its value: the next of those given.
    ///
    /// `TooFew`: none is left. `TooLarge`: it doesn't fit these bytes.
    pub fn reading(self, bytes: Bytes) -> Result<(Walk, u64), NoMeaning>
        ensures comes { IfOk result (λ found. stands found.0 ≡ spec.doing (stands self) (Read bytes found.1 ∷ [])) }
        ensures takes { IfOk result (λ found. Takes self found.0) }
    {
        let mut after = self;
        let Some(value) = after.values.first().copied() else {
            return Err(NoMeaning::TooFew);
        };
        after.values.remove(0);
        if cut(value, bytes.size) != value {
            return Err(NoMeaning::TooLarge);
        }
        after.did.push(Happening::Read(bytes, value))?;
        Ok((after, value))
    }

    /// After a register has got a value. One that isn't there gets none.
    pub fn assigning(self, register: usize, value: u64) -> Walk
        ensures comes { stands result ≡ spec.assigning (stands self) register value }
        ensures takes { Takes self result }
    {
        let mut after = self;
        if let Some(place) = after.registers.get_mut(register) {
            *place = value;
        }
        after
    }

    /// How many accesses of a site began so far.
    pub fn begun_at(&self, site: u32) -> usize
        ensures { result ≡ count_by (spec.begins_at site) self.now.did.items }
    {
        let begins =
            |happening: &&Happening| matches!(**happening, Happening::Begin(a) if a.site() == site);
        self.did.iter().filter(begins).count()
    }

    /// The task has the lock of a number.
    pub fn has_lock(&self, lock: u32) -> bool
        ensures { result ≡ spec.has_lock lock self.now.did.items }
    {
        let mut has = false;
        for happening in &self.did {
            match *happening {
                Happening::Lock(at) if at == lock => has = true,
                Happening::Unlock(at) if at == lock => has = false,
                _ => {}
            }
        }
        has
    }
}
