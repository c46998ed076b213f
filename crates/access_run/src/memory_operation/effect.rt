//! What comes of an operation on memory.

ghost use Rattle.std.specs.Prelude.{◌≡◌, unwrap_or};
ghost use Rattle.access_run.specs.memory_operation.Effects as spec;

use crate::memory_operation::operation::Change;
use crate::memory_operation::values::new_value;

/// The value that was read in the bytes of an access, and the one that was written there.
#[derive(Clone, Copy, PartialEq, Eq)]
pub struct Effect {
    pub read: Option<u64>,
    pub written: Option<u64>,
}

impl Effect {
    /// Nothing was read and nothing written.
    #[inline(always)]
    pub(crate) fn nothing() -> Effect
        ensures { result ≡ spec.nothing }
    {
        Effect {
            read: None,
            written: None,
        }
    }

    /// A value was read.
    #[inline(always)]
    pub(crate) fn only_read(old: u64) -> Effect
        ensures { result ≡ spec.only_read old }
    {
        Effect {
            read: Some(old),
            written: None,
        }
    }

    /// A change was made where the bytes, so many, held `old`. A write reads nothing.
    #[inline(always)]
    pub(crate) fn changed(size: u64, change: Change, old: u64) -> Effect
        ensures { result ≡ spec.changed size change old }
    {
        let written = Some(new_value(size, change, old));
        let read = match change {
            Change::Write(_) => None,
            _ => Some(old),
        };
        Effect { read, written }
    }

    /// The value that was read; 0 where none was.
    pub(crate) fn value_read(self) -> u64
        ensures { result ≡ unwrap_or self.read 0 }
    {
        match self.read {
            Some(value) => value,
            None => 0,
        }
    }

    /// What comes of this and of what is later.
    #[inline(always)]
    pub(crate) fn and_then(self, later: Effect) -> Effect
        ensures { result ≡ spec.and_then self later }
    {
        Effect {
            read: self.read.or(later.read),
            written: self.written.or(later.written),
        }
    }
}
