//! Histories: what the tasks of a run did, moment by moment. Definitions of races speak of them.

ghost use Rattle.std.specs.Prelude.{◌≡◌, ◌≤◌, ◌%◌, ◌^◌, ℕ, Bool, Contains, take};
ghost use Rattle.access_types.specs.Access as spec;
ghost use Rattle.access_types.specs.History.{AreApart, History, InProgress, Memory, content};
ghost use Rattle.access_types.specs.History.{ending, laid, value_from};
ghost use Rattle.access_types.specs.Race.{TrueRace};
ghost use Rattle.access_types.specs.declared.history.Bytes.{Bytes};

use crate::access::Access;

/// A KCSAN call that a task makes between its accesses.
#[derive(Clone, Copy, PartialEq, Eq)]
pub enum Mark {
    /// `kcsan_disable_current`.
    Disable,
    /// `kcsan_enable_current`.
    Enable,
    /// `kcsan_nestable_atomic_begin`.
    NestOpen,
    /// `kcsan_nestable_atomic_end`.
    NestClose,
    /// `kcsan_flat_atomic_begin`.
    FlatBegin,
    /// `kcsan_flat_atomic_end`.
    FlatEnd,
    /// `kcsan_atomic_next`.
    Next(u64),
}

/// Bytes from an address on.
#[derive(Clone, Copy, Debug, PartialEq, Eq)]
pub struct Bytes {
    pub addr: u64,
    pub size: u64,
}

/// What happens at a moment. Values are little-endian.
#[derive(Clone, Copy, PartialEq, Eq)]
pub enum Happening {
    Begin(Access),
    End(Access),
    Read(Bytes, u64),
    Write(Bytes, u64),
    Lock(u32),
    Unlock(u32),
    Mark(Mark),
}

/// A moment of one task.
#[derive(Clone, Copy, PartialEq, Eq)]
pub struct Moment {
    pub task: u32,
    pub happening: Happening,
}

/// Law: a true race is symmetric.
pub fn law_races_are_symmetric()
    ensures { (plain_writes_atomic : Bool) (history : History) (s f : spec.Access)
        → TrueRace plain_writes_atomic history s f → TrueRace plain_writes_atomic history f s }
{}

/// Law: the content after no moments is the initial content.
pub fn law_content_begins_with_the_initial()
    ensures { (initial : Memory) (history : History) (bytes : Bytes)
        → content initial history 0 bytes ≡ value_from initial bytes.addr bytes.size }
{}

/// Law: the bytes of a value that was laid down are read back, up to their size.
pub fn law_laid_bytes_are_read_back()
    ensures { (memory : Memory) (bytes : Bytes) (value : ℕ)
        → value_from (laid memory bytes value) bytes.addr bytes.size ≡ value % 256 ^ bytes.size }
{}

/// Law: a value that is laid down leaves other bytes as they are.
pub fn law_other_bytes_stay()
    ensures { (memory : Memory) (bytes other : Bytes) (value : ℕ) → AreApart bytes other
        → value_from (laid memory bytes value) other.addr other.size
        ≡ value_from memory other.addr other.size }
{}

/// Law: an access that has ended is not in progress at any later moment.
pub fn law_ended_accesses_stay_ended()
    ensures { (history : History) (a : spec.Access) (k later : ℕ)
        → Contains (take k history) (ending a) → k ≤ later → ¬ InProgress history a later }
{}
