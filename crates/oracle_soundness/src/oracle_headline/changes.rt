//! Whether bytes changed under the watch of an access, in a history.

ghost use Rattle.std.specs.Prelude.{◌≡◌, ◌≢◌, ◌<◌, ◌≤◌, All, IsTrue, length};
ghost use Rattle.access_types.specs.History.{InProgress, content};
ghost use Rattle.access_types.specs.Race.{ChangedUnderWatch, Differ, bytes_of};
ghost use Rattle.access_types.specs.declared.history.Moment as spec;

use crate::oracle_definitions::{content_after, in_progress};
use access_types::{Access, Bytes, Moment, ValueChange};

/// The values differ in a bit of the mask, or in any bit where there is none.
fn differ(mask: Option<u64>, old: u64, new: u64) -> bool
    ensures { IsTrue result → Differ mask old new }
{
    match mask {
        Some(mask) => (old ^ new) & mask != 0,
        None => old != new,
    }
}

/// None of the moments is of the task.
fn none_of(task: u32, moments: &[Moment]) -> bool
    ensures { IsTrue result → All (λ (moment : spec.Moment). moment.task ≢ task) moments.now }
{
    for moment in moments {
        if moment.task == task {
            return false;
        }
    }
    true
}

/// The bytes of the access hold the value after k moments.
fn holds(history: &[Moment], access: &Access, k: usize, value: u64) -> bool
    requires { k ≤ length history.now }
    ensures { IsTrue result → content (λ _. 0) history.now k (bytes_of access.now) ≡ value }
{
    let bytes = Bytes {
        addr: access.addr(),
        size: access.size(),
    };
    match content_after(history, k, bytes) {
        Some(found) => found == value,
        None => false,
    }
}

/// The access is in progress after k moments, and its bytes hold the value.
fn goes_with(history: &[Moment], access: &Access, k: usize, value: u64) -> bool
    requires { k ≤ length history.now }
    ensures goes { IsTrue result → InProgress history.now access.now k }
    ensures holds { IsTrue result → content (λ _. 0) history.now k (bytes_of access.now) ≡ value }
{
    in_progress(history, access, k) && holds(history, access, k, value)
}

/// The bytes of the access changed so between these two moments.
fn changed_between(
    history: &[Moment],
    access: &Access,
    change: ValueChange,
    first: usize,
    later: usize,
) -> bool
    requires order { first < later }
    requires within { later ≤ length history.now }
    ensures { IsTrue result → ChangedUnderWatch (λ _. 0) history.now access.now change.old change.new }
{
    goes_with(history, access, first, change.old)
        && goes_with(history, access, later, change.new)
        && differ(access.mask(), change.old, change.new)
        && none_of(access.task(), &history[first..later])
}

/// The bytes of the access changed so by this moment.
fn changed_by(history: &[Moment], access: &Access, change: ValueChange, later: usize) -> bool
    requires within { later ≤ length history.now }
    ensures { IsTrue result → ChangedUnderWatch (λ _. 0) history.now access.now change.old change.new }
{
    for first in 0..later {
        if changed_between(history, access, change, first, later) {
            return true;
        }
    }
    false
}

/// The bytes of the access changed so under its watch.
pub fn changed(history: &[Moment], access: &Access, change: ValueChange) -> bool
    ensures { IsTrue result → ChangedUnderWatch (λ _. 0) history.now access.now change.old change.new }
{
    for later in 0..history.len() + 1 {
        if changed_by(history, access, change, later) {
            return true;
        }
    }
    false
}
