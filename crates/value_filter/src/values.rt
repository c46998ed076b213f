//! Changes of the bytes of an access under its watch.

ghost use Rattle.std.specs.Prelude.{◌≡◌, ◌↔◌, ℕ, IsNone, IsSome, IsTrue, Option};
ghost use Rattle.access_types.specs.Race.{Differ};
ghost use Rattle.value_filter.specs.Change.{BitDiffers, IsSeen, seen_values};

use crate::verdict::Change;
use access_types::{Access, ValueChange};

/// What the old and the new value of an access's bytes say of a change, or what is said where none
/// were loaded. The mask of an access has a bit, since `Access::new_rep` makes one without a bit
/// none.
#[inline(always)]
pub fn change(access: &Access, values: Option<(u64, u64)>) -> Change
    ensures seen { (result ≡ Change.Seen) ↔ IsSeen access.now values }
    ensures ruled { (result ≡ Change.Ruled)
        ↔ (¬ IsSeen access.now values × IsSome access.now.mask) }
    ensures maybe { (result ≡ Change.Maybe)
        ↔ (¬ IsSeen access.now values × IsNone access.now.mask) }
{
    let mask = access.mask();
    match values {
        Some((old, new)) if differ(mask, old, new) => Change::Seen,
        // Also where no values were loaded: KCSAN too asks of a mask that a change be seen.
        _ if mask.is_some() => Change::Ruled,
        _ => Change::Maybe,
    }
}

/// The old and the new value, where a change was seen.
#[inline(always)]
pub fn seen_change(change: Change, values: Option<(u64, u64)>) -> Option<ValueChange>
    ensures { result ≡ seen_values change values }
{
    match (change, values) {
        (Change::Seen, Some((old, new))) => Some(ValueChange { old, new }),
        _ => None,
    }
}

/// The two values differ in a bit of the mask, or in any bit where there is none.
#[inline(always)]
fn differ(mask: Option<u64>, old: u64, new: u64) -> bool
    ensures { IsTrue result ↔ BitDiffers mask old new }
{
    let changed = old ^ new;
    match mask {
        Some(mask) => changed & mask != 0,
        None => changed != 0,
    }
}

/// Law: two ways of saying that two values differ are one: at a bit position that counts, and in a
/// bit of the mask (in any where there is none), as `ChangedUnderWatch` says it. Of a history it
/// says nothing.
pub fn law_seen_changes_differ()
    ensures { (mask : Option ℕ) (old new : ℕ) → BitDiffers mask old new ↔ Differ mask old new }
{}
