//! Writes of accesses, and the bits of masks that they change.

ghost use Rattle.std.specs.Prelude.{◌≡◌, ◌<◌, ◌≤◌, ◌%◌, ◌^◌, ◌↔◌, IsTrue, length};
ghost use Rattle.access_types.specs.History.{content};
ghost use Rattle.access_types.specs.Race.{bytes_of};
ghost use Rattle.oracle_soundness.specs.oracle_races.Searched.{ChangesBitsAt, IsWriteOf};
ghost use Rattle.oracle_soundness.specs.oracle_races.Shown.{BreaksMask, IsAt, SomeAt, Writes, WritesAt};
ghost use Rattle.races.specs.Shown.{ChangesBitsIn};

use crate::oracle_definitions::content::byte_after;
use crate::oracle_definitions::in_progress;
use access_types::{Access, Happening, Moment};
use races::SiteName;

/// The lowest 64 bits of what the bytes of an access hold after k moments, where every byte is 0 at first.
fn low_content(history: &[Moment], k: usize, access: &Access) -> u64
    requires { k ≤ length history.now }
    ensures { result ≡ content (λ _. 0) history.now k (bytes_of access.now) % 2 ^ 64 }
{
    let mut value: u64 = 0;
    for offset in (0..access.size()).rev() {
        let byte = byte_after(&history[..k], access.addr() + offset);
        value = value.wrapping_mul(256).wrapping_add(byte);
    }
    value
}

/// The moment is a write of the access's bytes by its task.
fn is_write_of(moment: &Moment, a: &Access) -> bool
    ensures { IsTrue result ↔ IsWriteOf a.now moment.now }
{
    match moment.happening {
        Happening::Write(bytes, _) => {
            moment.task == a.task() && bytes.addr == a.addr() && bytes.size == a.size()
        }
        _ => false,
    }
}

/// The access, which is in progress, writes its bytes at this place of the history.
fn writes_at(history: &[Moment], a: &Access, place: usize) -> bool
    requires { place < length history.now }
    ensures { IsTrue result ↔ WritesAt history.now a.now place }
{
    !a.kind().is_scoped() && in_progress(history, a, place) && is_write_of(&history[place], a)
}

/// The access writes its bytes.
fn writes(history: &[Moment], a: &Access) -> bool
    ensures { IsTrue result ↔ Writes history.now a.now }
{
    for place in 0..history.len() {
        if writes_at(history, a, place) {
            return true;
        }
    }
    false
}

/// The access is one at the site.
pub fn is_at(a: &Access, site: SiteName) -> bool
    ensures { IsTrue result ↔ IsAt site a.now }
{
    a.task() == site.task && a.site() == site.site
}

/// An access at the site writes in the history.
pub fn site_writes(history: &[Moment], site: SiteName) -> bool
    ensures { IsTrue result ↔ SomeAt site (Writes history.now) }
{
    for moment in history {
        if let Happening::Begin(a) = moment.happening {
            if is_at(&a, site) && writes(history, &a) {
                return true;
            }
        }
    }
    false
}

/// At this place of the history b changes a bit of the mask in the bytes of a.
fn changes_bits_at(history: &[Moment], a: &Access, b: &Access, mask: u64, place: usize) -> bool
    requires { place < length history.now }
    ensures { IsTrue result ↔ ChangesBitsAt history.now a.now b.now mask place }
{
    let change = low_content(history, place, a) ^ low_content(history, place + 1, a);
    writes_at(history, b, place) && in_progress(history, a, place) && change & mask != 0
}

/// While both are in progress b changes a bit of the mask in the bytes of a.
fn changes_bits(history: &[Moment], a: &Access, b: &Access, mask: u64) -> bool
    ensures { IsTrue result ↔ ChangesBitsIn (λ _. 0) history.now a.now b.now mask }
{
    for place in 0..history.len() {
        if changes_bits_at(history, a, b, mask, place) {
            return true;
        }
    }
    false
}

/// If a has a mask, b breaks it. `never` says that accesses at the site of b write in no execution.
pub fn breaks_mask(history: &[Moment], a: &Access, b: &Access, never: bool) -> bool
    ensures { IsTrue result ↔ BreaksMask history.now a.now b.now (IsTrue never) a.now.mask }
{
    match a.mask() {
        Some(mask) => never || changes_bits(history, a, b, mask),
        None => true,
    }
}
