//! What a line of a trace says of accesses is true: the conditions on one or two accesses.

ghost use Rattle.std.specs.Prelude.{◌≡◌, ◌*◌, ◌^◌, ◌<◌, ◌≤◌, ◌↔◌, ◌⊎◌, IsTrue, None};
ghost use Rattle.access_types.specs.Access.{Overlap, proper_mask};
ghost use Rattle.access_types.specs.Kind.{is_assertion};
ghost use Rattle.access_types.specs.Race.{Differ};
ghost use Rattle.report_text.specs.Standing.{LettersAgree};
ghost use Rattle.report_text.specs.Truth.{AreInProgressAtOnce, IsIndexOf, IsLoadable, MayHit, MaySee, MayWatch, RaceByStamps, ResultAgrees};

use access_types::{HitResult, Stamped, conflicts, overlaps};
use watch_word::{Layout, Watch, encode_in, matches_in};

/// What is declared marked counted as marked, and an assertion didn't.
pub fn letters_agree(stamped: &Stamped) -> bool
    ensures { IsTrue result ↔ LettersAgree stamped.now }
{
    let kind = stamped.access().kind();
    if stamped.marked() {
        !kind.is_assertion()
    } else {
        !kind.is_marked()
    }
}

/// Each began before the other's end.
fn are_in_progress_at_once(s: &Stamped, f: &Stamped) -> bool
    ensures { IsTrue result ↔ AreInProgressAtOnce s.now f.now }
{
    s.begin() < f.end() && f.begin() < s.end()
}

/// The two accesses race, by their stamps.
pub fn race_by_stamps(s: &Stamped, f: &Stamped) -> bool
    ensures { IsTrue result ↔ RaceByStamps s.now f.now }
{
    let (setter, finder) = (s.access(), f.access());
    setter.task() != finder.task()
        && conflicts(&setter, &finder)
        && !(s.marked() && f.marked())
        && !s.silenced()
        && !f.silenced()
        && are_in_progress_at_once(s, f)
}

/// The access may have seen its bytes change from `old` to `new`.
pub fn may_see(s: &Stamped, old: u64, new: u64) -> bool
    ensures { IsTrue result ↔ MaySee s.now old new }
{
    !s.marked()
        && !s.silenced()
        && values_fit(s.access().size(), old, new)
        && differ(s.access().mask(), old, new)
}

/// Values of so many bytes are loaded, and these are values of so many bytes.
fn values_fit(size: u64, old: u64, new: u64) -> bool
    ensures { IsTrue result
        ↔ (IsLoadable size × ((old < 2 ^ (8 * size)) × (new < 2 ^ (8 * size)))) }
{
    match size {
        1 => old < 1 << 8 && new < 1 << 8,
        2 => old < 1 << 16 && new < 1 << 16,
        4 => old < 1 << 32 && new < 1 << 32,
        8 => true,
        _ => false,
    }
}

/// The values differ in a bit of the mask, or in any bit where there is none.
fn differ(mask: Option<u64>, old: u64, new: u64) -> bool
    ensures { IsTrue result ↔ Differ (proper_mask mask) old new }
{
    match mask {
        Some(mask) if mask != 0 => (old ^ new) & mask != 0,
        _ => old != new,
    }
}

/// The index is one of the three that accesses to the address have.
fn is_index_of(slots: u64, addr: u64, index: u64) -> bool
    requires { (0 < slots) × (slots ≤ 1024) }
    ensures { IsTrue result ↔ IsIndexOf slots addr index }
{
    let page_slot = addr / 4096 % slots;
    page_slot <= index && index <= page_slot + 2
}

/// There is no mask, or one without a bit.
fn is_unmasked(mask: Option<u64>) -> bool
    ensures { IsTrue result ↔ (proper_mask mask ≡ None) }
{
    mask.unwrap_or(0) == 0
}

/// What became of a hit agrees with the setter and the finder.
fn result_agrees(s: &Stamped, f: &Stamped, result_of_hit: HitResult) -> bool
    ensures { IsTrue result ↔ ResultAgrees s.now f.now result_of_hit }
{
    let (setter, finder) = (s.access(), f.access());
    let shares = overlaps(&setter, &finder);
    let unmasked = is_unmasked(setter.mask());
    match result_of_hit {
        HitResult::Report => shares,
        HitResult::Encoding => !shares,
        HitResult::Same => {
            shares && unmasked && !setter.kind().is_assertion() && setter.size() <= 8
        }
        HitResult::Masked => shares && !unmasked,
    }
}

/// The finder could take the setter's watchpoint, at this index and with this result. Which bits of a finder change
/// only its own watch could tell, so one with a mask takes nothing, as in KCSAN.
pub fn may_hit(
    slots: u64,
    layout: Layout,
    watch: &Watch,
    index: u64,
    s: &Stamped,
    f: &Stamped,
    result_of_hit: HitResult,
) -> bool
    requires slots { (0 < slots) × (slots ≤ 1024) }
    requires has_bytes { 0 < f.now.access.size }
    ensures { IsTrue result ↔ MayHit slots layout watch.now index s.now f.now result_of_hit }
{
    let (setter, finder) = (s.access(), f.access());
    setter.task() != finder.task()
        && !f.silenced()
        && is_unmasked(finder.mask())
        && is_index_of(slots, finder.addr(), index)
        && (watch.write || finder.kind().write())
        && matches_in(layout, watch, finder.addr(), finder.size())
        && are_in_progress_at_once(s, f)
        && result_agrees(s, f, result_of_hit)
}

/// The access may have set a watchpoint up with this word, at this index, after so many earlier ones. An assertion in
/// force is checked again with later accesses, so it alone sets up more than one.
pub fn may_watch(
    slots: u64,
    layout: Layout,
    s: &Stamped,
    number: u64,
    index: u64,
    word: u64,
) -> bool
    requires { (0 < slots) × (slots ≤ 1024) }
    ensures { IsTrue result ↔ MayWatch slots layout s.now number index word }
{
    let access = s.access();
    !s.marked()
        && !s.silenced()
        && encode_in(layout, &access) == Some(word)
        && is_index_of(slots, access.addr(), index)
        && (number == 0 || access.kind().is_assertion())
}
