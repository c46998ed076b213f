//! `find_watchpoint`: whether a watchpoint matches an access.

ghost use Rattle.std.specs.Prelude.{◌≡◌, ◌≤◌, ◌<◌, ◌↔◌, ◌∷◌, ℕ, IsTrue, List, Option};
ghost use Rattle.access_types.specs.Sites.{AccessMap};
ghost use Rattle.slot_table.specs.declared.records.Record.{Record};
ghost use Rattle.setup_access.specs.Kept.{setting_with};
ghost use Rattle.setup_access.specs.Hits.{Hits};
ghost use Rattle.setup_access.specs.Parts.{FindLeft, SoughtLeft, find_step, made};
ghost use Rattle.slot_table.specs.index_order.Indices.{look_index};
ghost use Rattle.setup_access.specs.Setting.{slot_of};
ghost use Rattle.setup_access.specs.declared.outcome.Watchpoint.{Watchpoint};

use crate::outcome::Watchpoint;
use crate::setting::Setting;
use access_types::Access;
use slot_table::index_order::ProbeIndex;
use slot_table::{Answer, Step, page_slot};
use watch_word::{Layout, decode_in, matches_in};

/// A look-up under way: the index that it reads next. A watchpoint is one word, so a load has all of it; that it
/// may be gone by now is left to the try to take it.
#[derive(Clone, Copy, PartialEq, Eq)]
pub struct Find {
    place: ProbeIndex,
}

/// Where a word that was read leads a look-up.
#[derive(Clone, Copy)]
pub enum Sought {
    Going(Find),
    Found(Watchpoint),
    Missed,
}

impl Find {
    /// A look-up that has read nothing yet.
    pub(crate) fn new() -> Find
        ensures { result.place ≡ ProbeIndex.First }
    {
        Find {
            place: ProbeIndex::First,
        }
    }

    #[inline(always)]
    fn index(self, setting: &Setting, access: &Access) -> usize
        ensures { (sites : AccessMap) → result ≡ look_index self.place (slot_of (setting_with setting.now sites) access.now) }
    {
        self.place
            .of_look_up(page_slot(access.addr(), setting.rules.slots))
    }

    #[inline(always)]
    pub(crate) fn next(self, setting: &Setting, access: &Access) -> Step
        ensures { (sites : AccessMap) → result ≡ find_step (setting_with setting.now sites) access.now self }
    {
        Step::Load(self.index(setting, access))
    }

    /// Takes the word that was read. The first match ends the look-up: an access has one handshake in hand at most.
    #[inline(always)]
    pub(crate) fn answer(self, setting: &Setting, access: &Access, word: u64) -> Sought
        requires { 0 < access.now.size }
        ensures { (sites : AccessMap) (found : Option Watchpoint) (later rest : List Record) → let s = setting_with setting.now sites in
            FindLeft s access.now self (made s.task (find_step s access.now self) (Answer.Word word) ∷ later) found rest ↔ SoughtLeft s access.now result later found rest }
    {
        if hits(setting.rules.layout, access, word) {
            let index = self.index(setting, access);
            return Sought::Found(Watchpoint { index, word });
        }
        match self.place.after() {
            Some(place) => Sought::Going(Find { place }),
            None => Sought::Missed,
        }
    }
}

/// Whether the access hits the watchpoint of a word. Two reads never conflict, so one has to write or assert no
/// accesses. The ranges are compared as far as words have their addresses: the setter drops a match too many.
#[inline(always)]
fn hits(layout: Layout, access: &Access, word: u64) -> bool
    requires { 0 < access.now.size }
    ensures { IsTrue result ↔ Hits layout access.now word }
{
    match decode_in(layout, word) {
        Some(watch) => {
            (watch.write || access.kind().write())
                && matches_in(layout, &watch, access.addr(), access.size())
        }
        None => false,
    }
}
