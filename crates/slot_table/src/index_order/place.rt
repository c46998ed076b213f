//! The three indices of an access.

ghost use Rattle.std.specs.Prelude.{◌≡◌, ◌≤◌};
ghost use Rattle.slot_table.specs.index_order.Indices.{look_index, place_after, try_index};

use crate::{look_order, try_order};

/// Which of the three indices of an access comes next, in the order of a look-up or of an insertion.
#[derive(Clone, Copy, PartialEq, Eq)]
pub enum ProbeIndex {
    First,
    Second,
    Third,
}

impl ProbeIndex {
    /// The index of a look-up. The first is the page slot, though insertions begin at the index behind it: not to look
    /// there first is fine, since races are rare and the indices are the same (core.c at SLOT_IDX_FAST).
    #[inline(always)]
    pub fn of_look_up(self, slot: usize) -> usize
        requires { slot ≤ 1023 }
        ensures { result ≡ look_index self slot }
    {
        let [first, second, third] = look_order(slot);
        match self {
            ProbeIndex::First => first,
            ProbeIndex::Second => second,
            ProbeIndex::Third => third,
        }
    }

    /// The index of an insertion. The first is the one behind the page slot, so that look-ups from the page
    /// before and from the page after meet it too.
    #[inline(always)]
    pub fn of_insertion(self, slot: usize) -> usize
        requires { slot ≤ 1023 }
        ensures { result ≡ try_index self slot }
    {
        let [first, second, third] = try_order(slot);
        match self {
            ProbeIndex::First => first,
            ProbeIndex::Second => second,
            ProbeIndex::Third => third,
        }
    }

    #[inline(always)]
    pub fn after(self) -> Option<ProbeIndex>
        ensures { result ≡ place_after self }
    {
        match self {
            ProbeIndex::First => Some(ProbeIndex::Second),
            ProbeIndex::Second => Some(ProbeIndex::Third),
            ProbeIndex::Third => None,
        }
    }
}
