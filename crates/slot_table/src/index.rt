//! Indices: where an access looks for watchpoints, and where it sets one up. The page of an address
//! has a page slot, which is the first of three indices: an access looks there and at the two after
//! it. So a table of N page slots has N + 2 indices and nothing wraps.

ghost use Rattle.std.specs.Prelude.{◌≡◌, ◌+◌, ◌/◌, ◌%◌, ◌<◌, ◌≤◌, [], ◌∷◌};

/// The bytes of a page.
const PAGE: u64 = 4096;

/// The page slot of an address, one of this many.
#[inline(always)]
pub fn page_slot(addr: u64, page_slots: usize) -> usize
    requires { 0 < page_slots }
    ensures value { result ≡ addr / 4096 % page_slots }
    ensures limit { result < page_slots }
{
    (addr / PAGE % page_slots as u64) as usize
}

/// The indices at which an access of this page slot looks for a watchpoint, in this order. As by KCSAN's
/// SLOT_IDX_FAST() the middle one isn't first: that is fine, since races are rare and the indices are the same.
#[inline(always)]
pub fn look_order(page_slot: usize) -> [usize; 3]
    requires { page_slot ≤ 1023 }
    ensures { result ≡ page_slot ∷ (page_slot + 1) ∷ (page_slot + 2) ∷ [] }
{
    [page_slot, page_slot + 1, page_slot + 2]
}

/// The indices at which an access of this page slot tries to set up a watchpoint, in this order. As by KCSAN's
/// SLOT_IDX() the middle one comes first: look-ups from the page before and from the page after read it too. Where it
/// is occupied its neighbours are tried.
#[inline(always)]
pub fn try_order(page_slot: usize) -> [usize; 3]
    requires { page_slot ≤ 1023 }
    ensures { result ≡ (page_slot + 1) ∷ (page_slot + 2) ∷ page_slot ∷ [] }
{
    [page_slot + 1, page_slot + 2, page_slot]
}
