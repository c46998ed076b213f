//! The word of an access, what a word says when it is read, and when that meets another access.

ghost use Rattle.std.specs.Prelude.{◌≡◌, ◌+◌, ◌^◌, ◌<◌, ◌≤◌, ◌↔◌, ℕ, IfSome, IsSome, IsTrue};
ghost use Rattle.access_types.specs.Access as spec;
ghost use Rattle.watch_word.specs.declared.layout.Layout.{Layout};
ghost use Rattle.watch_word.specs.Layout.{word_span};
ghost use Rattle.watch_word.specs.Match.{Matches};
ghost use Rattle.watch_word.specs.Word.{Encodable, IsOfAccess, IsWatchWord, Watches, WordOf};
ghost use Rattle.watch_word.specs.Word.{watch_of};

use crate::layout::Layout;
use access_types::Access;

/// How many bytes a page has. No access to the first page, that of null pointers, can be watched.
pub const PAGE_SIZE: u64 = 4096;

/// No access of more bytes than this can be watched, as by KCSAN's constant of this name.
pub const MAX_ENCODABLE_SIZE: u64 = 8192;

/// How many sizes the size field tells apart.
const SIZE_SPAN: u64 = 1 << 14;

/// What a watch word says of the watched access.
#[derive(Clone, Copy, Debug, PartialEq, Eq)]
pub struct Watch {
    /// It writes, or it asserts no accesses.
    pub write: bool,
    /// How many bytes it has.
    pub size: u64,
    /// The low bits of its address.
    pub addr: u64,
}

/// The word of the access, or `None` if it can't be watched: its address is below `PAGE_SIZE`, or
/// its size is 0 or above `MAX_ENCODABLE_SIZE`.
#[tactic(auto, unfolding(crate::specs::Word::word_of, crate::specs::Word::watch_in, crate::specs::Layout::masked))]
#[inline(always)]
pub fn encode_in(layout: Layout, access: &Access) -> Option<u64>
    ensures encodable { IsSome result ↔ Encodable access.now }
    ensures word { IfSome result (WordOf layout access.now) }
    ensures says { IfSome result (λ word. Watches layout word (watch_of layout access.now)) }
{
    let size = access.size();
    // As KCSAN's check_encodable(), which keeps null pointers out and sizes above the limit. A word of size 0 would
    // match nothing.
    if access.addr() < PAGE_SIZE || size == 0 || size > MAX_ENCODABLE_SIZE {
        return None;
    }
    let write_bit = if access.kind().write() {
        layout.write_bit()
    } else {
        0
    };
    Some(write_bit + size * layout.address_span() + access.addr() % layout.address_span())
}

/// What the word says, or `None` if it is the word of no access: its size is 0, as in the empty and
/// in the consumed word, or above `MAX_ENCODABLE_SIZE`, or it has bits above the layout's.
#[tactic(auto, unfolding(crate::specs::Word::watch_in, crate::specs::Layout::masked))]
#[inline(always)]
pub fn decode_in(layout: Layout, word: u64) -> Option<Watch>
    ensures watch_word { IsSome result ↔ IsWatchWord layout word }
    ensures watch { IfSome result (Watches layout word) }
{
    let write = match word / layout.write_bit() {
        0 => false,
        1 => true,
        _ => return None,
    };
    let size = word / layout.address_span() % SIZE_SPAN;
    if size == 0 || size > MAX_ENCODABLE_SIZE {
        return None;
    }
    Some(Watch {
        write,
        size,
        addr: word % layout.address_span(),
    })
}

/// The watched bytes and those of the access meet, as far as the low bits of the addresses tell.
/// Ranges do not wrap where these bits do, so an access whose range passes such a point can be
/// missed, and one far away can be taken for it.
#[tactic(auto, unfolding(crate::specs::Layout::masked))]
#[inline(always)]
pub fn matches_in(layout: Layout, watch: &Watch, addr: u64, size: u64) -> bool
    requires has_bytes { 0 < size }
    requires range { addr + size ≤ 2 ^ 63 }
    ensures { IsTrue result ↔ Matches layout watch.now addr size }
{
    let watch_begin = watch.addr % layout.address_span();
    let access_begin = addr % layout.address_span();
    if watch_begin <= access_begin {
        access_begin - watch_begin < watch.size
    } else {
        watch_begin - access_begin < size
    }
}

/// `encode_in` for words of 64 bits.
pub fn encode(access: &Access) -> Option<u64>
    ensures encodable { IsSome result ↔ Encodable access.now }
    ensures word { IfSome result (WordOf Layout.W64 access.now) }
    ensures says { IfSome result
        (λ word. Watches Layout.W64 word (watch_of Layout.W64 access.now)) }
{
    encode_in(Layout::W64, access)
}

/// `decode_in` for words of 64 bits.
pub fn decode(word: u64) -> Option<Watch>
    ensures watch_word { IsSome result ↔ IsWatchWord Layout.W64 word }
    ensures watch { IfSome result (Watches Layout.W64 word) }
{
    decode_in(Layout::W64, word)
}

/// `matches_in` for words of 64 bits.
pub fn matches(watch: &Watch, addr: u64, size: u64) -> bool
    requires has_bytes { 0 < size }
    requires range { addr + size ≤ 2 ^ 63 }
    ensures { IsTrue result ↔ Matches Layout.W64 watch.now addr size }
{
    matches_in(Layout::W64, watch, addr, size)
}

/// Law: the word of an access says its write flag, its size and its masked address.
#[tactic(auto, unfolding(crate::specs::Word::word_of, crate::specs::Word::watch_in, crate::specs::Layout::masked))]
pub fn law_words_read_back()
    ensures { (layout : Layout) (a : spec.Access) (word : ℕ) →
        WordOf layout a word → Watches layout word (watch_of layout a) }
{}

/// Law: each word that says something is the word of an access, and says it of that.
pub fn law_watches_are_of_accesses()
    ensures { (layout : Layout) (word : ℕ) → IsWatchWord layout word → IsOfAccess layout word }
{}

/// Law: the word of an access is above the empty and the consumed word, and has no bit above the
/// layout's.
#[tactic(auto, unfolding(crate::specs::Word::word_of, crate::specs::Layout::masked))]
pub fn law_words_are_above_one()
    ensures { (layout : Layout) (a : spec.Access) (word : ℕ) →
        WordOf layout a word → (1 < word) × (word < word_span layout) }
{}
