//! The watch word: set up, taken by whoever hits it, ended by its setter, and removed.

ghost use Rattle.std.specs.Prelude.{◌≡◌, ◌<◌, ℕ};
ghost use Rattle.slot.specs.Slot.{consume_line, insert_line, load_line, remove_line};
ghost use Rattle.slot.specs.Slot.{try_consume_line};

use std::marker::Model;

/// The watch word of an index with no watchpoint.
pub const EMPTY: u64 = 0;

/// The watch word of an index whose watchpoint was hit.
pub const CONSUMED: u64 = 1;

/// The watch word that stands at an index: `EMPTY`, `CONSUMED` or, above these, the word of what is
/// watched. (The page slot of an address is something else: a number.)
#[derive(Clone, Copy, Debug, PartialEq, Eq, Default)]
pub struct Slot {
    word: u64,
}

impl Model for Slot {
    ghost Value = { ℕ };

    ghost view = { λ slot. slot.word };

    ghost inverse = { λ word. record { word = word } };
}

impl Slot {
    /// No watchpoint.
    pub fn new() -> Slot
        ensures { result ≡ 0 }
    {
        Slot { word: EMPTY }
    }

    /// The watch word.
    #[inline(always)]
    pub fn load(&self) -> u64
        ensures { result ≡ (load_line self.now).answer }
    {
        self.word
    }

    /// Sets up the watchpoint `word` if there is none, and answers whether it did. As KCSAN's insert_watchpoint() it
    /// replaces the empty word alone, so that no watch under way is lost.
    #[inline(always)]
    pub fn insert(&mut self, word: u64) -> bool
        requires { 1 < word }
        ensures answer { result ≡ (insert_line self.old word).answer }
        ensures after { self.new ≡ (insert_line self.old word).after }
    {
        let is_empty = self.load() == EMPTY;
        if is_empty {
            *self = Slot { word };
        }
        is_empty
    }

    /// Marks the watchpoint `word` as hit if it still stands there, and answers whether it did. An
    /// access that found a watchpoint claims it so, and only one access can.
    #[inline(always)]
    pub fn try_consume(&mut self, word: u64) -> bool
        requires { 1 < word }
        ensures answer { result ≡ (try_consume_line self.old word).answer }
        ensures after { self.new ≡ (try_consume_line self.old word).after }
    {
        let is_here = self.load() == word;
        if is_here {
            *self = Slot { word: CONSUMED };
        }
        is_here
    }

    /// Marks whatever stands there as hit, and answers whether it was a watchpoint that nobody had
    /// hit. The setter ends its watch so, as by KCSAN's consume_watchpoint(): in one step, so that a finder was first
    /// or is refused.
    #[inline(always)]
    pub fn consume(&mut self) -> bool
        ensures answer { result ≡ (consume_line self.old).answer }
        ensures after { self.new ≡ (consume_line self.old).after }
    {
        let old = self.load();
        *self = Slot { word: CONSUMED };
        old != EMPTY && old != CONSUMED
    }

    /// Takes the watchpoint away.
    #[inline(always)]
    pub fn remove(&mut self)
        ensures { self.new ≡ (remove_line self.old).after }
    {
        *self = Slot::new();
    }
}
