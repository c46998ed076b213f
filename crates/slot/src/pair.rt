//! The pair word: who set a watchpoint up, and who hit it.

ghost use Rattle.std.specs.Prelude.{◌≡◌};
ghost use Rattle.slot.specs.Pair.{Halves, clear_line, halves_line, name_line, tell_line, unnamed};

use std::marker::Model;

/// The pair word of an index: the tickets of the access that set the watchpoint up and of the one
/// that hit it, 0 where nobody is named. In one word of 64 bits the setter's is the upper half and
/// the finder's the lower.
#[derive(Clone, Copy, Debug, PartialEq, Eq, Default)]
pub struct Pair {
    setter: u32,
    finder: u32,
}

impl Model for Pair {
    ghost Value = { Halves };

    ghost view = { λ pair. record { setter = pair.setter; finder = pair.finder } };

    ghost inverse = { λ halves. record { setter = halves.setter; finder = halves.finder } };
}

impl Pair {
    /// A pair that names nobody.
    pub fn new() -> Pair
        ensures { result ≡ unnamed }
    {
        Pair {
            setter: 0,
            finder: 0,
        }
    }

    /// The pair with these halves.
    #[inline(always)]
    pub fn of(setter: u32, finder: u32) -> Pair
        ensures { result ≡ record { setter = setter; finder = finder } }
    {
        Pair { setter, finder }
    }

    /// Names the setter: the bits of its ticket are set in the setter's half.
    #[inline(always)]
    pub fn name(&mut self, ticket: u32)
        ensures { self.new ≡ (name_line self.old ticket).after }
    {
        self.setter |= ticket;
    }

    /// Tells the setter who hit its watchpoint: the bits of the finder's ticket are set in its
    /// half. Bits are set and no word is stored, so that the other half stays.
    #[inline(always)]
    pub fn tell(&mut self, ticket: u32)
        ensures { self.new ≡ (tell_line self.old ticket).after }
    {
        self.finder |= ticket;
    }

    /// The setter's ticket and the finder's.
    #[inline(always)]
    pub fn halves(&self) -> (u32, u32)
        ensures setter { result.0 ≡ (halves_line self.now).answer.setter }
        ensures finder { result.1 ≡ (halves_line self.now).answer.finder }
    {
        (self.setter, self.finder)
    }

    /// Forgets both tickets.
    #[inline(always)]
    pub fn clear(&mut self)
        ensures { self.new ≡ (clear_line self.old).after }
    {
        self.setter = 0;
        self.finder = 0;
    }
}
