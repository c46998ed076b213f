//! Where the fields of a watch word stand, in words of 64 bits and of 32.

ghost use Rattle.std.specs.Prelude.{◌≡◌};
ghost use Rattle.watch_word.specs.Layout as spec;

/// How many bits a watch word has: 64, which is the default, or 32, as on machines with such words.
#[derive(Clone, Copy, Debug, PartialEq, Eq)]
pub enum Layout {
    /// The write bit is bit 63, the size bits 62 to 49 and the address bits 48 to 0.
    W64,
    /// The write bit is bit 31, the size bits 30 to 17 and the address bits 16 to 0.
    W32,
}

impl Layout {
    /// How many addresses the address field tells apart.
    #[inline(always)]
    pub(crate) fn address_span(self) -> u64
        ensures { result ≡ spec.address_span self }
    {
        match self {
            Layout::W64 => 1 << 49,
            Layout::W32 => 1 << 17,
        }
    }

    /// The word with the write bit alone.
    #[inline(always)]
    pub(crate) fn write_bit(self) -> u64
        ensures { result ≡ spec.write_bit self }
    {
        match self {
            Layout::W64 => 1 << 63,
            Layout::W32 => 1 << 31,
        }
    }
}
