//! What is reported: two accesses that raced, or a change of bytes whose origin is unknown.

/// The bytes of an access before and after its watch, as little-endian numbers.
#[derive(Clone, Copy, Debug, PartialEq, Eq)]
pub struct ValueChange {
    pub old: u64,
    pub new: u64,
}

/// What KCSAN reports. `setter` and `finder` are tickets: of the access that set the watchpoint up,
/// and of the one that hit it.
#[derive(Clone, Copy, Debug, PartialEq, Eq)]
pub enum Report {
    /// Two accesses raced. `seen` is the change of the bytes, where one was seen.
    Two {
        setter: u32,
        finder: u32,
        seen: Option<ValueChange>,
    },
    /// The bytes changed under the setter's watch, and no access was found that did it.
    Unknown {
        setter: u32,
        old: u64,
        new: u64,
    },
}
