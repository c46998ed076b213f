//! The stamps that the clock gives an access.

ghost use Rattle.std.specs.Prelude.{◌≡◌};
ghost use Rattle.access_run.specs.Stamps.{stamp_in};

use slot_table::Answer;

/// The stamps of an access's begin and end, as soon as the clock has given them.
#[derive(Clone, Copy)]
pub struct Stamps {
    pub begin: Option<u64>,
    pub end: Option<u64>,
}

/// The stamp that the clock answered.
#[inline(always)]
pub(crate) fn stamp_of(answer: Answer) -> Option<u64>
    ensures { result ≡ stamp_in answer }
{
    match answer {
        Answer::Word(stamp) => Some(stamp),
        _ => None,
    }
}
