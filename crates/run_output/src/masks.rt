//! The masks of accesses have 64 bits.

ghost use Rattle.std.specs.Prelude.{All};
ghost use Rattle.accepted_traces.specs.Parts.{HasLowMask};

use access_types::Stamped;

/// The mask of an access has 64 bits.
fn mask_is_low(access: &Stamped)
    ensures { HasLowMask access.now }
{
    let _ = access.access().mask().unwrap_or(0);
}

/// So have those of all accesses.
pub(crate) fn masks_are_low(accesses: &[Stamped])
    ensures { All HasLowMask accesses.now }
{
    if let Some((first, others)) = accesses.split_first() {
        mask_is_low(first);
        masks_are_low(others);
    }
}
