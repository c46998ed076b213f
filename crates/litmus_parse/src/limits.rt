//! The limits of a litmus text that no body has, as numbers.

ghost use Rattle.std.specs.Prelude.{◌≡◌};

use crate::VARIABLES;
use crate::text::{FILE_BYTES, TASKS};

/// Law: the limits are these numbers.
pub fn law_text_limits()
    ensures file_bytes { FILE_BYTES ≡ 65536 }
    ensures tasks { TASKS ≡ 16 }
    ensures variables { VARIABLES ≡ 32 }
{}
