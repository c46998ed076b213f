//! The limits of a process's body, as numbers.

ghost use Rattle.std.specs.Prelude.{◌≡◌};

use crate::expression::OPERATORS;
use crate::process::{NESTING, REGISTERS, REPEATS, SCOPED, STATEMENTS, TURNS};

/// Law: the limits are these numbers.
pub fn law_body_limits()
    ensures registers { REGISTERS ≡ 32 }
    ensures statements { STATEMENTS ≡ 256 }
    ensures nesting { NESTING ≡ 16 }
    ensures operators { OPERATORS ≡ 256 }
    ensures scoped { SCOPED ≡ 8 }
    ensures turns { TURNS ≡ 256 }
    ensures repeats { REPEATS ≡ 1024 }
{}
