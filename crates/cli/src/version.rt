//! The version of the program, and the line that says it.

ghost use Rattle.std.specs.Prelude.{◌≡◌, IfOk, string_bytes};
ghost use Rattle.cli.specs.Version as spec;

use std::alloc::{AllocError, Global};

/// The version of the program.
pub const VERSION: &str = "1.0.0";

/// The line that says which version the program is.
#[tactic(auto, unfolding(crate::specs::Version::version_line))]
pub fn version_line(alloc: Global) -> Result<String, AllocError>
    ensures { IfOk result (λ line. string_bytes line ≡ spec.version_line) }
{
    format!(in alloc; "kcsan_litmus {VERSION}\n")
}
