//! Turns in which other threads may run.

ghost use Rattle.run_stats.specs.Asked.{IsAskedUntilYes};

use std::thread;

/// Lets others run until this is so, and so often at most, and says how often it did: each time it had asked before.
pub(crate) fn turns_until<F: FnMut() -> bool>(most: u64, mut is_so: F) -> u64
    requires { F.IsAlwaysCallable is_so }
    ensures { IsAskedUntilYes (λ from answer to. F.step from answer to) most is_so result }
{
    for turn in 0..most {
        if is_so() {
            return turn;
        }
        thread::yield_now();
    }
    most
}

/// So often it is asked in a turn. Where the other task runs on another processor it answers within a microsecond, and
/// to let others run may cost a time slice. The number is a choice: with one a run beside busy loops took up to twice
/// as long.
const ASKS: u32 = 64;

/// Whether this is so, or comes to be so while it is asked again.
pub(crate) fn soon<F: FnMut() -> bool>(mut is_so: F) -> bool
    requires { F.IsAlwaysCallable is_so }
{
    for _ in 0..ASKS {
        if is_so() {
            return true;
        }
    }
    false
}
