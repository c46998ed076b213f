//! Lines that more than one refusal ends with.

ghost use Rattle.std.specs.Prelude.{◌≡◌};
ghost use Rattle.call_notes.specs.SharedLines as spec;

/// That nothing jumps.
pub(crate) const JUMP: &str =
    "note: no jump is read: write an `if` round what it would skip; a `return` at the end is left out, and of what P1 returns `exists` asks, as `1:ret=0`\n";

/// That nothing jumps.
#[tactic(auto, unfolding(crate::specs::SharedLines::jump_note))]
pub fn jump_note() -> &'static str
    ensures { result.now ≡ spec.jump_note }
{
    JUMP
}

/// That nothing is computed.
pub(crate) const NUMBER: &str = "note: write the number itself, as 0x1\n";

/// That nothing is computed.
#[tactic(auto, unfolding(crate::specs::SharedLines::number_note))]
pub fn number_note() -> &'static str
    ensures { result.now ≡ spec.number_note }
{
    NUMBER
}

/// A wait ends.
pub(crate) const WAIT: &str =
    "note: a wait has a number of tries: `ok = 0; for (n = 0; n < 3; n++) if (!ok) { old = READ_ONCE(*x); ok = old == 1; }` waits for 1, with `old = *x;` where the load is plain, `ok = (old & 1) == 0;` for bit 0 to be 0, and `if (!ok) { .. }` behind it round the body of the loop; `if (ok) { .. }` stands round what follows, and `exists` asks `1:ok=1 /\\ ..` of P1, and `forall` `1:ok=0 \\/ ..`\n";

/// A wait ends.
#[tactic(auto, unfolding(crate::specs::SharedLines::wait_note))]
pub fn wait_note() -> &'static str
    ensures { result.now ≡ spec.wait_note }
{
    WAIT
}

/// A lock that is one bit of a word.
pub(crate) const BIT_LOCK: &str =
    "note: a lock in bit 0 of an `int`: `ok = 0; for (n = 0; n < 3; n++) if (!ok) { old = READ_ONCE(*x); was = cmpxchg(x, old, old | 1); ok = (was == old) & !(old & 1); }` takes it where `ok` is 1, with `if (ok) { .. }` round what follows; the same with `old & ~1` and `ok = was == old;` gives it back, and `READ_ONCE(*x) & 1` asks for it; `exists` asks `1:ok=1 /\\ ..` of P1, and `forall` `1:ok=0 \\/ ..`\n";

/// A lock that is one bit of a word.
#[tactic(auto, unfolding(crate::specs::SharedLines::bit_lock_note))]
pub fn bit_lock_note() -> &'static str
    ensures { result.now ≡ spec.bit_lock_note }
{
    BIT_LOCK
}

/// An exchange that says whether it was made.
pub(crate) const TRY: &str =
    "note: for `try_cmpxchg(x, &old, 2)`, of an `int` in each task, write `was = cmpxchg(x, old, 2); ok = was == old; old = was;`: `ok` is its value, and 2 was written where it is 1\n";

/// The calls that an atomic variable has.
pub(crate) const ATOMIC: &str =
    "note: an `atomic_t` has atomic_read, atomic_set, atomic_add, atomic_inc and atomic_dec; other changes are `cmpxchg` of an `int` in each task\n";
