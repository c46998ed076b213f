//! Calls of atomic variables, of the kernel and of C11.

ghost use Rattle.std.specs.Prelude.{◌≡◌};
ghost use Rattle.call_notes.specs.AtomicCalls as spec;

use crate::note_rows::{NoteRow, begun_note, named_note};
use crate::shared_lines::TRY;

/// The calls of a count.
const REFCOUNT: &str =
    "note: of an `atomic_t` write `atomic_inc(f)`, `atomic_dec(f)`, `atomic_read(f)` or `atomic_set(f, 1)`\n";

/// A call without an effect.
const WITHOUT_EFFECT: &str = "note: it changes nothing here: leave it out\n";

/// A store of C11.
const STORE: &str =
    "note: of an `int` write `smp_store_release(y, 1)`, and `WRITE_ONCE(*y, 1)` for memory_order_relaxed\n";

/// A load of C11.
const LOAD: &str =
    "note: of an `int` write `smp_load_acquire(y)`, and `READ_ONCE(*y)` for memory_order_relaxed\n";

/// An exchange.
const XCHG: &str =
    "note: of an `int` in each task, with READ_ONCE and WRITE_ONCE for atomic_read and atomic_set, write `xchg(f, 1)`\n";

/// An addition, and the value before.
const ADD: &str =
    "note: of an `int` in each task, with READ_ONCE and WRITE_ONCE for atomic_read and atomic_set: `ok = 0; for (n = 0; n < 3; n++) if (!ok) { old = READ_ONCE(*f); was = cmpxchg(f, old, old + 1); ok = was == old; }`; its value is `old`; `if (ok) { .. }` stands round what follows, and `exists` asks `1:ok=1 /\\ ..` of P1, and `forall` `1:ok=0 \\/ ..`\n";

/// An addition, and the value behind it.
const ADD_RETURN: &str =
    "note: of an `int` in each task, with READ_ONCE and WRITE_ONCE for atomic_read and atomic_set: `ok = 0; for (n = 0; n < 3; n++) if (!ok) { old = READ_ONCE(*f); was = cmpxchg(f, old, old + 1); ok = was == old; }`; its value is `(old + 1)`; `if (ok) { .. }` stands round what follows, and `exists` asks `1:ok=1 /\\ ..` of P1, and `forall` `1:ok=0 \\/ ..`\n";

/// An addition, and whether 0 comes of it.
const ADD_TEST: &str =
    "note: of an `int` in each task, with READ_ONCE and WRITE_ONCE for atomic_read and atomic_set: `ok = 0; for (n = 0; n < 3; n++) if (!ok) { old = READ_ONCE(*f); was = cmpxchg(f, old, old + 1); ok = was == old; }`; its value is `(ok & (old + 1 == 0))`; `if (ok) { .. }` stands round what follows, and `exists` asks `1:ok=1 /\\ ..` of P1, and `forall` `1:ok=0 \\/ ..`\n";

/// An addition, unless the value is one that is left alone.
const ADD_UNLESS: &str =
    "note: of an `int` in each task, with READ_ONCE and WRITE_ONCE for atomic_read and atomic_set: `ok = 0; for (n = 0; n < 3; n++) if (!ok) { old = READ_ONCE(*f); was = old; if (old != 0) was = cmpxchg(f, old, old + 1); ok = was == old; }`; it adds unless the value is 0, or the number of atomic_add_unless, and `(ok & (old != 0))` is its value, with the number for 0, or `old` that of atomic_fetch_add_unless; `if (ok) { .. }` stands round what follows, and `exists` asks `1:ok=1 /\\ ..` of P1, and `forall` `1:ok=0 \\/ ..`\n";

/// A subtraction, and the value before.
const SUB: &str =
    "note: of an `int` in each task, with READ_ONCE and WRITE_ONCE for atomic_read and atomic_set: `ok = 0; for (n = 0; n < 3; n++) if (!ok) { old = READ_ONCE(*f); was = cmpxchg(f, old, old - 1); ok = was == old; }`; its value is `old`; `if (ok) { .. }` stands round what follows, and `exists` asks `1:ok=1 /\\ ..` of P1, and `forall` `1:ok=0 \\/ ..`\n";

/// A subtraction, and the value behind it.
const SUB_RETURN: &str =
    "note: of an `int` in each task, with READ_ONCE and WRITE_ONCE for atomic_read and atomic_set: `ok = 0; for (n = 0; n < 3; n++) if (!ok) { old = READ_ONCE(*f); was = cmpxchg(f, old, old - 1); ok = was == old; }`; its value is `(old - 1)`; `if (ok) { .. }` stands round what follows, and `exists` asks `1:ok=1 /\\ ..` of P1, and `forall` `1:ok=0 \\/ ..`\n";

/// A subtraction, and whether 0 comes of it.
const SUB_TEST: &str =
    "note: of an `int` in each task, with READ_ONCE and WRITE_ONCE for atomic_read and atomic_set: `ok = 0; for (n = 0; n < 3; n++) if (!ok) { old = READ_ONCE(*f); was = cmpxchg(f, old, old - 1); ok = was == old; }`; its value is `(ok & (old - 1 == 0))`; `if (ok) { .. }` stands round what follows, and `exists` asks `1:ok=1 /\\ ..` of P1, and `forall` `1:ok=0 \\/ ..`\n";

/// A subtraction where the value is above 0.
const SUB_IF: &str =
    "note: of an `int` in each task, with READ_ONCE and WRITE_ONCE for atomic_read and atomic_set: `ok = 0; for (n = 0; n < 3; n++) if (!ok) { old = READ_ONCE(*f); was = old; if (old > 0) was = cmpxchg(f, old, old - 1); ok = was == old; }`; for `atomic_dec_if_positive(f) >= 0` write `(ok & (old > 0))`, and `(old - 1)` is its value; refcount_dec_not_one has `old != 1` there and the value `(ok & (old != 1))`, and refcount_dec_if_one `old == 1` and `(ok & (old == 1))`; `if (ok) { .. }` stands round what follows, and `exists` asks `1:ok=1 /\\ ..` of P1, and `forall` `1:ok=0 \\/ ..`\n";

/// Bits that are set.
const OR: &str =
    "note: of an `int` in each task, with READ_ONCE and WRITE_ONCE for atomic_read and atomic_set: `ok = 0; for (n = 0; n < 3; n++) if (!ok) { old = READ_ONCE(*f); was = cmpxchg(f, old, old | 1); ok = was == old; }`; its value is `old`, as of atomic_fetch_or; `if (ok) { .. }` stands round what follows, and `exists` asks `1:ok=1 /\\ ..` of P1, and `forall` `1:ok=0 \\/ ..`\n";

/// Bits that are cleared.
const ANDNOT: &str =
    "note: of an `int` in each task, with READ_ONCE and WRITE_ONCE for atomic_read and atomic_set: `ok = 0; for (n = 0; n < 3; n++) if (!ok) { old = READ_ONCE(*f); was = cmpxchg(f, old, old & ~1); ok = was == old; }`; its value is `old`, as of atomic_fetch_andnot; `if (ok) { .. }` stands round what follows, and `exists` asks `1:ok=1 /\\ ..` of P1, and `forall` `1:ok=0 \\/ ..`\n";

/// Bits that stay.
const AND: &str =
    "note: of an `int` in each task, with READ_ONCE and WRITE_ONCE for atomic_read and atomic_set: `ok = 0; for (n = 0; n < 3; n++) if (!ok) { old = READ_ONCE(*f); was = cmpxchg(f, old, old & 1); ok = was == old; }`; its value is `old`, as of atomic_fetch_and; `if (ok) { .. }` stands round what follows, and `exists` asks `1:ok=1 /\\ ..` of P1, and `forall` `1:ok=0 \\/ ..`\n";

/// Bits that are changed.
const XOR: &str =
    "note: of an `int` in each task, with READ_ONCE and WRITE_ONCE for atomic_read and atomic_set: `ok = 0; for (n = 0; n < 3; n++) if (!ok) { old = READ_ONCE(*f); was = cmpxchg(f, old, old ^ 1); ok = was == old; }`; its value is `old`, as of atomic_fetch_xor; `if (ok) { .. }` stands round what follows, and `exists` asks `1:ok=1 /\\ ..` of P1, and `forall` `1:ok=0 \\/ ..`\n";

/// The lines on what stores, loads or exchanges: the first row that a name begins with counts.
static EXCHANGE_ROWS: [NoteRow; 11] = [
    NoteRow("load", LOAD),
    NoteRow("store", STORE),
    NoteRow("thread_fence", WITHOUT_EFFECT),
    NoteRow("signal_fence", WITHOUT_EFFECT),
    NoteRow("read_acquire", "note: write `atomic_read(f)`\n"),
    NoteRow("set_release", "note: write `atomic_set(f, 1)`\n"),
    NoteRow("xchg", XCHG),
    NoteRow("exchange", XCHG),
    NoteRow(
        "cmpxchg",
        "note: of an `int` in each task, with READ_ONCE and WRITE_ONCE for atomic_read and atomic_set, write `cmpxchg(f, 0, 1)`\n",
    ),
    NoteRow("try_cmpxchg", TRY),
    NoteRow("compare_exchange", TRY),
];

/// The line on what stores, loads or exchanges, or else this one.
pub(crate) fn exchange_line(name: &[u8], otherwise: &'static str) -> &'static str
    ensures { result.now ≡ spec.exchange_line name.now otherwise.now }
{
    begun_note(&EXCHANGE_ROWS, name, otherwise)
}

/// The lines on what adds: the first row that a name begins with counts.
static INCREASE_ROWS: [NoteRow; 9] = [
    NoteRow("inc_not_zero", ADD_UNLESS),
    NoteRow("add_unless", ADD_UNLESS),
    NoteRow("add_not_zero", ADD_UNLESS),
    NoteRow("fetch_add_unless", ADD_UNLESS),
    NoteRow("inc_return", ADD_RETURN),
    NoteRow("add_return", ADD_RETURN),
    NoteRow("inc_and_test", ADD_TEST),
    NoteRow("fetch_add", ADD),
    NoteRow("fetch_inc", ADD),
];

/// The line on what adds, or else this one.
pub(crate) fn increase_line(name: &[u8], otherwise: &'static str) -> &'static str
    ensures { result.now ≡ spec.increase_line name.now otherwise.now }
{
    begun_note(&INCREASE_ROWS, name, otherwise)
}

/// The lines on what takes away: the first row that a name begins with counts.
static DECREASE_ROWS: [NoteRow; 10] = [
    NoteRow("dec_if_positive", SUB_IF),
    NoteRow("dec_if_one", SUB_IF),
    NoteRow("dec_not_one", SUB_IF),
    NoteRow("dec_return", SUB_RETURN),
    NoteRow("sub_return", SUB_RETURN),
    NoteRow("dec_and_test", SUB_TEST),
    NoteRow("sub_and_test", SUB_TEST),
    NoteRow("fetch_sub", SUB),
    NoteRow("fetch_dec", SUB),
    NoteRow("sub", "note: write `atomic_add(-1, f)`\n"),
];

/// The line on what takes away, or else this one.
pub(crate) fn decrease_line(name: &[u8], otherwise: &'static str) -> &'static str
    ensures { result.now ≡ spec.decrease_line name.now otherwise.now }
{
    begun_note(&DECREASE_ROWS, name, otherwise)
}

/// The lines on what changes bits: the first row that a name begins with counts.
static BITS_ROWS: [NoteRow; 8] = [
    NoteRow("fetch_or", OR),
    NoteRow("or", OR),
    NoteRow("fetch_andnot", ANDNOT),
    NoteRow("andnot", ANDNOT),
    NoteRow("fetch_and", AND),
    NoteRow("and", AND),
    NoteRow("fetch_xor", XOR),
    NoteRow("xor", XOR),
];

/// The line on what changes bits, or else this one.
pub(crate) fn bits_line(name: &[u8], otherwise: &'static str) -> &'static str
    ensures { result.now ≡ spec.bits_line name.now otherwise.now }
{
    begun_note(&BITS_ROWS, name, otherwise)
}

/// The lines on a count of references.
static COUNT_ROWS: [NoteRow; 5] = [
    NoteRow("refcount_inc", REFCOUNT),
    NoteRow("refcount_dec", REFCOUNT),
    NoteRow("refcount_read", REFCOUNT),
    NoteRow("refcount_set", REFCOUNT),
    NoteRow("refcount_add", REFCOUNT),
];

/// The line on a count of references, or else this one.
pub(crate) fn count_line(name: &[u8], otherwise: &'static str) -> &'static str
    ensures { result.now ≡ spec.count_line name.now otherwise.now }
{
    named_note(&COUNT_ROWS, name, otherwise)
}

/// The lines on a builtin of a compiler: the first row that a name begins with counts.
static BUILTIN_ROWS: [NoteRow; 6] = [
    NoteRow("__atomic_load", LOAD),
    NoteRow("__atomic_store", STORE),
    NoteRow("__atomic_thread_fence", WITHOUT_EFFECT),
    NoteRow("__sync_synchronize", WITHOUT_EFFECT),
    NoteRow("__atomic_exchange", XCHG),
    NoteRow("__atomic_compare_exchange", TRY),
];

/// The line on a builtin of a compiler, or else this one.
pub(crate) fn builtin_line(name: &[u8], otherwise: &'static str) -> &'static str
    ensures { result.now ≡ spec.builtin_line name.now otherwise.now }
{
    begun_note(&BUILTIN_ROWS, name, otherwise)
}
