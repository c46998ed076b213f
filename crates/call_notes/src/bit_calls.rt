//! Calls of bits of a word.

ghost use Rattle.std.specs.Prelude.{◌≡◌};
ghost use Rattle.call_notes.specs.BitCalls as spec;

use crate::note_rows::{NoteRow, begun_note, named_note};
use crate::shared_lines::BIT_LOCK;

/// A bit by marked accesses.
const BIT: &str =
    "note: bit 1 of an `int`: `ok = 0; for (n = 0; n < 3; n++) if (!ok) { old = READ_ONCE(*x); was = cmpxchg(x, old, old | 2); ok = was == old; }` sets it, `old & ~2` there clears it, and `old ^ 2` changes it; its value is `(ok & ((old & 2) != 0))`, and for `if (!test_and_set_bit(1, x)) { .. }` write `if (ok & !(old & 2)) { .. }`; `if (ok) { .. }` stands round what follows, with `ok = 1;` before an `if` that may leave this out, and `exists` asks `1:ok=1 /\\ ..` of P1, and `forall` `1:ok=0 \\/ ..`\n";

/// A bit by plain accesses.
const PLAIN_BIT: &str =
    "note: bit 1 of an `int` by plain accesses: `old = *x; *x = old | 2;` sets it, `old & ~2` clears it, `old ^ 2` changes it; `((old & 2) != 0)` is what it was\n";

/// The lines on a call of a bit, by its name.
static BIT_NAME_ROWS: [NoteRow; 9] = [
    NoteRow("set_bit", BIT),
    NoteRow("change_bit", BIT),
    NoteRow("clear_and_wake_up_bit", BIT),
    NoteRow("assign_bit", BIT),
    NoteRow("__set_bit", PLAIN_BIT),
    NoteRow("__clear_bit", PLAIN_BIT),
    NoteRow("__change_bit", PLAIN_BIT),
    NoteRow("__assign_bit", PLAIN_BIT),
    NoteRow(
        "__clear_bit_unlock",
        "note: bit 1 of an `int`: write `old = READ_ONCE(*x); *x = old & ~2;`\n",
    ),
];

/// The line on a call of a bit, by its name, or else this one.
pub(crate) fn bit_name_line(name: &[u8], otherwise: &'static str) -> &'static str
    ensures { result.now ≡ spec.bit_name_line name.now otherwise.now }
{
    named_note(&BIT_NAME_ROWS, name, otherwise)
}

/// The lines on a call of a bit: the first row that a name begins with counts.
static BIT_ROWS: [NoteRow; 6] = [
    NoteRow(
        "test_bit",
        "note: bit 1 of an `int`: write `r0 = (READ_ONCE(*x) & 2) != 0;`\n",
    ),
    NoteRow("clear_bit_unlock", BIT_LOCK),
    NoteRow("bit_spin_", BIT_LOCK),
    NoteRow("clear_bit", BIT),
    NoteRow("test_and_", BIT),
    NoteRow("__test_and_", PLAIN_BIT),
];

/// The line on a call of a bit, or else this one.
pub(crate) fn bit_line(name: &[u8], otherwise: &'static str) -> &'static str
    ensures { result.now ≡ spec.bit_line name.now otherwise.now }
{
    begun_note(&BIT_ROWS, name, otherwise)
}
