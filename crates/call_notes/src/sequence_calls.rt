//! Calls of sequence counts.

ghost use Rattle.std.specs.Prelude.{◌≡◌};
ghost use Rattle.call_notes.specs.SequenceCalls as spec;

use crate::note_rows::{NoteRow, begun_note};

/// The writer's part of a sequence count begins.
const WRITING: &str = "note: of an `int *seq` write `kcsan_nestable_atomic_begin(); *seq += 1;`\n";

/// It ends.
const WRITTEN: &str = "note: of an `int *seq` write `*seq += 1; kcsan_nestable_atomic_end();`\n";

/// The reader's part of a sequence count begins.
const READING: &str =
    "note: of an `int *seq` write `s0 = READ_ONCE(*seq); kcsan_atomic_next(100);`\n";

/// It ends.
const READ: &str =
    "note: of an `int *seq` write `kcsan_atomic_next(0); s1 = READ_ONCE(*seq); ok = (s0 == s1) & !(s0 & 1);`, and a retry as a `for` with `if (!ok)`; `if (ok) { .. }` stands round what follows, and `exists` asks `1:ok=1 /\\ ..` of P1, and `forall` `1:ok=0 \\/ ..`\n";

/// A latch is written.
const LATCH: &str = "note: of an `int *seq` write `*seq += 1;`\n";

/// The lines on a latch: the first row that a name begins with counts.
static LATCH_ROWS: [NoteRow; 8] = [
    NoteRow("raw_write_seqcount_latch", LATCH),
    NoteRow(
        "write_seqcount_latch_begin",
        "note: of an `int *seq` write `kcsan_nestable_atomic_begin(); *seq += 1;`, before the first copy is written\n",
    ),
    NoteRow(
        "write_seqcount_latch_end",
        "note: write `kcsan_nestable_atomic_end();`, behind the second copy\n",
    ),
    NoteRow("write_seqcount_latch", LATCH),
    NoteRow(
        "raw_read_seqcount_latch_retry",
        "note: of an `int *seq` write `s1 = READ_ONCE(*seq); ok = s0 == s1;`; `if (ok) { .. }` stands round what follows, and `exists` asks `1:ok=1 /\\ ..` of P1, and `forall` `1:ok=0 \\/ ..`\n",
    ),
    NoteRow(
        "raw_read_seqcount_latch",
        "note: of an `int *seq` write `s0 = READ_ONCE(*seq);`: the copy is `if ((s0 & 1) == 0) val = *x0; else val = *x1;`\n",
    ),
    NoteRow(
        "read_seqcount_latch_retry",
        "note: of an `int *seq` write `kcsan_atomic_next(0); s1 = READ_ONCE(*seq); ok = s0 == s1;`; `if (ok) { .. }` stands round what follows, and `exists` asks `1:ok=1 /\\ ..` of P1, and `forall` `1:ok=0 \\/ ..`\n",
    ),
    NoteRow(
        "read_seqcount_latch",
        "note: of an `int *seq` write `kcsan_atomic_next(100); s0 = READ_ONCE(*seq);`: the copy is `if ((s0 & 1) == 0) val = *x0; else val = *x1;`\n",
    ),
];

/// The line on a latch, or else this one.
pub(crate) fn latch_line(name: &[u8], otherwise: &'static str) -> &'static str
    ensures { result.now ≡ spec.latch_line name.now otherwise.now }
{
    begun_note(&LATCH_ROWS, name, otherwise)
}

/// The lines on the writer of a sequence count: the first row that a name begins with counts.
static WRITING_ROWS: [NoteRow; 8] = [
    NoteRow(
        "write_seqcount_invalidate",
        "note: of an `int *seq` write `kcsan_nestable_atomic_begin(); *seq += 2; kcsan_nestable_atomic_end();`\n",
    ),
    NoteRow(
        "raw_write_seqcount_barrier",
        "note: of an `int *seq` write `kcsan_nestable_atomic_begin(); *seq += 1; *seq += 1; kcsan_nestable_atomic_end();`\n",
    ),
    NoteRow("write_seqcount_begin", WRITING),
    NoteRow("raw_write_seqcount_begin", WRITING),
    NoteRow("write_seqcount_end", WRITTEN),
    NoteRow("raw_write_seqcount_end", WRITTEN),
    NoteRow(
        "write_seqlock",
        "note: of an `int *seq` and a lock write `spin_lock(l); kcsan_nestable_atomic_begin(); *seq += 1;`\n",
    ),
    NoteRow(
        "write_sequnlock",
        "note: of an `int *seq` and a lock write `*seq += 1; kcsan_nestable_atomic_end(); spin_unlock(l);`\n",
    ),
];

/// The line on the writer of a sequence count, or else this one.
pub(crate) fn writing_line(name: &[u8], otherwise: &'static str) -> &'static str
    ensures { result.now ≡ spec.writing_line name.now otherwise.now }
{
    begun_note(&WRITING_ROWS, name, otherwise)
}

/// The lines on the reader of a sequence count: the first row that a name begins with counts.
static READING_ROWS: [NoteRow; 12] = [
    NoteRow(
        "read_seqbegin_or_lock",
        "note: the first pass begins, of an `int *seq`, by `s0 = READ_ONCE(*seq); kcsan_atomic_next(100);`; the second one, behind what stands for need_seqretry, is `if (!ok) { spin_lock(l); .. spin_unlock(l); }`\n",
    ),
    NoteRow(
        "need_seqretry",
        "note: the first pass ends, of an `int *seq`, by `kcsan_atomic_next(0); s1 = READ_ONCE(*seq); ok = (s0 == s1) & !(s0 & 1);`; then comes the second one, `if (!ok) { spin_lock(l); .. spin_unlock(l); }`, and done_seqretry is left out\n",
    ),
    NoteRow(
        "done_seqretry",
        "note: leave it out: the second pass, `if (!ok) { spin_lock(l); .. spin_unlock(l); }`, gives the lock back\n",
    ),
    NoteRow("read_seqretry", READ),
    NoteRow("read_seqcount_retry", READ),
    NoteRow("__read_seqcount_retry", READ),
    NoteRow(
        "read_seqlock_excl",
        "note: write `spin_lock(l);`, of the sequence lock's lock\n",
    ),
    NoteRow(
        "read_sequnlock_excl",
        "note: write `spin_unlock(l);`, of the sequence lock's lock\n",
    ),
    NoteRow("read_seq", READING),
    NoteRow("raw_read_seq", READING),
    NoteRow("__read_seq", READING),
    NoteRow("raw_seqcount_begin", READING),
];

/// The line on the reader of a sequence count, or else this one.
pub(crate) fn reading_line(name: &[u8], otherwise: &'static str) -> &'static str
    ensures { result.now ≡ spec.reading_line name.now otherwise.now }
{
    begun_note(&READING_ROWS, name, otherwise)
}
