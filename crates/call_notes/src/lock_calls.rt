//! Calls of locks and of RCU, and what waits.

ghost use Rattle.std.specs.Prelude.{◌≡◌};
ghost use Rattle.call_notes.specs.LockCalls as spec;

use crate::note_rows::{NoteRow, begun_note, named_note};
use crate::shared_lines::WAIT;

/// No RCU.
const RCU: &str = "note: there is no RCU here, and nothing waits for readers: leave the call out\n";

/// A grace period.
const GRACE: &str =
    "note: no grace period is read: left out, races and results come that RCU forbids; with one reader `spin_lock(l); spin_unlock(l);` is one, where the reader has `spin_lock(l);` and `spin_unlock(l);` for rcu_read_lock and rcu_read_unlock\n";

/// A call behind a grace period.
const CALLBACK: &str =
    "note: no grace period is read: what it calls would come too soon, and races and results come that RCU forbids\n";

/// The calls of a lock.
const LOCK: &str = "note: of a lock `spin_lock` and `spin_unlock` are read\n";

/// Readers of a lock.
const READERS: &str =
    "note: of a lock `spin_lock` and `spin_unlock` are read: readers then exclude each other too\n";

/// A mutex.
const MUTEX: &str =
    "note: a mutex is written as a spinlock_t, with `spin_lock` and `spin_unlock`\n";

/// No interrupts.
const INTERRUPTS: &str =
    "note: there are no interrupts here: `spin_lock` and `spin_unlock` are read\n";

/// A lock that is tried.
const TRIED: &str =
    "note: a lock that is tried is an `int *l` in each task: `was = cmpxchg(l, 0, 1);`, then `if (was == 0) { .. smp_store_release(l, 0); }`, and `(was == 0)` is the value; spin_lock of it is `ok = 0; for (n = 0; n < 3; n++) if (!ok) { was = cmpxchg(l, 0, 1); ok = was == 0; }`, with `if (ok) { .. }` round what follows\n";

/// A lock that readers share and that is tried.
const SHARED_TRIED: &str =
    "note: a lock that is tried is an `int *l` in each task, and readers then exclude each other too: `was = cmpxchg(l, 0, 1);`, then `if (was == 0) { .. smp_store_release(l, 0); }`, and `(was == 0)` is the value; to wait for it is `ok = 0; for (n = 0; n < 3; n++) if (!ok) { was = cmpxchg(l, 0, 1); ok = was == 0; }`, with `if (ok) { .. }` round what follows\n";

/// A lock that is asked for.
const ASKED: &str =
    "note: no value comes of a lock: one that is asked for is an `int *l` in each task, taken by `cmpxchg(l, 0, 1)`, and `READ_ONCE(*l)` is 1 then\n";

/// A call without an effect.
const WITHOUT_EFFECT: &str = "note: it changes nothing here: leave it out\n";

/// The lines on a call of RCU: the first row that a name begins with counts.
static RCU_ROWS: [NoteRow; 14] = [
    NoteRow(
        "rcu_assign_pointer",
        "note: write `smp_store_release(x, 1)`, of an `int`\n",
    ),
    NoteRow(
        "rcu_dereference_protected",
        "note: write `*x`, a plain read of an `int`\n",
    ),
    NoteRow(
        "rcu_dereference",
        "note: write `READ_ONCE(*x)`, of an `int`\n",
    ),
    NoteRow(
        "rcu_access_pointer",
        "note: write `READ_ONCE(*x)`, of an `int`\n",
    ),
    NoteRow(
        "rcu_replace_pointer",
        "note: of an `int` write `old = *x; smp_store_release(x, 1);`: its value is `old`\n",
    ),
    NoteRow("rcu_barrier", GRACE),
    NoteRow(
        "srcu_dereference",
        "note: write `READ_ONCE(*x)`, of an `int`\n",
    ),
    NoteRow("rcu_", RCU),
    NoteRow("srcu_", RCU),
    NoteRow("smp_mb__after_srcu_read_unlock", WITHOUT_EFFECT),
    NoteRow("synchronize_", GRACE),
    NoteRow("call_rcu", CALLBACK),
    NoteRow("call_srcu", CALLBACK),
    NoteRow("kfree_rcu", CALLBACK),
];

/// The line on a call of RCU, or else this one.
pub(crate) fn rcu_line(name: &[u8], otherwise: &'static str) -> &'static str
    ensures { result.now ≡ spec.rcu_line name.now otherwise.now }
{
    begun_note(&RCU_ROWS, name, otherwise)
}

/// The lines on a call of a lock, by its name.
static LOCK_NAME_ROWS: [NoteRow; 6] = [
    NoteRow("guard", LOCK),
    NoteRow("scoped_guard", LOCK),
    NoteRow("down", LOCK),
    NoteRow("up", LOCK),
    NoteRow("spin_is_locked", ASKED),
    NoteRow("mutex_is_locked", ASKED),
];

/// The line on a call of a lock, by its name, or else this one.
pub(crate) fn lock_name_line(name: &[u8], otherwise: &'static str) -> &'static str
    ensures { result.now ≡ spec.lock_name_line name.now otherwise.now }
{
    named_note(&LOCK_NAME_ROWS, name, otherwise)
}

/// The lines on a call of a lock that one task holds: the first row that a name begins with counts.
static LOCK_ROWS: [NoteRow; 12] = [
    NoteRow("spin_trylock", TRIED),
    NoteRow("raw_spin_trylock", TRIED),
    NoteRow("mutex_trylock", TRIED),
    NoteRow("pthread_mutex_trylock", TRIED),
    NoteRow("pthread_mutex_", MUTEX),
    NoteRow("mutex_", MUTEX),
    NoteRow("spin_lock_irq", INTERRUPTS),
    NoteRow("spin_lock_bh", INTERRUPTS),
    NoteRow("spin_unlock_irq", INTERRUPTS),
    NoteRow("spin_unlock_bh", INTERRUPTS),
    NoteRow("spin_", LOCK),
    NoteRow("raw_spin_", LOCK),
];

/// The line on a call of a lock that one task holds, or else this one.
pub(crate) fn lock_line(name: &[u8], otherwise: &'static str) -> &'static str
    ensures { result.now ≡ spec.lock_line name.now otherwise.now }
{
    begun_note(&LOCK_ROWS, name, otherwise)
}

/// The lines on a call of a lock that readers share: the first row that a name begins with counts.
static SHARED_LOCK_ROWS: [NoteRow; 11] = [
    NoteRow("read_trylock", SHARED_TRIED),
    NoteRow("write_trylock", SHARED_TRIED),
    NoteRow("down_read_trylock", SHARED_TRIED),
    NoteRow("down_write_trylock", SHARED_TRIED),
    NoteRow(
        "down_trylock",
        "note: a semaphore that is tried is an `int *l` in each task: `was = cmpxchg(l, 0, 1);`, then `if (was == 0) { .. smp_store_release(l, 0); }`, and `(was != 0)` is the value, 0 where it is taken; down of it is `ok = 0; for (n = 0; n < 3; n++) if (!ok) { was = cmpxchg(l, 0, 1); ok = was == 0; }`, with `if (ok) { .. }` round what follows\n",
    ),
    NoteRow("read_lock", READERS),
    NoteRow("read_unlock", READERS),
    NoteRow("write_lock", READERS),
    NoteRow("write_unlock", READERS),
    NoteRow("down_", READERS),
    NoteRow("up_", READERS),
];

/// The line on a call of a lock that readers share, or else this one.
pub(crate) fn shared_lock_line(name: &[u8], otherwise: &'static str) -> &'static str
    ensures { result.now ≡ spec.shared_lock_line name.now otherwise.now }
{
    begun_note(&SHARED_LOCK_ROWS, name, otherwise)
}

/// The lines on a call that waits: the first row that a name begins with counts.
static WAIT_ROWS: [NoteRow; 3] = [
    NoteRow(
        "smp_cond_load_",
        "note: a wait has a number of tries: `ok = 0; for (n = 0; n < 3; n++) if (!ok) { old = smp_load_acquire(x); ok = old == 1; }` waits for 1; `if (ok) { .. }` stands round what follows, and `exists` asks `1:ok=1 /\\ ..` of P1, and `forall` `1:ok=0 \\/ ..`\n",
    ),
    NoteRow(
        "wait_for_completion",
        "note: a completion is an `int *done`: `ok = 0; for (n = 0; n < 3; n++) if (!ok) { old = smp_load_acquire(done); ok = old == 1; }` waits for it, or `was = cmpxchg(done, 1, 0); ok = was == 1;` in the loop, where several wait and complete lets one of them through; `if (ok) { .. }` stands round what follows, and `exists` asks `1:ok=1 /\\ ..` of P1, and `forall` `1:ok=0 \\/ ..`\n",
    ),
    NoteRow("wait_", WAIT),
];

/// The line on a call that waits, or else this one.
pub(crate) fn wait_line(name: &[u8], otherwise: &'static str) -> &'static str
    ensures { result.now ≡ spec.wait_line name.now otherwise.now }
{
    begun_note(&WAIT_ROWS, name, otherwise)
}
