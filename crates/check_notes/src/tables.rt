//! Tables of types, loops and structures of C and of the kernel.

ghost use Rattle.std.specs.Prelude.{◌≡◌};
ghost use Rattle.check_notes.specs.Tables as spec;

use crate::common_notes::TURNS;
use call_notes::{NoteRow, begun_note, named_note};

/// A type of 1 byte.
const ONE_BYTE: &str =
    "note: the type of 1 byte is `char`, with a sign: for `u8` write `(*f & 0xff)` where `*f` is loaded, and the same round a marked load, `xchg` and `cmpxchg`, as `(READ_ONCE(*f) & 0xff)`; `(r0 - r1) & 0xff` keeps a register in 8 bits; in `exists` it has its sign, `f=-1` for 0xff\n";

/// A truth value.
const BOOL: &str =
    "note: a `bool` is a `char` of 0 or 1: for `bool r0 = *x & 4;` write `r0 = (*x & 4) != 0;`\n";

/// A type of 2 bytes.
const TWO_BYTES: &str =
    "note: the type of 2 bytes is `short`, with a sign: for `u16` write `(*f & 0xffff)` where `*f` is loaded, and the same round a marked load, `xchg` and `cmpxchg`, as `(READ_ONCE(*f) & 0xffff)`; `(r0 - r1) & 0xffff` keeps a register in 16 bits; in `exists` it has its sign, `f=-1` for 0xffff\n";

/// A type of 4 bytes.
const FOUR_BYTES: &str =
    "note: the type of 4 bytes is `int`, with a sign: for `u32` write `(*f & 0xffffffff)` where `*f` is loaded, and the same round a marked load, `xchg` and `cmpxchg`, as `(READ_ONCE(*f) & 0xffffffff)`; `(r0 - r1) & 0xffffffff` keeps a register in 32 bits; in `exists` it has its sign, `f=-1` for 0xffffffff\n";

/// A type of 8 bytes.
const EIGHT_BYTES: &str = "note: the type of 8 bytes is `long`, with a sign\n";

/// A lock.
const LOCK: &str = "note: a lock is a `spinlock_t`\n";

/// A lock that readers share.
const READERS: &str = "note: a lock is a `spinlock_t`: readers then exclude each other too\n";

/// A sequence count.
const SEQUENCE: &str =
    "note: a sequence count is an `int *seq`; a sequence lock is one and a `spinlock_t *l`\n";

/// An atomic variable.
const ATOMIC: &str = "note: an atomic variable is an `atomic_t`, of 4 bytes\n";

/// An atomic variable of C11.
const STANDARD_ATOMIC: &str =
    "note: an atomic variable of C11 is an `int`, with smp_load_acquire and smp_store_release, and READ_ONCE and WRITE_ONCE for memory_order_relaxed\n";

/// A queue of tasks that wait.
const QUEUE: &str =
    "note: leave it out: what waits on it is a wait with a number of tries of a variable\n";

/// Which type is read in the place of one of these.
static TYPES: [NoteRow; 42] = [
    NoteRow("u8", ONE_BYTE),
    NoteRow("s8", ONE_BYTE),
    NoteRow("bool", BOOL),
    NoteRow("uint8_t", ONE_BYTE),
    NoteRow("int8_t", ONE_BYTE),
    NoteRow("u16", TWO_BYTES),
    NoteRow("s16", TWO_BYTES),
    NoteRow("uint16_t", TWO_BYTES),
    NoteRow("int16_t", TWO_BYTES),
    NoteRow("u32", FOUR_BYTES),
    NoteRow("s32", FOUR_BYTES),
    NoteRow("uint32_t", FOUR_BYTES),
    NoteRow("int32_t", FOUR_BYTES),
    NoteRow("u64", EIGHT_BYTES),
    NoteRow("s64", EIGHT_BYTES),
    NoteRow("uint64_t", EIGHT_BYTES),
    NoteRow("int64_t", EIGHT_BYTES),
    NoteRow("size_t", EIGHT_BYTES),
    NoteRow("ssize_t", EIGHT_BYTES),
    NoteRow("uintptr_t", EIGHT_BYTES),
    NoteRow("intptr_t", EIGHT_BYTES),
    NoteRow("raw_spinlock_t", LOCK),
    NoteRow("pthread_mutex_t", LOCK),
    NoteRow("rwlock_t", READERS),
    NoteRow("seqlock_t", SEQUENCE),
    NoteRow("seqcount_t", SEQUENCE),
    NoteRow("seqcount_latch_t", SEQUENCE),
    NoteRow("seqcount_spinlock_t", SEQUENCE),
    NoteRow("seqcount_raw_spinlock_t", SEQUENCE),
    NoteRow("seqcount_rwlock_t", SEQUENCE),
    NoteRow("seqcount_mutex_t", SEQUENCE),
    NoteRow("atomic64_t", ATOMIC),
    NoteRow("atomic_long_t", ATOMIC),
    NoteRow("refcount_t", ATOMIC),
    NoteRow("_Atomic", STANDARD_ATOMIC),
    NoteRow("atomic_int", STANDARD_ATOMIC),
    NoteRow("atomic_uint", STANDARD_ATOMIC),
    NoteRow("atomic_bool", STANDARD_ATOMIC),
    NoteRow("atomic_long", STANDARD_ATOMIC),
    NoteRow("wait_queue_head_t", QUEUE),
    NoteRow(
        "union",
        "note: each field of a `union` is a variable of its own, and all stand at one address: give each command `--place lo=0x10000,word=0x10000`\n",
    ),
    NoteRow(
        "__auto_type",
        "note: a register is declared by its type, as `int r0 = *x;`\n",
    ),
];

/// Which type is read in the place of this word, or else this line.
pub(crate) fn type_line(word: &[u8], otherwise: &'static str) -> &'static str
    ensures { result.now ≡ spec.type_line word.now otherwise.now }
{
    named_note(&TYPES, word, otherwise)
}

/// A loop that tries to exchange.
const TRIED_EXCHANGE: &str =
    "note: a loop has a number of tries of an `int` in each task: `ok = 0; for (n = 0; n < 3; n++) if (!ok) { was = cmpxchg(x, old, old | 1); ok = was == old; old = was; }`; `if (ok) { .. }` stands round what follows, and `exists` asks `1:ok=1 /\\ ..` of P1, and `forall` `1:ok=0 \\/ ..`\n";

/// A loop that exchanges what it expects.
const EXPECTED_EXCHANGE: &str =
    "note: a loop has a number of tries of an `int` in each task: `ok = 0; for (n = 0; n < 3; n++) if (!ok) { was = cmpxchg(x, 0, 1); ok = was == 0; }`; `if (ok) { .. }` stands round what follows, and `exists` asks `1:ok=1 /\\ ..` of P1, and `forall` `1:ok=0 \\/ ..`\n";

/// A loop that exchanges.
const EXCHANGE: &str =
    "note: a loop has a number of tries of an `int` in each task: `ok = 0; for (n = 0; n < 3; n++) if (!ok) { was = xchg(x, 1); ok = was == 0; }`; `if (ok) { .. }` stands round what follows, and `exists` asks `1:ok=1 /\\ ..` of P1, and `forall` `1:ok=0 \\/ ..`\n";

/// A loop that tries to take a lock.
const TRIED_LOCK: &str = "note: write `spin_lock(l);` for the loop: it waits by itself\n";

/// Loops, by what they ask for.
static LOOPS: [NoteRow; 13] = [
    NoteRow("try_cmpxchg", TRIED_EXCHANGE),
    NoteRow("atomic_try_cmpxchg", TRIED_EXCHANGE),
    NoteRow("atomic64_try_cmpxchg", TRIED_EXCHANGE),
    NoteRow("atomic_long_try_cmpxchg", TRIED_EXCHANGE),
    NoteRow("cmpxchg", EXPECTED_EXCHANGE),
    NoteRow("atomic_cmpxchg", EXPECTED_EXCHANGE),
    NoteRow("xchg", EXCHANGE),
    NoteRow("atomic_xchg", EXCHANGE),
    NoteRow("spin_trylock", TRIED_LOCK),
    NoteRow("raw_spin_trylock", TRIED_LOCK),
    NoteRow("mutex_trylock", TRIED_LOCK),
    NoteRow("1)", TURNS),
    NoteRow("true)", TURNS),
];

/// The line on a loop that asks for this before each turn, or else this one.
pub(crate) fn loop_line(asked: &[u8], otherwise: &'static str) -> &'static str
    ensures { result.now ≡ spec.loop_line asked.now otherwise.now }
{
    begun_note(&LOOPS, asked, otherwise)
}

/// Structures of the kernel that aren't written as their fields.
static STRUCTURES: [NoteRow; 9] = [
    NoteRow(
        "struct mutex",
        "note: a mutex is a `spinlock_t`, with `spin_lock` and `spin_unlock`\n",
    ),
    NoteRow(
        "struct completion",
        "note: a completion is an `int done` as an item and an `int *done` as a parameter\n",
    ),
    NoteRow("struct srcu_struct", "note: leave it out: no RCU is read\n"),
    NoteRow("struct rcu_head", "note: leave it out: no RCU is read\n"),
    NoteRow(
        "struct rw_semaphore",
        "note: it is a `spinlock_t`, with `spin_lock` and `spin_unlock`: readers then exclude each other too\n",
    ),
    NoteRow(
        "struct semaphore",
        "note: a semaphore that one task holds at a time is a `spinlock_t`, with `spin_lock` and `spin_unlock`\n",
    ),
    NoteRow(
        "struct wait_queue_head",
        "note: leave it out: what waits on it is a wait with a number of tries of a variable\n",
    ),
    NoteRow(
        "struct task_struct",
        "note: leave it out: tasks are the processes, and a task that is woken waits for a variable\n",
    ),
    NoteRow(
        "struct list_head",
        "note: a list is a variable for each of its pointers, as `int *next`, 1 for the first entry and 0 for none, and one for each field of each entry\n",
    ),
];

/// The line on a structure that a text goes on with, or else this one.
pub(crate) fn structure_line(rest: &[u8], otherwise: &'static str) -> &'static str
    ensures { result.now ≡ spec.structure_line rest.now otherwise.now }
{
    begun_note(&STRUCTURES, rest, otherwise)
}
