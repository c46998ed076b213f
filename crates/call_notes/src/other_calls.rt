//! Calls that are left out, and others.

ghost use Rattle.std.specs.Prelude.{◌≡◌};
ghost use Rattle.call_notes.specs.OtherCalls as spec;

use crate::note_rows::{NoteRow, begun_note, named_note};
use crate::shared_lines::{JUMP, NUMBER, TRY};

/// A call without an effect.
const WITHOUT_EFFECT: &str = "note: it changes nothing here: leave it out\n";

/// A call that prints.
const PRINTED: &str =
    "note: it prints, and nothing here does: write `*x;` for each plain load among its arguments, `READ_ONCE(*x);` for each marked one, and leave the rest out\n";

/// No time.
const TIME: &str =
    "note: no time passes here: keep its loads, as `r1 = *exp;`, and compare with a number, as `if (r1 < 3) { .. }`; in a wait leave it out: that has a number of tries\n";

/// A store and a barrier.
const STORE_MB: &str = "note: write `WRITE_ONCE(*x, 1); smp_mb();`\n";

/// An exchange with an order.
const ORDERED: &str = "note: write `xchg(x, 1)` or `cmpxchg(x, 0, 1)`, with no order in the name\n";

/// A completion.
const COMPLETION: &str =
    "note: a completion is an `int *done`: write `smp_store_release(done, 1);`, and what waits for it as a wait for 1; where several wait and complete lets one of them through, each of them tries `was = cmpxchg(done, 1, 0); ok = was == 1;`\n";

/// What may come.
const ASSERTED: &str =
    "note: keep its loads, as `r1 = *x;` or `r1 = READ_ONCE(*x);`, and let the condition ask whether it can fail, as `exists (1:r1=0)`\n";

/// A value that is its argument.
const TRANSPARENT: &str = "note: write what its parentheses have\n";

/// No memory.
const MEMORY: &str =
    "note: no memory is allocated here: a variable, as `int *b`, is there from the start, and `r0 = 1;` is its address\n";

/// Memory that is freed.
const FREED: &str =
    "note: no memory is freed here: write `ASSERT_EXCLUSIVE_ACCESS(*x);` for each variable of what is freed: that is what kfree checks\n";

/// A variable of each CPU.
const PER_CPU: &str =
    "note: a variable of each CPU is one variable for each of them, as `int *cnt0` and `int *cnt1`: write `(*cnt0)++;` for this_cpu_inc in P0, and `r0 = *cnt1;` for a read of that of P1\n";

/// A check of KCSAN.
const CHECK: &str =
    "note: it depends on the flags: for 0 write `kcsan_check_read(x, 4);`, for KCSAN_ACCESS_WRITE `kcsan_check_write(x, 4);`, with KCSAN_ACCESS_COMPOUND too `*x += 0;`, with KCSAN_ACCESS_ASSERT too `ASSERT_EXCLUSIVE_ACCESS(*x);`; for KCSAN_ACCESS_ASSERT alone `ASSERT_EXCLUSIVE_WRITER(*x);`, and for KCSAN_ACCESS_ATOMIC alone `READ_ONCE(*x);`\n";

/// The lines on a call that is left out, by its name.
static LEFT_OUT_NAME_ROWS: [NoteRow; 17] = [
    NoteRow("barrier", WITHOUT_EFFECT),
    NoteRow("cpu_relax", WITHOUT_EFFECT),
    NoteRow("mb", WITHOUT_EFFECT),
    NoteRow("rmb", WITHOUT_EFFECT),
    NoteRow("wmb", WITHOUT_EFFECT),
    NoteRow("cond_resched", WITHOUT_EFFECT),
    NoteRow("printk", PRINTED),
    NoteRow("printf", PRINTED),
    NoteRow("sleep", WITHOUT_EFFECT),
    NoteRow("sched_yield", WITHOUT_EFFECT),
    NoteRow("schedule", WITHOUT_EFFECT),
    NoteRow("udelay", WITHOUT_EFFECT),
    NoteRow("mdelay", WITHOUT_EFFECT),
    NoteRow("ndelay", WITHOUT_EFFECT),
    NoteRow("msleep", WITHOUT_EFFECT),
    NoteRow("ssleep", WITHOUT_EFFECT),
    NoteRow("fsleep", WITHOUT_EFFECT),
];

/// The line on a call that is left out, by its name, or else this one.
pub(crate) fn left_out_name_line(name: &[u8], otherwise: &'static str) -> &'static str
    ensures { result.now ≡ spec.left_out_name_line name.now otherwise.now }
{
    named_note(&LEFT_OUT_NAME_ROWS, name, otherwise)
}

/// The lines on a call that is left out: the first row that a name begins with counts.
static LEFT_OUT_ROWS: [NoteRow; 21] = [
    NoteRow("local_irq_", WITHOUT_EFFECT),
    NoteRow("local_bh_", WITHOUT_EFFECT),
    NoteRow("preempt_", WITHOUT_EFFECT),
    NoteRow("pr_", PRINTED),
    NoteRow("wake_up", WITHOUT_EFFECT),
    NoteRow("lockdep_", WITHOUT_EFFECT),
    NoteRow("seqcount_init", WITHOUT_EFFECT),
    NoteRow("dma_rmb", WITHOUT_EFFECT),
    NoteRow("dma_wmb", WITHOUT_EFFECT),
    NoteRow("smp_acquire__after_ctrl_dep", WITHOUT_EFFECT),
    NoteRow("smp_read_barrier_depends", WITHOUT_EFFECT),
    NoteRow("read_barrier_depends", WITHOUT_EFFECT),
    NoteRow("usleep", WITHOUT_EFFECT),
    NoteRow("time_after", TIME),
    NoteRow("time_before", TIME),
    NoteRow("printk_", PRINTED),
    NoteRow("trace_", PRINTED),
    NoteRow("dev_info", PRINTED),
    NoteRow("dev_warn", PRINTED),
    NoteRow("dev_err", PRINTED),
    NoteRow("dev_dbg", PRINTED),
];

/// The line on a call that is left out, or else this one.
pub(crate) fn left_out_line(name: &[u8], otherwise: &'static str) -> &'static str
    ensures { result.now ≡ spec.left_out_line name.now otherwise.now }
{
    begun_note(&LEFT_OUT_ROWS, name, otherwise)
}

/// The lines on another call, by its name.
static ACCESS_NAME_ROWS: [NoteRow; 22] = [
    NoteRow(
        "RCU_INIT_POINTER",
        "note: write `WRITE_ONCE(*x, 1)`, of an `int`\n",
    ),
    NoteRow("BIT", NUMBER),
    NoteRow("BIT_ULL", NUMBER),
    NoteRow("GENMASK", NUMBER),
    NoteRow("sizeof", NUMBER),
    NoteRow("return", JUMP),
    NoteRow("goto", JUMP),
    NoteRow("break", JUMP),
    NoteRow("continue", JUMP),
    NoteRow("smp_store_mb", STORE_MB),
    NoteRow("set_mb", STORE_MB),
    NoteRow(
        "ACCESS_ONCE",
        "note: write `READ_ONCE(*x)`, and `WRITE_ONCE(*x, 1)` for `ACCESS_ONCE(*x) = 1`\n",
    ),
    NoteRow("complete", COMPLETION),
    NoteRow("complete_all", COMPLETION),
    NoteRow(
        "init_completion",
        "note: of an `int *done` write `*done = 0;`\n",
    ),
    NoteRow(
        "reinit_completion",
        "note: of an `int *done` write `*done = 0;`\n",
    ),
    NoteRow(
        "completion_done",
        "note: of an `int *done` write `READ_ONCE(*done) != 0`\n",
    ),
    NoteRow(
        "try_wait_for_completion",
        "note: of an `int *done` in each task write `was = cmpxchg(done, 1, 0);`, with `(was == 1)` for its value\n",
    ),
    NoteRow("assert", ASSERTED),
    NoteRow("likely", TRANSPARENT),
    NoteRow("unlikely", TRANSPARENT),
    NoteRow("switch", "note: write `if` and `else`\n"),
];

/// The line on another call, by its name, or else this one.
pub(crate) fn access_name_line(name: &[u8], otherwise: &'static str) -> &'static str
    ensures { result.now ≡ spec.access_name_line name.now otherwise.now }
{
    named_note(&ACCESS_NAME_ROWS, name, otherwise)
}

/// The lines on another call: the first row that a name begins with counts.
static ACCESS_ROWS: [NoteRow; 30] = [
    NoteRow("try_cmpxchg", TRY),
    NoteRow("xchg_", ORDERED),
    NoteRow("cmpxchg_", ORDERED),
    NoteRow("BUG_ON", ASSERTED),
    NoteRow("WARN_ON", ASSERTED),
    NoteRow("kmalloc", MEMORY),
    NoteRow("kzalloc", MEMORY),
    NoteRow("kfree", FREED),
    NoteRow("kvfree", FREED),
    NoteRow("this_cpu_", PER_CPU),
    NoteRow("__this_cpu_", PER_CPU),
    NoteRow("raw_cpu_", PER_CPU),
    NoteRow("per_cpu", PER_CPU),
    NoteRow("get_cpu_var", PER_CPU),
    NoteRow("put_cpu_var", PER_CPU),
    NoteRow(
        "for_each_",
        "note: write the body once for each, with variables of its own, as `*cnt0` and `*cnt1`\n",
    ),
    NoteRow("kcsan_check_access", CHECK),
    NoteRow("__kcsan_check_access", CHECK),
    NoteRow(
        "kcsan_check_read_write",
        "note: write `*x += 0;`, one access that reads and writes\n",
    ),
    NoteRow(
        "__kcsan_check_read_write",
        "note: write `*x += 0;`, one access that reads and writes\n",
    ),
    NoteRow("kcsan_check_atomic_read", "note: write `READ_ONCE(*x);`\n"),
    NoteRow(
        "__kcsan_check_read",
        "note: write `kcsan_check_read(x, 4);`\n",
    ),
    NoteRow(
        "__kcsan_check_write",
        "note: write `kcsan_check_write(x, 4);`\n",
    ),
    NoteRow(
        "__kcsan_disable_current",
        "note: write `kcsan_disable_current();`\n",
    ),
    NoteRow(
        "__kcsan_enable_current",
        "note: write `kcsan_enable_current();`\n",
    ),
    NoteRow(
        "kcsan_enable_current_nowarn",
        "note: write `kcsan_enable_current();`\n",
    ),
    NoteRow("__READ_ONCE", "note: write `READ_ONCE(*x)`\n"),
    NoteRow("__WRITE_ONCE", "note: write `WRITE_ONCE(*x, 1)`\n"),
    NoteRow(
        "READ_ONCE_NOCHECK",
        "note: write `kcsan_disable_current(); r0 = READ_ONCE(*x); kcsan_enable_current();`\n",
    ),
    NoteRow("typeof", "note: write the type itself, as `int r0;`\n"),
];

/// The line on another call, or else this one.
pub(crate) fn access_line(name: &[u8], otherwise: &'static str) -> &'static str
    ensures { result.now ≡ spec.access_line name.now otherwise.now }
{
    begun_note(&ACCESS_ROWS, name, otherwise)
}
