//! Statements of a task. Registers are the task's, by number, and variables the program's.

ghost use Rattle.std.specs.Prelude.{◌≡◌};
ghost use Rattle.litmus_syntax.specs.PrintedForm.{barrier_name};

use crate::expression::{Expression, Load, Pure};
use access_types::Mark;

/// How a variable is written.
#[derive(Clone, Copy, PartialEq, Eq)]
pub enum WriteForm {
    /// `*x = e`.
    Plain,
    /// `WRITE_ONCE(*x, e)`.
    Once,
    /// `smp_store_release(x, e)`.
    Release,
    /// `atomic_set(x, e)`.
    Atomic,
}

/// What gives a register or a variable a value.
#[derive(PartialEq, Drop)]
pub enum Assignment {
    /// `r0 = e`.
    Register {
        register: usize,
        value: Expression,
    },
    /// `*x = e` and its marked forms.
    Write {
        form: WriteForm,
        variable: usize,
        value: Pure,
    },
    /// `*x += e`.
    Add {
        variable: usize,
        value: Pure,
    },
    /// `(*x)++`.
    Increment {
        variable: usize,
    },
    /// `atomic_add(e, x)`.
    AtomicAdd {
        value: Pure,
        variable: usize,
    },
    /// `atomic_inc(x)`.
    AtomicIncrement {
        variable: usize,
    },
    /// `atomic_dec(x)`.
    AtomicDecrement {
        variable: usize,
    },
}

/// A barrier. Memory is sequentially consistent, so none has an effect.
#[derive(Clone, Copy, PartialEq, Eq)]
pub enum Barrier {
    /// `smp_mb`.
    Full,
    /// `smp_rmb`.
    Read,
    /// `smp_wmb`.
    Write,
    /// `smp_mb__before_atomic`.
    BeforeAtomic,
    /// `smp_mb__after_atomic`.
    AfterAtomic,
    /// `smp_mb__after_spinlock`.
    AfterSpinlock,
    /// `smp_mb__after_unlock_lock`.
    AfterUnlockLock,
}

impl Barrier {
    /// How it is called.
    pub fn name(self) -> &'static str
        ensures { result.now ≡ barrier_name self }
    {
        match self {
            Barrier::Full => "smp_mb",
            Barrier::Read => "smp_rmb",
            Barrier::Write => "smp_wmb",
            Barrier::BeforeAtomic => "smp_mb__before_atomic",
            Barrier::AfterAtomic => "smp_mb__after_atomic",
            Barrier::AfterSpinlock => "smp_mb__after_spinlock",
            Barrier::AfterUnlockLock => "smp_mb__after_unlock_lock",
        }
    }
}

/// A call that gives no value.
#[derive(Clone, Copy, PartialEq, Eq)]
pub enum Call {
    Barrier(Barrier),
    /// `spin_lock(l)`.
    Lock {
        variable: usize,
    },
    /// `spin_unlock(l)`.
    Unlock {
        variable: usize,
    },
    /// `ASSERT_EXCLUSIVE_WRITER(*x)`, to the end of the block where it is scoped.
    AssertWriter {
        variable: usize,
        scoped: bool,
    },
    /// `ASSERT_EXCLUSIVE_ACCESS(*x)`, to the end of the block where it is scoped.
    AssertAccess {
        variable: usize,
        scoped: bool,
    },
    /// `ASSERT_EXCLUSIVE_BITS(*x, m)`.
    AssertBits {
        variable: usize,
        mask: u64,
    },
    /// A call that changes what counts as marked or is silenced, as `kcsan_disable_current()`.
    Mark(Mark),
    /// `kcsan_check_read(x, n)` or `kcsan_check_write(x, n)`. A check of size 0 has no access.
    Check {
        write: bool,
        variable: usize,
        size: u64,
    },
}

/// A statement.
#[derive(PartialEq, Drop)]
pub enum Statement {
    /// A load whose value nothing takes, as `*x;`.
    Load(Load),
    /// An assignment, inside `data_race( )` or not.
    Assign {
        data_race: bool,
        assignment: Assignment,
    },
    Call(Call),
    /// `if (e) { .. }`.
    If {
        condition: Expression,
        body: Vec<Statement>,
    },
    /// `if (e) { .. } else { .. }`.
    IfElse {
        condition: Expression,
        body: Vec<Statement>,
        otherwise: Vec<Statement>,
    },
    /// `for (i = 0; i < n; i++) { .. }`.
    For {
        register: usize,
        turns: u64,
        body: Vec<Statement>,
    },
}
