//! The words of the grammar: names that no variable and no register has.

ghost use Rattle.std.specs.Prelude.{◌≡◌, map};
ghost use Rattle.litmus_lex.specs.Words as words;

use litmus_syntax::{Barrier, Mark, ReadForm, WriteForm};

/// The type of a variable, as the text has it.
#[derive(Clone, Copy, PartialEq, Eq)]
pub enum VariableType {
    /// `char`
    Char,
    /// `short`
    Short,
    /// `int`
    Int,
    /// `long`
    Long,
    /// `atomic_t`
    Atomic,
    /// `spinlock_t`
    Lock,
}

/// A word that begins a load and isn't `data_race`.
#[derive(Clone, Copy)]
pub enum LoadWord {
    /// `READ_ONCE`, `smp_load_acquire`, `atomic_read`.
    Read(ReadForm),
    /// `xchg`
    Exchange,
    /// `cmpxchg`
    CompareExchange,
}

/// A word that begins a statement which changes a variable.
#[derive(Clone, Copy)]
pub enum StoreWord {
    /// `WRITE_ONCE`, `smp_store_release`, `atomic_set`.
    Write(WriteForm),
    /// `atomic_add`
    Add,
    /// `atomic_inc`
    Increment,
    /// `atomic_dec`
    Decrement,
}

/// A word that begins another call.
#[derive(Clone, Copy)]
pub enum CallWord {
    /// `smp_mb` and its kin.
    Barrier(Barrier),
    /// `spin_lock`
    Lock,
    /// `spin_unlock`
    Unlock,
    /// `ASSERT_EXCLUSIVE_WRITER`, and with `_SCOPED`.
    AssertWriter { scoped: bool },
    /// `ASSERT_EXCLUSIVE_ACCESS`, and with `_SCOPED`.
    AssertAccess { scoped: bool },
    /// `ASSERT_EXCLUSIVE_BITS`
    AssertBits,
    /// `kcsan_disable_current` and its kin.
    Mark(Mark),
    /// `kcsan_atomic_next`
    AtomicNext,
    /// `kcsan_check_read`, `kcsan_check_write`.
    Check { write: bool },
}

/// A word of the grammar.
#[derive(Clone, Copy)]
pub enum Word {
    Type(VariableType),
    /// `ATOMIC_INIT`
    AtomicInit,
    /// `if`
    If,
    /// `else`
    Else,
    /// `for`
    For,
    /// `data_race`
    DataRace,
    Load(LoadWord),
    Store(StoreWord),
    Call(CallWord),
    /// `exists`
    Exists,
    /// `forall`
    Forall,
    /// `true`
    True,
    /// `false`
    False,
    /// `_SCOPED`, which only ends other words.
    Scoped,
    /// A word of C or of the kernel's format: `while`, `do`, `filter`, `locations`, `struct`, `unsigned`,
    /// `volatile`.
    Foreign,
}

/// The words of two bytes.
const TWO: [(&str, Word); 2] = [("if", Word::If), ("do", Word::Foreign)];

/// The words of three bytes.
const THREE: [(&str, Word); 2] = [("int", Word::Type(VariableType::Int)), ("for", Word::For)];

/// The words of four bytes.
const FOUR: [(&str, Word); 5] = [
    ("char", Word::Type(VariableType::Char)),
    ("long", Word::Type(VariableType::Long)),
    ("else", Word::Else),
    ("xchg", Word::Load(LoadWord::Exchange)),
    ("true", Word::True),
];

/// The words of five bytes.
const FIVE: [(&str, Word); 3] = [
    ("short", Word::Type(VariableType::Short)),
    ("false", Word::False),
    ("while", Word::Foreign),
];

/// The words of six bytes.
const SIX: [(&str, Word); 5] = [
    ("smp_mb", Word::Call(CallWord::Barrier(Barrier::Full))),
    ("exists", Word::Exists),
    ("forall", Word::Forall),
    ("filter", Word::Foreign),
    ("struct", Word::Foreign),
];

/// The words of seven bytes.
const SEVEN: [(&str, Word); 4] = [
    ("cmpxchg", Word::Load(LoadWord::CompareExchange)),
    ("smp_rmb", Word::Call(CallWord::Barrier(Barrier::Read))),
    ("smp_wmb", Word::Call(CallWord::Barrier(Barrier::Write))),
    ("_SCOPED", Word::Scoped),
];

/// The words of eight bytes.
const EIGHT: [(&str, Word); 3] = [
    ("atomic_t", Word::Type(VariableType::Atomic)),
    ("unsigned", Word::Foreign),
    ("volatile", Word::Foreign),
];

/// The words of nine bytes.
const NINE: [(&str, Word); 4] = [
    ("data_race", Word::DataRace),
    ("READ_ONCE", Word::Load(LoadWord::Read(ReadForm::Once))),
    ("spin_lock", Word::Call(CallWord::Lock)),
    ("locations", Word::Foreign),
];

/// The words of ten bytes.
const TEN: [(&str, Word); 6] = [
    ("spinlock_t", Word::Type(VariableType::Lock)),
    ("WRITE_ONCE", Word::Store(StoreWord::Write(WriteForm::Once))),
    (
        "atomic_set",
        Word::Store(StoreWord::Write(WriteForm::Atomic)),
    ),
    ("atomic_add", Word::Store(StoreWord::Add)),
    ("atomic_inc", Word::Store(StoreWord::Increment)),
    ("atomic_dec", Word::Store(StoreWord::Decrement)),
];

/// The words of eleven bytes.
const ELEVEN: [(&str, Word); 3] = [
    ("ATOMIC_INIT", Word::AtomicInit),
    ("atomic_read", Word::Load(LoadWord::Read(ReadForm::Atomic))),
    ("spin_unlock", Word::Call(CallWord::Unlock)),
];

/// The words of more bytes than eleven.
const LONGER: [(&str, Word); 20] = [
    (
        "smp_load_acquire",
        Word::Load(LoadWord::Read(ReadForm::Acquire)),
    ),
    (
        "smp_store_release",
        Word::Store(StoreWord::Write(WriteForm::Release)),
    ),
    (
        "smp_mb__before_atomic",
        Word::Call(CallWord::Barrier(Barrier::BeforeAtomic)),
    ),
    (
        "smp_mb__after_atomic",
        Word::Call(CallWord::Barrier(Barrier::AfterAtomic)),
    ),
    (
        "smp_mb__after_spinlock",
        Word::Call(CallWord::Barrier(Barrier::AfterSpinlock)),
    ),
    (
        "smp_mb__after_unlock_lock",
        Word::Call(CallWord::Barrier(Barrier::AfterUnlockLock)),
    ),
    (
        "ASSERT_EXCLUSIVE_WRITER",
        Word::Call(CallWord::AssertWriter { scoped: false }),
    ),
    (
        "ASSERT_EXCLUSIVE_WRITER_SCOPED",
        Word::Call(CallWord::AssertWriter { scoped: true }),
    ),
    (
        "ASSERT_EXCLUSIVE_ACCESS",
        Word::Call(CallWord::AssertAccess { scoped: false }),
    ),
    (
        "ASSERT_EXCLUSIVE_ACCESS_SCOPED",
        Word::Call(CallWord::AssertAccess { scoped: true }),
    ),
    ("ASSERT_EXCLUSIVE_BITS", Word::Call(CallWord::AssertBits)),
    (
        "kcsan_disable_current",
        Word::Call(CallWord::Mark(Mark::Disable)),
    ),
    (
        "kcsan_enable_current",
        Word::Call(CallWord::Mark(Mark::Enable)),
    ),
    (
        "kcsan_nestable_atomic_begin",
        Word::Call(CallWord::Mark(Mark::NestOpen)),
    ),
    (
        "kcsan_nestable_atomic_end",
        Word::Call(CallWord::Mark(Mark::NestClose)),
    ),
    (
        "kcsan_flat_atomic_begin",
        Word::Call(CallWord::Mark(Mark::FlatBegin)),
    ),
    (
        "kcsan_flat_atomic_end",
        Word::Call(CallWord::Mark(Mark::FlatEnd)),
    ),
    ("kcsan_atomic_next", Word::Call(CallWord::AtomicNext)),
    (
        "kcsan_check_read",
        Word::Call(CallWord::Check { write: false }),
    ),
    (
        "kcsan_check_write",
        Word::Call(CallWord::Check { write: true }),
    ),
];

/// The word that a name is, in a table.
fn look_up(mut table: &[(&str, Word)], name: &[u8]) -> Option<Word>
    ensures { result ≡ words.look_up (map (λ entry. (entry.0.now, entry.1)) table.entry.now) name.now }
{
    while let [(text, word), rest @ ..] = table {
        if text.as_bytes() == name {
            return Some(*word);
        }
        table = rest;
    }
    None
}

/// The word that a name is. Most names are no words, so a name is compared with those of its length alone.
pub fn word_of(name: &[u8]) -> Option<Word>
    ensures { result ≡ words.word_of name.now }
{
    match name.len() {
        1 => None,
        2 => look_up(&TWO, name),
        3 => look_up(&THREE, name),
        4 => look_up(&FOUR, name),
        5 => look_up(&FIVE, name),
        6 => look_up(&SIX, name),
        7 => look_up(&SEVEN, name),
        8 => look_up(&EIGHT, name),
        9 => look_up(&NINE, name),
        10 => look_up(&TEN, name),
        11 => look_up(&ELEVEN, name),
        _ => look_up(&LONGER, name),
    }
}
