//! The last line of what is said of a text that is refused: where no note on the token itself is known, the form that
//! is read there, or how the limit is kept.

ghost use Rattle.std.specs.Prelude.{◌≡◌};
ghost use Rattle.diagnostics.specs.refusal_text.FormNotes as spec;

use check_notes::note_of;
use litmus_lex::{Excess, Expected, Fault, Sign};
use litmus_parse::Reason;

/// The form of a loop.
#[tactic(auto, unfolding(crate::specs::refusal_text::FormNotes::loop_note))]
fn loop_note() -> &'static str
    ensures { result.now ≡ spec.loop_note }
{
    "note: a loop is as `for (i = 0; i < 3; i++) { .. }`: one register, from 0, below a number, by `++`\n"
}

/// Where this sign stands.
#[tactic(auto, unfolding(crate::specs::refusal_text::FormNotes::sign_form))]
fn sign_form(sign: Sign) -> &'static str
    ensures { result.now ≡ spec.sign_form sign }
{
    match sign {
        Sign::OpenBrace =>
            "note: the statements of a process stand in `{ .. }` behind its parameters, as `P0(int *x) { *x = 1; }`\n",
        Sign::OpenParen =>
            "note: `(` stands behind `if`, `for` and the name of a call or a process, as `if (r0 == 1) *x = 1;`, `smp_mb();`, `P0() { }` and `ATOMIC_INIT(1)`\n",
        Sign::CloseParen =>
            "note: `)` closes the last `(`, as in `READ_ONCE(*x)`, `WRITE_ONCE(*x, 1)`, `(r0 & 2) == 0` and `exists (0:r0=1 /\\ x=2)`\n",
        Sign::CloseBracket =>
            "note: `]` stands behind the name of a variable, as `exists ([x]=1)`\n",
        Sign::Semicolon =>
            "note: `;` ends a statement, as `r0 = *x;`, `smp_mb();` and `int r0 = 1;`\n",
        Sign::Comma =>
            "note: `,` stands between the arguments of a call, as `WRITE_ONCE(*x, 1)`, `cmpxchg(x, 0, 1)`, `atomic_add(1, a)` and `kcsan_check_read(x, 4)`\n",
        Sign::Colon =>
            "note: in the condition a register stands behind the number of its process, as `0:r0=1`, and a variable alone, as `x=1`\n",
        Sign::Assign =>
            "note: a register is assigned as `r0 = 1;` and declared as `int r0;`, and the condition has `=` too, as `0:r0=1` and `x=1`\n",
        Sign::Increment =>
            "note: `++` stands behind `(*x)`, as `(*x)++;`, and in a loop, as `for (i = 0; i < 3; i++) { .. }`\n",
        Sign::Star =>
            "note: `*` stands before the variable, as `*x = 1;`, `READ_ONCE(*x)` and the parameter `int *x`\n",
        Sign::Less => loop_note(),
        _ => "note: write this sign there\n",
    }
}

/// The form that is read where this is expected.
#[tactic(auto, unfolding(crate::specs::refusal_text::FormNotes::form_note))]
fn form_note(expected: Expected) -> &'static str
    ensures { result.now ≡ spec.form_note expected }
{
    match expected {
        Expected::Head =>
            "note: a whole text is as `C t { int x; } P0(int *x) { *x = 1; } exists (x=1)`\n",
        Expected::Sign(sign) => sign_form(sign),
        Expected::ParameterEnd =>
            "note: `,` stands between two parameters, and `)` behind the last one, as `P0(int *x, int *y)`\n",
        Expected::ItemEnd =>
            "note: `;` stands between two items, and `}` behind the last one, as `{ int x = 1; int y; }`\n",
        Expected::DeclarationEnd =>
            "note: a declaration is as `int r0, r1;`, or with a value as `int r0 = 1;`\n",
        Expected::Number => "note: a number is decimal or hexadecimal, as `10` and `0xa`\n",
        Expected::Zero => loop_note(),
        Expected::Value =>
            "note: an initial value is a number, as `int x = -1;`, or `ATOMIC_INIT` of one, as `atomic_t a = ATOMIC_INIT(1);`\n",
        Expected::Type =>
            "note: a parameter is a type and a name behind `*`, as `P0(int *x)`, and `P0()` has none\n",
        Expected::Variable =>
            "note: the name of a variable stands there, as `x` in the item `int x = 1;`, the parameter `int *x` and the condition `exists ([x]=1)`\n",
        Expected::IntegerVariable =>
            "note: the name of a parameter stands there, as `x` of `P0(int *x)` in `*x`, `READ_ONCE(*x)` and `xchg(x, 1)`\n",
        Expected::AtomicVariable =>
            "note: the name of a parameter stands there, as `a` of `P0(atomic_t *a)` in `atomic_read(a)` and `atomic_inc(a)`\n",
        Expected::LockVariable =>
            "note: the name of a parameter stands there, as `l` of `P0(spinlock_t *l)` in `spin_lock(l)` and `spin_unlock(l)`\n",
        Expected::MemoryVariable =>
            "note: the name of a parameter stands there, as `x` of `P0(int *x)` in `ASSERT_EXCLUSIVE_WRITER(*x)` and `kcsan_check_read(x, 4)`\n",
        Expected::Process =>
            "note: behind the `}` of the initialization block stands the first process, as `P0(int *x) { *x = 1; }`, then P1, and so on\n",
        Expected::Register =>
            "note: the name of a register stands there, as `r0` in `int r0;`, `r0 = 1;` and `exists (0:r0=1)`: a name that no parameter of its process has\n",
        Expected::Counter => loop_note(),
        Expected::Statement =>
            "note: a statement is as `int r0;`, `r0 = READ_ONCE(*x);`, `*x = 1;`, `WRITE_ONCE(*x, r0 + 1);`, `if (r0 == 1) { .. } else { .. }`, `for (i = 0; i < 3; i++) { .. }` or `spin_lock(l);`, and `}` ends the block\n",
        Expected::Simple =>
            "note: `data_race( )` is round one load or assignment, as `data_race(*x);`, `data_race(r0 = *x);`, `data_race(*x = 1);` or `data_race(WRITE_ONCE(*x, 1));`\n",
        Expected::Load =>
            "note: a load is as `*x`, `READ_ONCE(*x)`, `smp_load_acquire(x)`, `xchg(x, 1)` or `cmpxchg(x, 0, 1)`, or `atomic_read(a)` of an `atomic_t`\n",
        Expected::Expression =>
            "note: an expression has numbers and registers, as `(r0 & 2) == 0`, and one load at most, as `r0 = *x + 1;`; what is written or exchanged has no load\n",
        Expected::Pure =>
            "note: what is written or exchanged has no load in it: load before, as `r0 = *x;`, and write `r0 + 1`\n",
        Expected::Operator =>
            "note: the operators are `*`, `+`, `-`, `<`, `>`, `<=`, `>=`, `==`, `!=`, `&`, `^` and `|`, as `(r0 & 2) == 0`\n",
        Expected::Condition =>
            "note: behind the `}` of a process stands the next one, as `P1(int *x) { *x = 1; }`, or the condition, as `exists (0:r0=1)`, `~exists (x=2)` or `forall (x=1)`\n",
        Expected::Exists =>
            "note: `~` stands before `exists`, as `~exists (0:r0=1)`, and in the proposition before what isn't so, as `forall (~0:r0=1)`\n",
        Expected::Proposition =>
            "note: a proposition is as `(0:r0=1 /\\ x=2)`, of registers and variables with their values, with `/\\`, `\\/`, `~` and parentheses\n",
        Expected::Task =>
            "note: the number of a process of the text stands there, as 0 for P0 in `exists (0:r0=1)`\n",
        Expected::End =>
            "note: the text ends behind one proposition, as `exists (0:r0=1 /\\ x=2)`; more are joined by `/\\` or `\\/`\n",
    }
}

/// How a text keeps this limit.
#[tactic(auto, unfolding(crate::specs::refusal_text::FormNotes::limit_note))]
fn limit_note(excess: Excess) -> &'static str
    ensures { result.now ≡ spec.limit_note excess }
{
    match excess {
        Excess::Tasks => "note: leave out processes: a race is of two of them\n",
        Excess::Statements =>
            "note: write what repeats as a loop, as `for (i = 0; i < 3; i++) { .. }`: its statements count once\n",
        Excess::Variables =>
            "note: what one process alone uses is kept in a register, as `r0 = 1;`, without an item and a parameter\n",
        Excess::Registers =>
            "note: assign a register again once its value isn't needed, as `r0 = *x; r0 = *y;`\n",
        Excess::Nesting =>
            "note: keep a part in a register before, as `r1 = r0 + 1;` or `ok = (r0 == 1) & (r1 == 2);` for one `if (ok) { .. }`; in the condition leave out parentheses: `/\\` binds more tightly than `\\/`\n",
        Excess::Operators =>
            "note: keep a part in a register before, as `r1 = r0 + 1;`, which the condition can ask for too, as `exists (0:r1=2)`\n",
        Excess::Scoped =>
            "note: a scoped assertion holds to the end of its block, so end the block before: `if (1) { ASSERT_EXCLUSIVE_WRITER_SCOPED(*x); .. }`\n",
        Excess::Number => "note: numbers have 64 bits: the greatest is 0xffffffffffffffff\n",
        Excess::Check =>
            "note: a check is of the bytes of a variable, as `kcsan_check_read(x, 4);` of an `int`\n",
        Excess::Turns =>
            "note: write fewer turns, as `for (i = 0; i < 3; i++) { .. }`: those of a loop in a loop are multiplied\n",
        Excess::Repeats =>
            "note: write fewer turns, as `for (i = 0; i < 3; i++) { .. }`, or fewer accesses in the loop: statements of registers alone don't count\n",
    }
}

/// What to write where a text has this fault.
#[tactic(auto, unfolding(crate::specs::refusal_text::FormNotes::fault_form))]
fn fault_form(fault: Fault, expected: Expected) -> &'static str
    ensures { result.now ≡ spec.fault_form fault expected }
{
    match fault {
        Fault::Unclosed =>
            "note: a comment is as `/* .. */`, or `(* .. *)` outside the bodies of processes: write its end; `// ..` ends with its line\n",
        _ => form_note(expected),
    }
}

/// What to write where a text is refused for this reason.
#[tactic(auto, unfolding(crate::specs::refusal_text::FormNotes::general_note))]
fn general_note(reason: Reason) -> &'static str
    ensures { result.now ≡ spec.general_note reason }
{
    match reason {
        Reason::OutOfMemory => "",
        Reason::File =>
            "note: blanks and comments count too: leave out what the race doesn't need\n",
        Reason::NotAscii =>
            "note: a litmus file has tabs, LF, CR and the bytes from a blank to `~`, in comments too: write it in ASCII\n",
        Reason::Limit(excess) => limit_note(excess),
        Reason::Syntax { fault, expected } => fault_form(fault, expected),
        Reason::Unsupported { expected, .. } => form_note(expected),
    }
}

/// The last line of what is said of a text that is refused where this token stands, behind this word in its line, where
/// the text goes on with these bytes from the token on: the note on the token, if there is one.
#[tactic(auto, unfolding(crate::specs::refusal_text::FormNotes::note_line))]
pub(crate) fn note_line(reason: Reason, token: &[u8], before: &[u8], rest: &[u8]) -> &'static str
    ensures { result.now ≡ spec.note_line reason token.now before.now rest.now }
{
    let note = note_of(reason, token, before, rest);
    if note.is_empty() {
        return general_note(reason);
    }
    note
}
