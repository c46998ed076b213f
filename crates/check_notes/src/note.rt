//! The last line of a message: what to write in the place of what C or the kernel's format have, or why it isn't read.

ghost use Rattle.std.specs.Prelude.{◌≡◌};
ghost use Rattle.check_notes.specs.Notes as spec;

use crate::common_notes::{
    block_note, name_note, pointer_note, star_note, structure_note, turns_note, value_note,
};
use crate::syntax_notes::{behind_token, fault_note, is_part, part_note};
use crate::tables::{loop_line, structure_line};
use crate::words::{ends_structure, is_constant, without_signs};
use call_notes::{bit_lock_note, call_note, wait_note};
use litmus_lex::{Expected, Sign, Unread};
use litmus_parse::Reason;

/// The line that says why a part of a text isn't read that the kernel's format has.
#[tactic(auto, unfolding(crate::specs::Notes::section_why))]
fn section_why(name: &[u8]) -> &'static str
    ensures { result.now ≡ spec.section_why name.now }
{
    if name.starts_with(b"locations") {
        "note: it changes nothing here: leave it out\n"
    } else {
        "note: no run is left out here: for `filter (F) exists (C)` write `exists ((F) /\\ (C))`, and for `filter (F) forall (C)` `forall (~(F) \\/ (C))`\n"
    }
}

/// A loop that asks for this before each turn.
#[tactic(auto, unfolding(crate::specs::Notes::while_note))]
fn while_note(asked: &[u8]) -> &'static str
    ensures { result.now ≡ spec.while_note asked.now }
{
    if asked.starts_with(b"test_and_set_bit") {
        return bit_lock_note();
    }
    loop_line(asked, wait_note())
}

/// The line on a loop that begins with this word.
#[tactic(auto, unfolding(crate::specs::Notes::loop_why))]
fn loop_why(word: &[u8], rest: &[u8]) -> &'static str
    ensures { result.now ≡ spec.loop_why word.now rest.now }
{
    if word == b"while".as_slice() {
        return while_note(without_signs(behind_token(word, rest)));
    }
    if word == b"do".as_slice() {
        return turns_note();
    }
    ""
}

/// The line on the head of a loop that leaves the form that is read where this is expected.
#[tactic(auto, unfolding(crate::specs::Notes::head_why))]
fn head_why(expected: Expected) -> &'static str
    ensures { result.now ≡ spec.head_why expected }
{
    match expected {
        Expected::Register =>
            "note: a register stands there without a type, as in `for (i = 0; i < 3; i++)`, and need not be declared\n",
        Expected::Number =>
            "note: the number of turns is a number: write the greatest, as in `for (i = 0; i < 3; i++) if (i < r0) { .. }`\n",
        _ =>
            "note: a loop counts up from 0 by 1, below a number: for 1 to 2 write `for (i = 0; i < 2; i++) { j = i + 1; .. }`\n",
    }
}

/// The line on the head of a loop that leaves that form at this token.
#[tactic(auto, unfolding(crate::specs::Notes::form_why))]
fn form_why(expected: Expected, token: &[u8]) -> &'static str
    ensures { result.now ≡ spec.form_why expected token.now }
{
    if token == b";".as_slice() {
        return turns_note();
    }
    head_why(expected)
}

/// The line on a structure of C.
#[tactic(auto, unfolding(crate::specs::Notes::structure_why))]
fn structure_why(rest: &[u8]) -> &'static str
    ensures { result.now ≡ spec.structure_why rest.now }
{
    structure_line(
        rest,
        "note: each field is a variable of its own, as `int *m_f` for `m->f`, and the bit-fields of a word are one together; a pointer is a number of 8 bytes, 1 for `&m` and 0 for NULL: `long *p` for a parameter `struct msg **p`, and `long p` as an item or a register\n",
    )
}

/// A word of C.
#[tactic(auto, unfolding(crate::specs::Notes::word_why))]
fn word_why(word: &[u8], rest: &[u8]) -> &'static str
    ensures { result.now ≡ spec.word_why word.now rest.now }
{
    if word == b"unsigned".as_slice() {
        return "note: each type has a sign: char, short, int and long; of an unsigned char compare `(READ_ONCE(*f) & 0xff) == 0x80`, and of an unsigned int `(r0 & 0xffffffff) > 5`\n";
    }
    if word == b"struct".as_slice() {
        return structure_why(rest);
    }
    if word == b"volatile".as_slice() {
        return "note: an access is marked itself, as `READ_ONCE(*x)`: leave `volatile` out, and `asm volatile` with its parentheses\n";
    }
    ""
}

/// The line on a division of C.
#[tactic(auto, unfolding(crate::specs::Notes::division_why))]
fn division_why(sign: &[u8]) -> &'static str
    ensures { result.now ≡ spec.division_why sign.now }
{
    if sign == b"/".as_slice() {
        return "note: of a register from 0 to 5, as `r0 = *x;` loads, `r0 / 2` is `((r0 >= 2) + (r0 >= 4))`; of two numbers write the result\n";
    }
    if sign == b"%".as_slice() {
        return "note: of a register, as `r0 = *x;` loads, `r0 % 4` is `(r0 & 3)` where it isn't negative, and `r0 % 3` is `(r0 - 3 * (r0 >= 3))` from 0 to 5\n";
    }
    ""
}

/// The line on an operator of C.
#[tactic(auto, unfolding(crate::specs::Notes::operator_why))]
fn operator_why(sign: &[u8]) -> &'static str
    ensures { result.now ≡ spec.operator_why sign.now }
{
    if sign == b"&&".as_slice() {
        return "note: comparisons are joined by `&`, as `(r0 == 1) & (r1 == 2)`, with `(r0 != 0)` for `r0`; where the right side loads or assigns, write `ok = r0 == 1; if (ok) ok = *y == 2; if (ok) ..`\n";
    }
    if sign == b"||".as_slice() {
        return "note: comparisons are joined by `|`, as `(r0 == 1) | (r1 == 2)`, with `(r0 != 0)` for `r0`; where the right side loads or assigns, write `ok = r0 == 1; if (!ok) ok = *y == 2; if (ok) ..`\n";
    }
    if sign == b"?".as_slice() {
        return "note: write `if (r0) r1 = 1; else r1 = 2;`\n";
    }
    if sign == b"<<".as_slice() {
        return "note: write `(r0 * 4)` for `r0 << 2`, and the number itself for `1 << 2`\n";
    }
    if sign == b">>".as_slice() {
        return "note: a bit is tested by `r0 & 4`, and `(r0 >> 2) & 1` is `((r0 & 4) != 0)`; of a register from 0 to 7, as `r0 = *x;` loads, `r0 >> 2` is `(r0 >= 4)`; for `(r0 & 0xf0) >> 4 == 2` write `(r0 & 0xf0) == 0x20`, and `(r0 & 0xf0) + 0x10` has 1 more in those bits\n";
    }
    division_why(sign)
}

/// An address where this is expected.
#[tactic(auto, unfolding(crate::specs::Notes::address_why))]
fn address_why(expected: Expected) -> &'static str
    ensures { result.now ≡ spec.address_why expected }
{
    match expected {
        Expected::IntegerVariable
        | Expected::AtomicVariable
        | Expected::LockVariable
        | Expected::MemoryVariable => name_note(),
        Expected::Sign(_) => star_note(),
        _ => pointer_note(),
    }
}

/// A variable of another type than this that is expected.
#[tactic(auto, unfolding(crate::specs::Notes::type_why))]
fn type_why(expected: Expected) -> &'static str
    ensures { result.now ≡ spec.type_why expected }
{
    match expected {
        Expected::IntegerVariable =>
            "note: an `atomic_t` is accessed by calls, as `atomic_read(f)` and `atomic_add(1, f)`; a lock that is tried is an `int` in each task\n",
        Expected::AtomicVariable =>
            "note: an atomic variable is an `atomic_t *f`; an `int` has READ_ONCE(*f), WRITE_ONCE(*f, 1), xchg(f, 1) and cmpxchg(f, 0, 1), and for atomic_inc `ok = 0; for (n = 0; n < 3; n++) if (!ok) { old = READ_ONCE(*f); was = cmpxchg(f, old, old + 1); ok = was == old; }`; `if (ok) { .. }` stands round what follows, and `exists` asks `1:ok=1 /\\ ..` of P1, and `forall` `1:ok=0 \\/ ..`\n",
        Expected::LockVariable =>
            "note: a lock is a `spinlock_t *l`; one that is tried is an `int`, taken in each task by `r0 = cmpxchg(l, 0, 1);` where `r0` is 0\n",
        Expected::MemoryVariable => "note: a lock has no bytes: write a variable of another type\n",
        _ => "",
    }
}

/// A parameter ends behind the name that these bytes have: of `,` `)` `=` `;` one of the first two comes first.
fn ends_parameter(mut bytes: &[u8]) -> bool
    ensures { result ≡ spec.ends_parameter bytes.entry.now }
{
    while let [byte, rest @ ..] = bytes {
        if *byte == b',' || *byte == b')' {
            return true;
        }
        if *byte == b'=' || *byte == b';' {
            return false;
        }
        bytes = rest;
    }
    false
}

/// A pointer that is made behind this word or behind a sign, by a `*` that these bytes begin with.
#[tactic(auto, unfolding(crate::specs::Notes::variable_pointer_why))]
fn variable_pointer_why(before: &[u8], rest: &[u8]) -> &'static str
    ensures { result.now ≡ spec.variable_pointer_why before.now rest.now }
{
    if !before.is_empty() {
        return "note: an item is `int x`, with no `*`: a pointer is a `long p`, 1 for `&b` and 0 for NULL\n";
    }
    if ends_parameter(rest) {
        return "note: a pointer is a number of 8 bytes, 1 for `&b` and 0 for NULL: write `long *p` for `int **p`\n";
    }
    block_note()
}

/// A pointer that is made where this is expected.
#[tactic(auto, unfolding(crate::specs::Notes::pointer_why))]
fn pointer_why(expected: Expected, before: &[u8], rest: &[u8]) -> &'static str
    ensures { result.now ≡ spec.pointer_why expected before.now rest.now }
{
    match expected {
        Expected::Register =>
            "note: a register is `int r0`, and a pointer in it a number, 1 for `&b` and 0 for NULL\n",
        _ => variable_pointer_why(before, rest),
    }
}

/// A name as an initial value, which these bytes follow.
#[tactic(auto, unfolding(crate::specs::Notes::name_why))]
fn name_why(name: &[u8], behind: &[u8]) -> &'static str
    ensures { result.now ≡ spec.name_why name.now behind.now }
{
    if behind.starts_with(b"(") && !is_constant(name) && !name.starts_with(b"sizeof") {
        return block_note();
    }
    value_note()
}

/// The line that says why this isn't read, where the kernel's format or C has it.
#[tactic(auto, unfolding(crate::specs::Notes::why))]
fn why(unread: Unread, expected: Expected, token: &[u8], before: &[u8], rest: &[u8]) -> &'static str
    ensures { result.now ≡ spec.why unread expected token.now before.now rest.now }
{
    match unread {
        Unread::Call => call_note(token),
        Unread::Section => section_why(token),
        Unread::Loop => loop_why(token, rest),
        Unread::Type => word_why(token, rest),
        Unread::Operator => operator_why(token),
        Unread::Address => address_why(expected),
        Unread::Load =>
            "note: load into a register first, as `r0 = *x;`; for `*x = *y = 1;` write `*y = 1; *x = 1;`\n",
        Unread::OtherType => type_why(expected),
        Unread::Pointer => pointer_why(expected, before, rest),
        Unread::Label => "note: a process gives it a value, as `r0 = 1;`\n",
        Unread::Name => name_why(token, behind_token(token, rest)),
        Unread::LockValue =>
            "note: an item `spinlock_t l` has no value, and the condition no lock\n",
        Unread::Counter =>
            "note: the loop alone changes the register that it counts with: assign another one, and to end sooner write `ok = 1;` and `if (!ok) { .. }` in the loop\n",
        Unread::LoopForm => form_why(expected, token),
        Unread::TwoTypes =>
            "note: a variable has one type: write the same one in each process and in its item, as `int *x` and `{ int x; }`\n",
    }
}

/// What is said of a token that isn't read, where the text goes on with these bytes from it on.
#[tactic(auto, unfolding(crate::specs::Notes::reason_note))]
fn reason_note(reason: Reason, token: &[u8], before: &[u8], rest: &[u8]) -> &'static str
    ensures { result.now ≡ spec.reason_note reason token.now before.now rest.now }
{
    match reason {
        Reason::Syntax { fault, expected } => fault_note(fault, expected, token, before, rest),
        Reason::Unsupported { unread, expected } => why(unread, expected, token, before, rest),
        _ => "",
    }
}

/// It is the token that is refused.
#[tactic(auto, unfolding(crate::specs::Notes::is_at_token))]
fn is_at_token(reason: Reason) -> bool
    ensures { result ≡ spec.is_at_token reason }
{
    matches!(reason, Reason::Syntax { .. } | Reason::Unsupported { .. })
}

/// A token stands in the initialization block, where this is expected.
#[tactic(auto, unfolding(crate::specs::Notes::is_in_block))]
fn is_in_block(expected: Expected) -> bool
    ensures { result ≡ spec.is_in_block expected }
{
    matches!(
        expected,
        Expected::Variable | Expected::ItemEnd | Expected::Value
    )
}

/// What is expected where a token is refused is expected in the initialization block.
#[tactic(auto, unfolding(crate::specs::Notes::is_of_block))]
fn is_of_block(reason: Reason) -> bool
    ensures { result ≡ spec.is_of_block reason }
{
    match reason {
        Reason::Syntax { fault: _, expected } => is_in_block(expected),
        Reason::Unsupported {
            unread: _,
            expected,
        } => is_in_block(expected),
        _ => false,
    }
}

/// The last line of what is said of a text that is refused where this token stands, behind this word in its line; the
/// text goes on with these bytes from the token on.
#[tactic(auto, unfolding(crate::specs::Notes::note_of))]
pub fn note_of(reason: Reason, token: &[u8], before: &[u8], rest: &[u8]) -> &'static str
    ensures { result.now ≡ spec.note_of reason token.now before.now rest.now }
{
    let behind = behind_token(token, rest);
    if is_of_block(reason) && ends_structure(rest) {
        return structure_note();
    }
    if is_at_token(reason) && is_part(behind) {
        return part_note(behind);
    }
    reason_note(reason, token, before, rest)
}
