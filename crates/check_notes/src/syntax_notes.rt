//! What to write in the place of a token that isn't of this format.

ghost use Rattle.std.specs.Prelude.{◌≡◌};
ghost use Rattle.check_notes.specs.SyntaxNotes as spec;

use crate::common_notes::{
    bare_note, block_note, compared_note, const_note, element_note, field_note, implied_note,
    increase_note, join_note, name_note, star_note, structure_note, tilde_note,
};
use crate::tables::type_line;
use crate::words::{is_constant, is_jump, is_number, is_operator, is_qualifier, is_suffix};
use call_notes::{jump_note, number_note};
use litmus_lex::{Expected, Fault, Sign};

/// Which type is read in the place of this word, or how a parameter is written.
#[tactic(auto, unfolding(crate::specs::SyntaxNotes::type_note))]
fn type_note(word: &[u8]) -> &'static str
    ensures { result.now ≡ spec.type_note word.now }
{
    type_line(
        word,
        "note: a parameter is a type and a name behind `*`, as `int *x`, and a structure one for each field, as `int *m_f`\n",
    )
}

/// A word or an operator that joins conditions in C.
#[tactic(auto, unfolding(crate::specs::SyntaxNotes::joins))]
fn joins(token: &[u8]) -> bool
    ensures { result ≡ spec.joins token.now }
{
    token == b"&&".as_slice()
        || token == b"||".as_slice()
        || token == b"and".as_slice()
        || token == b"or".as_slice()
}

/// An arrow of a condition.
#[tactic(auto, unfolding(crate::specs::SyntaxNotes::implies))]
fn implies(rest: &[u8]) -> bool
    ensures { result ≡ spec.implies rest.now }
{
    rest.starts_with(b"->") || rest.starts_with(b"=>")
}

/// A comparison of C, or the end of what would be one.
#[tactic(auto, unfolding(crate::specs::SyntaxNotes::compares))]
fn compares(token: &[u8]) -> bool
    ensures { result ≡ spec.compares token.now }
{
    token == b"<".as_slice()
        || token == b">".as_slice()
        || token == b"<=".as_slice()
        || token == b">=".as_slice()
        || token == b")".as_slice()
}

/// Behind a number: an operator of C in the condition or where nothing is computed, or a suffix.
#[tactic(auto, unfolding(crate::specs::SyntaxNotes::behind_number))]
fn behind_number(token: &[u8], rest: &[u8]) -> &'static str
    ensures { result.now ≡ spec.behind_number token.now rest.now }
{
    if joins(token) {
        return join_note();
    }
    if implies(rest) {
        return implied_note();
    }
    if is_operator(token) {
        return number_note();
    }
    if is_suffix(token) {
        return "note: a number has no suffix\n";
    }
    if token == b",".as_slice() {
        return "note: `;` stands between two items, as in `int x = 1; int y = 2;`, and `/\\` between two atoms of the condition\n";
    }
    if token == b":".as_slice() {
        return "note: a register is compared with a number alone: for two of P0 write `eq = r0 == r1;` there and `0:eq=1` here; for those of two processes write each case, as `0:r0=1 /\\ 1:r0=1`\n";
    }
    if token.starts_with(b"b") {
        return "note: a number is decimal, or hexadecimal behind 0x: for 0b11 write 3\n";
    }
    ""
}

/// Behind a register: its assignment, its value in the condition, or a label.
#[tactic(auto, unfolding(crate::specs::SyntaxNotes::register_note))]
fn register_note(token: &[u8], rest: &[u8]) -> &'static str
    ensures { result.now ≡ spec.register_note token.now rest.now }
{
    if token == b":".as_slice() {
        return "note: no label is read: leave it out; what `goto` would repeat is a loop, as `ok = 0; for (n = 0; n < 3; n++) if (!ok) { old = *x; ok = old == 1; }`, with `if (ok) { .. }` round what follows\n";
    }
    if token == b"*".as_slice() && !rest.starts_with(b"*=") {
        return "note: a register is declared as `int r0`, also for a pointer, which is a number\n";
    }
    if rest.starts_with(b"->") {
        return field_note();
    }
    if token == b"-".as_slice() {
        return "note: write `r0 = r0 - 1`\n";
    }
    if is_operator(token) || token == b"+=".as_slice() {
        return "note: a register is assigned by `=` alone, as `r0 = r0 | 1;`; the condition computes nothing: it has `0:r1=2` for `r1 = r0 & 2;` in P0, and `x=1` for `x + 1 = 2`\n";
    }
    if token == b"==".as_slice() {
        return "note: it is one `=`, as `exists (0:r0=1)`\n";
    }
    if token == b"!=".as_slice() {
        return tilde_note();
    }
    if compares(token) {
        return compared_note();
    }
    ""
}

/// Behind a statement, as `*x`.
#[tactic(auto, unfolding(crate::specs::SyntaxNotes::statement_note))]
fn statement_note(token: &[u8], rest: &[u8]) -> &'static str
    ensures { result.now ≡ spec.statement_note token.now rest.now }
{
    if rest.starts_with(b"->") {
        return field_note();
    }
    if token == b"-".as_slice() {
        return "note: for `-=` and `--` write `*x += -1`\n";
    }
    if token == b",".as_slice() {
        return "note: `;` stands between two statements, and a declaration gives one value: `int r0 = *x; int r1 = *y;`\n";
    }
    if token == b"=".as_slice() {
        return "note: an assignment has no value: for `a = b = 1;` write `b = 1; a = 1;`\n";
    }
    if is_operator(token) {
        return "note: with an operator there is `+=` alone, one access that reads and writes, as `|=`, `&=` and `^=` are: `*x += 4;` sets a bit that is 0, and `*x += -4;` clears one that is 1, where no other task changes it meanwhile; `val = *x | 4; *x = val;`, and the same with `& ~4`, `^ 4` and `* 4`, has the right value in any case, and is two accesses, the second of which counts as marked but for `--strict`\n";
    }
    ""
}

/// Behind `(*x)`.
#[tactic(auto, unfolding(crate::specs::SyntaxNotes::increment_note))]
fn increment_note(token: &[u8], rest: &[u8]) -> &'static str
    ensures { result.now ≡ spec.increment_note token.now rest.now }
{
    if rest.starts_with(b"->") {
        return field_note();
    }
    if token == b"-".as_slice() {
        return "note: for `-=` and `--` write `*x += -1`\n";
    }
    "note: `(*x)++` alone has parentheses: write `*x = 1` or `*x += 1`\n"
}

/// In the place of a `*`: a cast, or a variable.
#[tactic(auto, unfolding(crate::specs::SyntaxNotes::unstarred_note))]
fn unstarred_note(token: &[u8]) -> &'static str
    ensures { result.now ≡ spec.unstarred_note token.now }
{
    if token == b"void".as_slice() {
        return "note: a load is a statement without a cast\n";
    }
    if is_qualifier(token) {
        return const_note();
    }
    star_note()
}

/// Behind the condition, or a part of it.
#[tactic(auto, unfolding(crate::specs::SyntaxNotes::joined_note))]
fn joined_note(token: &[u8], rest: &[u8]) -> &'static str
    ensures { result.now ≡ spec.joined_note token.now rest.now }
{
    if joins(token) {
        return join_note();
    }
    if implies(rest) {
        return implied_note();
    }
    if token == b"=".as_slice() {
        return "note: an assignment is a statement of its own, as `r0 = *x;` before the `if`\n";
    }
    if token == b";".as_slice() {
        return "note: no `;` stands behind the condition\n";
    }
    ""
}

/// An arrow behind this word, or behind a parenthesis.
#[tactic(auto, unfolding(crate::specs::SyntaxNotes::arrow_note))]
fn arrow_note(before: &[u8]) -> &'static str
    ensures { result.now ≡ spec.arrow_note before.now }
{
    match before {
        [] => implied_note(),
        [_, ..] => field_note(),
    }
}

/// An operator of C behind this word, or behind a parenthesis.
#[tactic(auto, unfolding(crate::specs::SyntaxNotes::operand_note))]
fn operand_note(before: &[u8]) -> &'static str
    ensures { result.now ≡ spec.operand_note before.now }
{
    match before {
        [] => join_note(),
        [_, ..] =>
            "note: a call has the variable alone: compute behind a load, as `READ_ONCE(*x) + 1`\n",
    }
}

/// Behind a variable in a call, or a part of the condition in parentheses.
#[tactic(auto, unfolding(crate::specs::SyntaxNotes::closing_note))]
fn closing_note(token: &[u8], before: &[u8], rest: &[u8]) -> &'static str
    ensures { result.now ≡ spec.closing_note token.now before.now rest.now }
{
    if rest.starts_with(b"->") {
        return arrow_note(before);
    }
    if is_operator(token) {
        return operand_note(before);
    }
    if token == b",".as_slice() {
        return "note: no `,` joins two values, and a call has no more arguments: for `r0 = (READ_ONCE(*x), 3);` write `READ_ONCE(*x); r0 = 3;`\n";
    }
    joined_note(token, rest)
}

/// What to write where this sign is expected.
#[tactic(auto, unfolding(crate::specs::SyntaxNotes::sign_note))]
fn sign_note(sign: Sign, token: &[u8], before: &[u8], rest: &[u8]) -> &'static str
    ensures { result.now ≡ spec.sign_note sign token.now before.now rest.now }
{
    match sign {
        Sign::Assign => register_note(token, rest),
        Sign::Semicolon => statement_note(token, rest),
        Sign::Increment => increment_note(token, rest),
        Sign::Star => unstarred_note(token),
        Sign::CloseParen | Sign::Comma => closing_note(token, before, rest),
        _ => "",
    }
}

/// In the place of a variable's name.
#[tactic(auto, unfolding(crate::specs::SyntaxNotes::starred_note))]
fn starred_note(token: &[u8]) -> &'static str
    ensures { result.now ≡ spec.starred_note token.now }
{
    if token == b"*".as_slice() {
        return name_note();
    }
    if token == b"(".as_slice() || token == b"READ_ONCE".as_slice() {
        return "note: a name alone stands behind `*`: write `*x` for `*(int *)x`, or with `volatile` `READ_ONCE(*x)` and `WRITE_ONCE(*x, 1)`; a variable of its own for `*(x + 1)`; and `r0 = READ_ONCE(*p); if (r0) r1 = *b;` for `*READ_ONCE(*p)`\n";
    }
    if is_number(token) {
        return "note: the variable comes first, as in `atomic_set(f, 1)` and `xchg(x, 1)`, and last in `atomic_add(1, f)`\n";
    }
    ""
}

/// In the place of the type of a parameter.
#[tactic(auto, unfolding(crate::specs::SyntaxNotes::parameter_note))]
fn parameter_note(token: &[u8]) -> &'static str
    ensures { result.now ≡ spec.parameter_note token.now }
{
    if is_qualifier(token) {
        return const_note();
    }
    if token == b"void".as_slice() {
        return "note: a process without variables begins with `P0()`; a variable of the file is a parameter of each process that uses it, as `P0(int *ready)`, and a `void *x` is an `int *x`\n";
    }
    type_note(token)
}

/// A word that C has before a function.
#[tactic(auto, unfolding(crate::specs::SyntaxNotes::is_before_function))]
fn is_before_function(token: &[u8]) -> bool
    ensures { result ≡ spec.is_before_function token.now }
{
    token == b"static".as_slice()
        || token == b"void".as_slice()
        || token == b"int".as_slice()
        || token == b"typedef".as_slice()
        || token == b"noinline".as_slice()
        || token == b"__no_kcsan".as_slice()
}

/// A word or a sign that would deny what comes.
#[tactic(auto, unfolding(crate::specs::SyntaxNotes::denies))]
fn denies(token: &[u8]) -> bool
    ensures { result ≡ spec.denies token.now }
{
    token == b"never".as_slice() || token == b"not".as_slice() || token == b"!".as_slice()
}

/// In the place of a process or of the condition.
#[tactic(auto, unfolding(crate::specs::SyntaxNotes::process_note))]
fn process_note(token: &[u8]) -> &'static str
    ensures { result.now ≡ spec.process_note token.now }
{
    if is_before_function(token) {
        return "note: no word stands before `P0`: a variable is an item in the `{ }` and a parameter of each process, and statements of another function stand in the processes themselves; a process with `__no_kcsan` begins by `kcsan_disable_current();` and ends by `kcsan_enable_current();`\n";
    }
    if token.starts_with(b"DEFINE_") {
        return "note: a variable is an item in the `{ }`: `spinlock_t l;` for a lock, `int seq;` for a sequence count, both for a seqlock, and `int cnt0; int cnt1;` for a variable of each CPU\n";
    }
    if denies(token) {
        return "note: that it never comes is asked by `~exists (0:r0=1)`\n";
    }
    if token == b";".as_slice() {
        return "note: no `;` stands behind a process\n";
    }
    if token == b"always".as_slice() {
        return "note: that it always comes is asked by `forall (0:r0=1)`\n";
    }
    if token.starts_with(b"P") || token.starts_with(b"p") {
        return "note: processes are P0, P1 and so on, in this order and without a gap\n";
    }
    ""
}

/// A structure of C ended before this token, or behind it, or an `enum` begins.
#[tactic(auto, unfolding(crate::specs::SyntaxNotes::ended_structure))]
fn ended_structure(token: &[u8], rest: &[u8]) -> bool
    ensures { result ≡ spec.ended_structure token.now rest.now }
{
    token == b";".as_slice()
        || token == b"{".as_slice()
        || token == b"enum".as_slice()
        || behind_token(token, rest).starts_with(b";")
}

/// In the place of the first process.
#[tactic(auto, unfolding(crate::specs::SyntaxNotes::first_process_note))]
fn first_process_note(token: &[u8], rest: &[u8]) -> &'static str
    ensures { result.now ≡ spec.first_process_note token.now rest.now }
{
    if ended_structure(token, rest) {
        return structure_note();
    }
    process_note(token)
}

/// In the place of a proposition.
#[tactic(auto, unfolding(crate::specs::SyntaxNotes::proposition_note))]
fn proposition_note(token: &[u8]) -> &'static str
    ensures { result.now ≡ spec.proposition_note token.now }
{
    if token == b"!".as_slice() {
        return tilde_note();
    }
    if token == b"*".as_slice() {
        return bare_note();
    }
    ""
}

/// A type that is read.
#[tactic(auto, unfolding(crate::specs::SyntaxNotes::is_read_type))]
fn is_read_type(token: &[u8]) -> bool
    ensures { result ≡ spec.is_read_type token.now }
{
    token == b"int".as_slice()
        || token == b"long".as_slice()
        || token == b"char".as_slice()
        || token == b"short".as_slice()
}

/// In the place of an expression: a field, its end, or a cast.
#[tactic(auto, unfolding(crate::specs::SyntaxNotes::expression_note))]
fn expression_note(token: &[u8]) -> &'static str
    ensures { result.now ≡ spec.expression_note token.now }
{
    if token == b">".as_slice() {
        return field_note();
    }
    if token == b";".as_slice() || token == b")".as_slice() {
        return "note: an operand is missing: for `r1 = r0--;` write `r1 = r0; r0 = r0 - 1;`, and for `r1 = (*x)--;` `r1 = *x; *x = r1 - 1;`\n";
    }
    if is_read_type(token) {
        return "note: no cast is read: leave it out where the value fits, and write `(r0 & 0xffff)` for `(u16)r0` and `((r0 & 0x80000000) != 0)` for `(int)r0 < 0`\n";
    }
    ""
}

/// Behind an item, or behind this word that is taken for one.
#[tactic(auto, unfolding(crate::specs::SyntaxNotes::item_end_note))]
fn item_end_note(token: &[u8], before: &[u8]) -> &'static str
    ensures { result.now ≡ spec.item_end_note token.now before.now }
{
    if token == b"(".as_slice() && is_constant(before) {
        return "note: an item is a type and a name: `spinlock_t l;` for a lock, `int seq;` for a sequence count, both for a seqlock, `int f;` for bits, and `int done;` for a completion\n";
    }
    if token == b"(".as_slice() {
        return block_note();
    }
    if token == b",".as_slice() {
        return "note: each variable is an item of its own, as `int x; int y;`\n";
    }
    if token == b":".as_slice() {
        return "note: the bit-fields of a word are one `int *x` together: a write of one reads and writes all of it, as `*x += 2;` sets a bit 1 that is 0 and `*x += -2;` clears one that is 1, and never `*x = 1;`; `(*x & 2) != 0` reads it\n";
    }
    "note: this is the initialization block, from the first `{`: an item is `int x;` or `int x = 1;`; leave out one of another type than char, short, int, long, atomic_t and spinlock_t, or write it as an `int`\n"
}

/// In the place of an item.
#[tactic(auto, unfolding(crate::specs::SyntaxNotes::item_note))]
fn item_note(token: &[u8]) -> &'static str
    ensures { result.now ≡ spec.item_note token.now }
{
    if token == b")".as_slice() || token == b",".as_slice() || token == b"]".as_slice() {
        return "";
    }
    block_note()
}

/// In the place of an initial value.
#[tactic(auto, unfolding(crate::specs::SyntaxNotes::initial_note))]
fn initial_note(token: &[u8]) -> &'static str
    ensures { result.now ≡ spec.initial_note token.now }
{
    if token == b"*".as_slice() {
        return block_note();
    }
    if token == b"(".as_slice() {
        return number_note();
    }
    if token == b"{".as_slice() {
        return "note: leave the braces out, as in `atomic_t f = 0;`\n";
    }
    ""
}

/// In the place of a statement.
#[tactic(auto, unfolding(crate::specs::SyntaxNotes::statement_place_note))]
fn statement_place_note(token: &[u8], rest: &[u8]) -> &'static str
    ensures { result.now ≡ spec.statement_place_note token.now rest.now }
{
    if token == b"{".as_slice() {
        return "note: a block stands behind `if (..)`, `else` or `for (..)` alone\n";
    }
    if rest.starts_with(b"--") {
        return "note: for `--r0;` write `r0 = r0 - 1;`, and for `--*x;` `*x += -1;`\n";
    }
    ""
}

/// Behind a register of a declaration.
#[tactic(auto, unfolding(crate::specs::SyntaxNotes::declaration_note))]
fn declaration_note(token: &[u8]) -> &'static str
    ensures { result.now ≡ spec.declaration_note token.now }
{
    if token == b"=".as_slice() {
        return "note: of several registers none is given a value: write `int n; int r0 = -1;`\n";
    }
    ""
}

/// What to write where this is expected.
#[tactic(auto, unfolding(crate::specs::SyntaxNotes::place_note))]
fn place_note(expected: Expected, token: &[u8], before: &[u8], rest: &[u8]) -> &'static str
    ensures { result.now ≡ spec.place_note expected token.now before.now rest.now }
{
    match expected {
        Expected::Number =>
            "note: write the number itself, as 0x1, and 1 for a pointer `&b` and 0 for NULL; two values are compared in a process, as `r2 = r0 == r1;`, or case by case, as `x=0 /\\ y=0 \\/ x=1 /\\ y=1`\n",
        Expected::Type => parameter_note(token),
        Expected::Expression => expression_note(token),
        Expected::ItemEnd => item_end_note(token, before),
        Expected::ParameterEnd => "note: `,` stands between two parameters, as `int *x, int *y`\n",
        Expected::Variable => item_note(token),
        Expected::Value => initial_note(token),
        Expected::Statement => statement_place_note(token, rest),
        Expected::DeclarationEnd => declaration_note(token),
        Expected::Head =>
            "note: the text begins with `C` and a name, as `C t`, and nothing but comments `(* .. *)` stands before them\n",
        Expected::Process => first_process_note(token, rest),
        Expected::Condition => process_note(token),
        Expected::Proposition => proposition_note(token),
        Expected::End | Expected::Operator => joined_note(token, rest),
        Expected::IntegerVariable
        | Expected::AtomicVariable
        | Expected::LockVariable
        | Expected::MemoryVariable => starred_note(token),
        Expected::Sign(sign) => sign_note(sign, token, before, rest),
        _ => "",
    }
}

/// A value that C has a word for.
#[tactic(auto, unfolding(crate::specs::SyntaxNotes::is_truth))]
fn is_truth(token: &[u8]) -> bool
    ensures { result ≡ spec.is_truth token.now }
{
    token == b"true".as_slice() || token == b"false".as_slice()
}

/// A jump of C, behind this word.
#[tactic(auto, unfolding(crate::specs::SyntaxNotes::jumped_note))]
fn jumped_note(before: &[u8]) -> &'static str
    ensures { result.now ≡ spec.jumped_note before.now }
{
    if before == b"break".as_slice() {
        return "note: no jump is read: a loop ends sooner as `ok = 0; for (n = 0; n < 3; n++) if (!ok) { old = *x; ok = old == 1; }`, with `if (!ok) { .. }` round what else a turn has\n";
    }
    jump_note()
}

/// A jump of C, behind this word, where this is expected: in the initialization block it is of a function.
#[tactic(auto, unfolding(crate::specs::SyntaxNotes::jump_place_note))]
fn jump_place_note(expected: Expected, before: &[u8]) -> &'static str
    ensures { result.now ≡ spec.jump_place_note expected before.now }
{
    match expected {
        Expected::ItemEnd => block_note(),
        _ => jumped_note(before),
    }
}

/// A `[` where this is expected.
#[tactic(auto, unfolding(crate::specs::SyntaxNotes::bracket_note))]
fn bracket_note(expected: Expected) -> &'static str
    ensures { result.now ≡ spec.bracket_note expected }
{
    match expected {
        Expected::Variable => "note: an item has no brackets: write `x = 1;`\n",
        _ => element_note(),
    }
}

/// What to write in the place of a token behind this word, which is no type of the kernel.
#[tactic(auto, unfolding(crate::specs::SyntaxNotes::other_token_note))]
fn other_token_note(expected: Expected, token: &[u8], before: &[u8], rest: &[u8]) -> &'static str
    ensures { result.now ≡ spec.other_token_note expected token.now before.now rest.now }
{
    if is_number(before) {
        return behind_number(token, rest);
    }
    if is_qualifier(before) {
        return const_note();
    }
    if before == b"enum".as_slice() {
        return "note: write a constant of an `enum` as its number, and leave this out\n";
    }
    if is_read_type(before) && is_read_type(token) {
        return "note: a type is one word: char, short, int or long, of 1, 2, 4 and 8 bytes, as `long` for `long long`\n";
    }
    if token == b"++".as_slice() {
        return increase_note();
    }
    if is_truth(token) {
        return "note: write 1 for `true`, and 0 for `false`\n";
    }
    if token == b"[".as_slice() {
        return bracket_note(expected);
    }
    place_note(expected, token, before, rest)
}

/// What to write in the place of a token behind this word, which is taken for a register or a variable, or behind this
/// number; the text goes on with these bytes from the token on.
#[tactic(auto, unfolding(crate::specs::SyntaxNotes::token_note))]
fn token_note(expected: Expected, token: &[u8], before: &[u8], rest: &[u8]) -> &'static str
    ensures { result.now ≡ spec.token_note expected token.now before.now rest.now }
{
    if is_jump(before) {
        return jump_place_note(expected, before);
    }
    type_line(before, other_token_note(expected, token, before, rest))
}

/// In the place of a variable that the process, or of one that the text, doesn't have.
#[tactic(auto, unfolding(crate::specs::SyntaxNotes::unknown_note))]
fn unknown_note(expected: Expected, token: &[u8]) -> &'static str
    ensures { result.now ≡ spec.unknown_note expected token.now }
{
    match expected {
        Expected::Variable if token == b"not".as_slice() => tilde_note(),
        Expected::Variable =>
            "note: a register stands behind its process, as `0:r0`; a variable is an item, as `{ int x; }`, or a parameter\n",
        _ =>
            "note: a process has its variables as parameters, as `P0(int *x)`; a pointer in a register is a number: `if (r0) r1 = *b;`\n",
    }
}

/// In the place of a sign that begins no token.
#[tactic(auto, unfolding(crate::specs::SyntaxNotes::stray_note))]
fn stray_note(token: &[u8], rest: &[u8]) -> &'static str
    ensures { result.now ≡ spec.stray_note token.now rest.now }
{
    if rest.starts_with(b"#include") || rest.starts_with(b"# include") {
        return "note: no file is included: leave the line out\n";
    }
    if token == b"#".as_slice() {
        return "note: no macro is read: write in its place what it stands for\n";
    }
    if token == b".".as_slice() {
        return field_note();
    }
    if token == b"'".as_slice() {
        return "note: a character is a number: write 97 for `'a'`\n";
    }
    ""
}

/// What stands behind a token, where the text goes on with these bytes from it on.
#[tactic(auto, unfolding(crate::specs::SyntaxNotes::behind_token))]
pub(crate) fn behind_token<'a>(token: &[u8], rest: &'a [u8]) -> &'a [u8]
    ensures { result.now ≡ spec.behind_token token.now rest.now }
{
    if token.len() <= rest.len() {
        &rest[token.len()..]
    } else {
        &[]
    }
}

/// A variable of the process, where it is neither written nor read.
#[tactic(auto, unfolding(crate::specs::SyntaxNotes::unaccessed_note))]
fn unaccessed_note(expected: Expected) -> &'static str
    ensures { result.now ≡ spec.unaccessed_note expected }
{
    match expected {
        Expected::Statement =>
            "note: its memory is written as `*x`, or by a call, as `WRITE_ONCE(*x, 1)`; a register has another name\n",
        _ =>
            "note: its value is read as `r0 = *x;` or `r0 = READ_ONCE(*x);`, and its address is a number, as 1 for `&x`\n",
    }
}

/// In the place of a variable of the process, behind this word and before these bytes.
#[tactic(auto, unfolding(crate::specs::SyntaxNotes::variable_note))]
fn variable_note(expected: Expected, before: &[u8], behind: &[u8]) -> &'static str
    ensures { result.now ≡ spec.variable_note expected before.now behind.now }
{
    if is_read_type(before) {
        return "note: a parameter has this name: give the register another one\n";
    }
    if behind.starts_with(b"++") {
        return increase_note();
    }
    if behind.starts_with(b",") {
        return "note: a value is a number or a register, as `r0 = *x;` gives, and an address a number, as 1 for `&x`; `atomic_add(1, f)` has the variable last\n";
    }
    unaccessed_note(expected)
}

/// In the place of a comment that goes on to the end.
#[tactic(auto, unfolding(crate::specs::SyntaxNotes::comment_note))]
fn comment_note(expected: Expected) -> &'static str
    ensures { result.now ≡ spec.comment_note expected }
{
    match expected {
        Expected::Proposition => bare_note(),
        _ => "",
    }
}

/// What to write where a text has this fault.
#[tactic(auto, unfolding(crate::specs::SyntaxNotes::fault_note))]
pub(crate) fn fault_note(
    fault: Fault,
    expected: Expected,
    token: &[u8],
    before: &[u8],
    rest: &[u8],
) -> &'static str
    ensures { result.now ≡ spec.fault_note fault expected token.now before.now rest.now }
{
    match fault {
        Fault::Token => token_note(expected, token, before, rest),
        Fault::Variable => variable_note(expected, before, behind_token(token, rest)),
        Fault::Twice => "note: leave it out: the process has this parameter\n",
        Fault::Unknown => unknown_note(expected, token),
        Fault::Stray => stray_note(token, rest),
        Fault::Unclosed => comment_note(expected),
        _ => "",
    }
}

/// A field or an element of what stands before it begins so.
#[tactic(auto, unfolding(crate::specs::SyntaxNotes::is_part))]
pub(crate) fn is_part(behind: &[u8]) -> bool
    ensures { result ≡ spec.is_part behind.now }
{
    behind.starts_with(b"->") || behind.starts_with(b".") || behind.starts_with(b"[")
}

/// What to write in the place of a field or an element that begins so.
#[tactic(auto, unfolding(crate::specs::SyntaxNotes::part_note))]
pub(crate) fn part_note(behind: &[u8]) -> &'static str
    ensures { result.now ≡ spec.part_note behind.now }
{
    if behind.starts_with(b"->counter") || behind.starts_with(b".counter") {
        return "note: it is the value of the `atomic_t *f` itself: write `atomic_read(f)`, `atomic_set(f, 1)` or `atomic_add(1, f)`\n";
    }
    if behind.starts_with(b"[") {
        return element_note();
    }
    field_note()
}
