//! Lines that more than one refusal ends with.

ghost use Rattle.std.specs.Prelude.{◌≡◌};
ghost use Rattle.check_notes.specs.CommonNotes as spec;

/// That a variable stands without `*` and `&`.
#[tactic(auto, unfolding(crate::specs::CommonNotes::name_note))]
pub(crate) fn name_note() -> &'static str
    ensures { result.now ≡ spec.name_note }
{
    "note: write the name alone, as in `spin_lock(l)`, and `p_f` for a field `&p->f`; for `**p` write `r0 = *p; if (r0) r1 = *b;`\n"
}

/// That a variable stands behind `*`.
#[tactic(auto, unfolding(crate::specs::CommonNotes::star_note))]
pub(crate) fn star_note() -> &'static str
    ensures { result.now ≡ spec.star_note }
{
    "note: `*` stands before the variable, as in `int *x` and `READ_ONCE(*x)`\n"
}

/// A loop ends.
pub(crate) const TURNS: &str =
    "note: a loop has a number of turns: `ok = 0; for (n = 0; n < 3; n++) if (!ok) { old = *x; ok = old == 1; }` ends once `old` is 1, and a turn that ends by `while (!try_cmpxchg(x, &old, 2))` has `was = cmpxchg(x, old, 2); ok = was == old; old = was;` there; `if (ok) { .. }` stands round what follows, and `exists` asks `1:ok=1 /\\ ..` of P1, and `forall` `1:ok=0 \\/ ..`\n";

/// A loop ends.
#[tactic(auto, unfolding(crate::specs::CommonNotes::turns_note))]
pub(crate) fn turns_note() -> &'static str
    ensures { result.now ≡ spec.turns_note }
{
    TURNS
}

/// That `~` is what says that something isn't so.
#[tactic(auto, unfolding(crate::specs::CommonNotes::tilde_note))]
pub(crate) fn tilde_note() -> &'static str
    ensures { result.now ≡ spec.tilde_note }
{
    "note: in the condition `~` stands before what isn't so, as `~0:r0=1`\n"
}

/// A structure has no place before the processes.
#[tactic(auto, unfolding(crate::specs::CommonNotes::structure_note))]
pub(crate) fn structure_note() -> &'static str
    ensures { result.now ≡ spec.structure_note }
{
    "note: the first `{` begins the initialization block, with no `;` behind it: leave a structure out, and write a variable for each field, as `P0(int *msg_f, int *msg_g)`, and one for all bit-fields that share their bytes, as `int *m` where one is an `unsigned` and `char *m` where all are `u8`; leave an `enum` out, and write each constant as its number\n"
}

/// A field has no name of its own here.
#[tactic(auto, unfolding(crate::specs::CommonNotes::field_note))]
pub(crate) fn field_note() -> &'static str
    ensures { result.now ≡ spec.field_note }
{
    "note: a field is a variable of its own, of an `int *p_f`: for `p->f` write `*p_f`, with `(*p_f)++;` for `p->f++;`, and for `&p->f` `p_f`; the bit-fields of a word are one variable together, and a write of one reads and writes all of it, never `*p_f = 1;`: `*p_f += 4;` sets a bit 2 that is 0, as one access, and `val = *p_f & ~0x70 | 0x50; *p_f = val;` makes bits 4 to 6 a 5, as two; where `p` was loaded, with 1 for `&b`, write `if (p == 1) r0 = *b_f;`\n"
}

/// An element has no name of its own here.
#[tactic(auto, unfolding(crate::specs::CommonNotes::element_note))]
pub(crate) fn element_note() -> &'static str
    ensures { result.now ≡ spec.element_note }
{
    "note: there are no arrays: each element is a variable of its own, as `*x0` of an `int *x0`; for `x[i] = 2;` write `if (i == 0) *x0 = 2; if (i == 1) *x1 = 2;`\n"
}

/// A pointer is a number.
#[tactic(auto, unfolding(crate::specs::CommonNotes::pointer_note))]
pub(crate) fn pointer_note() -> &'static str
    ensures { result.now ≡ spec.pointer_note }
{
    "note: a pointer is a number here, 1 for `&b` and 0 for NULL; what it points to is read as `if (r0) r1 = *b;`\n"
}

/// A number stands in the place of an address.
#[tactic(auto, unfolding(crate::specs::CommonNotes::value_note))]
pub(crate) fn value_note() -> &'static str
    ensures { result.now ≡ spec.value_note }
{
    "note: write the number itself, as 0x1; a pointer is a number here, 1 for `&b` and 0 for NULL\n"
}

/// In the condition `/\` and `\/` join.
#[tactic(auto, unfolding(crate::specs::CommonNotes::join_note))]
pub(crate) fn join_note() -> &'static str
    ensures { result.now ≡ spec.join_note }
{
    "note: in the condition `/\\` is and, `\\/` is or, as `exists (x=1 /\\ 0:r0=0)`\n"
}

/// In the condition nothing is implied.
#[tactic(auto, unfolding(crate::specs::CommonNotes::implied_note))]
pub(crate) fn implied_note() -> &'static str
    ensures { result.now ≡ spec.implied_note }
{
    "note: in the condition write `~p \\/ q` for `p -> q`\n"
}

/// In the condition `=` alone compares.
#[tactic(auto, unfolding(crate::specs::CommonNotes::compared_note))]
pub(crate) fn compared_note() -> &'static str
    ensures { result.now ≡ spec.compared_note }
{
    "note: in the condition `=` alone compares, as `x=1`; for another comparison keep it in a register, as `r1 = r0 > 1;`\n"
}

/// Words that change nothing here.
#[tactic(auto, unfolding(crate::specs::CommonNotes::const_note))]
pub(crate) fn const_note() -> &'static str
    ensures { result.now ≡ spec.const_note }
{
    "note: leave out `const`, `static`, `restrict`, `__rcu`, `__user` and `__percpu`\n"
}

/// How one is added.
#[tactic(auto, unfolding(crate::specs::CommonNotes::increase_note))]
pub(crate) fn increase_note() -> &'static str
    ensures { result.now ≡ spec.increase_note }
{
    "note: write `(*x)++;` or `r0 = r0 + 1;` as a statement of its own, and for `r0 = (*x)++;`, one access in C, the two of `r0 = *x; *x = r0 + 1;`; for `*p++ = 1;` write `*x0 = 1;`, with a variable for each element\n"
}

/// A variable of the condition has no `*`.
#[tactic(auto, unfolding(crate::specs::CommonNotes::bare_note))]
pub(crate) fn bare_note() -> &'static str
    ensures { result.now ≡ spec.bare_note }
{
    "note: in the condition a variable stands without `*`, as `x=1`; `(*` begins a comment\n"
}

/// Where the initialization block begins.
#[tactic(auto, unfolding(crate::specs::CommonNotes::block_note))]
pub(crate) fn block_note() -> &'static str
    ensures { result.now ≡ spec.block_note }
{
    "note: this is the initialization block, which begins at the first `{`: write `{ }` before `P0`; a function before it isn't read: write its statements in the processes\n"
}
