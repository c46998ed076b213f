//! Whether two assignments are the same.

ghost use Rattle.std.specs.Prelude.{◌≡◌, ◌↔◌, IsTrue};
ghost use Rattle.litmus_syntax.specs.Views.{assignment_of};

use crate::same_text::expression::{is_same_expression, is_same_pure};
use litmus_syntax::Assignment;

/// Both give one register or variable the same value, or change it in the same way.
pub(crate) fn is_same_assignment(one: &Assignment, other: &Assignment) -> bool
    ensures { IsTrue result ↔ (assignment_of one.now ≡ assignment_of other.now) }
{
    use Assignment::{AtomicAdd, AtomicDecrement, AtomicIncrement, Increment};
    match (one, other) {
        (
            Assignment::Register { register, value },
            Assignment::Register {
                register: second,
                value: given,
            },
        ) => register == second && is_same_expression(value, given),
        (
            Assignment::Write {
                form,
                variable,
                value,
            },
            Assignment::Write {
                form: also,
                variable: second,
                value: given,
            },
        ) => variable == second && form == also && is_same_pure(value, given),
        (
            Assignment::Add { variable, value },
            Assignment::Add {
                variable: second,
                value: given,
            },
        ) => variable == second && is_same_pure(value, given),
        (
            AtomicAdd { value, variable },
            AtomicAdd {
                value: given,
                variable: second,
            },
        ) => variable == second && is_same_pure(value, given),
        (Increment { variable }, Increment { variable: second }) => variable == second,
        (AtomicIncrement { variable }, AtomicIncrement { variable: second }) => variable == second,
        (AtomicDecrement { variable }, AtomicDecrement { variable: second }) => variable == second,
        _ => false,
    }
}
