//! Whether two expressions are the same.

ghost use Rattle.std.specs.Prelude.{◌≡◌, ◌↔◌, IsTrue};
ghost use Rattle.litmus_syntax.specs.Views.{expression_of, fetch_of, load_of, loading_of, pure_of};

use litmus_syntax::{Expression, Fetch, Load, Loading, Pure};

/// Both are the same expression without a load.
pub(crate) fn is_same_pure(one: &Pure, other: &Pure) -> bool
    ensures { IsTrue result ↔ (pure_of one.now ≡ pure_of other.now) }
{
    match (one, other) {
        (Pure::Number(number), Pure::Number(second)) => number == second,
        (Pure::Register(register), Pure::Register(second)) => register == second,
        (Pure::Unary(sign, operand), Pure::Unary(other_sign, other_operand)) => {
            sign == other_sign && is_same_pure(operand, other_operand)
        }
        (Pure::Binary(sign, left, right), Pure::Binary(other_sign, other_left, other_right)) => {
            sign == other_sign && is_same_pure(left, other_left) && is_same_pure(right, other_right)
        }
        _ => false,
    }
}

/// Both do the same to one variable.
fn is_same_fetch(one: &Fetch, other: &Fetch) -> bool
    ensures { IsTrue result ↔ (fetch_of one.now ≡ fetch_of other.now) }
{
    match one {
        Fetch::Read { form, variable } => match other {
            Fetch::Read {
                form: other_form,
                variable: second,
            } => variable == second && form == other_form,
            _ => false,
        },
        Fetch::Exchange { variable, value } => match other {
            Fetch::Exchange {
                variable: second,
                value: other_value,
            } => variable == second && is_same_pure(value, other_value),
            _ => false,
        },
        Fetch::CompareExchange {
            variable,
            expected,
            replacement,
        } => match other {
            Fetch::CompareExchange {
                variable: second,
                expected: other_expected,
                replacement: other_replacement,
            } => {
                variable == second
                    && is_same_pure(expected, other_expected)
                    && is_same_pure(replacement, other_replacement)
            }
            _ => false,
        },
    }
}

/// Both are the same load, inside as many `data_race( )`.
pub(crate) fn is_same_load(one: &Load, other: &Load) -> bool
    ensures { IsTrue result ↔ (load_of one.now ≡ load_of other.now) }
{
    one.data_races == other.data_races && is_same_fetch(&one.fetch, &other.fetch)
}

/// Both are the same expression with a load.
pub fn is_same_loading(one: &Loading, other: &Loading) -> bool
    ensures { IsTrue result ↔ (loading_of one.now ≡ loading_of other.now) }
{
    match (one, other) {
        (Loading::Load(load), Loading::Load(second)) => is_same_load(load, second),
        (Loading::Unary(sign, operand), Loading::Unary(other_sign, other_operand)) => {
            sign == other_sign && is_same_loading(operand, other_operand)
        }
        (Loading::Left(sign, left, right), Loading::Left(other_sign, other_left, other_right)) => {
            sign == other_sign
                && is_same_loading(left, other_left)
                && is_same_pure(right, other_right)
        }
        (Loading::Right(sign, left, right), Loading::Right(other_sign, other_left, other_right)) =>
            {
                sign == other_sign
                    && is_same_pure(left, other_left)
                    && is_same_loading(right, other_right)
            }
        _ => false,
    }
}

/// Both are the same expression, with or without a load.
pub(crate) fn is_same_expression(one: &Expression, other: &Expression) -> bool
    ensures { IsTrue result ↔ (expression_of one.now ≡ expression_of other.now) }
{
    match (one, other) {
        (Expression::Pure(value), Expression::Pure(second)) => is_same_pure(value, second),
        (Expression::Loading(value), Expression::Loading(second)) => is_same_loading(value, second),
        _ => false,
    }
}
