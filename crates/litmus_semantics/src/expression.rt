//! The values of expressions, in 64 bits.

ghost use Rattle.std.specs.Prelude.{◌≡◌, ℕ, slice_index};
ghost use Rattle.litmus_semantics.specs.Expressions as spec;
ghost use Rattle.litmus_syntax.specs.Views.{expression_of, loading_of, pure_of};

use litmus_syntax::{BinaryOperator, Expression, Loading, Pure, UnaryOperator};

/// 1 where it holds, 0 where it doesn't, as in C.
fn truth(holds: bool) -> u64
    ensures { result ≡ spec.truth holds }
{
    if holds { 1 } else { 0 }
}

/// The value of a unary operator: `-` wraps, and `!` gives 0 or 1.
fn unary_value(operator: UnaryOperator, operand: u64) -> u64
    ensures { result ≡ spec.unary_value operator operand }
{
    match operator {
        UnaryOperator::Negate => 0u64.wrapping_sub(operand),
        UnaryOperator::Not => truth(operand == 0),
        UnaryOperator::Complement => !operand,
    }
}

/// The value of a binary operator: arithmetic wraps, and comparisons are signed and give 0 or 1.
fn binary_value(operator: BinaryOperator, left: u64, right: u64) -> u64
    ensures { result ≡ spec.binary_value operator left right }
{
    match operator {
        BinaryOperator::Multiply => left.wrapping_mul(right),
        BinaryOperator::Add => left.wrapping_add(right),
        BinaryOperator::Subtract => left.wrapping_sub(right),
        BinaryOperator::Less => truth(left.cast_signed() < right.cast_signed()),
        BinaryOperator::Greater => truth(right.cast_signed() < left.cast_signed()),
        BinaryOperator::LessOrEqual => truth(left.cast_signed() <= right.cast_signed()),
        BinaryOperator::GreaterOrEqual => truth(right.cast_signed() <= left.cast_signed()),
        BinaryOperator::Equal => truth(left == right),
        BinaryOperator::NotEqual => truth(left != right),
        BinaryOperator::BitAnd => left & right,
        BinaryOperator::BitXor => left ^ right,
        BinaryOperator::BitOr => left | right,
    }
}

/// The value of a register; one that isn't there is 0.
fn register_value(registers: &[u64], register: usize) -> u64
    ensures { result ≡ slice_index registers.now register }
{
    match registers.get(register) {
        Some(value) => *value,
        None => 0,
    }
}

/// The value of an expression without a load, over the registers of its task.
pub fn pure_value(pure: &Pure, registers: &[u64]) -> u64
    ensures { result ≡ spec.pure_value registers.now (pure_of pure.now) }
{
    match pure {
        Pure::Number(number) => *number,
        Pure::Register(register) => register_value(registers, *register),
        Pure::Unary(operator, operand) => unary_value(*operator, pure_value(operand, registers)),
        Pure::Binary(operator, left, right) => {
            let left = pure_value(left, registers);
            let right = pure_value(right, registers);
            binary_value(*operator, left, right)
        }
    }
}

/// The value of an expression with a load, where the load gave this value.
pub fn loading_value(loading: &Loading, registers: &[u64], loaded: u64) -> u64
    ensures { result ≡ spec.loading_value registers.now loaded (loading_of loading.now) }
{
    match loading {
        Loading::Load(_) => loaded,
        Loading::Unary(operator, operand) => {
            unary_value(*operator, loading_value(operand, registers, loaded))
        }
        Loading::Left(operator, left, right) => {
            let left = loading_value(left, registers, loaded);
            binary_value(*operator, left, pure_value(right, registers))
        }
        Loading::Right(operator, left, right) => {
            let right = loading_value(right, registers, loaded);
            binary_value(*operator, pure_value(left, registers), right)
        }
    }
}

/// The value of an expression. Its load, if it has one, gave the value `loaded`.
pub fn evaluate(expression: &Expression, registers: &[u64], loaded: u64) -> u64
    ensures { result ≡ spec.value_of registers.now loaded (expression_of expression.now) }
{
    match expression {
        Expression::Pure(pure) => pure_value(pure, registers),
        Expression::Loading(loading) => loading_value(loading, registers, loaded),
    }
}
