//! The locks among the variables of a program.

ghost use Rattle.std.specs.Prelude.{◌≡◌, ◌↔◌, IsSomeAnd, IsTrue, count_by, slice_get, take};
ghost use Rattle.program_order.specs.Standing as spec;

use litmus_syntax::{Contents, Variable};

/// The variable is a lock.
fn is_lock(variable: &Variable) -> bool
    ensures { result ≡ spec.is_lock variable.now.contents }
{
    matches!(variable.contents, Contents::Lock)
}

/// The variable of this number is a lock.
pub fn is_lock_at(variables: &[Variable], variable: usize) -> bool
    ensures { IsTrue result ↔ IsSomeAnd (slice_get variables.now variable) (λ v. IsTrue (spec.is_lock v.contents)) }
{
    match variables.get(variable) {
        Some(variable) => is_lock(variable),
        None => false,
    }
}

/// The number of a lock's word: how many locks come before its variable.
pub fn lock_number(variables: &[Variable], variable: usize) -> usize
    ensures { result ≡ count_by (λ v. spec.is_lock v.contents) (take variable variables.now) }
{
    variables
        .iter()
        .take(variable)
        .filter(|earlier| is_lock(earlier))
        .count()
}
