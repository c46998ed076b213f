//! Calls that give no value.

ghost use Rattle.std.specs.Prelude.{◌≡◌, IfOk, MatchOption, None, Some};
ghost use Rattle.access_types.specs.Access.{proper_mask};
ghost use Rattle.litmus_semantics.specs.Calls as calls;
ghost use Rattle.litmus_semantics.specs.Task as spec;
ghost use Rattle.litmus_syntax.specs.Views.{statement_of};
ghost use Rattle.oracle_semantics.specs.oracle_meaning.Walks.{IsOf, Takes, stands};

use crate::oracle_meaning::access::{access_now, bytes_in, checks};
use crate::oracle_meaning::walk::{Given, NoMeaning, Walk};
use access_types::{Bytes, Claim, Happening, Kind, Mark, Operation};
use litmus_syntax::{Call, Statement};

/// The kind and the variable of a scoped assertion, where the statement is one.
pub fn scoped_assertion(statement: &Statement) -> Option<(Kind, usize)>
    ensures { MatchOption result (calls.scoped_assertion (statement_of statement.now) ≡ None)
        (λ found. calls.scoped_assertion (statement_of statement.now) ≡ Some (record { kind = found.0; variable = found.1 })) }
{
    match statement {
        Statement::Call(
            Call::AssertWriter {
                variable,
                scoped: true,
            },
        ) => Some((Kind::AssertScoped(Claim::NoWrites), *variable)),
        Statement::Call(
            Call::AssertAccess {
                variable,
                scoped: true,
            },
        ) => Some((Kind::AssertScoped(Claim::NoAccesses), *variable)),
        _ => None,
    }
}

/// The number of a lock's variable, as moments name it.
fn lock_number(variable: usize) -> Result<u32, NoMeaning>
    ensures { IfOk result (λ number. number ≡ variable) }
{
    if variable > 255 {
        return Err(NoMeaning::NoAccess);
    }
    Ok(variable as u32)
}

/// `kcsan_check_read` and `kcsan_check_write` are plain.
fn check_kind(write: bool) -> Kind
    ensures { result ≡ calls.check_kind write }
{
    if write {
        Kind::Plain(Operation::Write)
    } else {
        Kind::Plain(Operation::Read)
    }
}

/// So many bytes from where a variable stands.
fn checked_bytes(given: &Given<'_>, variable: usize, size: u64) -> Bytes
    ensures { (s : spec.Setting) → IsOf s given.now → result ≡ calls.checked_bytes s variable size }
{
    let addr = bytes_in(given, variable).addr;
    Bytes { addr, size }
}

/// After an access that touches no memory.
fn checks_at(
    given: &Given<'_>,
    site: usize,
    bytes: Bytes,
    kind: Kind,
    mask: Option<u64>,
    before: Walk,
) -> Result<Walk, NoMeaning>
    ensures means { (s : spec.Setting) → IsOf s given.now → IfOk result (λ after.
        stands after ≡ spec.doing (stands before) (calls.checking (spec.access_now s site (stands before) bytes kind (proper_mask mask)))) }
    ensures takes { IfOk result (Takes before) }
{
    let access = access_now(given, &before, site, bytes, kind, mask)?;
    checks(before, access)
}

/// After a call of a site.
pub fn calls(given: &Given<'_>, site: usize, call: Call, before: Walk) -> Result<Walk, NoMeaning>
    ensures means { (s : spec.Setting) → IsOf s given.now
        → IfOk result (λ after. stands after ≡ spec.doing (stands before) (calls.call_does s site call (stands before))) }
    ensures takes { IfOk result (Takes before) }
{
    match call {
        Call::Barrier(_) => Ok(before),
        Call::Lock { variable } => before.doing(Happening::Lock(lock_number(variable)?)),
        Call::Unlock { variable } => {
            let lock = lock_number(variable)?;
            if before.has_lock(lock) {
                before.doing(Happening::Unlock(lock))
            } else {
                Ok(before)
            }
        }
        Call::AssertWriter { variable, .. } => {
            let kind = Kind::Assert(Claim::NoWrites);
            checks_at(given, site, bytes_in(given, variable), kind, None, before)
        }
        Call::AssertAccess { variable, .. } => {
            let kind = Kind::Assert(Claim::NoAccesses);
            checks_at(given, site, bytes_in(given, variable), kind, None, before)
        }
        Call::AssertBits { variable, mask } => {
            let kind = Kind::Assert(Claim::NoWrites);
            let bytes = bytes_in(given, variable);
            let checked = checks_at(given, site, bytes, kind, Some(mask), before)?;
            checked.doing(Happening::Mark(Mark::Next(1)))
        }
        Call::Mark(mark) => before.doing(Happening::Mark(mark)),
        Call::Check {
            write,
            variable,
            size,
        } => {
            if size == 0 {
                return Ok(before);
            }
            let bytes = checked_bytes(given, variable, size);
            checks_at(given, site, bytes, check_kind(write), None, before)
        }
    }
}
