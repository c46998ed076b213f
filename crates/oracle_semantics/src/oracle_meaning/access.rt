//! The accesses of a walk, and what they do.

ghost use Rattle.std.specs.Prelude.{◌≡◌, ◌+◌, ◌%◌, ◌^◌, ℕ, List, IfOk};
ghost use Rattle.access_types.specs.Access.{proper_mask};
ghost use Rattle.access_types.specs.Race as race;
ghost use Rattle.access_types.specs.declared.history.Happening.{Happening};
ghost use Rattle.litmus_semantics.specs.Calls.{checking};
ghost use Rattle.litmus_semantics.specs.Assignments.{writing};
ghost use Rattle.litmus_semantics.specs.Loads.{ComparesAndWrites, reading, updating};
ghost use Rattle.litmus_semantics.specs.Task as spec;
ghost use Rattle.litmus_semantics.specs.Values as values;
ghost use Rattle.oracle_semantics.specs.oracle_meaning.Walks.{IsOf, Takes, stands};

use crate::oracle_meaning::walk::{Given, NoMeaning, Walk};
use access_types::{Access, Bytes, Happening, Kind};
use litmus_semantics::{cut, sign_extended};

/// The bytes of a variable; there are none where it isn't there.
pub fn bytes_in(given: &Given<'_>, variable: usize) -> Bytes
    ensures { (s : spec.Setting) → IsOf s given.now → result ≡ spec.bytes_in s variable }
{
    match given.bytes.get(variable) {
        Some(bytes) => *bytes,
        None => Bytes { addr: 0, size: 0 },
    }
}

/// The bytes of an access.
fn bytes_of(access: Access) -> Bytes
    ensures { result ≡ race.bytes_of access }
{
    Bytes {
        addr: access.addr(),
        size: access.size(),
    }
}

/// The access of a site that begins now.
///
/// `NoAccess`: the task, the site or the repetition has no ticket, or the bytes end too far up.
pub fn access_now(
    given: &Given<'_>,
    walk: &Walk,
    site: usize,
    bytes: Bytes,
    kind: Kind,
    mask: Option<u64>,
) -> Result<Access, NoMeaning>
    ensures { (s : spec.Setting) → IsOf s given.now
        → IfOk result (λ access. access ≡ spec.access_now s site (stands walk.now) bytes kind (proper_mask mask)) }
{
    if given.task >= 16 || site >= 256 {
        return Err(NoMeaning::NoAccess);
    }
    let rep = walk.begun_at(site as u32);
    if rep >= 256 {
        return Err(NoMeaning::NoAccess);
    }
    match Access::new_rep(
        given.task,
        site as u32,
        rep as u32,
        bytes.addr,
        bytes.size,
        kind,
        mask,
    ) {
        Ok(access) => Ok(access),
        Err(_) => Err(NoMeaning::NoAccess),
    }
}

/// An access that touches no memory.
pub fn checks(walk: Walk, access: Access) -> Result<Walk, NoMeaning>
    ensures comes { IfOk result (λ after. stands after ≡ spec.doing (stands walk) (checking access)) }
    ensures takes { IfOk result (Takes walk) }
{
    let begun = walk.doing(Happening::Begin(access))?;
    begun.doing(Happening::End(access))
}

/// An access that reads, and the value that it reads.
pub fn reads(walk: Walk, access: Access) -> Result<(Walk, u64), NoMeaning>
    ensures comes { IfOk result (λ found. stands found.0 ≡ spec.doing (stands walk) (reading access found.1)) }
    ensures takes { IfOk result (λ found. Takes walk found.0) }
{
    let begun = walk.doing(Happening::Begin(access))?;
    let (read, old) = begun.reading(bytes_of(access))?;
    Ok((read.doing(Happening::End(access))?, old))
}

/// An access that writes a value, cut to its size.
pub fn writes(walk: Walk, access: Access, value: u64) -> Result<Walk, NoMeaning>
    ensures comes { IfOk result (λ after. stands after ≡ spec.doing (stands walk) (writing access (values.cut access.size value))) }
    ensures takes { IfOk result (Takes walk) }
{
    let begun = walk.doing(Happening::Begin(access))?;
    let written = begun.doing(Happening::Write(bytes_of(access), cut(value, access.size())))?;
    written.doing(Happening::End(access))
}

/// An access that reads a value and then writes this one, cut to its size; and the value that it reads.
pub fn exchanges(walk: Walk, access: Access, value: u64) -> Result<(Walk, u64), NoMeaning>
    ensures comes { IfOk result (λ found. stands found.0 ≡ spec.doing (stands walk) (updating access found.1 (values.cut access.size value))) }
    ensures takes { IfOk result (λ found. Takes walk found.0) }
{
    let begun = walk.doing(Happening::Begin(access))?;
    let (read, old) = begun.reading(bytes_of(access))?;
    let written = read.doing(Happening::Write(bytes_of(access), cut(value, access.size())))?;
    Ok((written.doing(Happening::End(access))?, old))
}

/// An access that reads a value and then writes the sum with this amount, cut to its size.
pub fn adds(walk: Walk, access: Access, amount: u64) -> Result<Walk, NoMeaning>
    ensures comes { IfOk result (λ after. (old : ℕ) × (stands after ≡ spec.doing (stands walk)
        (updating access old (values.cut access.size ((values.sign_extended access.size old + amount) % 2 ^ 64))))) }
    ensures takes { IfOk result (Takes walk) }
{
    let begun = walk.doing(Happening::Begin(access))?;
    let (read, old) = begun.reading(bytes_of(access))?;
    let sum = sign_extended(old, access.size()).wrapping_add(amount);
    let written = read.doing(Happening::Write(bytes_of(access), cut(sum, access.size())))?;
    written.doing(Happening::End(access))
}

/// An access that reads a value, and writes a replacement where it is the expected one; both are cut to its size. And
/// the value that it reads.
pub fn compares(
    walk: Walk,
    access: Access,
    expected: u64,
    replacement: u64,
) -> Result<(Walk, u64), NoMeaning>
    ensures comes { IfOk result (λ found. (does : List Happening)
        × ComparesAndWrites access (values.cut access.size expected) (values.cut access.size replacement) found.1 does
        × (stands found.0 ≡ spec.doing (stands walk) does)) }
    ensures takes { IfOk result (λ found. Takes walk found.0) }
{
    let begun = walk.doing(Happening::Begin(access))?;
    let (read, old) = begun.reading(bytes_of(access))?;
    if old != cut(expected, access.size()) {
        return Ok((read.doing(Happening::End(access))?, old));
    }
    let written = read.doing(Happening::Write(bytes_of(access), cut(replacement, access.size())))?;
    Ok((written.doing(Happening::End(access))?, old))
}
