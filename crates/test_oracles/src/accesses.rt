//! Accesses, as rows write them: `KIND:TASK.SITE`, then `.REPETITION` where the site ran before, `@ADDRESS+SIZE` where
//! it isn't the four bytes from 0x10000 on, and `&MASK` where there is a mask.

use crate::words::{Fault, number_of, small_of};
use access_types::{Access, Bytes, Claim, Kind, Operation, SITES, TASKS};

/// The bytes of an access that doesn't say which.
const BYTES: Bytes = Bytes {
    addr: 0x10000,
    size: 4,
};

/// The access that a word calls for.
pub fn access_of(word: &str) -> Result<Access, Fault> {
    let (word, mask) = match word.split_once('&') {
        Some((word, mask)) => (word, Some(number_of(mask)?)),
        None => (word, None),
    };
    let (word, bytes) = match word.split_once('@') {
        Some((word, bytes)) => (word, bytes_of(bytes)?),
        None => (word, BYTES),
    };
    let (kind, place) = word.split_once(':').ok_or(Fault::NoRow)?;
    let kind = kind_of(kind)?;
    let (task, site, rep) = place_of(place)?;
    if task >= TASKS || site >= SITES || rep >= SITES {
        return Err(Fault::NoRow);
    }
    let access = Access::new_rep(task, site, rep, bytes.addr, bytes.size, kind, mask);
    access.ok().ok_or(Fault::NoRow)
}

/// The bytes of `ADDRESS+SIZE`.
pub fn bytes_of(word: &str) -> Result<Bytes, Fault> {
    let (addr, size) = word.split_once('+').ok_or(Fault::NoRow)?;
    Ok(Bytes {
        addr: number_of(addr)?,
        size: number_of(size)?,
    })
}

/// The task, the site and the repetition of `TASK.SITE` or `TASK.SITE.REPETITION`.
fn place_of(word: &str) -> Result<(u32, u32, u32), Fault> {
    let (task, place) = word.split_once('.').ok_or(Fault::NoRow)?;
    let (site, rep) = place.split_once('.').unwrap_or((place, "0"));
    Ok((small_of(task)?, small_of(site)?, small_of(rep)?))
}

/// The kind that a word calls for.
fn kind_of(word: &str) -> Result<Kind, Fault> {
    match word {
        "read" => Ok(Kind::Plain(Operation::Read)),
        "write" => Ok(Kind::Plain(Operation::Write)),
        "increment" => Ok(Kind::Plain(Operation::ReadWrite)),
        "read_once" => Ok(Kind::Marked(Operation::Read)),
        "write_once" => Ok(Kind::Marked(Operation::Write)),
        "no_writes" => Ok(Kind::Assert(Claim::NoWrites)),
        "no_accesses" => Ok(Kind::Assert(Claim::NoAccesses)),
        "no_writes_scoped" => Ok(Kind::AssertScoped(Claim::NoWrites)),
        _ => Err(Fault::NoRow),
    }
}
