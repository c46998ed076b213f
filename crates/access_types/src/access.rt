//! Accesses: whose they are, which bytes they touch and how, and when two of them conflict.

ghost use Rattle.std.specs.Prelude.{◌≡◌, ◌+◌, ◌^◌, ◌<◌, ◌≤◌, ◌↔◌, IsTrue};
ghost use Rattle.std.specs.Result.{OkIff};
ghost use Rattle.access_types.specs.Access as spec;
ghost use Rattle.access_types.specs.Access.{Breaks, IsInLimits, Overlap, proper_mask};

use crate::kind::Kind;
use std::marker::Model;
use thiserror::Error;

/// How many tasks there are at most.
pub const TASKS: u32 = 16;

/// How many sites a task has at most, and how often a site runs at most.
pub const SITES: u32 = 256;

/// The address space ends here, so that no range of bytes wraps.
pub const ADDRESS_END: u64 = 1 << 63;

/// One access of a task to a range of bytes, at a site (the number of a statement with an access in
/// its task) and a repetition (how often the site ran before).
#[derive(Clone, Copy, Debug, PartialEq, Eq)]
pub struct Access {
    task: u32,
    site: u32,
    rep: u32,
    addr: u64,
    size: u64,
    kind: Kind,
    mask: Option<u64>,
}

/// Why an access can't be.
#[derive(Clone, Copy, Debug, PartialEq, Eq, Error)]
pub enum AccessError {
    #[error("the range of the access ends above 2^63")]
    RangeTooLong,
}

impl Model for Access {
    ghost Value = { spec.Access };

    ghost view = { λ a. record {
      task = a.task;
      site = a.site;
      rep = a.rep;
      addr = a.addr;
      size = a.size;
      kind = a.kind;
      mask = a.mask;
    } };

    ghost invariant = { λ a. IsInLimits (record {
      task = a.task;
      site = a.site;
      rep = a.rep;
      addr = a.addr;
      size = a.size;
      kind = a.kind;
      mask = a.mask;
    }) };

    ghost inverse = { λ a. record {
      task = a.task;
      site = a.site;
      rep = a.rep;
      addr = a.addr;
      size = a.size;
      kind = a.kind;
      mask = a.mask;
    } };
}

impl Access {
    /// The first access of a task at a site: `size` bytes from `addr` on. A mask without a bit is
    /// no mask.
    ///
    /// `RangeTooLong`: the range ends above 2^63.
    pub fn new(
        task: u32,
        site: u32,
        addr: u64,
        size: u64,
        kind: Kind,
        mask: Option<u64>,
    ) -> Result<Access, AccessError>
        requires task_limit { task < 16 }
        requires site_limit { site < 256 }
        // The only error is `RangeTooLong`.
        ensures made { OkIff result (addr + size ≤ 2 ^ 63)
            (record {
              task = task;
              site = site;
              rep = 0;
              addr = addr;
              size = size;
              kind = kind;
              mask = proper_mask mask;
            }) }
    {
        Access::new_rep(task, site, 0, addr, size, kind, mask)
    }

    /// The access of a task at a site after `rep` earlier ones there, as `new` makes the first.
    pub fn new_rep(
        task: u32,
        site: u32,
        rep: u32,
        addr: u64,
        size: u64,
        kind: Kind,
        mask: Option<u64>,
    ) -> Result<Access, AccessError>
        requires task_limit { task < 16 }
        requires site_limit { site < 256 }
        requires rep_limit { rep < 256 }
        // The only error is `RangeTooLong`.
        ensures made { OkIff result (addr + size ≤ 2 ^ 63)
            (record {
              task = task;
              site = site;
              rep = rep;
              addr = addr;
              size = size;
              kind = kind;
              mask = proper_mask mask;
            }) }
    {
        if addr > ADDRESS_END || size > ADDRESS_END - addr {
            return Err(AccessError::RangeTooLong);
        }
        Ok(Access {
            task,
            site,
            rep,
            addr,
            size,
            kind,
            // In a mask of no bits no change would ever count. In KCSAN an `access_mask` of 0 is no mask either.
            mask: mask.filter(|mask| *mask != 0),
        })
    }

    /// The task that makes it, from 0.
    pub fn task(&self) -> u32
        ensures value { result ≡ self.now.task }
        ensures limit { result < 16 }
    {
        self.task
    }

    /// Its site: the number of its statement among those of its task that have an access, from 0.
    pub fn site(&self) -> u32
        ensures value { result ≡ self.now.site }
        ensures limit { result < 256 }
    {
        self.site
    }

    /// How many accesses of its task at its site began before it.
    pub fn rep(&self) -> u32
        ensures value { result ≡ self.now.rep }
        ensures limit { result < 256 }
    {
        self.rep
    }

    /// The address of its first byte.
    pub fn addr(&self) -> u64
        ensures value { result ≡ self.now.addr }
        ensures limit { result + self.now.size ≤ 2 ^ 63 }
    {
        self.addr
    }

    /// How many bytes it has.
    pub fn size(&self) -> u64
        ensures value { result ≡ self.now.size }
        ensures limit { self.now.addr + result ≤ 2 ^ 63 }
    {
        self.size
    }

    /// What it does.
    pub fn kind(&self) -> Kind
        ensures { result ≡ self.now.kind }
    {
        self.kind
    }

    /// The bits whose changes count, where it has a mask.
    pub fn mask(&self) -> Option<u64>
        ensures { result ≡ self.now.mask }
    {
        self.mask
    }
}

/// Law: the limits of accesses, as numbers.
pub fn law_limits_are_numbers()
    ensures tasks { TASKS ≡ 16 }
    ensures sites { SITES ≡ 256 }
    ensures addresses { ADDRESS_END ≡ 2 ^ 63 }
{}

/// The two have a byte in common.
pub fn overlaps(a: &Access, b: &Access) -> bool
    ensures { IsTrue result ↔ Overlap a.now b.now }
{
    let start = a.addr.max(b.addr);
    start < a.addr + a.size && start < b.addr + b.size
}

/// The two conflict: they have a byte in common, and one of them writes or asserts no accesses. Two reads see the
/// same bytes in either order, so they don't.
pub fn conflicts(a: &Access, b: &Access) -> bool
    ensures { IsTrue result ↔ (Overlap a.now b.now × Breaks a.now b.now) }
{
    overlaps(a, b) && (a.kind.write() || b.kind.write())
}
