//! Kinds of accesses, with the flags of KCSAN's access types, and what reports call them.

ghost use Rattle.std.specs.Prelude.{◌≡◌, ◌↔◌, IsTrue, IsErrOf, IfOk};
ghost use Rattle.access_types.specs.Kind.{HasFlags, access_words, is_assertion, is_bad};
ghost use Rattle.access_types.specs.Kind.{is_compound, is_marked, is_scoped, write_flag};

use thiserror::Error;

/// How memory is touched. A compound access, as `x += 1`, reads and writes.
#[derive(Clone, Copy, Debug, PartialEq, Eq)]
pub enum Operation {
    Read,
    Write,
    ReadWrite,
}

/// What an assertion claims of the other tasks while it is in progress: that none of them writes,
/// or that none of them accesses the bytes at all.
#[derive(Clone, Copy, Debug, PartialEq, Eq)]
pub enum Claim {
    NoWrites,
    NoAccesses,
}

/// The kind of an access, after the access types of KCSAN: a plain or a marked operation on memory,
/// or an assertion, which holds for one moment or for a scope.
#[derive(Clone, Copy, Debug, PartialEq, Eq)]
pub enum Kind {
    Plain(Operation),
    Marked(Operation),
    Assert(Claim),
    AssertScoped(Claim),
}

/// Why flags make no kind.
#[derive(Clone, Copy, Debug, PartialEq, Eq, Error)]
pub enum KindError {
    #[error("these flags make no kind of access")]
    BadKind,
}

impl Kind {
    /// The kind with these flags, as KCSAN's access types combine them: `write` with `assert`
    /// asserts no accesses, and `assert` alone asserts no writes.
    ///
    /// `BadKind`: compound without write, scoped without assert, or an assertion that is compound
    /// or marked.
    pub fn new(
        write: bool,
        compound: bool,
        marked: bool,
        assert: bool,
        scoped: bool,
    ) -> Result<Kind, KindError>
        ensures bad { IsErrOf result KindError.BadKind
            ↔ IsTrue (is_bad write compound marked assert scoped) }
        ensures flags { IfOk result (HasFlags write compound marked assert scoped) }
    {
        let operation = match (write, compound) {
            (false, false) => Operation::Read,
            (true, false) => Operation::Write,
            (true, true) => Operation::ReadWrite,
            (false, true) => return Err(KindError::BadKind),
        };
        let claim = if write {
            Claim::NoAccesses
        } else {
            Claim::NoWrites
        };
        match (assert, scoped) {
            (false, false) if marked => Ok(Kind::Marked(operation)),
            (false, false) => Ok(Kind::Plain(operation)),
            // An assertion makes no access of its own, so nothing of it could be marked or compound.
            (true, _) if marked || compound => Err(KindError::BadKind),
            (true, false) => Ok(Kind::Assert(claim)),
            (true, true) => Ok(Kind::AssertScoped(claim)),
            (false, true) => Err(KindError::BadKind),
        }
    }

    /// KCSAN's write flag: it writes, or it asserts no accesses. `ASSERT_EXCLUSIVE_ACCESS` has the flag in KCSAN too,
    /// so that reads conflict with it.
    pub fn write(&self) -> bool
        ensures { result ≡ write_flag self.now }
    {
        match self {
            Kind::Plain(operation) | Kind::Marked(operation) => *operation != Operation::Read,
            Kind::Assert(claim) | Kind::AssertScoped(claim) => *claim == Claim::NoAccesses,
        }
    }

    /// It reads and writes.
    pub fn is_compound(&self) -> bool
        ensures { result ≡ is_compound self.now }
    {
        matches!(
            self,
            Kind::Plain(Operation::ReadWrite) | Kind::Marked(Operation::ReadWrite)
        )
    }

    /// It is declared marked, as `READ_ONCE` and the atomic operations are.
    pub fn is_marked(&self) -> bool
        ensures { result ≡ is_marked self.now }
    {
        matches!(self, Kind::Marked(_))
    }

    /// It asserts something of other tasks' accesses and touches no memory itself.
    pub fn is_assertion(&self) -> bool
        ensures { result ≡ is_assertion self.now }
    {
        matches!(self, Kind::Assert(_) | Kind::AssertScoped(_))
    }

    /// It is an assertion that holds to the end of its block.
    pub fn is_scoped(&self) -> bool
        ensures { result ≡ is_scoped self.now }
    {
        matches!(self, Kind::AssertScoped(_))
    }
}

/// The words that a report has for the kind.
pub fn words(kind: &Kind) -> &'static str
    ensures { result.now ≡ access_words kind.now }
{
    match kind {
        Kind::Plain(Operation::Read) => "read",
        Kind::Plain(Operation::Write) => "write",
        Kind::Plain(Operation::ReadWrite) => "read-write",
        Kind::Marked(Operation::Read) => "read (marked)",
        Kind::Marked(Operation::Write) => "write (marked)",
        Kind::Marked(Operation::ReadWrite) => "read-write (marked)",
        Kind::Assert(Claim::NoWrites) | Kind::AssertScoped(Claim::NoWrites) => "assert no writes",
        Kind::Assert(Claim::NoAccesses) | Kind::AssertScoped(Claim::NoAccesses) => {
            "assert no accesses"
        }
    }
}
