//! Where input comes from, some bytes at a time, and the loop that reads all of it.

ghost use Rattle.std.specs.Prelude.{◌≡◌, ◌+◌, ◌<◌, ◌≤◌, ℕ, List, Option, length, take, IfOk, IsErrOf, OnOk, OnErr, vec_len};
ghost use Rattle.std.specs.Io.KnownBytes.{Consumes, IsAtEnd, Keeps};
ghost use Rattle.litmus_lex.specs.Source.{CountsFailure, IsAllUpTo, StandsFurther};
ghost use Rattle.litmus_lex.specs.declared.source.ReadError.TheVariants.{OutOfMemory};

use std::alloc::{AllocError, AllocFailed, Global};
use thiserror::Error;

/// A source could not give bytes.
#[derive(Clone, Copy, Debug, Error)]
#[error("cannot read")]
pub struct SourceFault;

/// Why not everything was read.
#[derive(Clone, Copy, Debug, Error)]
pub enum ReadError {
    #[error("out of memory")]
    OutOfMemory,
    #[error("cannot read")]
    SourceFailed,
}

impl From<AllocError> for ReadError {
    ghost from_gives = { λ _ error. error ≡ OutOfMemory };

    fn from(_error: AllocError) -> ReadError {
        ReadError::OutOfMemory
    }
}

impl<T: Drop> From<AllocFailed<T>> for ReadError {
    ghost from_gives = { λ _ error. error ≡ OutOfMemory };

    fn from(_error: AllocFailed<T>) -> ReadError {
        ReadError::OutOfMemory
    }
}

/// What gives bytes, and counts its failures up to 2^64 - 1, where the count stays.
pub trait Source {
    /// The bytes that it will still give, or None, which claims nothing, where it can't say.
    ghost remaining: { Self → Option (List ℕ) };

    /// How often it has failed.
    ghost failures: { Self → ℕ };

    /// Gives some bytes at the front of the buffer, and answers how many: 0 only at the end, if the
    /// buffer has room. A failed read gives none.
    fn read(&mut self, buffer: &mut [u8]) -> Result<usize, SourceFault>
        ensures within { IfOk result (λ count. count ≤ length buffer.new) }
        ensures given { IfOk result
            (λ count. Consumes (remaining self.old) (remaining self.new) (take count buffer.new)) }
        ensures ended { IfOk result
            (λ count. count ≡ 0 → 0 < length buffer.new → IsAtEnd (remaining self.old)) }
        ensures worked { OnOk result (failures self.new ≡ failures self.old) }
        ensures refused { OnErr result (Keeps (remaining self.old) (remaining self.new)) }
        ensures failed { OnErr result (CountsFailure (failures self.old) (failures self.new)) };
}

/// How many bytes are asked for at a time.
const PIECE: usize = 4096;

/// Reads a source to its end, or `limit` + 1 bytes of it, which say that it has more than `limit`.
///
/// `SourceFailed` where a read failed, and `OutOfMemory`. After either the source stands where its
/// last read left it.
pub fn read_all<S: Source>(
    alloc: Global,
    source: &mut S,
    limit: usize,
) -> Result<Vec<u8>, ReadError>
    ensures within { IfOk result (λ bytes. vec_len bytes ≤ limit + 1) }
    ensures read { IfOk result
        (λ bytes. IsAllUpTo (limit + 1) (S.remaining source.old) bytes.items) }
    ensures stands { IfOk result
        (λ bytes. Consumes (S.remaining source.old) (S.remaining source.new) bytes.items) }

    ensures refused { OnErr result
        (StandsFurther (limit + 1) (S.remaining source.old) (S.remaining source.new)) }

    ensures failed { IsErrOf result ReadError.SourceFailed
        → CountsFailure (S.failures source.old) (S.failures source.new) }
    ensures worked { ¬ IsErrOf result ReadError.SourceFailed
        → S.failures source.new ≡ S.failures source.old }
{
    let mut bytes = Vec::new(alloc);
    let mut buffer = [0; PIECE];
    while bytes.len() <= limit {
        let room = (limit - bytes.len()).min(PIECE - 1) + 1;
        let Ok(count) = source.read(&mut buffer[..room]) else {
            return Err(ReadError::SourceFailed);
        };
        if count == 0 {
            break;
        }
        bytes.extend_from_slice(&buffer[..count])?;
    }
    Ok(bytes)
}
