//! Where output goes, some bytes at a time, and the loop that writes a whole text.

ghost use Rattle.std.specs.Prelude.{◌≡◌, ◌<◌, ◌≤◌, ℕ, List, Option, length, take, IfOk, OnErr};
ghost use Rattle.report_text.specs.Sink.{CountsFailure, Writes, appended};

use thiserror::Error;

/// A sink could not take bytes.
#[derive(Clone, Copy, Debug, Error)]
#[error("cannot write")]
pub struct SinkFault;

/// Why a text was not written whole.
#[derive(Clone, Copy, Debug, Error)]
pub enum WriteError {
    #[error("cannot write")]
    SinkFailed,
}

/// What takes bytes, and counts its failures up to 2^64 - 1, where the count stays. An answer of 0
/// to a text that isn't empty is a failure too.
pub trait Sink {
    /// What it has taken, or None, which claims nothing, where it can't say.
    ghost written: { Self → Option (List ℕ) };

    /// How often it has failed.
    ghost failures: { Self → ℕ };

    /// Takes some bytes from the front of the text, and answers how many.
    fn write(&mut self, text: &[u8]) -> Result<usize, SinkFault>
        ensures taken { IfOk result (λ count. (count ≤ length text.now)
            × (written self.new ≡ appended (written self.old) (take count text.now))) }
        ensures refused { OnErr result (written self.new ≡ written self.old) }
        ensures failed { OnErr result (CountsFailure (failures self.old) (failures self.new)) }
        ensures stopped { IfOk result (λ count. count ≡ 0 → 0 < length text.now →
            CountsFailure (failures self.old) (failures self.new)) }
        ensures worked { IfOk result (λ count. 0 < count → failures self.new ≡ failures self.old) };
}

/// Writes the whole text.
///
/// `SinkFailed`: the sink failed in this call, and holds a beginning of the text.
pub fn write_all<K: Sink>(sink: &mut K, text: &[u8]) -> Result<(), WriteError>
    ensures { Writes K.written K.failures result text.now sink.old sink.new }
{
    let mut at = 0;
    while at < text.len() {
        let Ok(count) = sink.write(&text[at..]) else {
            return Err(WriteError::SinkFailed);
        };
        if count == 0 {
            return Err(WriteError::SinkFailed);
        }
        at += count;
    }
    Ok(())
}
