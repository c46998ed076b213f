//! A sink in memory.

ghost use Rattle.std.specs.Prelude.{◌≡◌, [], Some};

use crate::sink::{Sink, SinkFault};
use std::alloc::Global;

/// Bytes that grow as they are written. A growth that is refused is a failure.
#[derive(Drop)]
pub struct MemorySink {
    bytes: Vec<u8>,
    failures: u64,
}

impl MemorySink {
    /// No bytes, and no failure.
    pub fn new(alloc: Global) -> MemorySink
        ensures bytes { result.bytes.items ≡ [] }
        ensures failures { result.failures ≡ 0 }
    {
        MemorySink {
            bytes: Vec::new(alloc),
            failures: 0,
        }
    }

    /// What was written.
    pub fn bytes(&self) -> &[u8]
        ensures { result.now ≡ self.now.bytes.items }
    {
        self.bytes.as_slice()
    }

    /// What was written, without the sink.
    pub fn into_bytes(self) -> Vec<u8>
        ensures { result ≡ self.bytes }
    {
        self.bytes
    }
}

impl Sink for MemorySink {
    ghost written = { λ sink. Some sink.bytes.items };

    ghost failures = { λ sink. sink.failures };

    fn write(&mut self, text: &[u8]) -> Result<usize, SinkFault> {
        if self.bytes.extend_from_slice(text).is_err() {
            self.failures = self.failures.saturating_add(1);
            return Err(SinkFault);
        }
        Ok(text.len())
    }
}
