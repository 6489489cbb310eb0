//! Texts of files, in memory.
ghost use Rattle.std.specs.Prelude.{◌≡◌, []};

use aig_base::{Count, Failed, Write};
use std::alloc::Global;

/// Keeps all that is written. It fails where no memory is found.
#[derive(Drop)]
pub(crate) struct TextBuffer {
    bytes: Vec<u8>,
    failures: Count,
}

impl TextBuffer {
    /// Nothing.
    pub(crate) fn new(alloc: Global) -> TextBuffer
        ensures { result.bytes.items ≡ [] }
    {
        TextBuffer {
            bytes: Vec::new(alloc),
            failures: Count::zero(),
        }
    }

    /// What was written.
    pub(crate) fn into_bytes(self) -> Vec<u8>
        ensures { result ≡ self.bytes }
    {
        let TextBuffer { bytes, failures: _ } = self;
        bytes
    }
}

impl Write for TextBuffer {
    ghost use Rattle.std.specs.Prelude.{Some};

    ghost written = { λ t. Some t.bytes.items };

    ghost is_flushed = { λ _. Unit {0} };

    ghost failures = { λ t. t.failures.number };

    fn write(&mut self, bytes: &[u8]) -> Result<usize, Failed> {
        match self.bytes.extend_from_slice(bytes) {
            Ok(()) => Ok(bytes.len()),
            Err(_) => {
                self.failures = Count::one_more(&self.failures);
                Err(Failed)
            }
        }
    }

    fn flush(&mut self) -> Result<(), Failed> {
        Ok(())
    }
}
