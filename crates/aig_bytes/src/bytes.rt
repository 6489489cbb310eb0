//! Readers and writers as contracts see them: their bytes, where they tell them, and how many calls failed.
ghost use Rattle.std.specs.Prelude.{◌≡◌, ℕ, ◌+◌, ◌<◌, ◌≤◌, List, length, IfOk, OnOk, Option};
ghost use Rattle.aig_bytes.specs.Bytes.{after, before, failed, moved, IsAtEnd};

/// A read, a write or a flush failed.
#[derive(Clone, Copy, Debug, PartialEq, Eq)]
pub struct Failed;

/// A source of bytes.
pub trait Read {
    // The bytes that are left, where the value knows them.
    ghost left: { Self → Option (List ℕ) };

    // How many calls failed.
    ghost failures: { Self → ℕ };

    // Each call that gives bytes lowers this number.
    ghost reads_left: { Self → ℕ };

    /// Fills the front of the buffer, and answers with how many bytes. For a buffer with room 0 means the end.
    fn read(&mut self, buffer: &mut [u8]) -> Result<usize, Failed>
        ensures bound { IfOk result (λ n. n ≤ length buffer.new) }
        ensures given { left self.old ≡ before (moved result buffer.new) (left self.new) }
        ensures end { IfOk result (λ n. n ≡ 0 → 0 < length buffer.new → IsAtEnd (left self.new)) }
        ensures count { failures self.new ≡ failures self.old + failed result }
        ensures lowers { IfOk result (λ n. 0 < n → reads_left self.new < reads_left self.old) }
        ensures never_more { reads_left self.new ≤ reads_left self.old };
}

/// A sink of bytes.
pub trait Write {
    // The bytes written so far, where the value knows them.
    ghost written: { Self → Option (List ℕ) };

    // Neither it nor a writer below it holds back a byte that was written.
    ghost is_flushed: { Self → Type 0 };

    // How many calls failed.
    ghost failures: { Self → ℕ };

    /// Takes bytes from the front, at least one where there is one, and answers how many.
    fn write(&mut self, bytes: &[u8]) -> Result<usize, Failed>
        ensures bound { IfOk result (λ n. n ≤ length bytes.now) }
        ensures some { IfOk result (λ n. 0 < length bytes.now → 0 < n) }
        ensures taken { written self.new ≡ after (written self.old) (moved result bytes.now) }
        ensures count { failures self.new ≡ failures self.old + failed result };

    /// Passes on all bytes that are held back, and then flushes the writer below. It writes no byte of its own. A
    /// writer that holds nothing back and has none below has nothing to do.
    fn flush(&mut self) -> Result<(), Failed>
        ensures kept { written self.new ≡ written self.old }
        ensures flushed { OnOk result (is_flushed self.new) }
        ensures count { failures self.new ≡ failures self.old + failed result };
}
