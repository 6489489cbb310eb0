//! Readers and writers of the system.
ghost use Rattle.std.specs.Prelude.{◌≡◌, ◌+◌, ◌-◌, ◌^◌, ◌<◌, ◌≤◌, ℕ, None, IfOk, length};
ghost use Rattle.std.specs.Io.KnownBytes.{Keeps, ReadConsumes, WriteAppends};
ghost use Rattle.aig_bytes.specs.Bytes.{after, before, failed, gave, moved, IsAtEnd};

use crate::bytes::{Failed, Read, Write};
use crate::count::Count;
use std::io;
use std::marker::Model;

/// A reader or a writer of `std::io`. It knows none of its bytes, and tries no failure again. It fails also where a
/// write takes none of the bytes that there are, and where `u64::MAX` reads have given bytes.
#[derive(Drop)]
pub struct Std<T> {
    inner: T,
    // How many reads may still give bytes.
    reads_left: u64,
    failures: Count,
}

impl<T> Model for Std<T> {
    ghost use Rattle.aig_bytes.specs.Wrapped.{Wrapped};

    ghost Value = { Wrapped T };

    ghost view = { λ s. record { inner = s.inner; reads_left = s.reads_left; failures = s.failures.number } };
}

impl<T> Std<T> {
    /// Over a reader or a writer.
    pub fn new(inner: T) -> Std<T>
        ensures { result ≡ record { inner = inner; reads_left = 2 ^ 64 - 1; failures = 0 } }
    {
        Std {
            inner,
            reads_left: u64::MAX,
            failures: Count::zero(),
        }
    }
}

impl<T: io::Read> Read for Std<T> {
    ghost left = { λ _. None };

    ghost failures = { λ s. s.failures };

    ghost reads_left = { λ s. s.reads_left };

    fn read(&mut self, buffer: &mut [u8]) -> Result<usize, Failed>
        // The trait's clauses.
        ensures bound { IfOk result (λ n. n ≤ length buffer.new) }
        ensures given { None ≡ before (moved result buffer.new) None }
        ensures end { IfOk result (λ n. n ≡ 0 → 0 < length buffer.new → IsAtEnd None) }
        ensures count { self.new.failures ≡ self.old.failures + failed result }
        ensures lowers { IfOk result (λ n. 0 < n → self.new.reads_left < self.old.reads_left) }
        ensures never_more { self.new.reads_left ≤ self.old.reads_left }

        // What the reader of std gave is given. Each read that gives bytes counts, and no other.
        ensures inner { ReadConsumes (T.remaining self.old.inner) (T.remaining self.new.inner) result buffer.new }
        ensures reads { self.old.reads_left ≡ self.new.reads_left + gave result }
    {
        if self.reads_left > 0
            && let Ok(count) = self.inner.read(buffer)
        {
            if count > 0 {
                self.reads_left -= 1;
            }
            return Ok(count);
        }
        self.failures = Count::one_more(&self.failures);
        Err(Failed)
    }
}

impl<T: io::Write> Write for Std<T> {
    ghost written = { λ _. None };

    ghost is_flushed = { λ _. Unit {0} };

    ghost failures = { λ s. s.failures };

    fn write(&mut self, bytes: &[u8]) -> Result<usize, Failed>
        // The trait's clauses.
        ensures bound { IfOk result (λ n. n ≤ length bytes.now) }
        ensures some { IfOk result (λ n. 0 < length bytes.now → 0 < n) }
        ensures taken { None ≡ after None (moved result bytes.now) }
        ensures count { self.new.failures ≡ self.old.failures + failed result }

        // What it took the writer of std got.
        ensures inner { WriteAppends (T.contents self.old.inner) (T.contents self.new.inner) result bytes.now }
    {
        if let Ok(count) = self.inner.write(bytes)
            && (count > 0 || bytes.is_empty())
        {
            return Ok(count);
        }
        self.failures = Count::one_more(&self.failures);
        Err(Failed)
    }

    fn flush(&mut self) -> Result<(), Failed>
        // The trait's clause on failures; no byte is known.
        ensures count { self.new.failures ≡ self.old.failures + failed result }

        // The writer of std gets no byte.
        ensures inner { Keeps (T.contents self.old.inner) (T.contents self.new.inner) }
    {
        if let Ok(()) = self.inner.flush() {
            return Ok(());
        }
        self.failures = Count::one_more(&self.failures);
        Err(Failed)
    }
}
