//! A reader that knows its bytes.
ghost use Rattle.std.specs.Prelude.{◌≡◌};

use aig_base::{Failed, Read, Std};
use std::io;
use std::marker::Model;
use std::snapshot::Snapshot;

/// Reads as `Std` does, and says which bytes are left, where the type of the reader below does. That type may not say
/// so at first and say so later, so clauses look at the reader as it was at first too.
#[derive(Drop)]
pub struct KnownReader<T: io::Read> {
    // It takes no bytes.
    first: Snapshot<T>,
    reader: Std<T>,
}

impl<T: io::Read> Model for KnownReader<T> {
    ghost use Rattle.aig_files.specs.Known.{FromFirst, StaysKnown};

    ghost Value = { FromFirst T };

    ghost view = { λ k. record {
      first = k.first.value;
      inner = k.reader.inner;
      reads_left = k.reader.reads_left;
      failures = k.reader.failures;
    } };

    ghost invariant = { λ k. StaysKnown (T.remaining k.first.value) (T.remaining k.reader.inner) };
}

impl<T: io::Read> KnownReader<T> {
    /// Over a reader, which is at its first byte.
    pub fn new(inner: T) -> KnownReader<T>
        ensures first { result.first ≡ inner }
        ensures inner { result.inner ≡ inner }
    {
        KnownReader {
            first: Snapshot::of(&inner),
            reader: Std::new(inner),
        }
    }
}

impl<T: io::Read> Read for KnownReader<T> {
    ghost use Rattle.aig_files.specs.Known.{still_known};

    ghost left = { λ k. still_known (T.remaining k.first) (T.remaining k.inner) };

    ghost failures = { λ k. k.failures };

    ghost reads_left = { λ k. k.reads_left };

    fn read(&mut self, buffer: &mut [u8]) -> Result<usize, Failed> {
        self.reader.read(buffer)
    }
}
