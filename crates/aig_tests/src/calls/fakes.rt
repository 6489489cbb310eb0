//! Readers and writers that fail, take few bytes, or hold them.
use aig_bytes::{Count, Failed, MemReader, MemWriter, Read, Write};
use std::io;

/// Hands out at most so many bytes a call (one at least), and fails after so many calls.
#[derive(Drop)]
pub struct Pieces<'a> {
    bytes: MemReader<'a>,
    size: usize,
    calls: usize,
    failures: Count,
}

impl<'a> Pieces<'a> {
    pub fn new(bytes: &'a [u8], size: usize, calls: usize) -> Pieces<'a> {
        Pieces {
            bytes: MemReader::new(bytes),
            size,
            calls,
            failures: Count::zero(),
        }
    }
}

impl<'a> Read for Pieces<'a> {
    ghost use Rattle.std.specs.Prelude.{length, Some};

    ghost left = { λ r. Some r.bytes };

    ghost failures = { λ r. r.failures.number };

    ghost reads_left = { λ r. length r.bytes };

    fn read(&mut self, buffer: &mut [u8]) -> Result<usize, Failed> {
        if self.calls == 0 {
            self.failures = Count::one_more(&self.failures);
            return Err(Failed);
        }
        self.calls -= 1;
        let room = buffer.len().min(self.size.max(1));
        self.bytes.read(&mut buffer[..room])
    }
}

/// A writer that holds nothing back: its flush does nothing.
#[derive(Drop)]
pub struct Plain {
    pub inner: MemWriter,
}

impl Write for Plain {
    ghost use Rattle.std.specs.Prelude.{Some};

    ghost written = { λ w. Some w.inner.bytes };

    ghost is_flushed = { λ _. Unit {0} };

    ghost failures = { λ w. w.inner.failures };

    fn write(&mut self, bytes: &[u8]) -> Result<usize, Failed> {
        self.inner.write(bytes)
    }

    fn flush(&mut self) -> Result<(), Failed> {
        Ok(())
    }
}

/// Forwards one byte of each write.
#[derive(Drop)]
pub struct OneByte<W> {
    pub inner: W,
}

impl<W: Write> Write for OneByte<W> {
    ghost written = { λ w. W.written w.inner };

    ghost is_flushed = { λ w. W.is_flushed w.inner };

    ghost failures = { λ w. W.failures w.inner };

    fn write(&mut self, bytes: &[u8]) -> Result<usize, Failed> {
        self.inner.write(&bytes[..bytes.len().min(1)])
    }

    fn flush(&mut self) -> Result<(), Failed> {
        self.inner.flush()
    }
}

/// A writer of std that takes nothing.
#[derive(Drop)]
pub struct Stuck;

impl io::Write for Stuck {
    fn write(&mut self, _bytes: &[u8]) -> io::Result<usize> {
        Ok(0)
    }

    fn flush(&mut self) -> io::Result<()> {
        Ok(())
    }
}

/// A writer of std that takes two bytes of each write, and fails each flush.
#[derive(Drop)]
pub struct Short {
    pub bytes: Vec<u8>,
}

impl io::Write for Short {
    fn write(&mut self, bytes: &[u8]) -> io::Result<usize> {
        self.bytes.write(&bytes[..bytes.len().min(2)])
    }

    fn flush(&mut self) -> io::Result<()> {
        Err(io::ErrorKind::BrokenPipe.into())
    }
}

/// A writer of std that keeps what it gets, and puts a mark `|` where it is flushed.
#[derive(Drop)]
pub struct Marked {
    pub bytes: Vec<u8>,
}

impl io::Write for Marked {
    fn write(&mut self, bytes: &[u8]) -> io::Result<usize> {
        self.bytes.write(bytes)
    }

    fn flush(&mut self) -> io::Result<()> {
        self.bytes.write_all(b"|")
    }
}

/// A writer of std that holds what it gets until it is flushed.
#[derive(Drop)]
pub struct Late {
    pub held: Vec<u8>,
    pub bytes: Vec<u8>,
}

impl io::Write for Late {
    fn write(&mut self, bytes: &[u8]) -> io::Result<usize> {
        self.held.write(bytes)
    }

    fn flush(&mut self) -> io::Result<()> {
        self.bytes.write_all(&self.held)?;
        self.held.clear();
        Ok(())
    }
}
