//! The bytes of a reader.
ghost use Rattle.std.specs.Prelude.{◌≡◌, ◌+◌, ◌*◌, ◌-◌, ◌<◌, ◌≤◌, ◌++◌, [], take, drop};
ghost use Rattle.std.specs.Prelude.{IsTrue};
ghost use Rattle.aig_format.specs.state.Held.{held, AreKnownBytes, IsReady, known, room};
ghost use Rattle.aig_format.specs.FileReading.{Raises};
ghost use Rattle.aig_format.specs.state.ReaderAnswers.{of_token};

use crate::reader::source::Source;
use crate::reader::token_fault::TokenFault;
use aig_base::{Failed, Read};

/// How many bytes are read at once.
const ROOM: usize = 32_768;

/// The bytes of a reader, through a plain array.
#[derive(Drop)]
pub(crate) struct Stream<'r, R: Read> {
    reader: &'r mut R,
    // The bytes from `start` to `end` were read and not taken.
    buffer: [u8; ROOM],
    start: usize,
    end: usize,
    // The place of the buffer's first byte.
    begin: u64,
    // A read gave the end.
    ended: bool,
    ghost ordered: { start ≤ end },
    ghost within: { end ≤ room },
    ghost last: { IsTrue ended → (start ≡ end) × (known (R.left reader.now) ≡ []) },
}

impl<'r, R: Read> Stream<'r, R> {
    /// Nothing is read yet.
    pub(crate) fn new(reader: &'r mut R) -> Stream<'r, R>
        ensures same_reference { result.reader.ghost_name ≡ reader.entry.ghost_name }
        ensures reader { result.reader.now ≡ reader.old }
        ensures empty { result.start ≡ result.end }
    {
        Stream {
            reader,
            buffer: [0; ROOM],
            start: 0,
            end: 0,
            begin: 0,
            ended: false,
        }
    }

    /// Reads on where nothing is held and no read gave the end, and answers whether a byte is held. That a read gave
    /// the end is remembered.
    #[inline]
    fn is_ready(&mut self) -> Result<bool, TokenFault>
        ensures same_reference { self.new.reader.ghost_name ≡ self.old.reader.ghost_name }
        ensures same { AreKnownBytes (R.left self.old.reader.now) →
            held self.new.start self.new.end self.new.buffer ++ known (R.left self.new.reader.now)
            ≡ held self.old.start self.old.end self.old.buffer ++ known (R.left self.old.reader.now) }
        ensures ready { IsReady self.new.start self.new.end self.new.ended (R.left self.new.reader.now) result }
        ensures reported { AreKnownBytes (R.left self.old.reader.now) → AreKnownBytes (R.left self.new.reader.now) }
        ensures failures { Raises (of_token result) (R.failures self.old.reader.now) (R.failures self.new.reader.now) }
        ensures never_more { room * R.reads_left self.new.reader.now + (self.new.end - self.new.start)
            ≤ room * R.reads_left self.old.reader.now + (self.old.end - self.old.start) }
        // No read is made where a byte is held, or where a read gave the end: nothing changes.
        ensures held { self.old.start < self.old.end → self.new ≡ self.old }
        ensures ended { IsTrue self.old.ended → self.new ≡ self.old }
    {
        if self.start < self.end {
            return Ok(true);
        }
        if self.ended {
            return Ok(false);
        }
        self.fill()
    }

    /// The same where nothing is held and no read gave the end.
    #[inline(never)]
    fn fill(&mut self) -> Result<bool, TokenFault>
        requires { self.old.start ≡ self.old.end }
        ensures same_reference { self.new.reader.ghost_name ≡ self.old.reader.ghost_name }
        ensures same { AreKnownBytes (R.left self.old.reader.now) →
            held self.new.start self.new.end self.new.buffer ++ known (R.left self.new.reader.now)
            ≡ known (R.left self.old.reader.now) }
        ensures ready { IsReady self.new.start self.new.end self.new.ended (R.left self.new.reader.now) result }
        ensures reported { AreKnownBytes (R.left self.old.reader.now) → AreKnownBytes (R.left self.new.reader.now) }
        ensures failures { Raises (of_token result) (R.failures self.old.reader.now) (R.failures self.new.reader.now) }
        ensures never_more { room * R.reads_left self.new.reader.now + (self.new.end - self.new.start)
            ≤ room * R.reads_left self.old.reader.now }
    {
        match self.reader.read(&mut self.buffer) {
            Err(Failed) => Err(TokenFault::Io),
            Ok(count) => {
                self.begin = self.begin.saturating_add(self.end as u64);
                self.start = 0;
                self.end = count;
                self.ended = count == 0;
                Ok(count > 0)
            }
        }
    }
}

impl<'r, R: Read> Source for Stream<'r, R> {
    ghost reports = { λ s. AreKnownBytes (R.left s.reader.now) };

    ghost left = { λ s. held s.start s.end s.buffer ++ known (R.left s.reader.now) };

    ghost reader = { λ s. s.reader.ghost_name };

    ghost failures = { λ s. R.failures s.reader.now };

    ghost more = { λ s. room * R.reads_left s.reader.now + (s.end - s.start) };

    ghost buffered = { λ s. held s.start s.end s.buffer };

    ghost unread = { λ s. known (R.left s.reader.now) };

    ghost ended = { λ s. IsTrue s.ended };

    #[inline]
    fn at(&self) -> u64 {
        self.begin.saturating_add(self.start as u64)
    }

    #[inline]
    fn front(&self) -> &[u8] {
        &self.buffer[self.start..self.end]
    }

    #[inline]
    fn skip(&mut self, count: usize) {
        self.start += count;
    }

    #[inline]
    fn peek(&mut self) -> Result<Option<u8>, TokenFault> {
        if self.is_ready()? {
            Ok(Some(self.buffer[self.start]))
        } else {
            Ok(None)
        }
    }

    #[inline]
    fn next(&mut self) -> Result<Option<u8>, TokenFault> {
        if self.is_ready()? {
            let byte = self.buffer[self.start];
            self.start += 1;
            Ok(Some(byte))
        } else {
            Ok(None)
        }
    }
}
