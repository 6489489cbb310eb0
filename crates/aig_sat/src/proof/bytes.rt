//! The bytes of a proof.
ghost use Rattle.std.specs.Prelude.{◌≡◌, ◌↔◌, ◌+◌, ◌<◌, ◌≤◌, ◌∷◌, [], length, true, false, None, IfOk, IfSome, IsTrue};
ghost use Rattle.std.specs.Prelude.{slice_get};
ghost use Rattle.aig_bytes.specs.Bytes.{IsAtEnd};
ghost use Rattle.aig_sat.specs.proof.Steps.{TakesText, text_to_come};
ghost use Rattle.aig_sat.specs.proof.state.Taking.{Loads, Lowers, ReadsOn, Shows, TakesBytes, listed};

use aig_bytes::{Failed, Read};
use std::marker::Model;

/// How many bytes are read at once.
const ROOM: usize = 32_768;

/// Bytes that were read and not taken, in a plain array. After the last byte of the file comes an LF, so a text's last
/// line always has one. The binary form ends where it is next (`next`).
#[derive(Drop)]
pub(crate) struct ProofBytes {
    buffer: [u8; ROOM],
    // The bytes from `start` to `end` were read and not taken.
    start: usize,
    end: usize,
    // The place of the buffer's first byte, or of the end.
    begin: u64,
    // A read gave the end, and the buffer has nothing but the LF for it.
    ended: bool,
    // The byte that was taken last, an LF before the first.
    previous: u8,
}

impl Model for ProofBytes {
    ghost use Rattle.std.specs.Prelude.{◌≤◌};
    ghost use Rattle.aig_sat.specs.proof.Steps.{Block};
    ghost use Rattle.aig_sat.specs.proof.state.Taking.{held};

    ghost Value = { Block };

    ghost view = { λ b. record { waiting = held b.start b.end b.buffer; ended = b.ended; previous = b.previous } };

    ghost invariant = { λ b. (b.start ≤ b.end) × (b.end ≤ 32768) };
}

impl ProofBytes {
    /// Nothing is read yet.
    pub(crate) fn new() -> ProofBytes
        ensures { result ≡ record { waiting = []; ended = false; previous = 10 } }
    {
        ProofBytes {
            buffer: [0; ROOM],
            start: 0,
            end: 0,
            begin: 0,
            ended: false,
            previous: b'\n',
        }
    }

    /// How many bytes of the file were taken; `u64`'s greatest value where there were more.
    pub(crate) fn at(&self) -> u64 {
        if self.ended {
            self.begin
        } else {
            self.begin.saturating_add(self.start as u64)
        }
    }

    /// The place to report where a word that begins at a place does not go on: the end of the file, where the word is cut
    /// off there.
    pub(crate) fn cut_at(&self, at: u64) -> u64 {
        if self.ended { self.begin } else { at }
    }

    /// Whether the next byte begins a line.
    pub(crate) fn is_at_line(&self) -> bool
        ensures { IsTrue result ↔ (self.now.previous ≡ 10) }
    {
        self.previous == b'\n'
    }

    /// The bytes that were read and not taken.
    pub(crate) fn front(&self) -> &[u8]
        ensures { result.now ≡ self.now.waiting }
    {
        &self.buffer[self.start..self.end]
    }

    /// Reads once, after the bytes that were read, and returns how many bytes it got.
    fn load<R: Read>(&mut self, reader: &mut R) -> Result<usize, Failed>
        requires { self.old.ended ≡ false }
        ensures loads { Loads R.left R.failures reader.old reader.new self.old self.new result }
    {
        match reader.read(&mut self.buffer[self.end..]) {
            Err(Failed) => Err(Failed),
            Ok(count) => {
                self.end += count;
                Ok(count)
            }
        }
    }

    /// Reads until the array is full or a read gives no byte.
    pub(crate) fn fill<R: Read>(&mut self, reader: &mut R) -> Result<(), Failed>
        ensures loads { Loads R.left R.failures reader.old reader.new self.old self.new result }
    {
        if self.ended {
            return Ok(());
        }
        for _ in 0..ROOM {
            if self.end == ROOM || self.load(reader)? == 0 {
                break;
            }
        }
        Ok(())
    }

    /// Puts the LF for the end into the array.
    fn put_end(&mut self)
        requires { self.old.waiting ≡ [] }
        ensures waiting { self.new.waiting ≡ 10 ∷ [] }
        ensures ended { self.new.ended ≡ true }
        ensures previous { self.new.previous ≡ self.old.previous }
    {
        self.begin = self.begin.saturating_add(self.end as u64);
        self.buffer[0] = b'\n';
        self.start = 0;
        self.end = 1;
        self.ended = true;
    }

    /// The first byte that was read and not taken.
    fn first(&self) -> Option<u8>
        ensures { slice_get self.now.waiting 0 ≡ result }
    {
        if self.start < self.end {
            Some(self.buffer[self.start])
        } else {
            None
        }
    }

    /// The next byte, which stays, where none is left in the array.
    #[inline(never)]
    fn peek_on<R: Read>(&mut self, reader: &mut R) -> Result<Option<u8>, Failed>
        requires { self.old.waiting ≡ [] }
        ensures shows { Shows R.left R.failures R.reads_left reader.old reader.new self.old self.new result }
    {
        if self.ended {
            return Ok(None);
        }
        self.begin = self.begin.saturating_add(self.end as u64);
        self.start = 0;
        self.end = 0;
        let count = reader.read(&mut self.buffer)?;
        self.end = count;
        if count > 0 {
            return Ok(self.first());
        }
        self.put_end();
        Ok(Some(b'\n'))
    }

    /// The next byte, which stays.
    #[inline]
    pub(crate) fn peek<R: Read>(&mut self, reader: &mut R) -> Result<Option<u8>, Failed>
        ensures shows { Shows R.left R.failures R.reads_left reader.old reader.new self.old self.new result }
        ensures shown { IfOk result (λ byte. IfSome (text_to_come self.old (R.left reader.old))
            (λ bytes. slice_get bytes 0 ≡ byte)) }
    {
        if self.start == self.end {
            return self.peek_on(reader);
        }
        Ok(Some(self.buffer[self.start]))
    }

    /// Takes the next byte, which a `peek` has shown.
    #[inline]
    pub(crate) fn skip(&mut self)
        requires { 0 < length self.old.waiting }
        ensures taken { self.old.waiting ≡ self.new.previous ∷ self.new.waiting }
        ensures shorter { length self.new.waiting + 1 ≡ length self.old.waiting }
        ensures ended { self.new.ended ≡ self.old.ended }
    {
        self.previous = self.buffer[self.start];
        self.start += 1;
    }

    /// The next byte of a text, which is taken.
    #[inline]
    pub(crate) fn next_char<R: Read>(&mut self, reader: &mut R) -> Result<Option<u8>, Failed>
        ensures text { ReadsOn R.failures R.reads_left reader.old reader.new self.old self.new result (λ byte.
            TakesText self.old self.new (R.left reader.old) (R.left reader.new) (listed byte)) }
        ensures none { IfOk result (λ byte. byte ≡ None → IsAtEnd (text_to_come self.old (R.left reader.old))) }
        ensures lowers { IfOk result (λ b. IfSome b (λ _. Lowers R.reads_left reader.old reader.new self.old self.new)) }
    {
        match self.peek(reader)? {
            Some(byte) => {
                self.skip();
                Ok(Some(byte))
            }
            None => Ok(None),
        }
    }

    /// The next byte of the binary form, which is taken.
    #[inline]
    pub(crate) fn next<R: Read>(&mut self, reader: &mut R) -> Result<Option<u8>, Failed>
        ensures bytes { ReadsOn R.failures R.reads_left reader.old reader.new self.old self.new result (λ byte.
            TakesBytes self.old self.new (R.left reader.old) (R.left reader.new) (listed byte)) }
        ensures none { IfOk result (λ byte. byte ≡ None → self.new.ended ≡ true) }
        ensures lowers { IfOk result (λ b. IfSome b (λ _. Lowers R.reads_left reader.old reader.new self.old self.new)) }
    {
        match self.peek(reader)? {
            Some(byte) => {
                if self.ended {
                    return Ok(None);
                }
                self.skip();
                Ok(Some(byte))
            }
            None => Ok(None),
        }
    }
}
