//! Bytes that wait to be written.
ghost use Rattle.std.specs.Prelude.{◌≡◌, ◌+◌, ◌^◌, ◌<◌, ◌≤◌, ◌↔◌, [], ◌∷◌, ◌++◌, length, take, drop, false, IsTrue};
ghost use Rattle.std.specs.Prelude.{OnOk};
ghost use Rattle.std.specs.Fmt.{decimal};
ghost use Rattle.aig_bytes.specs.Bytes.{Writes};
ghost use Rattle.aig_bytes.specs.Gathered.{Gathers};
ghost use Rattle.aig_bytes.specs.Term.{term_text};

use crate::bytes::Write;
use crate::digits::{SHORT, write_long, write_short};
use crate::fault::Io;
use crate::term::Term;
use crate::write::write_all;
use std::marker::Model;

/// How many bytes the longest number takes.
const DIGITS: usize = 10;

/// How many bytes the longest line of three short numbers takes.
const LINE: usize = 27;

/// How many bytes the longest symbol with an empty name takes.
const SYMBOL: usize = 11;

/// How many bytes the longest line of two or three terms takes.
const PAIR: usize = 22;

const TRIPLE: usize = 32;

/// From how many bytes on a piece does not wait.
const LARGE: usize = 4096;

/// Bytes that wait in a plain array, `ROOM` at most. They are taken out at the front and put in at the end. No byte is
/// moved, so the room of those that were taken out serves again only once none waits.
#[derive(Drop)]
pub struct ByteBlock<const ROOM: usize> {
    bytes: [u8; ROOM],
    // The bytes from `start` to `end` wait.
    start: usize,
    end: usize,
}

/// A block for whole files.
pub type Block = ByteBlock<32_768>;

impl<const ROOM: usize> Model for ByteBlock<ROOM> {
    ghost use Rattle.std.specs.Prelude.{List, ℕ, drop, take, ◌<◌, ◌≤◌, ◌≡◌};

    ghost Value = { List ℕ };

    ghost view = { λ b. drop b.start (take b.end b.bytes) };

    // If none waits there is all the room, and a number fits in it.
    ghost invariant = { λ b. (b.start ≤ b.end) × (b.end ≤ ROOM) × (b.start ≡ b.end → b.end ≡ 0) × (10 < ROOM) };
}

impl<const ROOM: usize> ByteBlock<ROOM> {
    /// No bytes.
    pub fn new() -> Self
        requires { 10 < ROOM }
        ensures { result ≡ [] }
    {
        ByteBlock {
            bytes: [0; ROOM],
            start: 0,
            end: 0,
        }
    }

    /// The bytes that wait.
    pub fn as_slice(&self) -> &[u8]
        ensures { result.now ≡ self.now }
    {
        &self.bytes[..self.end][self.start..]
    }

    /// Whether none waits.
    pub fn is_empty(&self) -> bool
        ensures { IsTrue result ↔ (self.now ≡ []) }
    {
        self.as_slice().is_empty()
    }

    /// Forgets the bytes.
    pub fn clear(&mut self)
        ensures { self.new ≡ [] }
    {
        self.start = 0;
        self.end = 0;
    }

    /// Takes bytes out at the front. The caller knows that so many wait.
    pub fn skip(&mut self, count: usize)
        requires { count ≤ length self.old }
        ensures { self.new ≡ drop count self.old }
    {
        let start = self.start + count;
        if start == self.end {
            self.clear();
        } else {
            self.start = start;
        }
    }

    /// Puts in one byte after those that wait, and answers whether there was room for it there. Where there was none
    /// nothing changes.
    #[inline]
    pub fn push(&mut self, byte: u8) -> bool
        ensures pushed { IsTrue result → self.new ≡ self.old ++ byte ∷ [] }
        ensures full { result ≡ false → self.new ≡ self.old }
        ensures some { self.old ≡ [] → IsTrue result }
    {
        let after = self.end;
        if after == ROOM {
            return false;
        }
        self.bytes[after] = byte;
        self.end = after + 1;
        true
    }

    /// Puts in a number's digits and the byte that ends it after those that wait, where there is room for the longest
    /// number there, and answers whether there was. Where there was none nothing changes.
    pub fn push_field(&mut self, number: u32, end: u8) -> bool
        ensures pushed { IsTrue result → self.new ≡ self.old ++ (decimal number ++ end ∷ []) }
        ensures full { result ≡ false → self.new ≡ self.old }
        ensures some { self.old ≡ [] → IsTrue result }
    {
        let after = self.end;
        if ROOM - after <= DIGITS {
            return false;
        }
        self.end = if number < SHORT {
            write_short(&mut self.bytes, after, number, end)
        } else {
            write_long(&mut self.bytes, after, number, end)
        };
        true
    }

    /// Puts in a line of three numbers below 10^8, with a blank after each but the last, after those that wait, where
    /// there is room for the longest such line there, and answers whether there was. Where there was none nothing
    /// changes.
    #[inline(always)]
    pub fn push_line(&mut self, first: u32, second: u32, third: u32) -> bool
        requires first { first < 10 ^ 8 }
        requires second { second < 10 ^ 8 }
        requires third { third < 10 ^ 8 }
        ensures pushed { IsTrue result → self.new
            ≡ self.old ++ ((decimal first ++ 32 ∷ []) ++ (decimal second ++ 32 ∷ []) ++ (decimal third ++ 10 ∷ [])) }
        ensures full { result ≡ false → self.new ≡ self.old }
        ensures some { self.old ≡ [] → 26 < ROOM → IsTrue result }
    {
        let after = self.end;
        if ROOM - after < LINE {
            return false;
        }
        let after = write_short(&mut self.bytes, after, first, b' ');
        let after = write_short(&mut self.bytes, after, second, b' ');
        self.end = write_short(&mut self.bytes, after, third, b'\n');
        true
    }

    /// Puts in a line of two terms and a 0 after those that wait, where there is room for the longest such line there,
    /// and answers whether there was. Where there was none nothing changes.
    #[inline(always)]
    pub fn push_pair(&mut self, first: &Term, second: &Term) -> bool
        ensures pushed { IsTrue result → self.new
            ≡ self.old ++ (term_text first.now ++ (term_text second.now ++ 48 ∷ 10 ∷ [])) }
        ensures full { result ≡ false → self.new ≡ self.old }
        ensures some { self.old ≡ [] → 21 < ROOM → IsTrue result }
    {
        let after = self.end;
        if ROOM - after < PAIR {
            return false;
        }
        let middle = first.write(&mut self.bytes, after);
        let at = second.write(&mut self.bytes, middle);
        self.bytes[at] = b'0';
        self.bytes[at + 1] = b'\n';
        self.end = at + 2;
        true
    }

    /// Puts in a line of three terms and a 0 after those that wait, where there is room for the longest such line
    /// there, and answers whether there was. Where there was none nothing changes.
    #[inline(always)]
    pub fn push_triple(&mut self, first: &Term, second: &Term, third: &Term) -> bool
        ensures pushed { IsTrue result → self.new
            ≡ self.old ++ (term_text first.now
            ++ (term_text second.now
            ++ (term_text third.now ++ 48 ∷ 10 ∷ []))) }
        ensures full { result ≡ false → self.new ≡ self.old }
        ensures some { self.old ≡ [] → 31 < ROOM → IsTrue result }
    {
        let after = self.end;
        if ROOM - after < TRIPLE {
            return false;
        }
        let at = first.write(&mut self.bytes, after);
        let at = second.write(&mut self.bytes, at);
        let at = third.write(&mut self.bytes, at);
        self.bytes[at] = b'0';
        self.bytes[at + 1] = b'\n';
        self.end = at + 2;
        true
    }

    /// Puts in a letter, a number with a blank after it, a name and the end of a line after those that wait, where the
    /// number is below 10^8 and there is room for the longest one there, and answers whether it did. Where it did not
    /// nothing changes.
    #[inline]
    pub fn push_symbol(&mut self, letter: u8, number: u32, name: &[u8]) -> bool
        ensures pushed { IsTrue result → self.new
            ≡ self.old ++ (letter ∷ (decimal number ++ 32 ∷ []) ++ name.now ++ 10 ∷ []) }
        ensures full { result ≡ false → self.new ≡ self.old }
        ensures some { self.old ≡ [] → number < 10 ^ 8 → length name.now + 11 ≤ ROOM → IsTrue result }
    {
        let after = self.end;
        if number >= SHORT {
            return false;
        }
        if ROOM - after < name.len() + SYMBOL {
            return false;
        }
        self.bytes[after] = letter;
        let at = write_short(&mut self.bytes, after + 1, number, b' ');
        let last = at + name.len();
        let room = &mut self.bytes[..];
        room[at..last].copy_from_slice(name);
        self.bytes[last] = b'\n';
        self.end = last + 1;
        true
    }

    /// Puts in the first of four bytes, and the first of another four after them, after those that wait, where there is
    /// room for all eight there, and answers whether there was. Where there was none nothing changes.
    #[inline]
    pub fn push_firsts(&mut self, first: ([u8; 4], usize), second: ([u8; 4], usize)) -> bool
        requires first { first.1 ≤ 4 }
        requires second { second.1 ≤ 4 }
        ensures pushed { IsTrue result → self.new ≡ self.old ++ (take first.1 first.0 ++ take second.1 second.0) }
        ensures full { result ≡ false → self.new ≡ self.old }
        ensures some { self.old ≡ [] → IsTrue result }
    {
        let after = self.end;
        if ROOM - after < 8 {
            return false;
        }
        let middle = after + first.1;
        let room = &mut self.bytes[..];
        room[after..after + 4].copy_from_slice(&first.0);
        room[middle..middle + 4].copy_from_slice(&second.0);
        self.end = middle + second.1;
        true
    }

    /// Puts in all of these bytes after those that wait, where there is room for them there, and answers whether there
    /// was. Where there was none nothing changes.
    #[inline(always)]
    pub fn push_all(&mut self, bytes: &[u8]) -> bool
        ensures pushed { IsTrue result → self.new ≡ self.old ++ bytes.now }
        ensures full { result ≡ false → self.new ≡ self.old }
        ensures some { self.old ≡ [] → length bytes.now ≤ ROOM → IsTrue result }
    {
        let after = self.end;
        if ROOM - after < bytes.len() {
            return false;
        }
        let last = after + bytes.len();
        let room = &mut self.bytes[..];
        room[after..last].copy_from_slice(bytes);
        self.end = last;
        true
    }

    /// Puts in the first of these bytes, as many as there is room for after those that wait, and answers how many.
    /// That is at least one where none waits.
    pub fn append(&mut self, bytes: &[u8]) -> usize
        ensures appended { self.new ≡ self.old ++ take result bytes.now }
        ensures bound { result ≤ length bytes.now }
        ensures some { self.old ≡ [] → 0 < length bytes.now → 0 < result }
    {
        let after = self.end;
        let count = bytes.len().min(ROOM - after);
        self.end = after + count;
        let room = &mut self.bytes[..];
        room[after..after + count].copy_from_slice(&bytes[..count]);
        count
    }

    /// Writes all bytes that wait.
    #[inline(never)]
    pub fn forward<W: Write>(&mut self, out: &mut W) -> Result<(), Io>
        ensures written { Writes W.written W.failures out.old out.new self.old result }
        ensures none_buffered { OnOk result (self.new ≡ []) }
    {
        write_all(out, self.as_slice())?;
        self.clear();
        Ok(())
    }

    /// Puts a byte in, and writes what waits if there is no room.
    pub fn put<W: Write>(&mut self, out: &mut W, byte: u8) -> Result<(), Io>
        ensures { Gathers W.written W.failures out.old out.new self.old self.new (byte ∷ []) result }
    {
        if self.push(byte) {
            return Ok(());
        }
        self.forward(out)?;
        self.push(byte);
        Ok(())
    }

    /// Puts in a number's digits and the byte that ends it, and writes what waits if there is no room.
    pub fn put_field<W: Write>(&mut self, out: &mut W, number: u32, end: u8) -> Result<(), Io>
        ensures { Gathers W.written W.failures out.old out.new self.old self.new (decimal number ++ end ∷ []) result }
    {
        if self.push_field(number, end) {
            return Ok(());
        }
        self.forward(out)?;
        self.push_field(number, end);
        Ok(())
    }

    /// Puts some bytes in, and writes what waits if there is no room. A piece of 4,096 bytes or more goes straight to
    /// the writer.
    pub fn put_all<W: Write>(&mut self, out: &mut W, bytes: &[u8]) -> Result<(), Io>
        ensures { Gathers W.written W.failures out.old out.new self.old self.new bytes.now result }
    {
        if bytes.len() >= LARGE {
            self.forward(out)?;
            return write_all(out, bytes);
        }
        let mut at = self.append(bytes);
        while at < bytes.len() {
            self.forward(out)?;
            at += self.append(&bytes[at..]);
        }
        Ok(())
    }
}
