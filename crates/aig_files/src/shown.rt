//! Text for a terminal, which obeys no byte of it.
ghost use Rattle.std.specs.Prelude.{◌≡◌, ◌≤◌, ◌<◌, List, All, IsTrue, IfOk, OnOk, OnErr, take, length, slice_index, false};
ghost use Rattle.std.specs.Prelude.{None};
ghost use Rattle.std.specs.Io.{WritesAtMost};
ghost use Rattle.std.specs.Io.KnownBytes.{Appends, Keeps, WriteAppends};
ghost use Rattle.aig_files.specs.Shown.{AppendsSome, escape, is_plain, shown};

use crate::escape::{escape, is_printable};
use std::io::{self, ErrorKind, Write};
use std::marker::Model;

/// A writer that escapes what a terminal may obey: another writer gets LF, TAB and the bytes from 32 to 126 as they
/// are, and each other byte as a backslash, `x` and two hexadecimal digits.
#[derive(Drop)]
pub struct Shown<W> {
    inner: W,
}

impl<W> Model for Shown<W> {
    ghost Value = { W };

    ghost view = { λ s. s.inner };
}

impl<W> Shown<W> {
    /// Over another writer.
    pub fn new(inner: W) -> Shown<W>
        ensures { result ≡ inner }
    {
        Shown { inner }
    }
}

impl<W: Write> Shown<W> {
    /// Passes on bytes from the front as they are, and returns how many.
    pub(crate) fn forward(&mut self, bytes: &[u8]) -> io::Result<usize>
        ensures bound { WritesAtMost result bytes.now }
        ensures bytes { WriteAppends (W.contents self.old) (W.contents self.new) result bytes.now }
    {
        self.inner.write(bytes)
    }

    /// Writes a byte as a backslash, `x` and two digits.
    #[tactic(auto, using(crate::proofs::ShownLemmas::appends_more, crate::proofs::ShownLemmas::appends_first))]
    fn write_escape(&mut self, byte: u8) -> io::Result<()>
        ensures all { OnOk result (Appends (W.contents self.old) (W.contents self.new) (escape byte)) }
        ensures broken { OnErr result (AppendsSome (W.contents self.old) (W.contents self.new) (escape byte)) }
    {
        let bytes = escape(byte);
        let mut at = 0;
        while at < bytes.len() {
            let count = self.inner.write(&bytes[at..])?;
            if count == 0 {
                return Err(io::Error::from(ErrorKind::WriteZero));
            }
            at += count;
        }
        Ok(())
    }
}

impl<W: Write> Write for Shown<W> {
    fn write(&mut self, bytes: &[u8]) -> io::Result<usize>
        // The trait's clauses: what the writer holds is not what it takes.
        ensures bound { WritesAtMost result bytes.now }
        ensures bytes { WriteAppends None None result bytes.now }

        // The other writer gets each byte that is taken, shown, and no other; where the write fails, the first of them.
        ensures shown { IfOk result (λ n. Appends (W.contents self.old) (W.contents self.new)
            (shown (take n bytes.now))) }
        ensures broken { OnErr result (AppendsSome (W.contents self.old) (W.contents self.new) (shown bytes.now)) }
    {
        let plain = plain_length(bytes);
        if plain > 0 || bytes.is_empty() {
            return self.inner.write(&bytes[..plain]);
        }
        self.write_escape(bytes[0])?;
        Ok(1)
    }

    fn flush(&mut self) -> io::Result<()>
        // The trait's clause, and the same of the other writer.
        ensures bytes { Keeps None None }
        ensures inner { Keeps (W.contents self.old) (W.contents self.new) }
    {
        self.inner.flush()
    }
}

/// Whether a byte stays in a text of lines.
fn is_plain(byte: u8) -> bool
    ensures { result ≡ is_plain byte }
{
    is_printable(byte) || byte == b'\n' || byte == b'\t'
}

/// Returns how many bytes at the front stay as they are.
fn plain_length(bytes: &[u8]) -> usize
    ensures bound { result ≤ length bytes.now }
    ensures plain { All (λ b. IsTrue (is_plain b)) (take result bytes.now) }
    ensures stops { result < length bytes.now → is_plain (slice_index bytes.now result) ≡ false }
{
    let mut count = 0;
    while count < bytes.len() && is_plain(bytes[count]) {
        count += 1;
    }
    count
}
