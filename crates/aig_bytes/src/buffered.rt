//! A writer that gathers small pieces.
ghost use Rattle.std.specs.Prelude.{◌≡◌, ℕ, ◌+◌, ◌<◌, ◌≤◌, List, [], ◌++◌, length, true, false, IfOk, OnOk};
ghost use Rattle.aig_bytes.specs.Buffered.{Forwards, Breaks};
ghost use Rattle.aig_bytes.specs.Bytes.{after, failed, moved};

use crate::block::Block;
use crate::bytes::{Failed, Write};
use crate::count::Count;
use std::marker::Model;

/// From how many bytes on a piece is not held back.
const LARGE: usize = 4096;

/// Holds back small pieces, 32,768 bytes at most, and forwards them to another writer where a write finds no room,
/// before a piece of 4,096 bytes or more, which goes straight on, and at a flush. What it holds when it is dropped is
/// lost. Once the other writer failed, this one is broken: it never calls the other again, and refuses each call.
#[derive(Drop)]
pub struct Buffered<W> {
    inner: W,
    held: Block,
    is_broken: bool,
    failures: Count,
}

impl<W> Model for Buffered<W> {
    ghost use Rattle.aig_bytes.specs.Buffered.{Holding};

    ghost Value = { Holding W };

    ghost view = { λ b. record {
      inner = b.inner;
      held = b.held;
      is_broken = b.is_broken;
      failures = b.failures.number;
    } };
}

impl<W> Buffered<W> {
    /// Over another writer, with nothing held back.
    pub fn new(inner: W) -> Buffered<W>
        ensures { result ≡ record { inner = inner; held = []; is_broken = false; failures = 0 } }
    {
        Buffered {
            inner,
            held: Block::new(),
            is_broken: false,
            failures: Count::zero(),
        }
    }

    // Counts a call that is refused or fails, and is broken.
    fn fail(&mut self) -> Failed
        ensures { self.new ≡ record self.old { is_broken = true; failures = self.old.failures + 1 } }
    {
        self.is_broken = true;
        self.failures = Count::one_more(&self.failures);
        Failed
    }
}

impl<W: Write> Buffered<W> {
    // Forwards what is held, as far as the other writer takes it.
    fn forward(&mut self) -> Result<(), Failed>
        ensures forwarded { Forwards W.written self.old self.new [] }
        ensures all { OnOk result (self.new.held ≡ []) }
        ensures count { W.failures self.new.inner ≡ W.failures self.old.inner + failed result }
        ensures broken { self.new.is_broken ≡ self.old.is_broken }
        ensures failures { self.new.failures ≡ self.old.failures }
    {
        while !self.held.is_empty() {
            let count = self.inner.write(self.held.as_slice())?;
            self.held.skip(count);
        }
        Ok(())
    }

    // Takes bytes from the front: large pieces go straight on, after what is held, and others are held.
    #[inline(never)]
    fn take(&mut self, bytes: &[u8]) -> Result<usize, Failed>
        ensures bound { IfOk result (λ n. n ≤ length bytes.now) }
        ensures some { IfOk result (λ n. 0 < length bytes.now → 0 < n) }
        ensures forwarded { Forwards W.written self.old self.new (moved result bytes.now) }
        ensures count { W.failures self.new.inner ≡ W.failures self.old.inner + failed result }
        ensures broken { self.new.is_broken ≡ self.old.is_broken }
        ensures failures { self.new.failures ≡ self.old.failures }
    {
        if bytes.len() >= LARGE {
            self.forward()?;
            return self.inner.write(bytes);
        }
        let count = self.held.append(bytes);
        if count > 0 || bytes.is_empty() {
            return Ok(count);
        }
        self.forward()?;
        Ok(self.held.append(bytes))
    }
}

impl<W: Write> Write for Buffered<W> {
    ghost use Rattle.aig_bytes.specs.Bytes.{after};

    ghost written = { λ b. after (W.written b.inner) b.held };

    ghost is_flushed = { λ b. (b.held ≡ []) × W.is_flushed b.inner };

    ghost failures = { λ b. b.failures };

    #[inline(always)]
    fn write(&mut self, bytes: &[u8]) -> Result<usize, Failed>
        // The trait's clauses.
        ensures bound { IfOk result (λ n. n ≤ length bytes.now) }
        ensures some { IfOk result (λ n. 0 < length bytes.now → 0 < n) }
        ensures taken { after (W.written self.new.inner) self.new.held
            ≡ after (after (W.written self.old.inner) self.old.held) (moved result bytes.now) }
        ensures count { self.new.failures ≡ self.old.failures + failed result }

        // What was taken and is not held was forwarded, in order.
        ensures forwarded { Forwards W.written self.old self.new (moved result bytes.now) }
        ensures breaks { Breaks W.failures self.old self.new result }
    {
        if self.is_broken {
            return Err(self.fail());
        }
        // A piece whose length the compiler knows is held without a call.
        if bytes.len() < LARGE && self.held.push_all(bytes) {
            return Ok(bytes.len());
        }
        match self.take(bytes) {
            Ok(count) => Ok(count),
            Err(Failed) => Err(self.fail()),
        }
    }

    fn flush(&mut self) -> Result<(), Failed>
        // The trait's clauses.
        ensures kept { after (W.written self.new.inner) self.new.held ≡ after (W.written self.old.inner) self.old.held }
        ensures flushed { OnOk result ((self.new.held ≡ []) × W.is_flushed self.new.inner) }
        ensures count { self.new.failures ≡ self.old.failures + failed result }

        // All that was held is forwarded, in order; what a failing call did not forward is held still. The writer below
        // is flushed after it got all (`flushed`).
        ensures forwarded { Forwards W.written self.old self.new [] }
        ensures all { OnOk result (self.new.held ≡ []) }
        ensures breaks { Breaks W.failures self.old self.new result }
    {
        if self.is_broken || self.forward().is_err() || self.inner.flush().is_err() {
            return Err(self.fail());
        }
        Ok(())
    }
}
