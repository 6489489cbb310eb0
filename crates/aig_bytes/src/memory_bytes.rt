//! Readers and writers over memory.
ghost use Rattle.std.specs.Prelude.{◌≡◌, ℕ, ◌+◌, ◌-◌, ◌<◌, ◌≤◌, List, [], length, min, Some, Ok, IfOk, OnErr};
ghost use Rattle.aig_bytes.specs.Bytes.{after, before, failed, moved, IsAtEnd};

use crate::bytes::{Failed, Read, Write};
use crate::count::Count;
use crate::fault::Memory;
use std::alloc::Global;
use std::marker::Model;

/// Reads the bytes of a slice, and never fails.
#[derive(Drop)]
pub struct MemReader<'a> {
    rest: &'a [u8],
}

impl<'a> Model for MemReader<'a> {
    ghost use Rattle.std.specs.Prelude.{List, ℕ};

    ghost Value = { List ℕ };

    ghost view = { λ r. r.rest.now };
}

impl<'a> MemReader<'a> {
    /// A reader of these bytes.
    pub fn new(bytes: &'a [u8]) -> MemReader<'a>
        ensures { result ≡ bytes.now }
    {
        MemReader { rest: bytes }
    }
}

impl<'a> Read for MemReader<'a> {
    ghost left = { λ r. Some r };

    ghost failures = { λ _. 0 };

    ghost reads_left = { λ r. length r };

    fn read(&mut self, buffer: &mut [u8]) -> Result<usize, Failed>
        // The trait's clauses.
        ensures bound { IfOk result (λ n. n ≤ length buffer.new) }
        ensures given { Some self.old ≡ before (moved result buffer.new) (Some self.new) }
        ensures end { IfOk result (λ n. n ≡ 0 → 0 < length buffer.new → IsAtEnd (Some self.new)) }
        ensures count { 0 ≡ 0 + failed result }
        ensures lowers { IfOk result (λ n. 0 < n → length self.new < length self.old) }
        ensures never_more { length self.new ≤ length self.old }

        // It never fails, and gives all that the buffer has room for.
        ensures all { result ≡ Ok (min (length buffer.old) (length self.old)) }
    {
        let count = buffer.len().min(self.rest.len());
        let (front, rest) = self.rest.split_at(count);
        buffer[..count].copy_from_slice(front);
        self.rest = rest;
        Ok(count)
    }
}

/// Keeps what is written, in room that was reserved when it was made. It fails only when that is full.
#[derive(Drop)]
pub struct MemWriter {
    bytes: Vec<u8>,
    room: usize,
    failures: Count,
}

impl Model for MemWriter {
    ghost use Rattle.std.specs.Prelude.{◌≤◌, vec_len, vec_capacity};
    ghost use Rattle.aig_bytes.specs.Filled.{Filled};

    ghost Value = { Filled };

    ghost view = { λ w. record { bytes = w.bytes.items; room = w.room; failures = w.failures.number } };

    ghost invariant = { λ w. (vec_len w.bytes ≤ w.room) × (w.room ≤ vec_capacity w.bytes) };
}

impl MemWriter {
    /// A writer with room for so many bytes.
    pub fn new(alloc: Global, room: usize) -> Result<MemWriter, Memory>
        ensures { IfOk result (λ w. w ≡ record { bytes = []; room = room; failures = 0 }) }
    {
        let Ok(bytes) = Vec::with_capacity(alloc, room) else {
            return Err(Memory);
        };
        Ok(MemWriter {
            bytes,
            room,
            failures: Count::zero(),
        })
    }

    /// What was written so far.
    pub fn bytes(&self) -> &[u8]
        ensures { result.now ≡ self.now.bytes }
    {
        &self.bytes
    }
}

impl Write for MemWriter {
    ghost written = { λ w. Some w.bytes };

    ghost is_flushed = { λ _. Unit {0} };

    ghost failures = { λ w. w.failures };

    fn write(&mut self, bytes: &[u8]) -> Result<usize, Failed>
        // The trait's clauses.
        ensures bound { IfOk result (λ n. n ≤ length bytes.now) }
        ensures some { IfOk result (λ n. 0 < length bytes.now → 0 < n) }
        ensures taken { Some self.new.bytes ≡ after (Some self.old.bytes) (moved result bytes.now) }
        ensures count { self.new.failures ≡ self.old.failures + failed result }

        // It takes all that there is room for, and fails only when it is full.
        ensures all { IfOk result (λ n. n ≡ min (length bytes.now) (self.old.room - length self.old.bytes)) }
        ensures full { OnErr result (length self.old.bytes ≡ self.old.room) }
        ensures room { self.new.room ≡ self.old.room }
    {
        let free = self.room - self.bytes.len();
        let count = bytes.len().min(free);
        if count == 0 && !bytes.is_empty() {
            self.failures = Count::one_more(&self.failures);
            return Err(Failed);
        }
        let _ = self.bytes.extend_from_slice(&bytes[..count]);
        Ok(count)
    }

    fn flush(&mut self) -> Result<(), Failed>
        // The trait's clauses, as nothing is held back, and more: nothing changes.
        ensures same { self.new ≡ self.old }
        ensures ok { result ≡ Ok tt }
    {
        Ok(())
    }
}
