//! Texts that lie one after the other in one list of bytes.
ghost use Rattle.std.specs.Prelude.{◌≡◌, ◌≤◌, ◌<◌, ◌∷◌, ◌++◌, [], OnErr, OnOk, length, slice_index_or, slice_range};
ghost use Rattle.aig_prompt.specs.state.Texts.{begins};

use aig_bytes::Memory;
use std::alloc::Global;
use std::marker::Model;

/// Texts. Each takes 4 bytes beside its own, and all together less than 4 GB. Contracts see them as a list.
pub struct Texts {
    bytes: Vec<u8>,
    ends: Vec<u32>,
}

// By hand: a value then ends in one call, which is one step of a proof (docs/PROOFS.md, Habits).
impl Drop for Texts {
    fn drop(self) {
        let Texts { bytes: _, ends: _ } = self;
    }
}

impl Model for Texts {
    ghost use Rattle.std.specs.Prelude.{ℕ, List, length};
    ghost use Rattle.aig_prompt.specs.Texts.{texts_from};
    ghost use Rattle.aig_prompt.specs.state.Texts.{AreEnds};

    ghost Value = { List (List ℕ) };

    ghost view = { λ t. texts_from 0 t.bytes.items t.ends.items };

    ghost invariant = { λ t. AreEnds 0 (length t.bytes.items) t.ends.items };
}

/// Where the text at a place begins.
fn start_of(ends: &[u32], place: usize) -> u32
    requires { place < length ends.now }
    ensures { result ≡ begins 0 ends.now place }
{
    if place == 0 { 0 } else { ends[place - 1] }
}

/// The bytes from a place up to another.
fn part(bytes: &[u8], start: u32, end: u32) -> &[u8]
    requires ordered { start ≤ end }
    requires within { end ≤ length bytes.now }
    ensures { result.now ≡ slice_range bytes.now start end }
{
    &bytes[start as usize..end as usize]
}

impl Texts {
    /// No texts.
    pub fn new(alloc: Global) -> Texts
        ensures none { result ≡ [] }
    {
        Texts {
            bytes: Vec::new(alloc),
            ends: Vec::new(alloc),
        }
    }

    /// How many there are.
    pub fn len(&self) -> usize
        ensures len { result ≡ length self.now }
    {
        self.ends.len()
    }

    /// The text at a place; no bytes where there is none.
    pub fn get(&self, place: usize) -> &[u8]
        ensures text { result.now ≡ slice_index_or self.now place [] }
    {
        if place >= self.ends.len() {
            return b"";
        }
        let start = start_of(self.ends.as_slice(), place);
        let end = self.ends[place];
        part(self.bytes.as_slice(), start, end)
    }

    /// Adds a text at the end. Where memory is refused, nothing changes.
    pub fn push(&mut self, text: &[u8]) -> Result<(), Memory>
        ensures pushed { OnOk result (self.new ≡ self.old ++ text.now ∷ []) }
        ensures same { OnErr result (self.new ≡ self.old) }
    {
        if self.bytes.len().saturating_add(text.len()) > u32::MAX as usize {
            return Err(Memory);
        }
        self.ends.reserve(1)?;
        self.bytes.extend_from_slice(text)?;
        let end = self.bytes.len();
        self.ends.push_reserved(end as u32);
        Ok(())
    }
}
