//! Sets of numbers, a bit for each.
ghost use Rattle.std.specs.Prelude.{◌≡◌, ◌⊎◌, ◌↔◌, ℕ, ◌/◌, ◌<◌, [], length, slice_index, IsTrue, OnOk, OnErr};
ghost use Rattle.aig_parts.specs.state.Bits.{HasBit};

use std::alloc::{AllocError, Global};
use std::marker::Model;

/// How many bits a word has.
const BITS: usize = 64;

/// Numbers by bits, 64 a word, with words for those up to the greatest. Contracts see the words.
#[derive(Drop, Debug)]
pub(crate) struct BitSet {
    words: Vec<u64>,
}

impl Model for BitSet {
    ghost use Rattle.std.specs.Prelude.{List, ℕ};

    ghost Value = { List ℕ };

    ghost view = { λ a. a.words.items };
}

impl BitSet {
    /// No numbers. It takes no memory.
    pub(crate) fn new(alloc: Global) -> BitSet
        ensures { result ≡ [] }
    {
        BitSet {
            words: Vec::new(alloc),
        }
    }

    /// The words.
    pub(crate) fn words(&self) -> &[u64]
        ensures { result.now ≡ self.now }
    {
        self.words.as_slice()
    }

    /// Whether a number is there.
    pub(crate) fn contains(&self, number: usize) -> bool
        ensures { IsTrue result ↔ HasBit self.now number }
    {
        let word = number / BITS;
        word < self.words.len() && self.words[word] >> (number % BITS) & 1 == 1
    }

    /// Makes the words for a number; no number comes or goes.
    fn make_room(&mut self, number: usize) -> Result<(), AllocError>
        ensures same { (w : ℕ) → slice_index self.new w ≡ slice_index self.old w }
        ensures room { OnOk result (number / 64 < length self.new) }
        ensures err { OnErr result (self.new ≡ self.old) }
    {
        let count = number / BITS + 1;
        if self.words.len() < count {
            self.words.resize(count, 0)?;
        }
        Ok(())
    }

    /// Adds a number. Where memory is refused nothing changes.
    pub(crate) fn insert(&mut self, number: usize) -> Result<(), AllocError>
        ensures ok { OnOk result ((n : ℕ) → HasBit self.new n ↔ (HasBit self.old n ⊎ (n ≡ number))) }
        ensures err { OnErr result (self.new ≡ self.old) }
    {
        self.make_room(number)?;
        self.words[number / BITS] |= 1 << (number % BITS);
        Ok(())
    }
}
