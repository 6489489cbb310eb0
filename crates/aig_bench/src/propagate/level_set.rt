//! Sets of levels, a bit for each.
ghost use Rattle.std.specs.Prelude.{◌≡◌, ◌≢◌, ◌⊎◌, ◌↔◌, ℕ, ◌+◌, ◌*◌, ◌/◌, ◌%◌, ◌<◌, ◌≤◌, IsTrue, IfOk, OnOk, IfNone};
ghost use Rattle.std.specs.Prelude.{length, slice_index};
ghost use Rattle.aig_parts.specs.Formed.{limit};
ghost use Rattle.aig_parts.specs.state.Bits.{HasBit};
ghost use Rattle.aig_bench.specs.state.LevelSet.{AreFilled, IsFirstPlace, IsFirstFrom, IsFirstInWord, word_limit};

use aig_base::Memory;
use std::alloc::Global;
use std::marker::Model;

/// How many bits a word has.
const BITS: usize = 64;

// The lowest place of a word from this one on whose bit is set, if there is one.
fn first_place(word: u64, from: usize) -> Option<usize>
    requires { from < 64 }
    ensures least { IsFirstPlace word from result }
    ensures empty { IfNone result (from ≡ 0 → word ≡ 0) }
{
    let rest = word >> from;
    if rest == 0 {
        return None;
    }
    Some(from + rest.trailing_zeros() as usize)
}

/// Numbers by bits, 64 a word.
#[derive(Drop, Debug)]
pub struct NumberSet {
    words: Vec<u64>,
}

impl NumberSet {
    /// No numbers, with room for those below `size`, in the fewest words.
    pub fn new(alloc: Global, size: usize) -> Result<NumberSet, Memory>
        requires { size ≤ limit + 1 }
        ensures words { IfOk result (λ b. length b.words.items ≡ (size + 63) / 64) }
        ensures empty { IfOk result (λ b. (n : ℕ) → slice_index b.words.items n ≡ 0) }
    {
        let count = (size + (BITS - 1)) / BITS;
        let words = vec![in alloc; 0; count]?;
        Ok(NumberSet { words })
    }

    /// Makes room for a number, which one more word is enough for; no number comes or goes.
    fn make_room(&mut self, number: usize) -> Result<(), Memory>
        requires { number / 64 ≤ length self.old.words.items }
        ensures same { (w : ℕ) → slice_index self.new.words.items w ≡ slice_index self.old.words.items w }
        ensures more { length self.old.words.items ≤ length self.new.words.items }
        ensures few { (length self.new.words.items ≡ length self.old.words.items)
            ⊎ (length self.new.words.items ≡ number / 64 + 1) }
        ensures room { OnOk result (number / 64 < length self.new.words.items) }
    {
        if number / BITS == self.words.len() {
            self.words.push(0)?;
        }
        Ok(())
    }

    /// Whether a number is there.
    pub fn contains(&self, number: usize) -> bool
        ensures { IsTrue result ↔ HasBit self.now.words.items number }
    {
        let word = number / BITS;
        word < self.words.len() && self.words[word] >> (number % BITS) & 1 == 1
    }

    /// Adds a number.
    pub fn insert(&mut self, number: usize)
        requires { number / 64 < length self.old.words.items }
        ensures words { length self.new.words.items ≡ length self.old.words.items }
        ensures bits { (n : ℕ) → HasBit self.new.words.items n ↔ (HasBit self.old.words.items n ⊎ (n ≡ number)) }
        ensures others { (w : ℕ) → w ≢ number / 64 → slice_index self.new.words.items w
            ≡ slice_index self.old.words.items w }
        ensures filled { slice_index self.new.words.items (number / 64) ≢ 0 }
    {
        self.words[number / BITS] |= 1 << (number % BITS);
    }

    /// Takes a number out, and answers whether its word has none left.
    fn remove(&mut self, number: usize) -> bool
        requires { number / 64 < length self.old.words.items }
        ensures words { length self.new.words.items ≡ length self.old.words.items }
        ensures bits { (n : ℕ) → HasBit self.new.words.items n ↔ (HasBit self.old.words.items n × (n ≢ number)) }
        ensures others { (w : ℕ) → w ≢ number / 64 → slice_index self.new.words.items w
            ≡ slice_index self.old.words.items w }
        ensures kept { (w : ℕ) → slice_index self.old.words.items w ≡ 0 → slice_index self.new.words.items w ≡ 0 }
        ensures emptied { IsTrue result ↔ (slice_index self.new.words.items (number / 64) ≡ 0) }
    {
        let rest = self.words[number / BITS] & !(1 << (number % BITS));
        self.words[number / BITS] = rest;
        rest == 0
    }

    /// The least number of a word from this one on, if there is one.
    fn first_in_word(&self, from: usize) -> Option<usize>
        ensures least { IsFirstInWord self.now.words.items from result }
        ensures empty { IfNone result (from % 64 ≡ 0 → slice_index self.now.words.items (from / 64) ≡ 0) }
    {
        let word = from / BITS;
        if word >= self.words.len() {
            return None;
        }
        let place = first_place(self.words[word], from % BITS)?;
        Some(word * BITS + place)
    }

    /// The least number from this one on, if there is one.
    fn first_from(&self, from: usize) -> Option<usize>
        requires { length self.now.words.items ≤ word_limit }
        ensures { IsFirstFrom self.now.words.items from result }
    {
        if let Some(number) = self.first_in_word(from) {
            return Some(number);
        }
        for word in from / BITS + 1..self.words.len() {
            if let Some(number) = self.first_in_word(word * BITS) {
                return Some(number);
            }
        }
        None
    }
}

// The least number from this one on, if there is one, by the numbers of the words that have one.
fn first_by(numbers: &NumberSet, filled: &NumberSet, from: usize) -> Option<usize>
    requires { AreFilled numbers.now.words.items filled.now.words.items }
    ensures { IsFirstFrom numbers.now.words.items from result }
{
    if let Some(number) = numbers.first_in_word(from) {
        return Some(number);
    }
    let word = filled.first_from(from / BITS + 1)?;
    numbers.first_in_word(word * BITS)
}

/// A set of levels, of the words that have one, and of the blocks of 64 words that have one, so that the next level is
/// found quickly where few are there, and quickly too that none is. It takes memory when it is made and when it grows,
/// and else none. Contracts see the words of the levels.
#[derive(Drop, Debug)]
pub struct LevelSet {
    levels: NumberSet,
    // Numbers of words.
    filled: NumberSet,
    // Numbers of words of `filled`.
    blocks: NumberSet,
}

impl Model for LevelSet {
    ghost use Rattle.std.specs.Prelude.{List, ℕ};

    ghost Value = { List ℕ };

    ghost use Rattle.aig_bench.specs.state.LevelSet.{IsLevelSet};

    ghost view = { λ s. s.levels.words.items };

    ghost invariant = { λ s. IsLevelSet s.levels.words.items s.filled.words.items s.blocks.words.items };
}

impl LevelSet {
    /// No levels, with room for those below `size`.
    pub fn new(alloc: Global, size: usize) -> Result<LevelSet, Memory>
        requires { size ≤ limit + 1 }
        ensures room { IfOk result (λ s. size ≤ 64 * length s) }
        ensures empty { IfOk result (λ s. (l : ℕ) → HasBit s l → ⊥) }
    {
        let levels = NumberSet::new(alloc, size)?;
        let words = (size + (BITS - 1)) / BITS;
        let filled = NumberSet::new(alloc, words)?;
        let blocks = NumberSet::new(alloc, (words + (BITS - 1)) / BITS)?;
        Ok(LevelSet {
            levels,
            filled,
            blocks,
        })
    }

    /// Makes room for a level, which one more word is enough for; no level comes or goes.
    pub fn make_room(&mut self, level: usize) -> Result<(), Memory>
        requires limit { level ≤ limit }
        requires near { level / 64 ≤ length self.old }
        ensures levels { (l : ℕ) → HasBit self.new l ↔ HasBit self.old l }
        ensures more { length self.old ≤ length self.new }
        ensures room { OnOk result (level < 64 * length self.new) }
    {
        self.blocks.make_room(level / BITS / BITS)?;
        self.filled.make_room(level / BITS)?;
        self.levels.make_room(level)
    }

    /// Adds a level.
    pub fn insert(&mut self, level: usize)
        requires { level < 64 * length self.old }
        ensures room { length self.new ≡ length self.old }
        ensures levels { (l : ℕ) → HasBit self.new l ↔ (HasBit self.old l ⊎ (l ≡ level)) }
    {
        self.levels.insert(level);
        self.filled.insert(level / BITS);
        self.blocks.insert(level / BITS / BITS);
    }

    /// Takes a level out.
    pub fn remove(&mut self, level: usize)
        requires { level < 64 * length self.old }
        ensures room { length self.new ≡ length self.old }
        ensures levels { (l : ℕ) → HasBit self.new l ↔ (HasBit self.old l × (l ≢ level)) }
    {
        if self.levels.remove(level) && self.filled.remove(level / BITS) {
            self.blocks.remove(level / BITS / BITS);
        }
    }

    /// The lowest level from this one on, if there is one.
    pub fn first_from(&self, from: usize) -> Option<usize>
        ensures { IsFirstFrom self.now from result }
    {
        if let Some(level) = self.levels.first_in_word(from) {
            return Some(level);
        }
        let word = first_by(&self.filled, &self.blocks, from / BITS + 1)?;
        self.levels.first_in_word(word * BITS)
    }
}
