//! Lists of latches, which take no memory once they are made. A latch's number here is one more than its position.
ghost use Rattle.std.specs.Prelude.{◌≡◌, ◌≢◌, ◌↔◌, ℕ, ◌+◌, ◌<◌, ◌≤◌, length, IfOk, IfSome, IfNone, IsTrue};
ghost use Rattle.aig_parts.specs.Formed.{limit};
ghost use Rattle.aig_bench.specs.state.Latches.{IsLatchList, IsInLatchList, Lists};

use aig_base::Memory;
use std::alloc::Global;

/// Some of the latches, each once. It takes memory when it is made, and none afterwards.
#[derive(Drop, Debug)]
pub struct LatchList {
    // The first latch of the list; 0 stands for none.
    first: u32,
    // For each latch the next one in the list.
    next: Vec<u32>,
    // Whether a latch is in the list.
    marks: Vec<bool>,
}

impl LatchList {
    /// A list for so many latches, in which none is.
    pub fn new(alloc: Global, latches: usize) -> Result<LatchList, Memory>
        requires { latches ≤ limit }
        ensures list { IfOk result (IsLatchList latches) }
        ensures empty { IfOk result (λ l. (i : ℕ) → IsInLatchList l i → ⊥) }
    {
        let size = latches + 1;
        let next = vec![in alloc; 0; size]?;
        let marks = vec![in alloc; false; size]?;
        Ok(LatchList {
            first: 0,
            next,
            marks,
        })
    }

    /// Whether no latch is in the list.
    pub fn is_empty(&self) -> bool
        ensures { (n : ℕ) → IsLatchList n self.now → IsTrue result ↔ ((i : ℕ) → IsInLatchList self.now i → ⊥) }
    {
        self.first == 0
    }

    /// Adds a latch, unless it is in the list already.
    pub fn add(&mut self, latch: u32)
        requires positive { 0 < latch }
        requires inside { latch < length self.old.marks.items }
        requires list { (n : ℕ) × IsLatchList n self.old }
        ensures list { (n : ℕ) → IsLatchList n self.old → IsLatchList n self.new }
        ensures adds { Lists (λ i. i ≡ latch) self.old self.new }
    {
        if self.marks[latch as usize] {
            return;
        }
        self.next[latch as usize] = self.first;
        self.first = latch;
        self.marks[latch as usize] = true;
    }

    /// Takes a latch out of the list, if there is one.
    pub fn take(&mut self) -> Option<u32>
        requires list { (n : ℕ) × IsLatchList n self.old }
        ensures list { (n : ℕ) → IsLatchList n self.old → IsLatchList n self.new }
        ensures positive { IfSome result (λ i. 0 < i) }
        ensures listed { IfSome result (λ i. IsInLatchList self.old i) }
        ensures left { IfSome result (λ i. (j : ℕ) → IsInLatchList self.new j ↔ (IsInLatchList self.old j × (j ≢ i))) }
        ensures none { IfNone result ((i : ℕ) → IsInLatchList self.old i → ⊥) }
        ensures same { IfNone result (self.new ≡ self.old) }
    {
        let first = self.first;
        if first == 0 {
            return None;
        }
        self.first = self.next[first as usize];
        self.marks[first as usize] = false;
        Some(first)
    }

    /// Takes all latches out, in the time of their number.
    pub fn clear(&mut self)
        requires list { (n : ℕ) × IsLatchList n self.old }
        ensures list { (n : ℕ) → IsLatchList n self.old → IsLatchList n self.new }
        ensures empty { (i : ℕ) → IsInLatchList self.new i → ⊥ }
    {
        while self.take().is_some() {}
    }
}
