//! Sets of latches.
ghost use Rattle.std.specs.Prelude.{◌≡◌, ◌⊎◌, ℕ, ◌<◌, ◌≤◌, ◌↔◌, length, All, Contains, IfOk, IsTrue, slice_get, Some};
ghost use Rattle.aig_causes.specs.Explanation.{AreNamedBetween, IsNamed};

use aig_base::Memory;
use std::alloc::Global;

/// Latches by their positions: which of them are named at a frame.
#[derive(Drop)]
pub struct LatchSet {
    pub flags: Vec<bool>,
}

impl LatchSet {
    /// None of so many latches.
    pub fn none(alloc: Global, size: usize) -> Result<LatchSet, Memory>
        ensures size { IfOk result (λ set. length set.flags.items ≡ size) }
        ensures none { IfOk result (λ set. (p : ℕ) → IsNamed set.flags.items p → ⊥) }
    {
        Ok(LatchSet {
            flags: vec![in alloc; false; size]?,
        })
    }

    /// Whether it has no latch.
    pub fn is_empty(&self) -> bool
        ensures { IsTrue result ↔ ((p : ℕ) → IsNamed self.now.flags.items p → ⊥) }
    {
        !self.flags.contains(&true)
    }

    /// Takes all latches away.
    pub fn clear(&mut self)
        ensures size { length self.new.flags.items ≡ length self.old.flags.items }
        ensures none { (p : ℕ) → IsNamed self.new.flags.items p → ⊥ }
    {
        self.flags.fill(false);
    }

    /// Adds the latches at these positions.
    pub fn add_all(&mut self, positions: &[u32])
        requires { All (λ p. p < length self.old.flags.items) positions.now }
        ensures size { length self.new.flags.items ≡ length self.old.flags.items }
        ensures added { (p : ℕ) → IsNamed self.new.flags.items p ↔
            (IsNamed self.old.flags.items p ⊎ Contains positions.now p) }
    {
        for position in positions {
            self.flags[*position as usize] = true;
        }
    }

    /// The latches that it has from a position up to another one, in order.
    pub fn between(&self, alloc: Global, first: u32, end: u32) -> Result<Vec<u32>, Memory>
        requires order { first ≤ end }
        requires end { end ≤ length self.now.flags.items }
        ensures { IfOk result (λ latches. AreNamedBetween self.now.flags.items first end latches.items) }
    {
        let mut latches = Vec::new(alloc);
        for position in first..end {
            if self.flags[position as usize] {
                latches.push(position)?;
            }
        }
        Ok(latches)
    }
}
