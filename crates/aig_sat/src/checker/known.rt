//! The literals that are known to be true.
ghost use Rattle.std.specs.Prelude.{◌≡◌, ◌⊎◌, ℕ, ◌+◌, ◌<◌, ◌≤◌, List, Bool, false, IfNone, IfSome, IfOk, OnOk, length};
ghost use Rattle.std.specs.Prelude.{slice_index, slice_index_or};
ghost use Rattle.aig_parts.specs.Literal.{negation};
ghost use Rattle.aig_sat.specs.checker.Knowledge.{AreFalse, AreFalseBeside, AreFalseBut, IsFound, IsIn, IsKnown, Takes};

use aig_bytes::Memory;
use std::alloc::Global;

/// The literals that are known to be true, and the trail: those of them that were found since the last call that
/// settled them, in order.
#[derive(Drop)]
pub(crate) struct Known {
    pub(crate) truths: Vec<bool>,
    pub(crate) trail: Vec<u32>,
}

/// A literal of a clause that is not known to be false, and its place among the clause's literals.
#[derive(Clone, Copy)]
pub(crate) struct Free {
    pub(crate) literal: u32,
    pub(crate) place: usize,
}

/// What the literals of a clause leave that is not known to be false.
#[derive(Clone, Copy)]
pub(crate) enum Left {
    Nothing,
    One(u32),
    More,
}

/// The literal with the other sign.
#[inline]
pub(crate) fn negated(literal: u32) -> u32
    ensures { result ≡ negation literal }
{
    literal ^ 1
}

/// Forgets the literals of a list.
pub(crate) fn forget(truths: &mut Vec<bool>, list: &[u32])
    ensures known { (l : ℕ) → IsKnown truths.new.items l → IsKnown truths.old.items l }
    ensures forgotten { (l : ℕ) → IsKnown truths.new.items l → IsIn list.now l → ⊥ }
    ensures len { length truths.new.items ≡ length truths.old.items }
{
    for literal in list {
        if (*literal as usize) < truths.len() {
            truths[*literal as usize] = false;
        }
    }
}

impl Known {
    /// Nothing is known of so many literals.
    pub(crate) fn new(alloc: Global, literals: usize) -> Result<Known, Memory>
        ensures nothing { IfOk result (λ known. (l : ℕ) → IsKnown known.truths.items l → ⊥) }
        ensures len { IfOk result (λ known. length known.truths.items ≡ literals) }
    {
        Ok(Known {
            truths: vec![in alloc; false; literals]?,
            trail: Vec::new(alloc),
        })
    }

    /// Adds a variable of which nothing is known.
    pub(crate) fn add_variable(&mut self) -> Result<(), Memory>
        ensures fewer { (l : ℕ) → IsKnown self.new.truths.items l → IsKnown self.old.truths.items l }
        ensures more { length self.old.truths.items ≤ length self.new.truths.items }
        ensures len { OnOk result (length self.new.truths.items ≡ length self.old.truths.items + 2) }
    {
        self.truths.extend_from_slice(&[false, false])?;
        Ok(())
    }

    /// How many literals there are.
    pub(crate) fn len(&self) -> usize
        ensures { result ≡ length self.now.truths.items }
    {
        self.truths.len()
    }

    /// Whether the literal is known to be true.
    #[inline]
    pub(crate) fn is_true(&self, literal: u32) -> bool
        ensures { result ≡ slice_index_or self.now.truths.items literal false }
    {
        match self.truths.get(literal as usize) {
            Some(truth) => *truth,
            None => false,
        }
    }

    /// Whether the literal is known to be false.
    #[inline]
    pub(crate) fn is_false(&self, literal: u32) -> bool
        ensures { result ≡ slice_index_or self.now.truths.items (negation literal) false }
    {
        self.is_true(negated(literal))
    }

    /// The first of the literals that is not known to be false.
    #[inline]
    pub(crate) fn free(&self, literals: &[u32]) -> Option<Free>
        ensures none { IfNone result (AreFalse self.now.truths.items literals.now) }
        ensures inside { IfSome result (λ free. free.place < length literals.now) }
    {
        for (place, literal) in literals.iter().enumerate() {
            if !self.is_false(*literal) {
                return Some(Free {
                    literal: *literal,
                    place,
                });
            }
        }
        None
    }

    /// The first of the literals, except this one, that is not known to be false.
    #[inline]
    pub(crate) fn free_beside(&self, literals: &[u32], other: u32) -> Option<Free>
        ensures { IfNone result (AreFalseBeside self.now.truths.items literals.now other) }
    {
        for (place, literal) in literals.iter().enumerate() {
            if *literal != other && !self.is_false(*literal) {
                return Some(Free {
                    literal: *literal,
                    place,
                });
            }
        }
        None
    }

    /// A literal that is not known to be false. The search begins at a place of the literals and goes on from their first
    /// one. Where each search begins at the place that the last one found, the searches of a propagation together look at
    /// each literal of a clause at most three times.
    #[inline]
    pub(crate) fn free_from(&self, literals: &[u32], from: usize) -> Option<Free>
        ensures none { IfNone result (AreFalse self.now.truths.items literals.now) }
        ensures inside { IfSome result (λ free. free.place < length literals.now) }
    {
        let from = from.min(literals.len());
        let (before, after) = literals.split_at(from);
        if let Some(free) = self.free(after) {
            return Some(Free {
                literal: free.literal,
                place: from + free.place,
            });
        }
        self.free(before)
    }

    /// What the literals leave that is not known to be false.
    #[inline]
    pub(crate) fn left(&self, literals: &[u32]) -> Left
        ensures none { result ≡ Left.Nothing → AreFalse self.now.truths.items literals.now }
        ensures one { (l : ℕ) → result ≡ Left.One l → AreFalseBeside self.now.truths.items literals.now l }
        ensures but { (k : ℕ) → AreFalseBut self.now.truths.items literals.now k → (result ≡ Left.Nothing)
            ⊎ ((k < length literals.now) × (result ≡ Left.One (slice_index literals.now k))) }
    {
        let mut left = Left::Nothing;
        for literal in literals {
            if !self.is_false(*literal) {
                match left {
                    Left::Nothing => left = Left::One(*literal),
                    _ => return Left::More,
                }
            }
        }
        left
    }

    /// The literal at a place of the trail.
    #[inline]
    pub(crate) fn found(&self, place: usize) -> Option<u32> {
        self.trail.get(place).copied()
    }

    /// Takes a literal to be true, unless that is known.
    #[inline]
    pub(crate) fn take(&mut self, literal: u32) -> Result<(), Memory>
        ensures takes { Takes literal self.old self.new }
        ensures known { OnOk result (literal < length self.old.truths.items → IsKnown self.new.truths.items literal) }
    {
        if (literal as usize) < self.truths.len() && !self.truths[literal as usize] {
            self.trail.push(literal)?;
            self.truths[literal as usize] = true;
        }
        Ok(())
    }

    /// Takes back all literals of the trail.
    pub(crate) fn undo(&mut self)
        ensures forgotten { (before : List Bool) → IsFound before self.old
            → (l : ℕ) → IsKnown self.new.truths.items l → IsKnown before l }
        ensures len { length self.new.truths.items ≡ length self.old.truths.items }
    {
        forget(&mut self.truths, &self.trail);
        self.trail.clear();
    }

    /// Keeps the literals of the trail.
    pub(crate) fn settle(&mut self)
        ensures { self.new.truths.items ≡ self.old.truths.items }
    {
        self.trail.clear();
    }
}
