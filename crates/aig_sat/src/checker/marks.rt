//! The literals of a clause as a set.
ghost use Rattle.std.specs.Prelude.{◌≡◌, ◌⊎◌, ℕ, [], Bool, false, OnOk, slice_index_or};
ghost use Rattle.aig_sat.specs.checker.Distinct.{Has, IsSameSet};
ghost use Rattle.aig_sat.specs.checker.Knowledge.{IsKnown};

use crate::checker::known::{forget, negated};
use aig_bytes::Memory;
use aig_parts::Lit;
use std::alloc::Global;

/// The literals of one clause, each once, with a mark for each.
#[derive(Drop)]
pub(crate) struct Marks {
    pub(crate) marked: Vec<bool>,
    pub(crate) literals: Vec<u32>,
    ghost listed: { (l : ℕ) → IsKnown marked.items l → Has literals.items l },
}

impl Marks {
    /// No literals, of so many.
    pub(crate) fn new(alloc: Global, literals: usize) -> Result<Marks, Memory> {
        Ok(Marks {
            marked: vec![in alloc; false; literals]?,
            literals: Vec::new(alloc),
        })
    }

    /// Adds a variable whose literals have no mark.
    pub(crate) fn add_variable(&mut self) -> Result<(), Memory> {
        self.marked.extend_from_slice(&[false, false])?;
        Ok(())
    }

    /// Whether the literal has a mark.
    fn has(&self, literal: u32) -> bool
        ensures { result ≡ slice_index_or self.now.marked.items literal false }
    {
        match self.marked.get(literal as usize) {
            Some(mark) => *mark,
            None => false,
        }
    }

    // Gives a literal of the list its mark.
    fn mark(&mut self, literal: u32)
        requires { Has self.old.literals.items literal }
        ensures { self.new.literals.items ≡ self.old.literals.items }
    {
        if (literal as usize) < self.marked.len() {
            self.marked[literal as usize] = true;
        }
    }

    // Adds a literal, if it is not there.
    fn add(&mut self, literal: u32) -> Result<(), Memory>
        ensures added { OnOk result (Has self.new.literals.items literal) }
        ensures kept { (l : ℕ) → Has self.old.literals.items l → Has self.new.literals.items l }
        ensures only { (l : ℕ) → Has self.new.literals.items l → (l ≡ literal) ⊎ Has self.old.literals.items l }
    {
        if self.has(literal) {
            return Ok(());
        }
        self.literals.push(literal)?;
        self.mark(literal);
        Ok(())
    }

    // Takes back all marks and literals.
    fn clear(&mut self)
        ensures { self.new.literals.items ≡ [] }
    {
        forget(&mut self.marked, &self.literals);
        self.literals.clear();
    }

    /// Takes the literals of a clause in place of those that it has.
    pub(crate) fn put(&mut self, clause: &[Lit]) -> Result<(), Memory>
        ensures { OnOk result (IsSameSet self.new.literals.items clause.now) }
    {
        self.clear();
        for literal in clause {
            self.add(literal.value())?;
        }
        Ok(())
    }

    /// Whether some variable is there with both signs.
    pub(crate) fn is_tautology(&self) -> bool {
        for literal in &self.literals {
            if self.has(negated(*literal)) {
                return true;
            }
        }
        false
    }

    /// Whether these are the same literals, each of which is there once.
    pub(crate) fn are(&self, literals: &[u32]) -> bool {
        if literals.len() != self.literals.len() {
            return false;
        }
        for literal in literals {
            if !self.has(*literal) {
                return false;
            }
        }
        true
    }
}
