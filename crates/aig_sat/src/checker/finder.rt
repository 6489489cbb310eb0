//! Finding a clause by its literals, in any order.
ghost use Rattle.std.specs.Prelude.{◌≡◌, ◌<◌, length};
ghost use Rattle.aig_sat.specs.checker.Words.{KeepsMet};

use crate::checker::clauses::{Clauses, HEAD};
use crate::checker::marks::Marks;
use aig_bytes::Memory;
use std::alloc::Global;
use std::mem;

/// How many clauses of a chain a deletion looks at. A proof can choose clauses whose hashes agree, and no chain of a
/// solver's proof is nearly as long.
const LONGEST_WALK: usize = 1024;

/// Chains of the clauses that stand, by a hash of their literals. Clauses are put into chains from the first deletion
/// on: their number is known then, and a formula whose proof deletes nothing needs no chains.
#[derive(Drop)]
pub(crate) struct Finder {
    // The place of the first clause of each chain, 0 where there is none.
    chains: Vec<u32>,
    // Whether the clauses are in chains.
    is_linked: bool,
    // How many clauses there are.
    clauses: usize,
    alloc: Global,
    ghost some: { 0 < length chains.items },
}

// A hash of literals that does not depend on their order.
fn hash_of(literals: &[u32]) -> u64 {
    let mut sum: u64 = 0;
    let mut parity: u64 = 0;
    let mut product: u64 = 1;
    for literal in literals {
        let scaled = u64::from(*literal).wrapping_mul(0x9e37_79b9_7f4a_7c15);
        let mixed = scaled ^ (scaled >> 29);
        sum = sum.wrapping_add(mixed);
        parity ^= mixed;
        product = product.wrapping_mul(mixed | 1);
    }
    let folded = sum.wrapping_mul(1023).wrapping_add(parity) ^ product;
    folded ^ (folded >> 32)
}

impl Finder {
    /// No clauses.
    pub(crate) fn new(alloc: Global) -> Result<Finder, Memory> {
        Ok(Finder {
            chains: vec![in alloc; 0; 1024]?,
            is_linked: false,
            clauses: 0,
            alloc,
        })
    }

    // The number of the chain of these literals.
    fn chain_of(&self, literals: &[u32]) -> usize
        ensures { result < length self.now.chains.items }
    {
        (hash_of(literals) % (self.chains.len() as u64)) as usize
    }

    // Puts a clause at the front of its chain.
    fn link(&mut self, clauses: &mut Clauses, place: u32)
        ensures { KeepsMet clauses.old.words.items clauses.new.words.items }
    {
        if let Some(literals) = clauses.literals(place as usize) {
            let chain = self.chain_of(literals);
            clauses.set_next(place, self.chains[chain]);
            self.chains[chain] = place;
        }
    }

    // Puts the clauses of an earlier chain into those of now.
    fn link_chain(&mut self, clauses: &mut Clauses, first: u32)
        ensures { KeepsMet clauses.old.words.items clauses.new.words.items }
    {
        let mut place = first;
        for _ in 0..self.clauses {
            if place == 0 {
                return;
            }
            let next = clauses.next(place);
            self.link(clauses, place);
            place = next;
        }
    }

    // Makes twice as many chains where there are more clauses than chains.
    fn grow(&mut self, clauses: &mut Clauses) -> Result<(), Memory>
        ensures { KeepsMet clauses.old.words.items clauses.new.words.items }
    {
        if self.clauses <= self.chains.len() || self.chains.len() >= HEAD as usize {
            return Ok(());
        }
        let more = vec![in self.alloc; 0; 2 * self.chains.len()]?;
        let chains = mem::replace(&mut self.chains, more);
        for first in &chains {
            self.link_chain(clauses, *first);
        }
        Ok(())
    }

    // Makes more chains than there are clauses. Without memory for them it leaves the chains as they are.
    fn make_chains(&mut self) {
        let more = self.clauses.saturating_add(self.clauses / 2);
        if more > self.chains.len() && more < HEAD as usize {
            if let Ok(chains) = vec![in self.alloc; 0; more] {
                self.chains = chains;
            }
        }
    }

    // Puts all clauses that stand into chains, unless they are there.
    fn link_all(&mut self, clauses: &mut Clauses)
        ensures { KeepsMet clauses.old.words.items clauses.new.words.items }
    {
        if self.is_linked {
            return;
        }
        self.is_linked = true;
        self.make_chains();
        let end = clauses.len().min(HEAD as usize);
        for place in 0..end {
            self.link(clauses, place as u32);
        }
    }

    /// Adds a clause that stands, and that is not there.
    pub(crate) fn add(&mut self, clauses: &mut Clauses, place: u32) -> Result<(), Memory>
        ensures { KeepsMet clauses.old.words.items clauses.new.words.items }
    {
        self.clauses = self.clauses.saturating_add(1);
        if !self.is_linked {
            return Ok(());
        }
        self.grow(clauses)?;
        self.link(clauses, place);
        Ok(())
    }

    /// Deletes a clause that has the literals of the marks, if one is among the first 1,024 of its chain.
    pub(crate) fn delete(&mut self, clauses: &mut Clauses, marks: &Marks)
        ensures { KeepsMet clauses.old.words.items clauses.new.words.items }
    {
        self.link_all(clauses);
        let chain = self.chain_of(&marks.literals);
        let mut before = 0;
        let mut place = self.chains[chain];
        for _ in 0..LONGEST_WALK {
            let Some(literals) = clauses.literals(place as usize) else {
                return;
            };
            let next = clauses.next(place);
            if marks.are(literals) {
                if before == 0 {
                    self.chains[chain] = next;
                } else {
                    clauses.set_next(before, next);
                }
                clauses.remove(place);
                self.clauses = self.clauses.saturating_sub(1);
                return;
            }
            before = place;
            place = next;
        }
    }
}
