//! The places of clauses by literal.
ghost use Rattle.std.specs.Prelude.{◌≡◌, ◌%◌, ◌<◌, ℕ, OnOk, length, slice_index};
ghost use Rattle.aig_sat.specs.checker.Knowledge.{IsIn};
ghost use Rattle.aig_sat.specs.checker.Listing.{KeepsLists, Lists, ListsAll};
ghost use Rattle.aig_sat.specs.checker.Words.{literal_at, size_at};

use crate::checker::clauses::{BEFORE, HEAD};
use aig_bytes::Memory;
use std::alloc::Global;

/// No link has this number, so a list ends with it.
const END: u32 = u32::MAX;

/// A place in a list, and the number of the list's next link.
#[derive(Clone, Copy)]
pub(crate) struct Link {
    pub(crate) place: u32,
    pub(crate) next: u32,
}

/// For each literal a list of places of clauses, the last one first. Literals that leave the same rest share a list, so
/// it may also have clauses without the literal. Clauses that were deleted stay in their lists.
#[derive(Drop)]
pub(crate) struct Places {
    // For each list the number of its first link.
    pub(crate) heads: Vec<u32>,
    pub(crate) links: Vec<Link>,
    alloc: Global,
    ghost some: { 0 < length heads.items },
}

// The word at a place, or 0.
#[inline]
fn word_at(words: &[u32], place: usize) -> u32
    ensures { result ≡ slice_index words.now place }
{
    match words.get(place) {
        Some(word) => *word,
        None => 0,
    }
}

impl Places {
    /// So many empty lists, but at least one.
    pub(crate) fn new(alloc: Global, lists: usize) -> Result<Places, Memory> {
        Ok(Places {
            heads: vec![in alloc; END; lists.max(1)]?,
            links: Vec::new(alloc),
            alloc,
        })
    }

    /// So many empty lists in place of these.
    pub(crate) fn clear(&mut self, lists: usize) -> Result<(), Memory> {
        *self = Places::new(self.alloc, lists)?;
        Ok(())
    }

    // The number of a literal's list.
    #[inline]
    fn list_of(&self, literal: u32) -> usize
        ensures is { result ≡ literal % length self.now.heads.items }
        ensures inside { result < length self.now.heads.items }
    {
        literal as usize % self.heads.len()
    }

    // Puts a place at the front of the list of a literal.
    fn add(&mut self, literal: u32, place: u32) -> Result<(), Memory>
        ensures kept { KeepsLists self.old.heads.items self.old.links.items self.new.heads.items self.new.links.items }
        ensures added { OnOk result (Lists self.new.heads.items self.new.links.items literal place) }
    {
        let number = self.links.len();
        if number >= END as usize {
            return Err(Memory);
        }
        let list = self.list_of(literal);
        let next = self.heads[list];
        self.links.push(Link { place, next })?;
        self.heads[list] = number as u32;
        Ok(())
    }

    // Puts the place of a clause into the list of each of its literals.
    fn add_clause(&mut self, words: &[u32], place: usize) -> Result<(), Memory>
        requires { place < 0x8000_0000 }
        ensures kept { KeepsLists self.old.heads.items self.old.links.items self.new.heads.items self.new.links.items }
        ensures added { OnOk result ((k : ℕ) → k < size_at words.now place
            → Lists self.new.heads.items self.new.links.items (literal_at words.now place k) place) }
    {
        let size = word_at(words, place).saturating_sub(HEAD) as usize;
        for index in 0..size {
            let literal = word_at(words, place + (BEFORE + index));
            self.add(literal, place as u32)?;
        }
        Ok(())
    }

    /// Adds the clauses from a place on, where those before it are in the lists.
    pub(crate) fn add_from(&mut self, words: &[u32], from: usize) -> Result<(), Memory>
        requires { ListsAll self.old.heads.items self.old.links.items words.now from }
        ensures kept { ListsAll self.new.heads.items self.new.links.items words.now from }
        ensures all { OnOk result (ListsAll self.new.heads.items self.new.links.items words.now (length words.now)) }
    {
        if words.len() > HEAD as usize {
            return Err(Memory);
        }
        for place in from..words.len() {
            self.add_clause(words, place)?;
        }
        Ok(())
    }

    /// Finds the places in the list of a literal.
    pub(crate) fn find(&self, literal: u32, found: &mut Vec<usize>) -> Result<(), Memory>
        ensures { OnOk result ((p : ℕ) → Lists self.now.heads.items self.now.links.items literal p
            → IsIn found.new.items p) }
    {
        found.clear();
        let mut number = self.heads[self.list_of(literal)];
        // A list has no more links than there are, so it ends within the loop.
        for _ in 0..self.links.len().saturating_add(1) {
            let Some(link) = self.links.get(number as usize) else {
                return Ok(());
            };
            found.push(link.place as usize)?;
            number = link.next;
        }
        Err(Memory)
    }
}
