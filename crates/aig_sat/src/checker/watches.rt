//! For each literal the clauses that are looked at when it becomes false.
use aig_bytes::Memory;
use std::alloc::Global;
use std::mem;

/// A clause that watches a literal, and a literal of it that may be true. While it is true, the clause need not be
/// looked at.
#[derive(Clone, Copy)]
pub(crate) struct Watch {
    pub(crate) clause: u32,
    pub(crate) blocker: u32,
}

/// The lists of watches, by literal. Nothing is proved of them: a clause is looked at before anything is taken from it.
#[derive(Drop)]
pub(crate) struct Watches {
    lists: Vec<Vec<Watch>>,
    alloc: Global,
}

impl Watches {
    /// Empty lists for so many literals.
    pub(crate) fn new(alloc: Global, literals: usize) -> Result<Watches, Memory> {
        let mut lists = Vec::with_capacity(alloc, literals)?;
        for _ in 0..literals {
            lists.push(Vec::new(alloc))?;
        }
        Ok(Watches { lists, alloc })
    }

    /// Adds a variable whose literals have empty lists.
    pub(crate) fn add_variable(&mut self) -> Result<(), Memory> {
        self.lists.push(Vec::new(self.alloc))?;
        self.lists.push(Vec::new(self.alloc))?;
        Ok(())
    }

    /// Adds a watch to the list of a literal.
    #[inline]
    pub(crate) fn add(&mut self, literal: u32, watch: Watch) -> Result<(), Memory> {
        if (literal as usize) < self.lists.len() {
            self.lists[literal as usize].push(watch)?;
        }
        Ok(())
    }

    /// Lends the list of a literal, which is empty until it is given back.
    #[inline]
    pub(crate) fn lend(&mut self, literal: u32) -> Vec<Watch> {
        if (literal as usize) < self.lists.len() {
            return mem::replace(&mut self.lists[literal as usize], Vec::new(self.alloc));
        }
        Vec::new(self.alloc)
    }

    /// Gives back the list of a literal.
    #[inline]
    pub(crate) fn give_back(&mut self, literal: u32, list: Vec<Watch>) {
        if (literal as usize) < self.lists.len() {
            self.lists[literal as usize] = list;
        }
    }
}

/// Moves the watches from a place on to an earlier one, which ends the list.
pub(crate) fn close_gap(list: &mut Vec<Watch>, to: usize, from: usize) {
    if to < from {
        let mut end = to;
        for place in from..list.len() {
            list[end] = list[place];
            end += 1;
        }
        list.truncate(end);
    }
}
