//! Which entries have a name.
ghost use Rattle.std.specs.Prelude.{◌≡◌, ◌⊎◌, ◌↔◌, ℕ, ◌^◌, ◌<◌, ◌≤◌, [], length, slice_index_or, IsTrue, false};
ghost use Rattle.std.specs.Prelude.{IfOk, OnOk, OnErr};
ghost use Rattle.aig_parts.specs.SymbolPlaces.{Key};
ghost use Rattle.aig_parts.specs.state.NamedEntries.{section_number, page_of, IsMarkedEntry};

use crate::bits::BitSet;
use crate::symbols::Kind;
use std::alloc::{AllocError, Global};
use std::marker::Model;

/// How many positions of a section a page is for.
pub(crate) const PAGE: u32 = 16_384;

/// How many sections there are.
const SECTIONS: usize = 7;

/// A bit an entry that has a name, in pages of which only those with a named entry take memory: a file may claim more
/// entries than it has bytes. Contracts see the words of the pages.
#[derive(Drop, Debug)]
pub(crate) struct NamedEntries {
    pages: Vec<BitSet>,
}

impl Model for NamedEntries {
    ghost use Rattle.std.specs.Prelude.{List, ℕ};

    ghost Value = { List (List ℕ) };

    ghost view = { λ a. a.pages.items };
}

/// The number of a section.
pub(crate) fn section_number(kind: Kind) -> usize
    ensures number { result ≡ section_number kind }
    ensures few { result < 7 }
{
    match kind {
        Kind::Input => 0,
        Kind::Latch => 1,
        Kind::Output => 2,
        Kind::Bad => 3,
        Kind::Constraint => 4,
        Kind::Justice => 5,
        Kind::Fairness => 6,
    }
}

/// The page of an entry.
pub(crate) fn page_of(kind: Kind, position: u32) -> usize
    ensures page { result ≡ page_of (kind, position) }
    ensures small { result < 2 ^ 32 }
{
    (position / PAGE) as usize * SECTIONS + section_number(kind)
}

impl NamedEntries {
    /// None. It takes no memory.
    pub(crate) fn new(alloc: Global) -> NamedEntries
        ensures { result ≡ [] }
    {
        NamedEntries {
            pages: Vec::new(alloc),
        }
    }

    /// The pages, the sections in turn.
    pub(crate) fn pages(&self) -> &[BitSet]
        ensures { result.now ≡ self.now }
    {
        self.pages.as_slice()
    }

    /// Whether an entry has a name.
    pub(crate) fn contains(&self, kind: Kind, position: u32) -> bool
        ensures { IsTrue result ↔ IsMarkedEntry self.now (kind, position) }
    {
        let page = page_of(kind, position);
        page < self.pages.len() && self.pages[page].contains((position % PAGE) as usize)
    }

    /// Makes so many pages, the new ones without numbers.
    fn make_pages(&mut self, count: usize) -> Result<(), AllocError>
        ensures same { (p : ℕ) → slice_index_or self.new p [] ≡ slice_index_or self.old p [] }
        ensures room { OnOk result (count ≤ length self.new) }
    {
        let alloc = *self.pages.allocator();
        for _ in self.pages.len()..count {
            self.pages.push(BitSet::new(alloc))?;
        }
        Ok(())
    }

    /// Notes that an entry has a name, and answers whether it had none. Where memory is refused none more has one.
    pub(crate) fn insert(&mut self, kind: Kind, position: u32) -> Result<bool, AllocError>
        ensures ok { OnOk result ((k : Key) → IsMarkedEntry self.new k
            ↔ (IsMarkedEntry self.old k ⊎ (k ≡ (kind, position)))) }
        ensures had { IfOk result (λ fresh. (fresh ≡ false) ↔ IsMarkedEntry self.old (kind, position)) }
        ensures err { OnErr result ((k : Key) → IsMarkedEntry self.new k ↔ IsMarkedEntry self.old k) }
    {
        let page = page_of(kind, position);
        let number = (position % PAGE) as usize;
        self.make_pages(page + 1)?;
        if self.pages[page].contains(number) {
            return Ok(false);
        }
        self.pages[page].insert(number)?;
        Ok(true)
    }
}
