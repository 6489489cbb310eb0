//! Finding a clause by its id.
ghost use Rattle.std.specs.Prelude.{◌≡◌, ℕ, ◌+◌, ◌-◌, ◌<◌, ◌≤◌, [], ◌∷◌, ◌++◌, OnOk, length, slice_index};
ghost use Rattle.aig_sat.specs.checker.Entries.{Ascends, Forgets, IsBetween, IsPlaceOf, entry, ids};

use aig_bytes::Memory;
use std::alloc::Global;

/// An id, and the place of its clause; 0 where it was deleted.
#[derive(Clone, Copy)]
pub(crate) struct Entry {
    pub(crate) id: u32,
    pub(crate) place: u32,
}

/// The places of clauses by id, in the order in which they were added. Ids ascend, so a look takes a binary search over
/// as many entries as ids were left out, and none where they follow each other.
#[derive(Drop)]
pub(crate) struct Ids {
    pub(crate) entries: Vec<Entry>,
    ghost ascends: { Ascends (ids entries.items) },
}

impl Ids {
    /// No clauses.
    pub(crate) fn new(alloc: Global) -> Ids
        ensures { result.entries.items ≡ [] }
    {
        Ids {
            entries: Vec::new(alloc),
        }
    }

    // The id of an entry, or one that is not below any.
    #[inline]
    fn id_at(&self, index: usize) -> u32
        ensures { index < length self.now.entries.items → result ≡ slice_index (ids self.now.entries.items) index }
    {
        if index < self.entries.len() {
            self.entries[index].id
        } else {
            u32::MAX
        }
    }

    /// The greatest id, or 0.
    pub(crate) fn last(&self) -> u32
        ensures { (k : ℕ) → k < length (ids self.now.entries.items)
            → slice_index (ids self.now.entries.items) k + (length self.now.entries.items - 1 - k) ≤ result }
    {
        if self.entries.len() == 0 {
            return 0;
        }
        self.entries[self.entries.len() - 1].id
    }

    /// Adds a clause with an id over the greatest, for which there is room.
    pub(crate) fn add(&mut self, id: u32, place: u32) -> Result<(), Memory>
        ensures { OnOk result (self.new.entries.items ≡ self.old.entries.items ++ entry id place ∷ []) }
    {
        if id <= self.last() {
            return Err(Memory);
        }
        self.entries.push(Entry { id, place })?;
        Ok(())
    }

    // Where the entry of an id is, if it is there.
    #[inline]
    fn index_of(&self, id: u32) -> usize
        ensures { (k : ℕ) → k < length (ids self.now.entries.items) → slice_index (ids self.now.entries.items) k ≡ id
            → result ≡ k }
    {
        let end = self.entries.len().saturating_sub(1);
        let last = self.last();
        if id > last {
            return usize::MAX;
        }
        // Entries behind it are at most as many as ids.
        let guess = end.saturating_sub((last - id) as usize);
        if self.id_at(guess) == id {
            return guess;
        }
        self.search(id, guess, end)
    }

    // The same between two places.
    fn search(&self, id: u32, from: usize, to: usize) -> usize
        requires inside { to ≤ length self.now.entries.items - 1 }
        requires between { IsBetween (ids self.now.entries.items) id from to }
        ensures { IsBetween (ids self.now.entries.items) id result result }
    {
        let mut low = from;
        let mut high = to;
        while low < high {
            let middle = low + (high - low) / 2;
            if self.id_at(middle) < id {
                low = middle + 1;
            } else {
                high = middle;
            }
        }
        low
    }

    /// The place of a clause, or 0.
    #[inline]
    pub(crate) fn place(&self, id: u32) -> u32
        ensures { IsPlaceOf self.now.entries.items id result }
    {
        let index = self.index_of(id);
        if index < self.entries.len() && self.entries[index].id == id {
            return self.entries[index].place;
        }
        0
    }

    /// Forgets the place of a clause, and returns it.
    pub(crate) fn forget(&mut self, id: u32) -> u32
        ensures { Forgets self.old.entries.items id self.new.entries.items }
    {
        let index = self.index_of(id);
        if index < self.entries.len() && self.entries[index].id == id {
            let place = self.entries[index].place;
            self.entries[index] = Entry { id, place: 0 };
            return place;
        }
        0
    }
}
