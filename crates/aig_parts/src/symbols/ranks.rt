//! A number for each entry that has a name, by which a list in any order is looked up.
ghost use Rattle.std.specs.Prelude.{◌≡◌, ◌≤◌, length, take, slice_index, Contains, IfOk, IfSome, IfNone};
ghost use Rattle.std.specs.Map.{keys_of};
ghost use Rattle.aig_parts.specs.state.SymbolRanks.{number_of, AreEntered};

use crate::symbols::Kind;
use crate::symbols::named::{NamedEntries, PAGE, page_of};
use crate::symbols::places::Place;
use std::alloc::{AllocError, Global};
use std::marker::Model;

/// How many bits a word has.
const BITS: u32 = 64;

/// Entries by number. The number of an entry counts the named entries in the words before its own, and those of its own
/// word from it on: no two named entries have the same. So nothing is hashed, no choice of entries can crowd a table,
/// and a list in any order is entered in linear time.
#[derive(Drop, Debug)]
pub(crate) struct SymbolRanks {
    // The first word of each page.
    starts: Vec<u32>,
    // A bit for each entry, set if it has a name: page after page.
    words: Vec<u64>,
    // How many bits are set before each word.
    before: Vec<u32>,
    // For each number the place of its entry in the list, plus 1, or 0 if there is none.
    places: Vec<u32>,
}

impl Model for SymbolRanks {
    ghost use Rattle.aig_parts.specs.state.SymbolRanks.{Ranks};

    ghost Value = { Ranks };

    ghost view = { λ a. record {
      starts = a.starts.items;
      words = a.words.items;
      before = a.before.items;
      places = a.places.items;
    } };
}

// The number at a place; 0 after the last one.
fn number_at(numbers: &[u32], place: usize) -> u32
    ensures { result ≡ slice_index numbers.now place }
{
    if place < numbers.len() {
        numbers[place]
    } else {
        0
    }
}

// The word at a place; 0 after the last one.
fn word_at(words: &[u64], place: usize) -> u64
    ensures { result ≡ slice_index words.now place }
{
    if place < words.len() { words[place] } else { 0 }
}

impl SymbolRanks {
    // Adds a page, before which so many bits are set. Returns how many are set up to its end.
    fn add_page(&mut self, page: &[u64], before: u32) -> Result<u32, AllocError> {
        let start = self.words.len().min(u32::MAX as usize) as u32;
        self.starts.push(start)?;
        let mut count = before;
        for word in page {
            self.words.push(*word)?;
            self.before.push(count)?;
            count = count.wrapping_add(word.count_ones());
        }
        Ok(count)
    }

    // Numbers for these entries, and room for so many places. Nothing is proved of the numbers: `enter` finds out
    // whether two entries have the same.
    fn among(alloc: Global, named: &NamedEntries, count: usize) -> Result<SymbolRanks, AllocError> {
        let mut ranks = SymbolRanks {
            starts: Vec::new(alloc),
            words: Vec::new(alloc),
            before: Vec::new(alloc),
            places: vec![in alloc; 0; count.saturating_add(1)]?,
        };
        let mut before = 0;
        for page in named.pages() {
            before = ranks.add_page(page.words(), before)?;
        }
        Ok(ranks)
    }

    // The number of an entry.
    fn number(&self, entry: (Kind, u32)) -> usize
        ensures { result ≡ number_of self.now entry }
    {
        let start = number_at(&self.starts, page_of(entry.0, entry.1));
        let at = start as usize + (entry.1 % PAGE / BITS) as usize;
        let rest = word_at(&self.words, at) >> (entry.1 % BITS);
        number_at(&self.before, at) as usize + rest.count_ones() as usize
    }

    // Enters the entries of a list, up to the first whose number is taken or has no room. Returns how many it entered.
    fn enter(&mut self, entries: &[((Kind, u32), Place)]) -> usize
        ensures bound { result ≤ length entries.now }
        ensures entered { AreEntered self.new (take result entries.now) }
    {
        let count = entries.len().min(u32::MAX as usize);
        for place in 0..count {
            let number = self.number(entries[place].0);
            if number >= self.places.len() || self.places[number] > 0 {
                return place;
            }
            self.places[number] = place as u32 + 1;
        }
        count
    }

    /// Numbers for a list of named entries, and how many of its first entries are entered: all of them, though no
    /// proof says so.
    pub(crate) fn of(
        alloc: Global,
        named: &NamedEntries,
        entries: &[((Kind, u32), Place)],
    ) -> Result<(SymbolRanks, usize), AllocError>
        ensures bound { IfOk result (λ r. r.1 ≤ length entries.now) }
        ensures entered { IfOk result (λ r. AreEntered r.0 (take r.1 entries.now)) }
    {
        let mut ranks = SymbolRanks::among(alloc, named, entries.len())?;
        let count = ranks.enter(entries);
        Ok((ranks, count))
    }

    /// The place of an entry's name, among the entries of the list.
    pub(crate) fn find(&self, entries: &[((Kind, u32), Place)], entry: (Kind, u32)) -> Option<Place>
        requires { AreEntered self.now entries.now }
        ensures some { IfSome result (λ place. Contains entries.now (entry, place)) }
        ensures none { IfNone result (Contains (keys_of entries.now) entry → ⊥) }
    {
        let place = number_at(&self.places, self.number(entry)) as usize;
        if place == 0 || place > entries.len() {
            return None;
        }
        let (found, name) = entries[place - 1];
        if found == entry { Some(name) } else { None }
    }
}

impl Clone for SymbolRanks {
    ghost is_clone = { λ v w. w ≡ v };

    fn clone(&self) -> Result<SymbolRanks, AllocError> {
        Ok(SymbolRanks {
            starts: self.starts.clone()?,
            words: self.words.clone()?,
            before: self.before.clone()?,
            places: self.places.clone()?,
        })
    }
}
