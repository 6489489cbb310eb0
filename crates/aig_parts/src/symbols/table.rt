//! Entries of a circuit that have a name, with the places of their names.
ghost use Rattle.std.specs.Prelude.{◌≡◌, ◌≢◌, ◌∷◌, ◌++◌, ◌≤◌, ◌<◌, ◌↔◌, ℕ};
ghost use Rattle.std.specs.Prelude.{[], length, drop, All, AllPairs, Contains};
ghost use Rattle.std.specs.Prelude.{IsTrue, IfOk, IfSome, IfNone, None, OnOk, OnErr};
ghost use Rattle.std.specs.Map.{keys_of};
ghost use Rattle.indexmap.specs.IndexMap.{hasher_of};
ghost use Rattle.aig_parts.specs.state.SymbolHash.{mix, hash_of_entries};
ghost use Rattle.aig_parts.specs.state.SymbolTable.{key_number, Ascend, AreFindable};

use crate::symbols::Kind;
use crate::symbols::hash::SymbolHash;
use crate::symbols::named::{NamedEntries, section_number};
use crate::symbols::places::Place;
use crate::symbols::ranks::SymbolRanks;
use indexmap::{IndexMap, map};
use std::alloc::{AllocError, Global};
use std::hash::{DefaultHasher, Hasher};
use std::marker::Model;

/// How far sections are apart.
const SECTION: u64 = 4_294_967_296;

/// Entries in the order of the file, each once, with the places of their names. Those of a file are in a list. If they
/// ascend, by section and position, they are found by bisection, and else by rank. Those that are inserted later are in
/// a table by hash, unless they go on in an ascending list.
#[derive(Drop, Debug)]
pub(crate) struct SymbolTable {
    listed: Vec<((Kind, u32), Place)>,
    // None if the list ascends.
    ranks: Option<SymbolRanks>,
    others: IndexMap<(Kind, u32), Place, SymbolHash>,
}

impl Model for SymbolTable {
    ghost use Rattle.std.specs.Prelude.{◌++◌};
    ghost use Rattle.indexmap.specs.IndexMap.{hasher_of};
    ghost use Rattle.aig_parts.specs.state.SymbolTable.{Table, IsSymbolTable};

    ghost Value = { Table };

    ghost view = { λ a. record { entries = a.listed.items ++ a.others.entries; hash = hasher_of a.others } };

    ghost invariant = { λ a. IsSymbolTable a.listed.items a.ranks a.others.entries };
}

// Entries by section, and within one by position.
fn key_number(entry: (Kind, u32)) -> u64
    ensures { result ≡ key_number entry }
{
    section_number(entry.0) as u64 * SECTION + entry.1 as u64
}

// Whether all entries ascend.
fn are_ascending(entries: &[((Kind, u32), Place)]) -> bool
    ensures { IsTrue result → Ascend entries.now }
{
    if entries.is_empty() {
        return true;
    }
    let mut before = key_number(entries[0].0);
    for place in 1..entries.len() {
        let number = key_number(entries[place].0);
        if before >= number {
            return false;
        }
        before = number;
    }
    true
}

// Mixes an entry's number into what keys are made from.
fn mix(mixed: &mut DefaultHasher, entry: (Kind, u32))
    ensures number { mixed.new ≡ mix mixed.old entry }
{
    mixed.write_u64(key_number(entry));
}

// Hashers by keys that are made from all these entries.
fn hash_of(entries: &[((Kind, u32), Place)]) -> SymbolHash
    ensures all { result ≡ hash_of_entries (keys_of entries.now) }
{
    let mut mixed = DefaultHasher::new();
    for (entry, _) in entries {
        mix(&mut mixed, *entry);
    }
    SymbolHash::by(mixed)
}

// The table of the entries from a place on. Where there is one, its keys are made from all entries.
fn others_of(
    alloc: Global,
    entries: &[((Kind, u32), Place)],
    from: usize,
) -> Result<IndexMap<(Kind, u32), Place, SymbolHash>, AllocError>
    requires from { from ≤ length entries.now }
    requires once { AllPairs (λ x y. x ≢ y) (keys_of entries.now) }
    ensures entries { IfOk result (λ others. others.entries ≡ drop from entries.now) }
    ensures hash { IfOk result (λ others.
        from < length entries.now → hasher_of others ≡ hash_of_entries (keys_of entries.now)) }
{
    if from == entries.len() {
        return Ok(IndexMap::with_hasher(alloc, SymbolHash::fixed()));
    }
    let count = entries.len() - from;
    let mut others = IndexMap::with_capacity_and_hasher(alloc, count, hash_of(entries))?;
    for (entry, place) in &entries[from..] {
        others.insert(*entry, *place)?;
    }
    Ok(others)
}

// Whether an entry comes after all of these, which ascend.
fn comes_after(entries: &[((Kind, u32), Place)], entry: (Kind, u32)) -> bool
    requires { Ascend entries.now }
    ensures { IsTrue result → All (λ x. key_number x.0 < key_number entry) entries.now }
{
    entries.is_empty() || key_number(entries[entries.len() - 1].0) < key_number(entry)
}

// Whether entries without ranks ascend up to this one.
fn goes_on(
    entries: &[((Kind, u32), Place)],
    ranks: &Option<SymbolRanks>,
    entry: (Kind, u32),
) -> bool
    requires { AreFindable entries.now ranks.now }
    ensures unranked { IsTrue result → ranks.now ≡ None }
    ensures ascend { IsTrue result → Ascend entries.now }
    ensures above { IsTrue result → All (λ x. key_number x.0 < key_number entry) entries.now }
{
    match ranks {
        Some(_) => false,
        None => comes_after(entries, entry),
    }
}

// The place of an entry's name, among entries that ascend.
fn find_ascending(entries: &[((Kind, u32), Place)], entry: (Kind, u32)) -> Option<Place>
    requires { Ascend entries.now }
    ensures some { IfSome result (λ place. Contains entries.now (entry, place)) }
    ensures none { IfNone result (Contains (keys_of entries.now) entry → ⊥) }
{
    let number = key_number(entry);
    match entries.binary_search_by_key(&number, |(other, _)| key_number(*other)) {
        Ok(at) if entries[at].0 == entry => Some(entries[at].1),
        _ => None,
    }
}

// The place of an entry's name, among entries that ascend or have these ranks.
fn find_listed(
    entries: &[((Kind, u32), Place)],
    ranks: &Option<SymbolRanks>,
    entry: (Kind, u32),
) -> Option<Place>
    requires { AreFindable entries.now ranks.now }
    ensures some { IfSome result (λ place. Contains entries.now (entry, place)) }
    ensures none { IfNone result (Contains (keys_of entries.now) entry → ⊥) }
{
    match ranks {
        Some(ranks) => ranks.find(entries, entry),
        None => find_ascending(entries, entry),
    }
}

impl SymbolTable {
    /// None. It takes no memory.
    pub(crate) fn new(alloc: Global) -> SymbolTable
        ensures { result.entries ≡ [] }
    {
        SymbolTable {
            listed: Vec::new(alloc),
            ranks: None,
            others: IndexMap::with_hasher(alloc, SymbolHash::fixed()),
        }
    }

    /// These entries, none of which comes twice, and which have a name in `named`.
    pub(crate) fn of_entries(
        named: &NamedEntries,
        entries: Vec<((Kind, u32), Place)>,
    ) -> Result<SymbolTable, AllocError>
        requires { AllPairs (λ x y. x ≢ y) (keys_of entries.items) }
        ensures { IfOk result (λ table. table.entries ≡ entries.items) }
    {
        let alloc = *entries.allocator();
        if are_ascending(&entries) {
            return Ok(SymbolTable {
                listed: entries,
                ranks: None,
                others: IndexMap::with_hasher(alloc, SymbolHash::fixed()),
            });
        }
        let mut entries = entries;
        let (ranks, count) = SymbolRanks::of(alloc, named, &entries)?;
        let others = others_of(alloc, &entries, count)?;
        entries.truncate(count);
        Ok(SymbolTable {
            listed: entries,
            ranks: Some(ranks),
            others,
        })
    }

    /// How many there are.
    pub(crate) fn len(&self) -> usize
        ensures { result ≡ length self.now.entries }
    {
        self.listed.len() + self.others.len()
    }

    /// The place of an entry's name.
    pub(crate) fn find(&self, entry: (Kind, u32)) -> Option<Place>
        ensures some { IfSome result (λ place. Contains self.now.entries (entry, place)) }
        ensures none { IfNone result (Contains (keys_of self.now.entries) entry → ⊥) }
    {
        match find_listed(&self.listed, &self.ranks, entry) {
            Some(place) => Some(place),
            None => match self.others.get(&entry) {
                Some(place) => Some(*place),
                None => None,
            },
        }
    }

    /// Adds an entry that is not there. The keys of the hash stay.
    pub(crate) fn push(&mut self, entry: (Kind, u32), place: Place) -> Result<(), AllocError>
        requires { Contains (keys_of self.old.entries) entry → ⊥ }
        ensures ok { OnOk result (self.new.entries ≡ self.old.entries ++ (entry, place) ∷ []) }
        ensures err { OnErr result (self.new.entries ≡ self.old.entries) }
        ensures hash { self.new.hash ≡ self.old.hash }
    {
        if self.others.is_empty() && goes_on(&self.listed, &self.ranks, entry) {
            self.listed.push((entry, place))?;
        } else {
            self.others.insert(entry, place)?;
        }
        Ok(())
    }

    /// The entries and their places.
    pub(crate) fn iter(&self) -> TableIter<'_>
        ensures entries { result ≡ self.now.entries }
        ensures distinct { AllPairs (λ x y. x ≢ y) (keys_of self.now.entries) }
    {
        TableIter {
            listed: self.listed.as_slice(),
            others: self.others.iter(),
        }
    }
}

impl Clone for SymbolTable {
    ghost is_clone = { λ v w. w.entries ≡ v.entries };

    fn clone(&self) -> Result<SymbolTable, AllocError> {
        let ranks = match &self.ranks {
            Some(ranks) => Some(ranks.clone()?),
            None => None,
        };
        Ok(SymbolTable {
            listed: self.listed.clone()?,
            ranks,
            others: self.others.clone()?,
        })
    }
}

/// The entries that are left.
#[derive(Drop)]
pub(crate) struct TableIter<'a> {
    listed: &'a [((Kind, u32), Place)],
    others: map::Iter<'a, (Kind, u32), Place>,
}

impl<'a> Model for TableIter<'a> {
    ghost use Rattle.std.specs.Prelude.{List, ℕ, ◌++◌};
    ghost use Rattle.aig_parts.specs.declared.symbols.places.Place.{Place};
    ghost use Rattle.aig_parts.specs.SymbolPlaces.{Key};

    ghost Value = { List (Key × Place) };

    ghost view = { λ a. a.listed.now ++ a.others };
}

impl<'a> TableIter<'a> {
    /// Takes the first entry.
    pub(crate) fn next(&mut self) -> Option<(&'a (Kind, u32), Place)>
        ensures some { IfSome result (λ e. self.old ≡ (e.0.now, e.1) ∷ self.new) }
        ensures none { IfNone result ((self.old ≡ []) × (self.new ≡ [])) }
    {
        match self.listed.split_first() {
            Some(((entry, place), rest)) => {
                self.listed = rest;
                Some((entry, *place))
            }
            None => {
                let (entry, place) = self.others.next()?;
                Some((entry, *place))
            }
        }
    }
}
