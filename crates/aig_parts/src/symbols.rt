//! Names of a circuit's entries.
ghost use Rattle.std.specs.Prelude.{◌≡◌, ◌≢◌, ◌∷◌, ◌++◌, ◌↔◌, ℕ, List, [], length, map, IsTrue, false, Contains};
ghost use Rattle.std.specs.Prelude.{All, AllPairs, IfOk, IfSome, IfNone, OnErr};
ghost use Rattle.std.specs.Map.{keys_of};
ghost use Rattle.std.specs.Map.Iter.{ShowsInOrder, TakesFirst, deref_pair};
ghost use Rattle.std.specs.Iterator.{at_most};
ghost use Rattle.aig_parts.specs.declared.symbols.Kind.{Kind};
ghost use Rattle.aig_parts.specs.Letters.{letter};
ghost use Rattle.aig_parts.specs.SymbolPlaces.{Key, symbols_in};
ghost use Rattle.aig_parts.specs.state.NamedEntries.{IsPlaceIn};

mod hash;
pub(crate) mod list;
mod named;
mod places;
mod ranks;
mod table;

use crate::list::Bytes;
use crate::symbols::named::NamedEntries;
use crate::symbols::places::{Place, name_at, put_name};
use crate::symbols::table::{SymbolTable, TableIter};
use std::alloc::{AllocError, Global};
use std::marker::Model;

/// The section that a symbol names an entry of.
#[derive(Clone, Copy, PartialEq, Eq, Hash, Debug)]
pub enum Kind {
    Input,
    Latch,
    Output,
    Bad,
    Constraint,
    Justice,
    Fairness,
}

impl Kind {
    /// The letter that names the section in symbol lines.
    pub fn letter(self) -> u8
        ensures { result ≡ letter self }
    {
        match self {
            Kind::Input => b'i',
            Kind::Latch => b'l',
            Kind::Output => b'o',
            Kind::Bad => b'b',
            Kind::Constraint => b'c',
            Kind::Justice => b'j',
            Kind::Fairness => b'f',
        }
    }
}

/// The names of entries, in the order of the file. No entry has two names. The names lie one after another in one list
/// of bytes.
#[derive(Debug)]
pub struct Symbols {
    places: SymbolTable,
    text: Vec<u8>,
}

// By hand: a value then ends in one call, which is one step of a proof (docs/PROOFS.md, Habits).
impl Drop for Symbols {
    fn drop(self) {
        let Symbols { places: _, text: _ } = self;
    }
}

impl Model for Symbols {
    ghost use Rattle.std.specs.Prelude.{List, ℕ, All};
    ghost use Rattle.aig_parts.specs.declared.symbols.Kind.{Kind};

    ghost Value = { List ((Kind × ℕ) × List ℕ) };

    ghost use Rattle.aig_parts.specs.SymbolPlaces.{symbols_in};
    ghost use Rattle.aig_parts.specs.state.NamedEntries.{IsPlaceIn};

    ghost view = { λ a. symbols_in a.text.items a.places.entries };

    ghost invariant = { λ a. All (IsPlaceIn a.text.items) a.places.entries };
}

impl Symbols {
    /// No names. It takes no memory.
    pub fn new(alloc: Global) -> Symbols
        ensures { result ≡ [] }
    {
        Symbols {
            places: SymbolTable::new(alloc),
            text: Vec::new(alloc),
        }
    }

    /// The symbols of these entries, none of which comes twice, and which have a name in `named`.
    pub(crate) fn of_entries(
        named: &NamedEntries,
        entries: Vec<((Kind, u32), Place)>,
        text: Vec<u8>,
    ) -> Result<Symbols, AllocError>
        requires places { All (IsPlaceIn text.items) entries.items }
        requires once { AllPairs (λ x y. x ≢ y) (keys_of entries.items) }
        ensures { IfOk result (λ symbols. symbols ≡ symbols_in text.items entries.items) }
    {
        Ok(Symbols {
            places: SymbolTable::of_entries(named, entries)?,
            text,
        })
    }

    /// How many entries have a name.
    pub fn len(&self) -> usize
        ensures len { result ≡ length self.now }
    {
        self.places.len()
    }

    /// Whether an entry has a name.
    pub fn contains(&self, kind: Kind, position: u32) -> bool
        ensures { IsTrue result ↔ Contains (keys_of self.now) (kind, position) }
    {
        self.places.find((kind, position)).is_some()
    }

    /// The name of an entry, or none where it has none.
    pub fn get(&self, kind: Kind, position: u32) -> Option<&[u8]>
        ensures some { IfSome result (λ name. Contains self.now ((kind, position), name.now)) }
        ensures none { IfNone result (Contains (keys_of self.now) (kind, position) → ⊥) }
    {
        let place = self.places.find((kind, position))?;
        Some(name_at(self.text.as_slice(), place))
    }

    /// Adds a name at the end, and answers whether the entry had none. If it had one, nothing changes.
    pub fn insert(&mut self, kind: Kind, position: u32, name: Bytes) -> Result<bool, AllocError>
        ensures fresh { IfOk result (λ b. IsTrue b → self.new ≡ self.old ++ ((kind, position), name) ∷ []) }
        ensures named { IfOk result (λ b. b ≡ false → self.new ≡ self.old) }
        ensures when { IfOk result (λ b. (b ≡ false) ↔ Contains (keys_of self.old) (kind, position)) }
        ensures err { OnErr result (self.new ≡ self.old) }
    {
        if self.contains(kind, position) {
            return Ok(false);
        }
        let place = put_name(&mut self.text, name.as_slice())?;
        self.places.push((kind, position), place)?;
        Ok(true)
    }

    /// The entries and their names, in the order of the file.
    pub fn iter(&self) -> SymbolIter<'_>
        ensures entries { result ≡ self.now }
        ensures runs { ShowsInOrder (deref_pair {K = Kind × ℕ} {X = List ℕ}) }
        ensures distinct { AllPairs (λ x y. x ≢ y) (keys_of self.now) }
    {
        SymbolIter {
            places: self.places.iter(),
            text: self.text.as_slice(),
        }
    }
}

impl Clone for Symbols {
    ghost is_clone = { λ v w. w ≡ v };

    fn clone(&self) -> Result<Symbols, AllocError> {
        Ok(Symbols {
            places: self.places.clone()?,
            text: self.text.clone()?,
        })
    }
}

/// The entries and their names that are left, as `(&entry, name)`.
#[derive(Drop)]
pub struct SymbolIter<'a> {
    places: TableIter<'a>,
    text: &'a [u8],
}

impl<'a> Model for SymbolIter<'a> {
    ghost use Rattle.std.specs.Prelude.{List, ℕ, All};
    ghost use Rattle.aig_parts.specs.declared.symbols.Kind.{Kind};
    ghost use Rattle.aig_parts.specs.SymbolPlaces.{symbols_in};
    ghost use Rattle.aig_parts.specs.state.NamedEntries.{IsPlaceIn};

    ghost Value = { List ((Kind × ℕ) × List ℕ) };

    ghost view = { λ a. symbols_in a.text.now a.places };

    ghost invariant = { λ a. All (IsPlaceIn a.text.now) a.places };
}

impl<'a> Iterator for SymbolIter<'a> {
    type Item = (&'a (Kind, u32), &'a [u8]);

    ghost next_gives = { TakesFirst deref_pair };

    ghost remaining = { λ s. at_most (length s) };

    fn next(&mut self) -> Option<(&'a (Kind, u32), &'a [u8])> {
        let (entry, place) = self.places.next()?;
        Some((entry, name_at(self.text, place)))
    }
}
