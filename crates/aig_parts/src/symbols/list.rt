//! Symbols as they are read.
ghost use Rattle.std.specs.Prelude.{◌≡◌, ◌∷◌, ◌++◌, ◌↔◌, [], IsTrue, false, Contains, IfOk, OnOk};
ghost use Rattle.std.specs.Prelude.{OnErr};
ghost use Rattle.std.specs.Map.{keys_of};

use crate::symbols::named::NamedEntries;
use crate::symbols::places::{Place, put_name};
use crate::symbols::{Kind, Symbols};
use std::alloc::{AllocError, Global};
use std::marker::Model;

/// Symbols as they are read, in the order of the file. A bit says whether an entry has a name; the table that looks
/// names up is made after the last one.
#[derive(Drop, Debug)]
pub struct SymbolList {
    named: NamedEntries,
    entries: Vec<((Kind, u32), Place)>,
    text: Vec<u8>,
}

impl Model for SymbolList {
    ghost use Rattle.std.specs.Prelude.{List, ℕ};
    ghost use Rattle.aig_parts.specs.declared.symbols.Kind.{Kind};
    ghost use Rattle.aig_parts.specs.SymbolPlaces.{symbols_in};
    ghost use Rattle.aig_parts.specs.state.NamedEntries.{AreNamedEntries};

    ghost Value = { List ((Kind × ℕ) × List ℕ) };

    ghost view = { λ a. symbols_in a.text.items a.entries.items };

    ghost invariant = { λ a. AreNamedEntries a.named a.entries.items a.text.items };
}

impl SymbolList {
    /// No names. It takes no memory.
    pub fn new(alloc: Global) -> SymbolList
        ensures { result ≡ [] }
    {
        SymbolList {
            named: NamedEntries::new(alloc),
            entries: Vec::new(alloc),
            text: Vec::new(alloc),
        }
    }

    /// Whether an entry has a name.
    pub fn contains(&self, kind: Kind, position: u32) -> bool
        ensures { IsTrue result ↔ Contains (keys_of self.now) (kind, position) }
    {
        self.named.contains(kind, position)
    }

    /// Adds the name of an entry, and answers whether it had none. If it had one, nothing changes.
    pub fn insert(&mut self, kind: Kind, position: u32, name: &[u8]) -> Result<bool, AllocError>
        ensures fresh { IfOk result (λ b. IsTrue b → self.new ≡ self.old ++ ((kind, position), name.now) ∷ []) }
        ensures named { IfOk result (λ b. b ≡ false → self.new ≡ self.old) }
        ensures when { IfOk result (λ b. (b ≡ false) ↔ Contains (keys_of self.old) (kind, position)) }
        ensures err { OnErr result (self.new ≡ self.old) }
    {
        self.entries.reserve(1)?;
        let place = put_name(&mut self.text, name)?;
        if !self.named.insert(kind, position)? {
            return Ok(false);
        }
        self.entries.push_reserved(((kind, position), place));
        Ok(true)
    }

    /// Adds the name of an entry that has none. Where memory is refused nothing changes.
    pub fn push(&mut self, kind: Kind, position: u32, name: &[u8]) -> Result<(), AllocError>
        requires { Contains (keys_of self.old) (kind, position) → ⊥ }
        ensures ok { OnOk result (self.new ≡ self.old ++ ((kind, position), name.now) ∷ []) }
        ensures err { OnErr result (self.new ≡ self.old) }
    {
        self.insert(kind, position, name)?;
        Ok(())
    }

    /// The table of these symbols.
    pub fn into_symbols(self) -> Result<Symbols, AllocError>
        ensures { IfOk result (λ symbols. symbols ≡ self) }
    {
        let SymbolList {
            named,
            entries,
            text,
        } = self;
        Symbols::of_entries(&named, entries, text)
    }
}
