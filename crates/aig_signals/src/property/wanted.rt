//! The properties that many texts name.
ghost use Rattle.std.specs.Prelude.{◌≡◌, ℕ, List, IfErr, IfOk, IfSome, OnOk, Some};
ghost use Rattle.std.specs.Prelude.{if◌then◌else◌};
ghost use Rattle.std.specs.Str.{bytes_eq};
ghost use Rattle.indexmap.specs.IndexMap.{get_by};
ghost use Rattle.aig_parts.specs.declared.raw.Raw.{Raw};
ghost use Rattle.aig_base.specs.Selected as selected;
ghost use Rattle.aig_base.specs.declared.select.PropertySection.{PropertySection};
ghost use Rattle.aig_signals.specs.Property.{IsOnlyNamed, IsPosition, RefusesName, RefusesProperty};
ghost use Rattle.aig_signals.specs.declared.property.lookup.Found.TheVariants as found;
ghost use Rattle.aig_signals.specs.state.Wanted.{IsFound, LooksAt};

use crate::hash::NameHash;
use crate::property::fault::PropertyFault;
use crate::property::lookup::{Found, position_named};
use crate::property::naming::is_other;
use crate::property::number::number_of;
use aig_base::{Circuit, Kind, Memory, PropertySection};
use indexmap::IndexMap;
use std::alloc::Global;
use std::marker::Model;

/// Keeps what was found of a name.
fn put(
    alloc: Global,
    table: &mut IndexMap<Vec<u8>, Found, NameHash>,
    name: &[u8],
    now: Found,
) -> Result<(), Memory>
    ensures { OnOk result ((x : List ℕ) → get_by (λ key. bytes_eq x key.items) table.new
        ≡ (if bytes_eq x name.now then Some now else get_by (λ key. bytes_eq x key.items) table.old)) }
{
    table.insert(Vec::from_slice(alloc, name)?, now)?;
    Ok(())
}

/// A table of these texts, of which nothing was found yet.
fn table_of(alloc: Global, texts: &[&str]) -> Result<IndexMap<Vec<u8>, Found, NameHash>, Memory>
    ensures { IfOk result (λ table. (x : List ℕ) → IfSome (get_by (λ key. bytes_eq x key.items) table)
        (λ now. now ≡ found.Nothing)) }
{
    let mut hash = NameHash::new();
    for text in texts {
        hash.mix(text.as_bytes());
    }
    let mut table = IndexMap::with_hasher(alloc, hash);
    for wanted in texts {
        put(alloc, &mut table, wanted.as_bytes(), Found::Nothing)?;
    }
    Ok(table)
}

/// Looks at an entry that has a name.
fn look_at(
    alloc: Global,
    table: &mut IndexMap<Vec<u8>, Found, NameHash>,
    section: PropertySection,
    entry: (Kind, u32),
    name: &[u8],
) -> Result<(), Memory>
    ensures { OnOk result ((x : List ℕ) → LooksAt (selected.kind_of section) entry.0 entry.1 name.now x
        (get_by (λ key. bytes_eq x key.items) table.old) (get_by (λ key. bytes_eq x key.items) table.new)) }
{
    if is_other(section, entry.0) {
        return Ok(());
    }
    let known = match table.get(name) {
        Some(known) => *known,
        None => return Ok(()),
    };
    put(alloc, table, name, known.with(entry.1))
}

/// Looks at all names of a circuit.
fn look_at_all(
    alloc: Global,
    circuit: &Circuit,
    section: PropertySection,
    table: &mut IndexMap<Vec<u8>, Found, NameHash>,
) -> Result<(), Memory>
    requires { (x : List ℕ) → IfSome (get_by (λ key. bytes_eq x key.items) table.old)
        (λ now. now ≡ found.Nothing) }
    ensures { OnOk result ((x : List ℕ) → IfSome (get_by (λ key. bytes_eq x key.items) table.new)
        (IsFound circuit.now section x)) }
{
    // Its contract says that no entry has two names.
    circuit.facts();
    for (entry, name) in circuit.symbols().iter() {
        look_at(alloc, table, section, *entry, name)?;
    }
    Ok(())
}

/// The position that was found.
fn position_found(now: Found) -> Result<u32, PropertyFault>
    ensures one { IfOk result (λ p. (raw : Raw) (section : PropertySection) (name : List ℕ) →
        IsFound raw section name now → IsOnlyNamed raw section name p) }
    ensures fault { IfErr result (λ fault. (raw : Raw) (section : PropertySection) (name : List ℕ) →
        IsFound raw section name now → RefusesName raw section name fault) }
{
    match now {
        Found::Nothing => Err(PropertyFault::Name),
        Found::One(position) => Ok(position),
        Found::Two(first, second) => Err(PropertyFault::Twice { first, second }),
    }
}

/// The names of a section of a circuit, for texts that are known before. One walk over the names finds all of them, and
/// each text is then looked up in a table of the texts. Contracts see the circuit and the section.
#[derive(Drop)]
pub struct PropertyNames<'a> {
    circuit: &'a Circuit,
    section: PropertySection,
    found: IndexMap<Vec<u8>, Found, NameHash>,
}

impl<'a> Model for PropertyNames<'a> {
    ghost use Rattle.std.specs.Prelude.{ℕ, List, IfSome};
    ghost use Rattle.std.specs.Str.{bytes_eq};
    ghost use Rattle.indexmap.specs.IndexMap.{get_by};
    ghost use Rattle.aig_signals.specs.Property.{NamesOf};
    ghost use Rattle.aig_signals.specs.state.Wanted.{IsFound};

    ghost Value = { NamesOf };

    ghost view = { λ n. record { circuit = n.circuit.now; section = n.section } };

    ghost invariant = { λ n. (x : List ℕ) → IfSome (get_by (λ key. bytes_eq x key.items) n.found)
        (IsFound n.circuit.now n.section x) };
}

impl<'a> PropertyNames<'a> {
    /// For these texts. Linear in the names and the texts; it takes memory for each text.
    pub fn among(
        alloc: Global,
        circuit: &'a Circuit,
        section: PropertySection,
        texts: &[&str],
    ) -> Result<PropertyNames<'a>, Memory>
        ensures { IfOk result (λ names. names ≡ record { circuit = circuit.now; section = section }) }
    {
        let mut found = table_of(alloc, texts)?;
        look_at_all(alloc, circuit, section, &mut found)?;
        Ok(PropertyNames {
            circuit,
            section,
            found,
        })
    }

    /// The position of the property that a text names, as `position_of`. Constant time for one of the texts.
    pub fn position_of(&self, text: &[u8]) -> Result<u32, PropertyFault>
        ensures position { IfOk result (IsPosition self.now.circuit self.now.section text.now) }
        ensures fault { IfErr result (RefusesProperty self.now.circuit self.now.section text.now) }
    {
        if let Some(position) = number_of(self.section, text) {
            return Ok(position);
        }
        match self.found.get(text) {
            Some(now) => position_found(*now),
            None => position_named(self.circuit, self.section, text),
        }
    }
}
