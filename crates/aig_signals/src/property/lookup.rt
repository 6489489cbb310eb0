//! The property that a text names.
ghost use Rattle.std.specs.Prelude.{◌≡◌, ◌↔◌, IsTrue, IfOk, IfErr};
ghost use Rattle.aig_base.specs.Selected.{kind_of};
ghost use Rattle.aig_signals.specs.Property.{IsPosition, RefusesProperty};
ghost use Rattle.aig_signals.specs.Property.{IsOnlyNamed, RefusesName};
ghost use Rattle.aig_signals.specs.state.Found.{Adds};

use crate::property::fault::PropertyFault;
use crate::property::naming::is_other;
use crate::property::number::number_of;
use aig_base::{Circuit, Kind, PropertySection};

/// The positions that have a name, as far as they were looked at: the two least.
#[derive(Clone, Copy, Drop)]
pub(crate) enum Found {
    Nothing,
    One(u32),
    Two(u32, u32),
}

impl Found {
    /// One more position.
    pub(crate) fn with(self, position: u32) -> Found
        ensures { Adds self position result }
    {
        match self {
            Found::Nothing => Found::One(position),
            Found::One(first) if position < first => Found::Two(position, first),
            Found::One(first) => Found::Two(first, position),
            Found::Two(first, _) if position < first => Found::Two(position, first),
            Found::Two(first, second) if position < second => Found::Two(first, position),
            Found::Two(..) => self,
        }
    }
}

/// Whether a symbol names an entry of the section by this name.
fn is_named(section: PropertySection, kind: Kind, other: &[u8], name: &[u8]) -> bool
    ensures { IsTrue result ↔ (kind ≡ kind_of section) × (other.now ≡ name.now) }
{
    !is_other(section, kind) && other == name
}

/// The position of the only property of a section that has this name.
pub(crate) fn position_named(
    circuit: &Circuit,
    section: PropertySection,
    name: &[u8],
) -> Result<u32, PropertyFault>
    ensures position { IfOk result (IsOnlyNamed circuit.now section name.now) }
    ensures fault { IfErr result (RefusesName circuit.now section name.now) }
{
    // Its contract says that no entry has two names.
    circuit.facts();
    let mut found = Found::Nothing;
    for (entry, other) in circuit.symbols().iter() {
        if is_named(section, entry.0, other, name) {
            found = found.with(entry.1);
        }
    }
    match found {
        Found::Nothing => Err(PropertyFault::Name),
        Found::One(position) => Ok(position),
        Found::Two(first, second) => Err(PropertyFault::Twice { first, second }),
    }
}

/// The position of the property of a section that a text names: by its number, as `3` or `b3`, else by its symbol,
/// which no other property of the section has. A number may be over the end of the section. Linear in the symbols.
pub fn position_of(
    circuit: &Circuit,
    section: PropertySection,
    text: &[u8],
) -> Result<u32, PropertyFault>
    ensures position { IfOk result (IsPosition circuit.now section text.now) }
    ensures fault { IfErr result (RefusesProperty circuit.now section text.now) }
{
    match number_of(section, text) {
        Some(position) => Ok(position),
        None => position_named(circuit, section, text),
    }
}
