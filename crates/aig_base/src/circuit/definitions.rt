//! What a circuit keeps of its definitions.
ghost use Rattle.std.specs.Prelude.{ℕ, ◌≡◌, ◌+◌, length, IfNone, IfSome, OnOk};
ghost use Rattle.aig_base.specs.Changes.{with_appended_gate};
ghost use Rattle.aig_base.specs.Circuit.{IsCircuit};
ghost use Rattle.aig_base.specs.Definition.{Defines, IsFree};
ghost use Rattle.aig_base.specs.state.Definitions.{HasNumber, IsNoNumber, FitsOneDefinition, AreDefinitionsOf};
ghost use Rattle.aig_parts.specs.Formed.{CountsFit};
ghost use Rattle.aig_parts.specs.declared.raw.Raw.{Raw};

use crate::circuit::definition::Definition;
use aig_bytes::Memory;
use aig_parts::Raw;

/// What defines each variable of a circuit.
#[derive(Drop, Debug)]
pub(crate) enum Definitions {
    /// Inputs, latches and left sides are in order the literals 2, 4, .., 2M, as in every binary file.
    InOrder,
    /// For each variable from 0 to M the number of its definition among all, or 0 where it has none.
    Listed(Vec<u32>),
}

/// The number of the first latch among all definitions. They are counted from 1: the inputs, the latches, the gates.
pub(crate) fn first_latch(raw: &Raw) -> u32
    requires { CountsFit raw.now }
    ensures { result ≡ 1 + length raw.now.inputs }
{
    1 + raw.inputs.len() as u32
}

/// The number of the first gate among all definitions.
pub(crate) fn first_gate(raw: &Raw) -> u32
    requires { CountsFit raw.now }
    ensures { result ≡ 1 + length raw.now.inputs + length raw.now.latches }
{
    first_latch(raw) + raw.latches.len() as u32
}

/// The number of a gate that comes after all definitions.
pub(crate) fn next_gate_number(raw: &Raw) -> u32
    requires { CountsFit raw.now }
    ensures { result ≡ 1 + length raw.now.inputs + length raw.now.latches + length raw.now.gates }
{
    first_gate(raw) + raw.gates.len() as u32
}

// The definition with this number.
fn numbered_definition(raw: &Raw, number: u32) -> Option<Definition>
    requires { CountsFit raw.now }
    ensures found { IfSome result (HasNumber raw.now number) }
    ensures none { IfNone result (IsNoNumber raw.now number) }
{
    let first_latch = first_latch(raw);
    let first_gate = first_gate(raw);
    if number == 0 {
        None
    } else if number < first_latch {
        Some(Definition::Input(number - 1))
    } else if number < first_gate {
        Some(Definition::Latch(number - first_latch))
    } else if number < next_gate_number(raw) {
        Some(Definition::Gate(number - first_gate))
    } else {
        None
    }
}

impl Definitions {
    /// What defines a variable of these parts. In order, its number is the variable.
    pub(crate) fn get(&self, raw: &Raw, variable: u32) -> Option<Definition>
        requires circuit { IsCircuit raw.now }
        requires describes { AreDefinitionsOf raw.now self.now }
        ensures found { IfSome result (Defines raw.now variable) }
        ensures none { IfNone result (IsFree raw.now variable) }
    {
        match self {
            Definitions::InOrder => numbered_definition(raw, variable),
            Definitions::Listed(table) => match table.get(variable as usize) {
                Some(number) => numbered_definition(raw, *number),
                None => None,
            },
        }
    }

    /// Makes room for one more definition.
    pub(crate) fn make_room(&mut self) -> Result<(), Memory>
        ensures describes { (raw : Raw) → AreDefinitionsOf raw self.old → AreDefinitionsOf raw self.new }
        ensures room { OnOk result (FitsOneDefinition self.new) }
    {
        if let Definitions::Listed(table) = self {
            table.reserve(1)?;
        }
        Ok(())
    }

    /// Adds the definition of a gate with this number, after the others.
    pub(crate) fn append_gate(&mut self, number: u32)
        requires room { FitsOneDefinition self.old }
        ensures { (raw : Raw) (r0 r1 : ℕ) → number ≡ 1 + length raw.inputs + length raw.latches + length raw.gates
            → AreDefinitionsOf raw self.old → AreDefinitionsOf (with_appended_gate raw r0 r1) self.new }
    {
        match self {
            Definitions::InOrder => {}
            Definitions::Listed(table) => table.push_reserved(number),
        }
    }
}
