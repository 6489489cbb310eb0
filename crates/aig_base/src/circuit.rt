//! Circuits.
ghost use Rattle.std.specs.Prelude.{◌≡◌, ◌<◌, ◌≤◌, Contains, IsTrue, IfSome, IfNone, option_copied};
ghost use Rattle.aig_base.specs.Circuit.{IsCircuit};
ghost use Rattle.aig_base.specs.Definition.{Defines, IsFree, IsInOrder};
ghost use Rattle.aig_base.specs.Levels.{AreLevels};
ghost use Rattle.aig_base.specs.Renumbered.{IsBinaryReady};

pub(crate) mod definition;
pub(crate) mod definitions;
mod gate_of;
pub(crate) mod gate_variables;
pub(crate) mod laws;

use crate::circuit::definition::Definition;
use crate::circuit::definitions::Definitions;
use aig_parts::{Gate, Latch, List, Lit, Raw, Symbols};
use std::marker::Model;

/// A circuit: parts that are formed, sound and acyclic. `Circuit::check` makes one, and `Circuit::of_ready` one of
/// parts that are known to be one.
#[derive(Debug)]
pub struct Circuit {
    pub(crate) raw: Raw,
    pub(crate) definitions: Definitions,
    // The levels of its variables, where the check found them; a change drops them.
    pub(crate) levels: Option<Vec<u32>>,
}

// By hand: a value then ends in one call, which is one step of a proof (docs/PROOFS.md, Habits).
impl Drop for Circuit {
    fn drop(self) {
        let Circuit {
            raw: _,
            definitions: _,
            levels: _,
        } = self;
    }
}

impl Model for Circuit {
    ghost use Rattle.aig_parts.specs.declared.raw.Raw.{Raw};

    ghost Value = { Raw };

    ghost use Rattle.std.specs.Prelude.{IfSome};
    ghost use Rattle.aig_base.specs.Circuit.{IsCircuit};
    ghost use Rattle.aig_base.specs.Levels.{AreLevels};
    ghost use Rattle.aig_base.specs.state.Definitions.{AreDefinitionsOf};

    ghost view = { λ a. a.raw };

    ghost invariant = { λ a.
        IsCircuit a.raw × AreDefinitionsOf a.raw a.definitions × IfSome a.levels (λ l. AreLevels a.raw l.items) };
}

impl Circuit {
    /// The circuit of parts that are known to be one, and that a binary file can hold. Nothing is tested, in constant
    /// time and without memory.
    pub fn of_ready(raw: Raw) -> Circuit
        requires circuit { IsCircuit raw }
        requires ready { IsBinaryReady raw }
        ensures { result ≡ raw }
    {
        Circuit {
            raw,
            definitions: Definitions::InOrder,
            levels: None,
        }
    }

    /// What is known of every circuit: its parts are formed, sound and acyclic. It does nothing. A function calls it to
    /// use that in its proof, because a type shows what it keeps only by the contracts of its calls.
    pub fn facts(&self)
        ensures { IsCircuit self.now }
    {
        let _raw = &self.raw;
    }

    /// The greatest variable M.
    pub fn max_var(&self) -> u32
        ensures value { result ≡ self.now.max_var }
        ensures circuit { IsCircuit self.now }
    {
        self.raw.max_var
    }

    /// Whether the circuit keeps that its definitions are in order.
    pub(crate) fn keeps_order(&self) -> bool
        ensures { IsTrue result → IsInOrder self.now }
    {
        matches!(self.definitions, Definitions::InOrder)
    }

    /// The levels of the variables, if the circuit keeps them.
    pub(crate) fn kept_levels(&self) -> Option<&[u32]>
        ensures { IfSome result (λ levels. AreLevels self.now levels.now) }
    {
        match &self.levels {
            Some(levels) => Some(levels.as_slice()),
            None => None,
        }
    }

    /// The input literals in order.
    pub fn inputs(&self) -> &[Lit]
        ensures { result.now ≡ self.now.inputs }
    {
        self.raw.inputs.as_slice()
    }

    /// The latches in order.
    pub fn latches(&self) -> &[Latch]
        ensures { result.now ≡ self.now.latches }
    {
        self.raw.latches.as_slice()
    }

    /// The output literals in order.
    pub fn outputs(&self) -> &[Lit]
        ensures { result.now ≡ self.now.outputs }
    {
        self.raw.outputs.as_slice()
    }

    /// The literals of the bad state properties in order (AIGER 1.9).
    pub fn bad(&self) -> &[Lit]
        ensures { result.now ≡ self.now.bad }
    {
        self.raw.bad.as_slice()
    }

    /// The literals of the invariant constraints in order (AIGER 1.9).
    pub fn constraints(&self) -> &[Lit]
        ensures { result.now ≡ self.now.constraints }
    {
        self.raw.constraints.as_slice()
    }

    /// The justice properties in order, each with its literals (AIGER 1.9).
    pub fn justice(&self) -> &[List<Lit>]
        ensures { result.now ≡ self.now.justice }
    {
        self.raw.justice.as_slice()
    }

    /// The literals of the fairness constraints in order (AIGER 1.9).
    pub fn fairness(&self) -> &[Lit]
        ensures { result.now ≡ self.now.fairness }
    {
        self.raw.fairness.as_slice()
    }

    /// The gates, in the order in which the circuit holds them.
    pub fn gates(&self) -> &[Gate]
        ensures { result.now ≡ self.now.gates }
    {
        self.raw.gates.as_slice()
    }

    /// The symbols, in the order of the file.
    pub fn symbols(&self) -> &Symbols
        ensures { result.now ≡ self.now.symbols }
    {
        &self.raw.symbols
    }

    /// The bytes of the comment, if there is one.
    pub fn comment(&self) -> Option<&[u8]>
        ensures { option_copied result ≡ self.now.comment }
    {
        match &self.raw.comment {
            Some(bytes) => Some(bytes.as_slice()),
            None => None,
        }
    }

    /// What defines a variable; nothing defines variable 0, one over M, and one that no input, latch or gate has.
    pub fn definition(&self, variable: u32) -> Option<Definition>
        ensures found { IfSome result (Defines self.now variable) }
        ensures none { IfNone result (IsFree self.now variable) }
    {
        self.definitions.get(&self.raw, variable)
    }
}
