//! Rows of cells, however they are kept.
ghost use Rattle.std.specs.Prelude.{◌≡◌, ◌≢◌, ℕ, ◌+◌, ◌<◌, ◌≤◌, ◌↔◌, List, Some, length, map, fold, All, IfOk, OnOk};
ghost use Rattle.std.specs.Prelude.{slice_get, slice_set, slice_index_or, IsTrue};
ghost use Rattle.aig_parts.specs.Formed.{limit};
ghost use Rattle.aig_parts.specs.declared.ternary.Tern.{Tern};
ghost use Rattle.aig_parts.specs.declared.ternary.Tern.TheVariants.{X};
ghost use Rattle.aig_parts.specs.Literal.{variable};
ghost use Rattle.aig_values.specs.Cells.{fresh_row, gate_value, literal_value, with_gate_value, HasVariablesBelow};
ghost use Rattle.aig_values.specs.TraceText.{literal_character};
ghost use Rattle.aig_values.specs.state.Padded.{IsLengthened, IsRowSize};

use crate::code::Code;
use aig_parts::{Gate, Lit};
use std::alloc::{AllocError, Global};

/// A row of cells, as many as there is room for.
pub trait CellRow: Sized + Drop {
    // The values.
    ghost cells: { Self → List Tern };

    /// A row with room for this many cells at least: 0 at variable 0, x everywhere else.
    fn new(alloc: Global, size: usize) -> Result<Self, AllocError>
        requires { IsRowSize size }
        ensures { IfOk result (λ row. (room : ℕ) × (size ≤ room) × (cells row ≡ fresh_row room)) };

    /// A row as `new` makes it, in the memory of this one where it is used again.
    fn renewed(self, alloc: Global, size: usize) -> Result<Self, AllocError>
        requires { IsRowSize size }
        ensures { IfOk result (λ row. (room : ℕ) × (size ≤ room) × (cells row ≡ fresh_row room)) }
    {
        Self::new(alloc, size)
    }

    /// Adds cells, which are x, where there are not so many, at most one more than there are.
    fn make_room(&mut self, size: usize) -> Result<(), AllocError>
        requires more { size ≤ length (cells self.old) + 1 }
        requires limit { size ≤ limit + 1 }
        ensures cells { IsLengthened (Self.cells self.old) (Self.cells self.new) }
        ensures ok { OnOk result (size ≤ length (Self.cells self.new)) };

    /// The code of a variable.
    fn get(&self, variable: usize) -> Code
        requires { variable < length (cells self.now) }
        ensures { slice_get (cells self.now) variable ≡ Some result };

    /// The code of a literal.
    fn literal(&self, literal: Lit) -> Code
        requires { variable literal < length (cells self.now) }
        ensures { result ≡ literal_value (cells self.now) literal }
    {
        self.get(literal.var() as usize).with_sign(literal.is_neg())
    }

    /// Writes the code of a variable.
    fn set(&mut self, variable: usize, code: Code)
        requires { variable < length (cells self.old) }
        ensures { cells self.new ≡ slice_set (cells self.old) variable code };

    /// Writes the AND of the right sides' values to the gate's cell, and answers whether that changed.
    fn evaluate(&mut self, gate: Gate) -> bool
        requires { HasVariablesBelow (length (cells self.old)) gate }
        ensures cells { cells self.new ≡ with_gate_value (cells self.old) gate }
        ensures changed { IsTrue result
            ↔ (gate_value (cells self.old) gate ≢ slice_index_or (cells self.old) (variable gate.lhs) X) }
    {
        let code = self.literal(gate.rhs0).and(self.literal(gate.rhs1));
        let place = gate.lhs.var() as usize;
        let changed = code.differs(self.get(place));
        if changed {
            self.set(place, code);
        }
        changed
    }

    /// Writes the characters of the values of literals.
    fn spell(&self, text: &mut [u8], literals: &[Lit])
        requires cells { All (λ l. variable l < length (cells self.now)) literals.now }
        requires room { length text.old ≡ length literals.now }
        ensures { text.new ≡ map (literal_character (cells self.now)) literals.now };

    /// Evaluates gates one after the other, where there is a faster way than cell by cell and memory for it. Answers
    /// whether it did; else nothing changes. The codes are memory to work in.
    fn sweep_at_once(&mut self, _codes: &mut Vec<Code>, _gates: &[Gate]) -> bool
        requires { All (HasVariablesBelow (length (cells self.old))) _gates.now }
        ensures swept { IsTrue result → cells self.new ≡ fold with_gate_value (cells self.old) _gates.now }
        ensures same { (IsTrue result → ⊥) → cells self.new ≡ cells self.old }
    {
        false
    }
}
