//! Tables of three-valued cells that count their evaluations.
ghost use Rattle.std.specs.Prelude.{◌≡◌, ◌≢◌, ℕ, ◌-◌, ◌+◌, ◌*◌, ◌<◌, ◌≤◌, ◌↔◌, Bool, true, false, List, [], ◌∷◌};
ghost use Rattle.std.specs.Prelude.{◌++◌, length, map, take, All, IsTrue, IfOk, OnOk, OnErr, Some, slice_get};
ghost use Rattle.std.specs.Prelude.{slice_index_or};
ghost use Rattle.aig_parts.specs.Formed.{limit};
ghost use Rattle.aig_parts.specs.declared.ternary.Tern.{Tern};
ghost use Rattle.aig_parts.specs.declared.ternary.Tern.TheVariants.{X};
ghost use Rattle.aig_parts.specs.Limits.{cell_limit, frame_limit};
ghost use Rattle.aig_parts.specs.Literal.{variable};
ghost use Rattle.aig_values.specs.Cells.{literal_value, gate_value, fresh_row, with_new_cell, with_swept_row};
ghost use Rattle.aig_values.specs.Cells.{HasCells};
ghost use Rattle.aig_values.specs.InputRows.{with_cell, row_at};
ghost use Rattle.aig_values.specs.TraceText.{literal_character};

pub(crate) mod plane_grid;
pub(crate) mod row_grid;

use crate::code::Code;
use aig_bytes::Memory;
use aig_parts::{Gate, Lit, Tern};
use std::alloc::Global;

/// A row of values per frame, a value per variable. Only `evaluate` and `sweep` change the cell of a gate in a row that
/// is there, and the count of evaluations: by one, and by the number of gates.
pub trait Grid: Sized + Drop {
    /// The values, row by row.
    ghost cells: { Self → List (List Tern) };

    /// Which variables are gates.
    ghost gate_flags: { Self → List Bool };

    /// How many evaluations there were.
    ghost evaluations: { Self → ℕ };

    /// Whether one more gate fits without memory.
    ghost has_room: { Self → Bool };

    /// A grid without rows, for variables of which these are gates. Variable 0 is there, and no gate.
    fn new(alloc: Global, gates: &[bool]) -> Result<Self, Memory>
        requires constant { slice_get gates.now 0 ≡ Some false }
        requires limit { length gates.now ≤ limit + 1 }
        ensures cells { IfOk result (λ grid. Self.cells grid ≡ []) }
        ensures gates { IfOk result (λ grid. Self.gate_flags grid ≡ gates.now) }
        ensures count { IfOk result (λ grid. evaluations grid ≡ 0) };

    /// The number of rows.
    fn rows(&self) -> u32
        ensures { result ≡ length (cells self.now) };

    /// The value of a variable at a frame.
    fn get(&self, frame: u32, variable: u32) -> Tern
        requires frame { frame < length (cells self.now) }
        requires variable { variable < length (gate_flags self.now) }
        ensures { slice_get (row_at (cells self.now) frame) variable ≡ Some result };

    /// The value of a literal at a frame.
    fn literal(&self, frame: u32, literal: Lit) -> Tern
        requires frame { frame < length (cells self.now) }
        requires variable { variable literal < length (gate_flags self.now) }
        ensures { result ≡ literal_value (row_at (cells self.now) frame) literal }
    {
        Code::of(self.get(frame, literal.var()))
            .with_sign(literal.is_neg())
            .value()
    }

    /// The character of the value of a literal at a frame: `0`, `1` or `x`.
    fn character(&self, frame: u32, literal: Lit) -> u8
        requires frame { frame < length (cells self.now) }
        requires variable { variable literal < length (gate_flags self.now) }
        ensures { result ≡ literal_character (row_at (cells self.now) frame) literal }
    {
        Code::of(self.get(frame, literal.var())).character(literal.is_neg())
    }

    /// Writes the characters of the values of literals at a frame.
    fn spell(&self, frame: u32, text: &mut [u8], literals: &[Lit])
        requires frame { frame < length (cells self.now) }
        requires variables { All (λ l. variable l < length (gate_flags self.now)) literals.now }
        requires room { length text.old ≡ length literals.now }
        ensures { text.new ≡ map (literal_character (row_at (cells self.now) frame)) literals.now }
    {
        for (place, literal) in literals.iter().enumerate() {
            text[place] = self.character(frame, *literal);
        }
    }

    /// Replaces the value of an input or a latch at a frame.
    fn put_source(&mut self, frame: u32, variable: u32, value: Tern)
        requires frame { frame < length (cells self.old) }
        requires positive { 0 < variable }
        requires source { slice_get (gate_flags self.old) variable ≡ Some false }
        ensures cells { Self.cells self.new ≡ with_cell (Self.cells self.old) frame variable value }
        ensures gates { gate_flags self.new ≡ gate_flags self.old }
        ensures count { evaluations self.new ≡ evaluations self.old }
        ensures room { has_room self.new ≡ has_room self.old };

    /// Writes the AND of the right sides' values at a frame to the gate's cell, and answers whether the cell changed.
    fn evaluate(&mut self, frame: u32, gate: Gate) -> bool
        requires frame { frame < length (cells self.old) }
        requires gate { HasCells (gate_flags self.old) gate }
        ensures cells { Self.cells self.new
            ≡ with_cell (Self.cells self.old) frame (variable gate.lhs) (gate_value (row_at (Self.cells self.old)
            frame) gate) }
        ensures changed { IsTrue result
            ↔ (slice_index_or (row_at (Self.cells self.new) frame) (variable gate.lhs) X
            ≢ slice_index_or (row_at (Self.cells self.old) frame) (variable gate.lhs) X) }
        ensures gates { gate_flags self.new ≡ gate_flags self.old }
        ensures count { evaluations self.new ≡ evaluations self.old + 1 }
        ensures room { has_room self.new ≡ has_room self.old };

    /// Evaluates gates at a frame one after the other, in the order of the slice.
    fn sweep(&mut self, frame: u32, gates: &[Gate])
        requires frame { frame < length (cells self.old) }
        requires gates { All (HasCells (gate_flags self.old)) gates.now }
        ensures cells { Self.cells self.new ≡ with_swept_row (Self.cells self.old) frame gates.now }
        ensures gates { gate_flags self.new ≡ gate_flags self.old }
        ensures count { evaluations self.new ≡ evaluations self.old + length gates.now }
        ensures room { has_room self.new ≡ has_room self.old }
    {
        for gate in gates {
            self.evaluate(frame, *gate);
        }
    }

    /// Appends a row: x everywhere, 0 at variable 0. Rows and cells stay within a bench's limits.
    fn add_row(&mut self) -> Result<(), Memory>
        requires rows { length (cells self.old) < frame_limit }
        requires limit { (length (cells self.old) + 1) * length (gate_flags self.old) ≤ cell_limit }
        ensures ok { OnOk result (cells self.new ≡ cells self.old ++ fresh_row (length (gate_flags self.old)) ∷ []) }
        ensures err { OnErr result (cells self.new ≡ cells self.old) }
        ensures gates { gate_flags self.new ≡ gate_flags self.old }
        ensures count { evaluations self.new ≡ evaluations self.old };

    /// Takes the last row off. The caller knows that there is one.
    fn drop_row(&mut self)
        requires { 0 < length (cells self.old) }
        ensures cells { Self.cells self.new ≡ take (length (Self.cells self.old) - 1) (Self.cells self.old) }
        ensures gates { gate_flags self.new ≡ gate_flags self.old }
        ensures count { evaluations self.new ≡ evaluations self.old }
        ensures room { has_room self.new ≡ has_room self.old };

    /// Makes room for one more gate, which is there until the next `add_row` or `add_gate`; nothing else changes. The
    /// caller knows that a bench has fewer variables than its limit.
    fn reserve_gate(&mut self) -> Result<(), Memory>
        requires { length (gate_flags self.old) < limit + 1 }
        ensures ok { OnOk result (IsTrue (has_room self.new)) }
        ensures err { OnErr result (has_room self.new ≡ has_room self.old) }
        ensures cells { Self.cells self.new ≡ Self.cells self.old }
        ensures gates { gate_flags self.new ≡ gate_flags self.old }
        ensures count { evaluations self.new ≡ evaluations self.old };

    /// Gives each row one more cell, x, whose variable is a gate. The caller knows that there is room. No memory.
    fn add_gate(&mut self)
        requires { IsTrue (has_room self.old) }
        ensures cells { Self.cells self.new ≡ map with_new_cell (Self.cells self.old) }
        ensures gates { gate_flags self.new ≡ gate_flags self.old ++ true ∷ [] }
        ensures count { evaluations self.new ≡ evaluations self.old };
}
