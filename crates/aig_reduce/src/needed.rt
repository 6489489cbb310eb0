//! Values that a run needs, found by one look backward over its frames.
ghost use Rattle.std.specs.Prelude.{◌≡◌, ◌≢◌, ◌↔◌, ℕ, ◌<◌, ◌∷◌, length, Some, slice_get, unwrap_or, IfOk, IsTrue};
ghost use Rattle.aig_parts.specs.declared.ternary.Tern.{Tern};
ghost use Rattle.aig_base.specs.state.Marks.{IsMarked};
ghost use Rattle.aig_values.specs.InputRows.{row_at};
ghost use Rattle.aig_reduce.specs.state.Needed.{AreItsGates, AreNeededCells, AreNeededInputs, AreNeededStarts};
ghost use Rattle.aig_reduce.specs.state.Needed.{IsKnownAt};

mod kept;
mod marking;
mod marks;

use crate::place::ValuePlace;
use aig_base::{Circuit, Gate, Latch, List, Memory, Readers, Tern};
use aig_bench::Bench;
use aig_sim::{Grid, Stimulus};
use aig_values::gate_order::reordered;
use kept::{all_x, keep_cells, keep_inputs, keep_starts, rows_of_x};
use marks::{Marks, no_marks};
use std::alloc::Global;

/// Values of a witness that it needs, and x at all other places: no confirmed witness has x in their place, whichever
/// others are x. In `cells`, a row a frame, all variables that are x in no confirmed witness there are not x.
#[derive(Drop)]
pub struct Needed {
    pub start: Vec<Tern>,
    pub rows: Stimulus,
    pub cells: Stimulus,
}

/// What is known of a witness before its values are tried: the latches of its circuit with their own resets, who reads
/// its variables, and what the witness needs.
#[derive(Drop)]
pub struct Known {
    pub latches: Vec<Latch>,
    pub readers: Readers,
    pub needed: Needed,
}

/// Whether a value is x.
pub fn is_unknown(value: Tern) -> bool
    ensures { IsTrue result ↔ (value ≡ Tern.X) }
{
    matches!(value, Tern::X)
}

// The gates in the order in which each comes after those that it reads: the order, or the gates as they stand.
fn gates_in_turn<'a>(circuit: &'a Circuit, order: &'a Option<List<Gate>>) -> &'a [Gate]
    ensures { result.now ≡ unwrap_or order.now circuit.now.gates }
{
    match order {
        Some(gates) => gates.as_slice(),
        None => circuit.gates(),
    }
}

impl Needed {
    // Looks back over the frames, from the last one on. The gates are those of the circuit.
    fn look_back<G: Grid>(
        &mut self,
        bench: &Bench<G>,
        property: u32,
        gates: &[Gate],
        marks: &mut Marks,
    )
        requires property { property < length bench.now.pair.circuit.bad }
        requires gates { AreItsGates bench.now.pair.circuit gates.now }
        requires none { (v : ℕ) → IsMarked marks.old.here.items v → ⊥ }
        requires width { self.old.rows.width ≡ length bench.now.pair.circuit.inputs }
        requires rows { length self.old.rows.rows ≡ length bench.now.pair.rows }
        requires start { length self.old.start.items ≡ length bench.now.pair.circuit.latches }
        requires cells { length self.old.cells.rows ≡ length bench.now.pair.rows }
        ensures starts { AreNeededStarts bench.now.pair property self.old.start.items →
            AreNeededStarts bench.now.pair property self.new.start.items }
        ensures cells { AreNeededCells bench.now.pair property self.old.cells.rows →
            AreNeededCells bench.now.pair property self.new.cells.rows }
        ensures inputs { AreNeededInputs bench.now.pair property self.old.rows.rows →
            AreNeededInputs bench.now.pair property self.new.rows.rows }
    {
        let mut frame = bench.frames();
        'frames: while frame > 0 {
            frame -= 1;
            marks.look_at(bench, property, frame, gates);
            keep_inputs(bench, frame, &marks.here, &mut self.rows);
            keep_cells(bench, frame, &marks.here, &mut self.cells);
        }
        keep_starts(bench, &marks.here, &mut self.start);
    }

    /// The values of a run that one look back over its frames shows to be needed. The constraints and the property have
    /// to be 1. What is needed at a frame needs, at the frame before, the next states of its latches. A gate that is
    /// needed needs a side whose other side is not 0: if the side were x, the gate would be. Linear in the cells.
    pub fn of<G: Grid>(alloc: Global, bench: &Bench<G>, property: u32) -> Result<Needed, Memory>
        requires { property < length bench.now.pair.circuit.bad }
        ensures starts { IfOk result (λ needed. AreNeededStarts bench.now.pair property needed.start.items) }
        ensures inputs { IfOk result (λ needed. AreNeededInputs bench.now.pair property needed.rows.rows) }
        ensures cells { IfOk result (λ needed. AreNeededCells bench.now.pair property needed.cells.rows) }
    {
        let start = all_x(alloc, bench.circuit().latches().len())?;
        let rows = rows_of_x(alloc, bench.width(), bench.stimulus().frames())?;
        let size = bench.circuit().max_var() + 1;
        let cells = rows_of_x(alloc, size, bench.stimulus().frames())?;
        let mut needed = Needed { start, rows, cells };
        let mut marks = no_marks(alloc, size as usize)?;
        let order = reordered(alloc, bench.circuit())?;
        needed.look_back(
            bench,
            property,
            gates_in_turn(bench.circuit(), &order),
            &mut marks,
        );
        Ok(needed)
    }

    // The value at a place, and x where there is none.
    fn get(&self, place: ValuePlace) -> Tern
        ensures { result ≢ Tern.X →
            slice_get (row_at (self.now.start.items ∷ self.now.rows.rows) place.list) place.position ≡ Some result }
    {
        if place.list == 0 {
            return match self.start.get(place.position) {
                Some(value) => *value,
                None => Tern::X,
            };
        }
        if place.list > self.rows.frames() as usize
            || place.position >= self.rows.width() as usize
        {
            return Tern::X;
        }
        self.rows
            .get((place.list - 1) as u32, place.position as u32)
    }

    /// Whether a variable is known to be needed at a frame.
    pub fn has_cell(&self, frame: u32, variable: u32) -> bool
        ensures { IsTrue result → IsKnownAt self.now.cells.rows frame variable }
    {
        if frame >= self.cells.frames() {
            return false;
        }
        if variable >= self.cells.width() {
            return false;
        }
        !is_unknown(self.cells.get(frame, variable))
    }

    /// Whether the value at a place is known to be needed.
    pub fn has(&self, place: ValuePlace) -> bool
        ensures { IsTrue result → IsKnownAt (self.now.start.items ∷ self.now.rows.rows) place.list place.position }
    {
        !is_unknown(self.get(place))
    }
}
