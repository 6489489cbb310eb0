//! The cells of a new frame, evaluated in a topological order.
ghost use Rattle.std.specs.Prelude.{◌≡◌, ℕ, ◌<◌, length, Some, slice_get};
ghost use Rattle.aig_parts.specs.Literal.{variable};
ghost use Rattle.aig_values.specs.InputRows.{row_at};
ghost use Rattle.aig_bench.specs.state.Current.{HoldsInputsInPair, HoldsLatchesInPair, IsCurrentRow, IsNext, IsSourceValue};
ghost use Rattle.aig_bench.specs.state.Filled.{FillsRow, FillsSource, KeepsRowValues};
ghost use Rattle.aig_bench.specs.state.SweepOrder.{IsKnownOrder};

use crate::engine::Engine;
use aig_base::{Latch, Tern};
use aig_values::Grid;

impl<G: Grid> Engine<G> {
    // Writes the value of an input or a latch; nothing is queued.
    fn fill_source(&mut self, frame: u32, variable: u32, value: Tern)
        requires { IsSourceValue self.old.pair frame variable value }
        ensures { FillsSource frame variable self.old self.new }
    {
        self.grid.put_source(frame, variable, value);
    }

    // Writes an input's value at a frame.
    fn fill_input(&mut self, frame: u32, position: u32)
        requires frame { frame < length self.old.pair.rows }
        requires position { position < length self.old.pair.circuit.inputs }
        ensures { (l : ℕ) → slice_get self.old.pair.circuit.inputs position ≡ Some l
            → FillsSource frame (variable l) self.old self.new }
    {
        let input = self.driven.circuit.inputs()[position as usize];
        let value = self.driven.stimulus.get(frame, position);
        self.fill_source(frame, input.var(), value);
    }

    // Writes the value of a latch at a frame, by its reset or by the frame before.
    fn fill_latch(&mut self, frame: u32, latch: Latch)
        requires next { IsNext self.old.pair frame self.old.cells }
        requires latch { (i : ℕ) × (slice_get self.old.pair.circuit.latches i ≡ Some latch) }
        ensures { FillsSource frame (variable latch.lit) self.old self.new }
    {
        let variable = latch.lit.var();
        let value = self.latch_value(frame, latch);
        self.fill_source(frame, variable, value);
    }

    // Writes the inputs' values at a frame.
    fn fill_inputs(&mut self, frame: u32)
        requires { frame < length self.old.pair.rows }
        ensures fills { FillsRow frame 0 self.old self.new }
        ensures inputs { HoldsInputsInPair self.old.pair frame (row_at self.new.cells frame) }
    {
        for position in 0..self.driven.stimulus.width() {
            self.fill_input(frame, position);
        }
    }

    // Writes the latches' values at a frame.
    fn fill_latches(&mut self, frame: u32)
        requires { IsNext self.old.pair frame self.old.cells }
        ensures fills { FillsRow frame 0 self.old self.new }
        ensures keeps { KeepsRowValues self.old.pair frame (row_at self.old.cells frame) (row_at self.new.cells frame) }
        ensures latches { HoldsLatchesInPair self.old.pair frame (row_at self.new.cells frame) }
    {
        for position in 0..self.driven.circuit.latches().len() {
            let latch = self.driven.circuit.latches()[position];
            self.fill_latch(frame, latch);
        }
    }

    /// Writes all values of a frame, by the frame before: each gate is evaluated once, and nothing is queued.
    pub fn fill(&mut self, frame: u32)
        requires known { IsKnownOrder self.old.way }
        requires next { IsNext self.old.pair frame self.old.cells }
        ensures fills { FillsRow frame (length self.old.pair.circuit.gates) self.old self.new }
        ensures current { IsCurrentRow self.old.pair frame (row_at self.new.cells frame) }
    {
        self.fill_inputs(frame);
        self.fill_latches(frame);
        self.order
            .sweep(&mut self.grid, &self.driven.circuit, frame);
    }
}
