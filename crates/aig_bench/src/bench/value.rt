//! Values by the cells of a grid.
ghost use Rattle.std.specs.Prelude.{◌≡◌, ℕ, ◌*◌, ◌<◌, length, Some, slice_get};
ghost use Rattle.aig_parts.specs.Literal.{variable};
ghost use Rattle.aig_values.specs.Cells.{literal_value};
ghost use Rattle.aig_values.specs.InputRows.{row_at};
ghost use Rattle.aig_bench.specs.BenchState.{HasValue};
ghost use Rattle.aig_bench.specs.state.Current.{IsNext};

use crate::engine::Engine;
use aig_base::{Latch, Lit, Tern};
use aig_values::{Grid, first_value};

/// The value of a literal by the cell of its variable. No jump depends on either.
pub fn literal_at<G: Grid>(grid: &G, frame: u32, literal: Lit) -> Tern
    requires frame { frame < length (G.cells grid.now) }
    requires variable { variable literal < length (G.gate_flags grid.now) }
    ensures { result ≡ literal_value (row_at (G.cells grid.now) frame) literal }
{
    grid.literal(frame, literal)
}

impl<G: Grid> Engine<G> {
    /// The value of a latch at a frame, by its reset or by the frame before.
    pub fn latch_value(&self, frame: u32, latch: Latch) -> Tern
        requires next { IsNext self.now.pair frame self.now.cells }
        requires latch { (i : ℕ) × (slice_get self.now.pair.circuit.latches i ≡ Some latch) }
        ensures value { HasValue self.now.pair frame (2 * variable latch.lit) result }
        ensures positive { 0 < variable latch.lit }
    {
        if frame == 0 {
            first_value(latch)
        } else {
            literal_at(&self.grid, frame - 1, latch.next)
        }
    }
}
