//! The trace of a bench.
ghost use Rattle.std.specs.Prelude.{ℕ, List};
ghost use Rattle.aig_bytes.specs.Bytes.{Writes};
ghost use Rattle.aig_bench.specs.state.Current.{IsBench};
ghost use Rattle.aig_bench.specs.BenchState.{HasTrace};
ghost use Rattle.aig_bench.specs.state.DrivenCircuit.{pair_of};

use crate::engine::driven_circuit::DrivenCircuit;
use aig_base::{Io, Write};
use aig_values::{Grid, write_trace};

/// Writes the trace of all frames.
pub fn write_frames<G: Grid, W: Write>(
    out: &mut W,
    grid: &G,
    driven: &DrivenCircuit,
) -> Result<(), Io>
    requires { IsBench driven.now (G.gate_flags grid.now) (G.cells grid.now) }
    ensures { (text : List ℕ) × HasTrace (pair_of driven.now) text
        × Writes W.written W.failures out.old out.new text result }
{
    write_trace(out, &driven.circuit, grid)
}
