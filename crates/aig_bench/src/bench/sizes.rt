//! The sizes of a bench: its width, and the number of its cells.
ghost use Rattle.std.specs.Prelude.{◌≡◌, ◌≢◌, ◌+◌, ◌*◌, ◌<◌, ◌↔◌, length, IsErrOf, OnOk};
ghost use Rattle.aig_base.specs.Circuit.{IsCircuit};
ghost use Rattle.aig_parts.specs.Limits.{cell_limit};
ghost use Rattle.aig_bench.specs.state.DrivenCircuit.{IsDriven};

use crate::bench::fault::BenchFault;
use aig_base::Circuit;
use aig_values::Stimulus;

/// The greatest number of cells of a bench: variables times frames.
pub const CELLS: u64 = 67_108_864;

/// The number of cells of so many frames.
pub fn cells(circuit: &Circuit, frames: u32) -> u64
    ensures count { result ≡ (circuit.now.max_var + 1) * frames }
    ensures circuit { IsCircuit circuit.now }
{
    (u64::from(circuit.max_var()) + 1) * u64::from(frames)
}

/// The first fault of the sizes: the stimulus's width, then the number of cells.
pub fn check_sizes(circuit: &Circuit, stimulus: &Stimulus) -> Result<(), BenchFault>
    ensures width { IsErrOf result BenchFault.Width ↔ (stimulus.now.width ≢ length circuit.now.inputs) }
    ensures limit { IsErrOf result BenchFault.Limit ↔ (stimulus.now.width ≡ length circuit.now.inputs)
        × (cell_limit < (circuit.now.max_var + 1) * length stimulus.now.rows) }
    ensures memory { IsErrOf result BenchFault.Memory → ⊥ }
    ensures driven { OnOk result (IsDriven (record { circuit = circuit.now; stimulus = stimulus.now })) }
{
    if stimulus.width() as usize != circuit.inputs().len() {
        return Err(BenchFault::Width);
    }
    if cells(circuit, stimulus.frames()) > CELLS {
        return Err(BenchFault::Limit);
    }
    Ok(())
}
