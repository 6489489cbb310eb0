//! The header of a circuit's dump.
ghost use Rattle.std.specs.Prelude.{◌≡◌, IfOk};
ghost use Rattle.aig_sim.specs.DumpHeader.{header};

use aig_base::{Circuit, Memory};
use aig_names::{SignalCounts, dump_header};
use std::alloc::Global;

/// All that stands before the first frame of a dump.
pub fn circuit_header(alloc: Global, circuit: &Circuit) -> Result<Vec<u8>, Memory>
    ensures { IfOk result (λ text. text.items ≡ header circuit.now) }
{
    circuit.facts();
    let counts = SignalCounts {
        inputs: circuit.inputs().len() as u32,
        latches: circuit.latches().len() as u32,
        outputs: circuit.outputs().len() as u32,
        bad: circuit.bad().len() as u32,
        constraints: circuit.constraints().len() as u32,
    };
    dump_header(alloc, circuit.symbols(), &counts)
}
