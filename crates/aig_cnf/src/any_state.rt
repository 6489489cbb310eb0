//! A circuit that starts in any state.
ghost use Rattle.std.specs.Prelude.{◌≡◌, ◌<◌, Some, length, slice_get};
ghost use Rattle.aig_cnf.specs.Query.{from_any_state};

use aig_base::{Circuit, Latch, Tern};

// The latch at a position.
fn latch_at(circuit: &Circuit, position: usize) -> Latch
    requires { position < length circuit.now.latches }
    ensures { slice_get circuit.now.latches position ≡ Some result }
{
    circuit.latches()[position]
}

// Lets each latch of a circuit start at any value. It takes no memory.
pub(crate) fn start_in_any_state(circuit: &mut Circuit)
    ensures { circuit.new ≡ from_any_state circuit.old }
{
    for position in 0..circuit.latches().len() {
        let latch = latch_at(circuit, position);
        circuit.replace_reset(latch.lit, Tern::X);
    }
}
