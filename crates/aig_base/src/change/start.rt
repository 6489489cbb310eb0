//! A circuit that starts elsewhere.
ghost use Rattle.std.specs.Prelude.{◌≡◌, length};
ghost use Rattle.aig_base.specs.Resets.{HasOtherResets};
ghost use Rattle.aig_base.specs.Value.{start_of};

use crate::circuit::Circuit;
use aig_parts::Tern;

/// Lets each latch of a circuit start at a value.
pub fn start_at(circuit: &mut Circuit, start: &[Tern])
    requires { length start.now ≡ length circuit.old.latches }
    ensures resets { HasOtherResets circuit.old circuit.new }
    ensures start { start_of circuit.new ≡ start.now }
{
    for position in 0..start.len() {
        // Its contract says that it is a circuit.
        circuit.facts();
        let latch = circuit.latches()[position].lit;
        circuit.replace_reset(latch, start[position]);
    }
}
