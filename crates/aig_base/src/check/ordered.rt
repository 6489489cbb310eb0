//! The test of parts whose definitions are in order, each gate after all that it reads, as in every binary file.
ghost use Rattle.std.specs.Prelude.{◌≡◌, ◌↔◌, ◌+◌, ◌*◌, ◌^◌, ◌<◌, ◌≤◌, length, map, All, IsTrue, IfErr, OnOk};
ghost use Rattle.aig_base.specs.Circuit.{IsCircuit};
ghost use Rattle.aig_base.specs.Definition.{IsInOrder};
ghost use Rattle.aig_base.specs.FirstFault.{IsFirstFault};
ghost use Rattle.aig_parts.specs.Formed.{CountsFit, IsFormed, limit};
ghost use Rattle.aig_parts.specs.Literal.{variable};
ghost use Rattle.aig_base.specs.state.LeastFaulty.{ReadsSmaller};
ghost use Rattle.aig_base.specs.state.BinaryReady.{SectionsInOrder};
ghost use Rattle.aig_base.specs.Renumbered.{evens_from};

use crate::check::binary_ready::{inputs_in_order, is_even_of, latches_in_order};
use crate::check::least_faulty::least_bad_reset;
use crate::check::sections_are_in_range;
use aig_parts::{Fault, Gate, Latch, Lit, Raw};

// Whether a gate whose left side is even reads smaller variables alone. No literal has to be halved.
fn reads_below(gate: Gate) -> bool
    requires { gate.lhs ≡ 2 * variable gate.lhs }
    ensures { IsTrue result ↔ ReadsSmaller gate }
{
    let lhs = gate.lhs.value();
    gate.rhs0.value() < lhs && gate.rhs1.value() < lhs
}

// Whether the left sides are the even literals from this variable on, and each gate reads smaller variables alone.
fn gates_ascend(gates: &[Gate], first: usize) -> bool
    requires { first + length gates.now < 2 ^ 32 }
    ensures { IsTrue result
        ↔ (map (λ g. g.lhs) gates.now ≡ evens_from first (length gates.now)) × All ReadsSmaller gates.now }
{
    for (place, gate) in gates.iter().enumerate() {
        if !is_even_of(gate.lhs, first + place) {
            return false;
        }
        if !reads_below(*gate) {
            return false;
        }
    }
    true
}

// Whether inputs, latches and left sides are in order the literals of the variables 1 to `max_var`, and each gate reads
// smaller variables alone.
fn sections_ascend(inputs: &[Lit], latches: &[Latch], gates: &[Gate], max_var: u32) -> bool
    requires inputs { length inputs.now ≤ limit }
    requires latches { length latches.now ≤ limit }
    requires gates { length gates.now ≤ limit }
    ensures { IsTrue result
        ↔ SectionsInOrder inputs.now latches.now gates.now max_var × All ReadsSmaller gates.now }
{
    max_var as usize == inputs.len() + latches.len() + gates.len()
        && inputs_in_order(inputs, 1)
        && latches_in_order(latches, 1 + inputs.len())
        && gates_ascend(gates, 1 + inputs.len() + latches.len())
}

/// Whether the definitions are in order, and each gate reads smaller variables alone. One pass, and no memory.
pub(crate) fn is_ascending(raw: &Raw) -> bool
    requires { CountsFit raw.now }
    ensures { IsTrue result ↔ IsInOrder raw.now × All ReadsSmaller raw.now.gates }
{
    let gates = raw.gates.as_slice();
    sections_ascend(
        raw.inputs.as_slice(),
        raw.latches.as_slice(),
        gates,
        raw.max_var,
    )
}

/// The test of such parts, or their first fault. Nothing but the range of what the gates do not read, and the resets,
/// is left to test.
pub(crate) fn test_ascending(raw: &Raw) -> Result<(), Fault>
    requires formed { IsFormed raw.now }
    requires order { IsInOrder raw.now }
    requires smaller { All ReadsSmaller raw.now.gates }
    ensures circuit { OnOk result (IsCircuit raw.now) }
    ensures fault { IfErr result (IsFirstFault raw.now) }
{
    if !sections_are_in_range(raw) {
        return Err(Fault::Range);
    }
    match least_bad_reset(raw.latches.as_slice()) {
        Some(variable) => Err(Fault::Reset(variable)),
        None => Ok(()),
    }
}
