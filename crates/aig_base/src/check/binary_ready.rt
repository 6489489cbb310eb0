//! Whether a circuit is one that a binary file can hold.
ghost use Rattle.std.specs.Prelude.{◌≡◌, ℕ, ◌+◌, ◌*◌, ◌^◌, ◌<◌, ◌≤◌, ◌↔◌, length, map, All, IsTrue};
ghost use Rattle.aig_base.specs.Definition.{IsInOrder};
ghost use Rattle.aig_parts.specs.Formed.{limit};
ghost use Rattle.aig_base.specs.state.BinaryReady.{SectionsInOrder};
ghost use Rattle.aig_base.specs.Renumbered.{evens_from, IsBinaryReady};

use crate::circuit::Circuit;
use aig_parts::{Gate, Latch, Lit};

/// Whether the literal is the positive one of a variable.
pub(crate) fn is_even_of(literal: Lit, variable: usize) -> bool
    requires { variable < 2 ^ 32 }
    ensures { IsTrue result ↔ (literal ≡ 2 * variable) }
{
    literal.value() as usize == 2 * variable
}

/// Whether the inputs are the even literals from this variable on.
pub(crate) fn inputs_in_order(inputs: &[Lit], first: usize) -> bool
    requires { first + length inputs.now < 2 ^ 32 }
    ensures { IsTrue result ↔ (inputs.now ≡ evens_from first (length inputs.now)) }
{
    for (place, literal) in inputs.iter().enumerate() {
        if !is_even_of(*literal, first + place) {
            return false;
        }
    }
    true
}

/// Whether the latches go on in that order.
pub(crate) fn latches_in_order(latches: &[Latch], first: usize) -> bool
    requires { first + length latches.now < 2 ^ 32 }
    ensures { IsTrue result ↔ (map (λ x. x.lit) latches.now ≡ evens_from first (length latches.now)) }
{
    for (place, latch) in latches.iter().enumerate() {
        if !is_even_of(latch.lit, first + place) {
            return false;
        }
    }
    true
}

// Whether the left sides go on in that order.
fn left_sides_in_order(gates: &[Gate], first: usize) -> bool
    requires { first + length gates.now < 2 ^ 32 }
    ensures { IsTrue result ↔ (map (λ g. g.lhs) gates.now ≡ evens_from first (length gates.now)) }
{
    for (place, gate) in gates.iter().enumerate() {
        if !is_even_of(gate.lhs, first + place) {
            return false;
        }
    }
    true
}

// Whether in each gate the sides go down.
fn sides_go_down(gates: &[Gate]) -> bool
    ensures { IsTrue result ↔ All (λ g. (g.rhs0 < g.lhs) × (g.rhs1 ≤ g.rhs0)) gates.now }
{
    gates.iter().all(|gate| gate.rhs0.value() < gate.lhs.value()
        && gate.rhs1.value() <= gate.rhs0.value())
}

/// Whether inputs, latches and left sides are in order the literals of the variables 1 to `max_var`.
pub(crate) fn definitions_in_order(
    inputs: &[Lit],
    latches: &[Latch],
    gates: &[Gate],
    max_var: u32,
) -> bool
    requires inputs { length inputs.now ≤ limit }
    requires latches { length latches.now ≤ limit }
    requires gates { length gates.now ≤ limit }
    ensures { IsTrue result ↔ SectionsInOrder inputs.now latches.now gates.now max_var }
{
    max_var as usize == inputs.len() + latches.len() + gates.len()
        && inputs_in_order(inputs, 1)
        && latches_in_order(latches, 1 + inputs.len())
        && left_sides_in_order(gates, 1 + inputs.len() + latches.len())
}

// Whether the definitions of a circuit are in order. Where it keeps that they are, nothing is looked at.
fn are_in_order(circuit: &Circuit) -> bool
    ensures { IsTrue result ↔ IsInOrder circuit.now }
{
    let max_var = circuit.max_var();
    let gates = circuit.gates();
    circuit.keeps_order()
        || definitions_in_order(circuit.inputs(), circuit.latches(), gates, max_var)
}

/// Whether a binary file can hold the circuit as it stands (AIGER 1.0, binary format). Then inputs, latches and left
/// sides, in this order, are the literals 2, 4, .., 2M. In each gate the left side is the greatest, and the right
/// sides do not rise. One pass over each section at most, and no memory.
pub fn is_binary_ready(circuit: &Circuit) -> bool
    ensures { IsTrue result ↔ IsBinaryReady circuit.now }
{
    are_in_order(circuit) && sides_go_down(circuit.gates())
}
