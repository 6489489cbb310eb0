//! Weights: about how many inputs and latches the value of a variable takes at a frame.
ghost use Rattle.std.specs.Prelude.{◌≡◌, ◌<◌, ◌+◌, length, All, IfOk};
ghost use Rattle.aig_values.specs.Cells.{HasVariablesBelow};

use crate::values::value_at;
use aig_base::{Gate, Memory, Tern};
use aig_bench::Bench;
use aig_values::Grid;
use std::alloc::Global;

/// The most that a variable weighs.
const MOST: u32 = 1 << 30;

fn sum(first: u32, second: u32) -> u32 {
    first.saturating_add(second).min(MOST)
}

// The weight of a gate by those of its sides: their sum where it is 1, the lighter of those that are 0 where it is 0,
// and the sum of those that are x where it is x.
fn gate_weight(value0: Tern, value1: Tern, first: u32, second: u32) -> u32 {
    match value0 {
        Tern::Zero => match value1 {
            Tern::Zero => first.min(second),
            Tern::One => first,
            Tern::X => first,
        },
        Tern::One => match value1 {
            Tern::Zero => second,
            Tern::One => sum(first, second),
            Tern::X => second,
        },
        Tern::X => match value1 {
            Tern::Zero => second,
            Tern::One => first,
            Tern::X => sum(first, second),
        },
    }
}

/// Weights before any frame: 0 for variable 0, 1 for each other.
pub fn new_weights(alloc: Global, size: usize) -> Result<Vec<u32>, Memory>
    requires { 0 < size }
    ensures { IfOk result (λ weights. length weights.items ≡ size) }
{
    let mut weights = vec![in alloc; 1; size]?;
    weights[0] = 0;
    Ok(weights)
}

// Weighs a gate by the values of its sides.
fn weigh_gate(gate: Gate, value0: Tern, value1: Tern, weights: &mut Vec<u32>)
    requires { HasVariablesBelow (length weights.old.items) gate }
    ensures { length weights.new.items ≡ length weights.old.items }
{
    let first = weights[gate.rhs0.var() as usize];
    let second = weights[gate.rhs1.var() as usize];
    weights[gate.lhs.var() as usize] = gate_weight(value0, value1, first, second);
}

/// Weighs the gates at a frame, each after those that it reads. Linear in the gates.
pub fn weigh<G: Grid>(bench: &Bench<G>, frame: u32, gates: &[Gate], weights: &mut Vec<u32>)
    requires frame { frame < length bench.now.pair.rows }
    requires gates { All (HasVariablesBelow (length weights.old.items)) gates.now }
    requires size { length weights.old.items ≡ bench.now.pair.circuit.max_var + 1 }
    ensures { length weights.new.items ≡ length weights.old.items }
{
    for gate in gates {
        let value0 = value_at(bench, frame, gate.rhs0);
        let value1 = value_at(bench, frame, gate.rhs1);
        weigh_gate(*gate, value0, value1, weights);
    }
}
