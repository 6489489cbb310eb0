//! The greatest level and the greatest fan-out of a circuit.
ghost use Rattle.std.specs.Prelude.{◌≡◌, ℕ, ◌+◌, ◌<◌, ◌≤◌, ◌^◌, length, slice_index, All, Contains, IfOk};
ghost use Rattle.std.specs.Prelude.{if◌then◌else◌};
ghost use Rattle.aig_base.specs.Greatest.{IsGreatestFanOut, IsGreatestLevel, fan_out, reads};
ghost use Rattle.aig_base.specs.Levels.{AreLevels};
ghost use Rattle.aig_parts.specs.Literal.{variable};

use crate::circuit::Circuit;
use crate::level::Levels;
use aig_bytes::Memory;
use aig_parts::Gate;
use std::alloc::Global;

// The greatest of the gates' levels; 0 where there is no gate.
fn greatest_level(circuit: &Circuit, levels: &[u32]) -> u32
    requires { AreLevels circuit.now levels.now }
    ensures { IsGreatestLevel circuit.now result }
{
    circuit.facts();
    let mut greatest = 0;
    for gate in circuit.gates() {
        let variable = gate.lhs.var();
        greatest = levels[variable as usize].max(greatest);
    }
    greatest
}

impl Levels {
    /// The greatest level of a circuit's variables, of which these are the levels; 0 where there is no gate. Linear in
    /// the gates, and no memory.
    pub fn greatest(&self, circuit: &Circuit) -> u32
        requires { AreLevels circuit.now self.now }
        ensures { IsGreatestLevel circuit.now result }
    {
        greatest_level(circuit, &self.levels)
    }
}

// Counts a gate at each variable that it reads, once where both sides are of one.
fn count_gate(counts: &mut [u32], gate: &Gate)
    requires first { variable gate.now.rhs0 < length counts.old }
    requires second { variable gate.now.rhs1 < length counts.old }
    requires room { (v : ℕ) → slice_index counts.old v + 1 < 2 ^ 32 }
    ensures { (v : ℕ) → slice_index counts.new v
        ≡ slice_index counts.old v + (if reads v gate.now then 1 else 0) }
{
    let first = gate.rhs0.var();
    let second = gate.rhs1.var();
    counts[first as usize] += 1;
    if second != first {
        counts[second as usize] += 1;
    }
}

// For each variable how many gates read it.
fn fan_outs(alloc: Global, circuit: &Circuit) -> Result<Vec<u32>, Memory>
    ensures size { IfOk result (λ counts. 0 < length counts.items) }
    ensures each { IfOk result (λ counts. (v : ℕ) → slice_index counts.items v ≡ fan_out circuit.now v) }
{
    let max_var = circuit.max_var();
    let mut counts = vec![in alloc; 0; max_var as usize + 1]?;
    for gate in circuit.gates() {
        count_gate(&mut counts, gate);
    }
    Ok(counts)
}

// The greatest of numbers.
fn greatest_of(numbers: &[u32]) -> u32
    requires { 0 < length numbers.now }
    ensures reached { Contains numbers.now result }
    ensures bound { All (λ n. n ≤ result) numbers.now }
{
    let mut greatest = numbers[0];
    for number in numbers {
        greatest = greatest.max(*number);
    }
    greatest
}

/// How many gates read the variable that most gates read, a gate that reads it at both sides once; 0 where there is no
/// gate. Linear in the circuit, with a number for each variable.
pub fn greatest_fan_out(alloc: Global, circuit: &Circuit) -> Result<u32, Memory>
    ensures { IfOk result (IsGreatestFanOut circuit.now) }
{
    let counts = fan_outs(alloc, circuit)?;
    Ok(greatest_of(&counts))
}
