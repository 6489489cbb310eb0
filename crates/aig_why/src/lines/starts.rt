//! The latches that start as their resets say.
ghost use Rattle.std.specs.Prelude.{◌≡◌, ℕ, ◌<◌, ◌↔◌, length, Contains, IfOk, IsTrue};
ghost use Rattle.aig_why.specs.Lines.{IsResetValue};
ghost use Rattle.aig_why.specs.state.Naming.{StartsBy};

use crate::lines::values::latch_value;
use aig_base::{Latch, Lit, Memory, Tern};
use aig_bench::Bench;
use aig_values::Grid;
use std::alloc::Global;

/// Whether a value is that of a reset.
fn is_reset_value(reset: Lit, value: Tern) -> bool
    ensures { IsTrue result ↔ IsResetValue reset value }
{
    match reset.value() {
        0 => value == Tern::Zero,
        1 => value == Tern::One,
        _ => false,
    }
}

/// Whether a latch has at frame 0 the value of its reset among these.
fn starts_by_reset<G: Grid>(bench: &Bench<G>, resets: &[Latch], position: u32) -> bool
    requires frame { 0 < length bench.now.pair.rows }
    requires there { position < length bench.now.pair.circuit.latches }
    requires size { length resets.now ≡ length bench.now.pair.circuit.latches }
    ensures { IsTrue result ↔ StartsBy bench.now.pair resets.now position }
{
    // Its contract says that it is a circuit.
    bench.width();
    is_reset_value(
        resets[position as usize].reset,
        latch_value(bench, 0, position),
    )
}

/// The latches that start as their resets say, or the others.
pub(crate) fn latches_that_start<G: Grid>(
    alloc: Global,
    bench: &Bench<G>,
    resets: &[Latch],
    positions: &[u32],
    by_reset: bool,
) -> Result<Vec<u32>, Memory>
    requires frame { 0 < length bench.now.pair.rows }
    requires there { (p : ℕ) → Contains positions.now p → p < length bench.now.pair.circuit.latches }
    requires size { length resets.now ≡ length bench.now.pair.circuit.latches }
    ensures { IfOk result (λ found. (p : ℕ) → Contains found.items p
        ↔ (Contains positions.now p × (StartsBy bench.now.pair resets.now p ↔ IsTrue by_reset))) }
{
    let mut found = Vec::new(alloc);
    for position in positions {
        if starts_by_reset(bench, resets, *position) == by_reset {
            found.push(*position)?;
        }
    }
    Ok(found)
}
