//! Latches that keep their values.
ghost use Rattle.std.specs.Prelude.{◌<◌, ◌↔◌, length, All, IsTrue};
ghost use Rattle.aig_causes.specs.Causes.{moment};
ghost use Rattle.aig_causes.specs.Explanation.{AreKept, KeepsValue};

use crate::causes::Causes;
use crate::latches::latch_at;
use crate::values::value_at;
use aig_bench::Bench;
use aig_values::Grid;

// Whether a latch has the same value at a frame and at the next one: its next state has its value.
fn keeps_value<G: Grid>(bench: &Bench<G>, frame: u32, position: u32) -> bool
    requires frame { frame < length bench.now.pair.rows }
    requires latch { position < length bench.now.pair.circuit.latches }
    ensures { IsTrue result ↔ KeepsValue bench.now.pair.circuit (moment bench.now.pair frame) position }
{
    // Its contract says that it is a circuit.
    bench.width();
    let latch = latch_at(bench.circuit(), position);
    value_at(bench, frame, latch.lit) == value_at(bench, frame, latch.next)
}

/// Whether these latches keep their values: they are all that explains them, and are the same at the next frame.
pub fn are_kept<G: Grid>(bench: &Bench<G>, frame: u32, latches: &[u32], causes: &Causes) -> bool
    requires frame { frame < length bench.now.pair.rows }
    requires latches { All (λ p. p < length bench.now.pair.circuit.latches) latches.now }
    ensures { IsTrue result ↔ AreKept bench.now.pair.circuit (moment bench.now.pair frame) latches.now causes.now }
{
    if !causes.inputs().is_empty() {
        return false;
    }
    if causes.latches() != latches {
        return false;
    }
    for position in latches {
        if !keeps_value(bench, frame, *position) {
            return false;
        }
    }
    true
}
