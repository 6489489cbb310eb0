//! Whether a run still reaches its bad state, by the values of a bench.
ghost use Rattle.std.specs.Prelude.{◌<◌, ◌↔◌, length, IsTrue};
ghost use Rattle.aig_bench.specs.BenchState.{HasValue};
ghost use Rattle.aig_reduce.specs.state.Looks.{AreOne, IsLiteralAt, ReachesFrom};

use aig_base::{Lit, Tern};
use aig_bench::Bench;
use aig_sim::Grid;

/// Whether a literal has a value at a frame.
pub fn has_value<G: Grid>(bench: &Bench<G>, frame: u32, literal: Lit, wanted: Tern) -> bool
    requires { IsLiteralAt bench.now.pair frame literal }
    ensures { IsTrue result ↔ HasValue bench.now.pair frame literal wanted }
{
    // Its contract says that it is a circuit.
    bench.width();
    match bench.value(frame, literal) {
        Ok(value) => value == wanted,
        Err(_) => false,
    }
}

/// Whether a literal is x at a frame.
pub fn is_x<G: Grid>(bench: &Bench<G>, frame: u32, literal: Lit) -> bool {
    matches!(bench.value(frame, literal), Ok(Tern::X))
}

// Whether all constraints are 1 at a frame.
fn are_one<G: Grid>(bench: &Bench<G>, frame: u32) -> bool
    requires { frame < length bench.now.pair.rows }
    ensures { IsTrue result ↔ AreOne bench.now.pair frame }
{
    // Its contract says that it is a circuit.
    bench.width();
    for literal in bench.circuit().constraints().iter() {
        if !has_value(bench, frame, *literal, Tern::One) {
            return false;
        }
    }
    true
}

/// Whether the property is 1 at the last frame, and all constraints are 1 from a frame on.
pub fn reaches_from<G: Grid>(bench: &Bench<G>, property: u32, first: u32) -> bool
    requires rows { 0 < length bench.now.pair.rows }
    requires property { property < length bench.now.pair.circuit.bad }
    ensures { IsTrue result ↔ ReachesFrom bench.now.pair property first }
{
    // Its contract says that it is a circuit.
    bench.width();
    let literal = bench.circuit().bad()[property as usize];
    if !has_value(bench, bench.frames() - 1, literal, Tern::One) {
        return false;
    }
    for frame in first..bench.frames() {
        if !are_one(bench, frame) {
            return false;
        }
    }
    true
}
