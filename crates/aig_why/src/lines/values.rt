//! The values of literals, inputs and latches at a frame.
ghost use Rattle.std.specs.Prelude.{◌≡◌, ℕ, ◌<◌, ◌≤◌, length, map, All, IfOk, Some, slice_get};
ghost use Rattle.aig_parts.specs.Literal.{variable};
ghost use Rattle.aig_base.specs.Sections.{IsDefined};
ghost use Rattle.aig_base.specs.Sound.{IsInRange};
ghost use Rattle.aig_bench.specs.BenchState.{HasValue};
ghost use Rattle.aig_causes.specs.Causes.{moment};
ghost use Rattle.aig_why.specs.Lines.{AreBits};

use aig_base::{Lit, Memory, Tern};
use aig_bench::Bench;
use aig_values::Grid;
use std::alloc::Global;

/// The value of a literal at a frame.
fn value_at<G: Grid>(bench: &Bench<G>, frame: u32, literal: Lit) -> Tern
    requires frame { frame < length bench.now.pair.rows }
    requires range { IsInRange bench.now.pair.circuit literal }
    requires defined { IsDefined bench.now.pair.circuit (variable literal) }
    ensures { HasValue bench.now.pair frame literal result }
{
    match bench.value(frame, literal) {
        Ok(value) => value,
        Err(_) => Tern::X,
    }
}

/// The value of an input at a frame.
pub(crate) fn input_value<G: Grid>(bench: &Bench<G>, frame: u32, position: u32) -> Tern
    requires frame { frame < length bench.now.pair.rows }
    requires there { position < length bench.now.pair.circuit.inputs }
    ensures { (l : ℕ) × (slice_get bench.now.pair.circuit.inputs position ≡ Some l)
        × HasValue bench.now.pair frame l result }
{
    // Its contract says that it is a circuit.
    bench.width();
    let literal = bench.circuit().inputs()[position as usize];
    value_at(bench, frame, literal)
}

/// The value of a latch at a frame.
pub(crate) fn latch_value<G: Grid>(bench: &Bench<G>, frame: u32, position: u32) -> Tern
    requires frame { frame < length bench.now.pair.rows }
    requires there { position < length bench.now.pair.circuit.latches }
    ensures { (l : ℕ) × (slice_get (map (λ x. x.lit) bench.now.pair.circuit.latches) position ≡ Some l)
        × HasValue bench.now.pair frame l result }
{
    // Its contract says that it is a circuit.
    bench.width();
    let latch = bench.circuit().latches()[position as usize];
    value_at(bench, frame, latch.lit)
}

/// The values of literals at a frame.
pub(crate) fn values_of<G: Grid>(
    alloc: Global,
    bench: &Bench<G>,
    frame: u32,
    literals: &[Lit],
) -> Result<Vec<Option<Tern>>, Memory>
    requires frame { frame < length bench.now.pair.rows }
    requires range { All (λ l. variable l ≤ bench.now.pair.circuit.max_var) literals.now }
    requires defined { All (λ l. IsDefined bench.now.pair.circuit (variable l)) literals.now }
    ensures { IfOk result (λ values.
        AreBits bench.now.pair.circuit (moment bench.now.pair frame) literals.now values.items) }
{
    let mut values = Vec::new(alloc);
    for literal in literals {
        values.push(Some(value_at(bench, frame, *literal)))?;
    }
    Ok(values)
}
