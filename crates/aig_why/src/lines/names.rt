//! The inputs and latches that a line names, with their values at a frame.
ghost use Rattle.std.specs.Prelude.{◌≡◌, ℕ, ◌<◌, length, map, replicate, Contains, None, OnOk};
ghost use Rattle.aig_causes.specs.Causes.{AreThere, moment};
ghost use Rattle.aig_why.specs.Lines.{AreNamed};
ghost use Rattle.aig_why.specs.Named.{NamesNothing};
ghost use Rattle.aig_why.specs.state.Naming.{HasSameSignals, NamesValues};

use crate::lines::values::{input_value, latch_value};
use aig_base::Memory;
use aig_bench::Bench;
use aig_causes::Causes;
use aig_signals::{Naming, SectionNaming};
use aig_values::Grid;

/// Names inputs with their values at a frame.
fn name_inputs<G: Grid>(
    naming: &mut SectionNaming,
    bench: &Bench<G>,
    frame: u32,
    positions: &[u32],
) -> Result<(), Memory>
    requires frame { frame < length bench.now.pair.rows }
    requires there { (p : ℕ) → Contains positions.now p → p < length bench.now.pair.circuit.inputs }
    requires none { naming.old.values ≡ replicate (length bench.now.pair.circuit.inputs) None }
    ensures named { OnOk result (AreNamed bench.now.pair.circuit (moment bench.now.pair frame)
        bench.now.pair.circuit.inputs positions.now naming.new.values) }
    ensures signals { OnOk result (naming.new.signals ≡ naming.old.signals) }
{
    // Its contract says that it is a circuit.
    bench.width();
    for position in positions {
        naming.name(*position, input_value(bench, frame, *position))?;
    }
    Ok(())
}

/// Names latches with their values at a frame.
pub(crate) fn name_latches<G: Grid>(
    naming: &mut SectionNaming,
    bench: &Bench<G>,
    frame: u32,
    positions: &[u32],
) -> Result<(), Memory>
    requires frame { frame < length bench.now.pair.rows }
    requires there { (p : ℕ) → Contains positions.now p → p < length bench.now.pair.circuit.latches }
    requires none { naming.old.values ≡ replicate (length bench.now.pair.circuit.latches) None }
    ensures named { OnOk result (AreNamed bench.now.pair.circuit (moment bench.now.pair frame)
        (map (λ x. x.lit) bench.now.pair.circuit.latches) positions.now naming.new.values) }
    ensures signals { OnOk result (naming.new.signals ≡ naming.old.signals) }
{
    // Its contract says that it is a circuit.
    bench.width();
    for position in positions {
        naming.name(*position, latch_value(bench, frame, *position))?;
    }
    Ok(())
}

/// Names causes with their values at a frame.
pub(crate) fn name_causes<G: Grid>(
    naming: &mut Naming,
    bench: &Bench<G>,
    frame: u32,
    causes: &Causes,
) -> Result<(), Memory>
    requires frame { frame < length bench.now.pair.rows }
    requires there { AreThere bench.now.pair.circuit causes.now }
    requires none { NamesNothing bench.now.pair.circuit naming.old }
    ensures values { OnOk result (NamesValues bench.now.pair.circuit (moment bench.now.pair frame) causes.now
        naming.new) }
    ensures signals { OnOk result (HasSameSignals naming.old naming.new) }
{
    name_inputs(&mut naming.inputs, bench, frame, causes.inputs())?;
    name_latches(&mut naming.latches, bench, frame, causes.latches())
}
