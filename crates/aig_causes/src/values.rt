//! Values at a frame of a bench.
ghost use Rattle.std.specs.Prelude.{◌<◌, ◌≤◌, length};
ghost use Rattle.aig_parts.specs.Literal.{variable};
ghost use Rattle.aig_base.specs.Sections.{IsDefined};
ghost use Rattle.aig_bench.specs.BenchState.{HasValue};

use aig_base::{Lit, Tern};
use aig_bench::Bench;
use aig_values::Grid;
use aig_values::row::{GridRow, literal_in};

/// The value of a literal at a frame.
pub fn value_at<G: Grid>(bench: &Bench<G>, frame: u32, literal: Lit) -> Tern
    requires frame { frame < length bench.now.pair.rows }
    requires range { variable literal ≤ bench.now.pair.circuit.max_var }
    ensures { IsDefined bench.now.pair.circuit (variable literal) → HasValue bench.now.pair frame literal result }
{
    // Its contract says that it is a circuit.
    bench.width();
    let row = GridRow {
        grid: bench.grid(),
        frame,
    };
    literal_in(&row, literal)
}
