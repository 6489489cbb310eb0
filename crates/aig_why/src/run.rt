//! The run that is explained.
ghost use Rattle.std.specs.Prelude.{◌≡◌, ◌+◌, ◌*◌, ◌<◌, ◌≤◌, length, IfErr, IfOk, IsErrOf};
ghost use Rattle.aig_parts.specs.Limits.{cell_limit};
ghost use Rattle.aig_base.specs.Value.{start_of};
ghost use Rattle.aig_base.specs.Resets.{HasOtherResets};

use aig_base::{Circuit, Latch, Memory, Tern, start_at};
use aig_bench::{Bench, BenchFault};
use aig_sim::Stimulus;
use aig_values::Grid;
use std::alloc::Global;

/// A run on a bench, and the latches of its circuit with their own resets.
pub struct ExplainedRun<G: Grid> {
    pub bench: Bench<G>,
    pub latches: Vec<Latch>,
}

// By hand: a value then ends in one call, which is one step of a proof (docs/PROOFS.md, Habits).
impl<G: Grid> Drop for ExplainedRun<G> {
    fn drop(self) {
        let ExplainedRun {
            bench: _,
            latches: _,
        } = self;
    }
}

/// The frame that is explained, and the one at which the lines end at the latest.
#[derive(Clone, Copy)]
pub struct ExplainedFrames {
    pub first: u32,
    pub last: u32,
}

impl<G: Grid> ExplainedRun<G> {
    /// The run of a circuit from a start over some rows.
    pub fn new(
        alloc: Global,
        circuit: Circuit,
        start: &[Tern],
        rows: Stimulus,
    ) -> Result<ExplainedRun<G>, BenchFault>
        requires start { length start.now ≡ length circuit.latches }
        requires width { rows.width ≡ length circuit.inputs }
        ensures width { IsErrOf result BenchFault.Width → ⊥ }
        ensures limit { IsErrOf result BenchFault.Limit → cell_limit < (circuit.max_var + 1) * length rows.rows }
        ensures cells { IfOk result (λ _. (circuit.max_var + 1) * length rows.rows ≤ cell_limit) }
        ensures resets { IfOk result (λ run. HasOtherResets circuit run.bench.pair.circuit) }
        ensures start { IfOk result (λ run. start_of run.bench.pair.circuit ≡ start.now) }
        ensures rows { IfOk result (λ run. run.bench.pair.rows ≡ rows.rows) }
        ensures latches { IfOk result (λ run. run.latches.items ≡ circuit.latches) }
    {
        let latches = copy_latches(alloc, &circuit)?;
        let mut circuit = circuit;
        start_at(&mut circuit, start);
        let bench = Bench::new(alloc, circuit, rows)?;
        Ok(ExplainedRun { bench, latches })
    }
}

/// A copy of the latches of a circuit.
fn copy_latches(alloc: Global, circuit: &Circuit) -> Result<Vec<Latch>, BenchFault>
    ensures copy { IfOk result (λ copy. copy.items ≡ circuit.now.latches) }
    ensures memory { IfErr result (λ fault. fault ≡ BenchFault.Memory) }
{
    match Vec::from_slice(alloc, circuit.latches()) {
        Ok(latches) => Ok(latches),
        Err(_) => Err(BenchFault::Memory),
    }
}
