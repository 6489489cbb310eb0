//! Marks of the variables that a run needs, frame by frame.
ghost use Rattle.std.specs.Prelude.{ℕ, suc, ◌<◌, length, IfOk};
ghost use Rattle.aig_base.specs.state.Marks.{IsMarked};
ghost use Rattle.aig_reduce.specs.state.Needed.{AreItsGates, AreNeeded};

use crate::needed::marking::{mark_bad, mark_constraints, mark_gates, mark_latches, unmark};
use aig_base::{Gate, Memory};
use aig_bench::Bench;
use aig_sim::Grid;
use std::alloc::Global;
use std::mem::swap;

/// Which variables are needed at a frame, and at the next one.
#[derive(Drop)]
pub struct Marks {
    pub here: Vec<bool>,
    pub ahead: Vec<bool>,
}

/// No marks.
pub fn no_marks(alloc: Global, size: usize) -> Result<Marks, Memory>
    ensures { IfOk result (λ marks. (v : ℕ) → IsMarked marks.here.items v → ⊥) }
{
    Ok(Marks {
        here: vec![in alloc; false; size]?,
        ahead: vec![in alloc; false; size]?,
    })
}

impl Marks {
    /// Finds what is needed at a frame. Before, the marks are those of the next one, which go ahead.
    pub fn look_at<G: Grid>(&mut self, bench: &Bench<G>, property: u32, frame: u32, gates: &[Gate])
        requires property { property < length bench.now.pair.circuit.bad }
        requires frame { frame < length bench.now.pair.rows }
        requires gates { AreItsGates bench.now.pair.circuit gates.now }
        ensures { AreNeeded bench.now.pair property (suc frame) self.old.here.items →
            AreNeeded bench.now.pair property frame self.new.here.items }
    {
        swap(&mut self.here, &mut self.ahead);
        unmark(&mut self.here);
        mark_constraints(bench, &mut self.here);
        mark_bad(bench, property, frame, &mut self.here);
        mark_latches(bench, &self.ahead, &mut self.here);
        mark_gates(bench, frame, gates, &mut self.here);
    }
}
