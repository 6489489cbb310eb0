//! The causes of literals at a frame.
ghost use Rattle.std.specs.Prelude.{◌≡◌, ◌+◌, ◌<◌, ◌≤◌, length, All, IfOk};
ghost use Rattle.aig_parts.specs.Literal.{variable};
ghost use Rattle.aig_base.specs.Sections.{IsDefined};
ghost use Rattle.aig_base.specs.Sound.{IsInRange};
ghost use Rattle.aig_causes.specs.Causes.{AreInOrder, AreThere, Explain, ExplainUnknown, moment};

use crate::causes::Causes;
use crate::walker::Walker;
use aig_base::{Lit, Memory};
use aig_bench::Bench;
use aig_values::Grid;
use std::alloc::Global;
use std::marker::Model;
use std::mem::replace;

/// Finds causes in the run of a bench, with memory for one walk over its circuit. Contracts see for how many variables.
#[derive(Drop)]
pub struct Explainer {
    walker: Walker,
}

impl Model for Explainer {
    ghost use Rattle.std.specs.Prelude.{ℕ, length};
    ghost use Rattle.aig_causes.specs.state.Walk.{IsWalker};

    ghost Value = { ℕ };

    ghost view = { λ e. length e.walker.visited.marks.items };

    ghost invariant = { λ e. IsWalker e.walker };
}

impl Explainer {
    /// For the circuit of a bench. It takes memory for some 12 bytes a variable, and where the gates are in no order in
    /// which each comes after those that it reads, for a copy of them.
    pub fn new<G: Grid>(alloc: Global, bench: &Bench<G>) -> Result<Explainer, Memory>
        ensures { IfOk result (λ e. e ≡ bench.now.pair.circuit.max_var + 1) }
    {
        let walker = Walker::new(alloc, bench)?;
        Ok(Explainer { walker })
    }

    /// Inputs and latches that explain what these literals are at a frame, in order. Of a gate that is 1 both
    /// sides count, of one that is 0 one side that is 0, and of one that is x each side that is x. Of two sides that
    /// are
    /// 0 it takes the lighter one, or one that is known already; the contract leaves that open (our own choice).
    ///
    /// The first call at a frame weighs the gates there, in the time of their values. A walk visits each variable once
    /// at most.
    pub fn causes<G: Grid>(
        &mut self,
        bench: &Bench<G>,
        frame: u32,
        literals: &[Lit],
    ) -> Result<Causes, Memory>
        requires size { self.old ≡ bench.now.pair.circuit.max_var + 1 }
        requires frame { frame < length bench.now.pair.rows }
        requires range { All (λ l. variable l ≤ bench.now.pair.circuit.max_var) literals.now }
        requires defined { All (λ l. IsDefined bench.now.pair.circuit (variable l)) literals.now }
        ensures known { IfOk result (λ causes.
            All (Explain bench.now.pair.circuit (moment bench.now.pair frame) causes) literals.now) }
        ensures unknown { IfOk result (λ causes.
            All (ExplainUnknown bench.now.pair.circuit (moment bench.now.pair frame) causes) literals.now) }
        ensures there { IfOk result (AreThere bench.now.pair.circuit) }
        ensures order { IfOk result AreInOrder }
        ensures size { self.new ≡ self.old }
    {
        // Its contract says that it is a circuit.
        bench.width();
        let alloc = *self.walker.todo.allocator();
        self.walker.walk(bench, frame, literals)?;
        let mut causes = replace(&mut self.walker.found, Causes::none(alloc));
        causes.sort();
        Ok(causes)
    }
}
