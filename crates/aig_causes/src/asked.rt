//! What is asked for.
ghost use Rattle.std.specs.Prelude.{◌≡◌, ◌+◌, ◌<◌, ◌≤◌, ◌↔◌, length, All, IfOk, IsTrue};
ghost use Rattle.aig_parts.specs.Literal.{variable};
ghost use Rattle.aig_base.specs.Sections.{IsDefined, IsLatchLiteral};
ghost use Rattle.aig_causes.specs.Causes.{moment};
ghost use Rattle.aig_causes.specs.Explanation.{ExplainThemselves, IsAsked};

use crate::causes::Causes;
use crate::explainer::Explainer;
use crate::latches::latches_of;
use aig_base::{Lit, Memory};
use aig_bench::Bench;
use aig_values::Grid;
use std::alloc::Global;

/// What explains literals at a frame, and whether each is one of a latch: these explain themselves.
pub fn ask<G: Grid>(
    explainer: &mut Explainer,
    alloc: Global,
    bench: &Bench<G>,
    frame: u32,
    literals: &[Lit],
) -> Result<(Causes, bool), Memory>
    requires size { explainer.old ≡ bench.now.pair.circuit.max_var + 1 }
    requires frame { frame < length bench.now.pair.rows }
    requires range { All (λ l. variable l ≤ bench.now.pair.circuit.max_var) literals.now }
    requires defined { All (λ l. IsDefined bench.now.pair.circuit (variable l)) literals.now }
    ensures asked { IfOk result (λ asked.
        IsAsked bench.now.pair.circuit (moment bench.now.pair frame) literals.now asked.0) }
    ensures alone { IfOk result (λ asked. IsTrue asked.1 ↔ All (IsLatchLiteral bench.now.pair.circuit) literals.now) }
    ensures themselves { IfOk result (λ asked. IsTrue asked.1 →
        ExplainThemselves bench.now.pair.circuit literals.now asked.0) }
    ensures size { explainer.new ≡ explainer.old }
{
    match latches_of(alloc, bench.circuit(), literals)? {
        Some(latches) => Ok((Causes::of_latches(alloc, latches), true)),
        None => Ok((explainer.causes(bench, frame, literals)?, false)),
    }
}
