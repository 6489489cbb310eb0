//! A line of an explanation.
ghost use Rattle.std.specs.Prelude.{◌≡◌, ◌+◌, ◌<◌, length, All, IfOk};
ghost use Rattle.aig_causes.specs.Causes.{moment};
ghost use Rattle.aig_causes.specs.Explanation.{IsLine};

use crate::causes::Causes;
use crate::explainer::Explainer;
use crate::kept::are_kept;
use crate::latches::next_literals;
use aig_base::Memory;
use aig_bench::Bench;
use aig_values::Grid;
use std::alloc::Global;
use std::marker::Model;

/// Latches of a frame, and what explains them at the frame before. Contracts see both, and whether the latches keep
/// their values.
#[derive(Debug)]
pub struct Line {
    latches: Vec<u32>,
    causes: Causes,
    kept: bool,
}

// By hand: a value then ends in one call, which is one step of a proof (docs/PROOFS.md, Habits).
impl Drop for Line {
    fn drop(self) {
        let Line {
            latches: _,
            causes: _,
            kept: _,
        } = self;
    }
}

impl Model for Line {
    ghost use Rattle.aig_causes.specs.Explanation.{LineState};

    ghost Value = { LineState };

    ghost view = { λ x. record { latches = x.latches.items; causes = x.causes; kept = x.kept } };
}

impl Line {
    /// A line of these parts.
    pub(crate) fn new(latches: Vec<u32>, causes: Causes, kept: bool) -> Line
        ensures { result ≡ record { latches = latches.items; causes = causes; kept = kept } }
    {
        Line {
            latches,
            causes,
            kept,
        }
    }

    /// The positions of the latches that it explains, the smallest first.
    pub fn latches(&self) -> &[u32]
        ensures { result.now ≡ self.now.latches }
    {
        &self.latches
    }

    /// What explains them at the frame before.
    pub fn causes(&self) -> &Causes
        ensures { result.now ≡ self.now.causes }
    {
        &self.causes
    }

    /// Whether the latches keep their values: they are all that it names, and are the same at both frames.
    pub fn is_kept(&self) -> bool
        ensures { result ≡ self.now.kept }
    {
        self.kept
    }
}

/// The line of these latches of the frame after this one.
pub(crate) fn line_of<G: Grid>(
    explainer: &mut Explainer,
    alloc: Global,
    bench: &Bench<G>,
    frame: u32,
    latches: Vec<u32>,
) -> Result<Line, Memory>
    requires size { explainer.old ≡ bench.now.pair.circuit.max_var + 1 }
    requires frame { frame < length bench.now.pair.rows }
    requires latches { All (λ p. p < length bench.now.pair.circuit.latches) latches.items }
    ensures line { IfOk result (IsLine bench.now.pair.circuit (moment bench.now.pair frame)) }
    ensures latches { IfOk result (λ line. line.latches ≡ latches.items) }
    ensures size { explainer.new ≡ explainer.old }
{
    let nexts = next_literals(alloc, bench.circuit(), &latches)?;
    let causes = explainer.causes(bench, frame, &nexts)?;
    let kept = are_kept(bench, frame, &latches, &causes);
    Ok(Line::new(latches, causes, kept))
}
