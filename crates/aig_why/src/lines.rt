//! The lines of an explanation.
ghost use Rattle.std.specs.Prelude.{◌≡◌, ◌<◌, ◌≤◌, length, All, IfOk};
ghost use Rattle.aig_parts.specs.declared.raw.Raw.{Raw};
ghost use Rattle.aig_parts.specs.Literal.{variable};
ghost use Rattle.aig_base.specs.Sections.{IsDefined};
ghost use Rattle.aig_why.specs.Why.{IsExplanation, run_of};
ghost use Rattle.aig_why.specs.Named.{IsNamingOf, NamesNothing};

mod names;
mod starts;
mod values;
mod writer;

use crate::question::Question;
use crate::run::{ExplainedFrames, ExplainedRun};
use aig_base::Memory;
use aig_causes::Explanation;
use aig_signals::{Form, Naming};
use aig_values::Grid;
use std::alloc::Global;
use writer::Writer;

/// The lines that explain literals of a run at a frame, down to another one at most, in a form.
pub fn text_of<G: Grid>(
    alloc: Global,
    run: &ExplainedRun<G>,
    naming: Naming,
    question: &Question,
    frames: ExplainedFrames,
    form: Form,
) -> Result<Vec<u8>, Memory>
    requires frame { frames.first < length run.now.bench.pair.rows }
    requires last { frames.last ≤ frames.first }
    requires range { All (λ l. variable l ≤ run.now.bench.pair.circuit.max_var) question.now.literals }
    requires defined { All (λ l. IsDefined run.now.bench.pair.circuit (variable l)) question.now.literals }
    requires size { length run.now.latches.items ≡ length run.now.bench.pair.circuit.latches }
    requires none { NamesNothing run.now.bench.pair.circuit naming }
    requires of { (raw : Raw) × IsNamingOf raw run.now.bench.pair naming }
    ensures { (raw : Raw) → IsNamingOf raw run.now.bench.pair naming → raw.latches ≡ run.now.latches.items →
        IfOk result (λ text. IsExplanation form raw (run_of run.now.bench.pair) question.now.name question.now.literals
        frames.first frames.last text.items) }
{
    let bench = &run.bench;
    let literals = question.literals.as_slice();
    let mut explanation = Explanation::new(alloc, bench, frames.first, literals)?;
    let mut writer = Writer::new(alloc, naming);
    writer.push_asked(alloc, bench, question, &explanation, form)?;
    writer.push_frames(bench, &mut explanation, frames.last, form)?;
    writer.push_last(alloc, bench, &run.latches, &explanation, form)?;
    Ok(writer.into_text())
}
