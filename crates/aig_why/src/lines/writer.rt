//! The lines of an explanation, one after the other.
ghost use Rattle.std.specs.Prelude.{◌≡◌, ◌<◌, ◌≤◌, [], length, All, OnOk, IsTrue};
ghost use Rattle.aig_parts.specs.declared.raw.Raw.{Raw};
ghost use Rattle.aig_parts.specs.Literal.{variable};
ghost use Rattle.aig_base.specs.Sections.{IsDefined};
ghost use Rattle.aig_causes.specs.Causes.{AreThere, moment};
ghost use Rattle.aig_why.specs.Lines.{IsAskedText};
ghost use Rattle.aig_why.specs.Named.{IsNamingOf, NamesNothing};
ghost use Rattle.aig_why.specs.state.Naming.{Adds, HasSameSignals};

mod frames;
mod last;

use crate::lines::names::name_causes;
use crate::lines::values::values_of;
use crate::question::Question;
use aig_base::Memory;
use aig_bench::Bench;
use aig_causes::Explanation;
use aig_signals::{Form, Naming};
use aig_values::Grid;
use std::alloc::Global;

/// The lines so far, and what the line that is being written names.
#[derive(Drop)]
pub(crate) struct Writer {
    naming: Naming,
    text: Vec<u8>,
}

impl Writer {
    /// Before the first line, with a naming that names nothing.
    pub(crate) fn new(alloc: Global, naming: Naming) -> Writer
        ensures naming { result.naming ≡ naming }
        ensures text { result.text.items ≡ [] }
    {
        Writer {
            naming,
            text: Vec::new(alloc),
        }
    }

    /// The lines.
    pub(crate) fn into_text(self) -> Vec<u8>
        ensures { result ≡ self.text }
    {
        let Writer { naming: _, text } = self;
        text
    }

    /// Adds the line of the literals that were asked for; none where they are latches alone.
    pub(crate) fn push_asked<G: Grid>(
        &mut self,
        alloc: Global,
        bench: &Bench<G>,
        question: &Question,
        explanation: &Explanation,
        form: Form,
    ) -> Result<(), Memory>
        requires frame { explanation.now.frame < length bench.now.pair.rows }
        requires range { All (λ l. variable l ≤ bench.now.pair.circuit.max_var) question.now.literals }
        requires defined { All (λ l. IsDefined bench.now.pair.circuit (variable l)) question.now.literals }
        requires there { AreThere bench.now.pair.circuit explanation.now.asked }
        requires none { NamesNothing bench.now.pair.circuit self.old.naming }
        ensures alone { OnOk result (IsTrue explanation.now.latches_alone → self.new.text.items ≡ self.old.text.items) }
        ensures text { (raw : Raw) → IsNamingOf raw bench.now.pair self.old.naming →
            (IsTrue explanation.now.latches_alone → ⊥) → OnOk result (Adds (IsAskedText form raw
            (moment bench.now.pair explanation.now.frame) question.now.name question.now.literals
            explanation.now.asked) self.old.text.items self.new.text.items) }
        ensures none { OnOk result (NamesNothing bench.now.pair.circuit self.new.naming) }
        ensures signals { OnOk result (HasSameSignals self.old.naming self.new.naming) }
    {
        if explanation.asks_latches() {
            return Ok(());
        }
        let frame = explanation.frame();
        let values = values_of(alloc, bench, frame, question.literals.as_slice())?;
        form.push_asked(&mut self.text, question.name.as_slice(), &values, frame)?;
        name_causes(&mut self.naming, bench, frame, explanation.asked())?;
        form.end_line(&mut self.text, &mut self.naming)?;
        Ok(())
    }
}
