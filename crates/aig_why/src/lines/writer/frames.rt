//! The lines of a frame, signal by signal, and of all frames down to one.
ghost use Rattle.std.specs.Prelude.{◌≡◌, ℕ, ◌+◌, ◌-◌, ◌<◌, ◌≤◌, List, [], ◌∷◌, ◌++◌, length, Contains, OnOk};
ghost use Rattle.std.specs.Prelude.{Some, slice_get, IsTrue};
ghost use Rattle.aig_parts.specs.declared.raw.Raw.{Raw};
ghost use Rattle.aig_causes.specs.Causes.{AreThere, moment};
ghost use Rattle.aig_causes.specs.Explanation.{HasCome, IsNamed, IsOf, LineState};
ghost use Rattle.aig_signals.specs.declared.signal.Signal.{Signal};
ghost use Rattle.aig_why.specs.Lines.{AreFrameTexts, AreLineTexts};
ghost use Rattle.aig_why.specs.Named.{IsNamingOf, NamesNothing};
ghost use Rattle.aig_why.specs.state.Naming.{Adds, BeginsFrame, HasSameSignals, KeepsAsked};

use crate::lines::names::{name_causes, name_latches};
use crate::lines::writer::Writer;
use aig_base::Memory;
use aig_bench::Bench;
use aig_causes::{Explanation, Line};
use aig_signals::{Form, SectionNaming};
use aig_values::Grid;

/// The end of a signal of latches.
fn end_of(naming: &SectionNaming, number: usize) -> u32
    requires { number < length naming.now.signals }
    ensures { (signal : Signal) × (slice_get naming.now.signals number ≡ Some signal) × (result ≡ signal.end) }
{
    naming.signals()[number].end
}

/// Whether the frame is after the last one wanted, and a latch is named there.
fn goes_on(explanation: &Explanation, last: u32) -> bool
    ensures above { IsTrue result → last < explanation.now.frame }
    ensures ends { (IsTrue result → ⊥) → last < explanation.now.frame →
        (p : ℕ) → IsNamed explanation.now.named p → ⊥ }
{
    explanation.frame() > last && !explanation.is_complete()
}

impl Writer {
    /// Adds a line of latches of a signal, from a frame to the one before; none where they keep their values.
    fn push_line<G: Grid>(
        &mut self,
        bench: &Bench<G>,
        number: usize,
        frame: u32,
        line: &Line,
        form: Form,
    ) -> Result<(), Memory>
        requires number { number < length self.old.naming.latches.signals }
        requires some { 0 < frame }
        requires frame { frame < length bench.now.pair.rows }
        requires latches { (p : ℕ) → Contains line.now.latches p → p < length bench.now.pair.circuit.latches }
        requires there { AreThere bench.now.pair.circuit line.now.causes }
        requires within { (signal : Signal) → slice_get self.old.naming.latches.signals number ≡ Some signal → (p : ℕ) →
            Contains line.now.latches p → (signal.first ≤ p) × (p < signal.end) }
        requires none { NamesNothing bench.now.pair.circuit self.old.naming }
        ensures text { (raw : Raw) → IsNamingOf raw bench.now.pair self.old.naming →
            OnOk result (Adds (AreLineTexts form raw (moment bench.now.pair (frame - 1)) (line.now ∷ []))
            self.old.text.items self.new.text.items) }
        ensures none { OnOk result (NamesNothing bench.now.pair.circuit self.new.naming) }
        ensures signals { OnOk result (HasSameSignals self.old.naming self.new.naming) }
    {
        if line.is_kept() {
            return Ok(());
        }
        name_latches(&mut self.naming.latches, bench, frame, line.latches())?;
        form.push_latches(&mut self.text, &self.naming.latches, number, frame)?;
        self.naming.latches.clear();
        name_causes(&mut self.naming, bench, frame - 1, line.causes())?;
        form.end_line(&mut self.text, &mut self.naming)?;
        Ok(())
    }

    /// Adds the next line of a signal of latches, where one of its latches is named.
    fn push_signal<G: Grid>(
        &mut self,
        bench: &Bench<G>,
        number: usize,
        explanation: &mut Explanation,
        form: Form,
    ) -> Result<(), Memory>
        requires bench { IsOf bench.now.pair explanation.old }
        requires some { 0 < explanation.old.frame }
        requires none { NamesNothing bench.now.pair.circuit self.old.naming }
        requires signal { (signal : Signal) × (slice_get self.old.naming.latches.signals number ≡ Some signal)
            × (signal.first ≡ explanation.old.end) × (signal.first < signal.end)
            × (signal.end ≤ length bench.now.pair.circuit.latches) }
        ensures come { (raw : Raw) → IsNamingOf raw bench.now.pair self.old.naming →
            (literals : List ℕ) (frames : List (List LineState)) (lines : List LineState) →
            HasCome bench.now.pair literals explanation.old frames lines →
            OnOk result ((more : List LineState)
            × HasCome bench.now.pair literals explanation.new frames (lines ++ more)
            × Adds (AreLineTexts form raw (moment bench.now.pair (explanation.old.frame - 1)) more)
            self.old.text.items self.new.text.items) }
        ensures end { (signal : Signal) → slice_get self.old.naming.latches.signals number ≡ Some signal →
            OnOk result (explanation.new.end ≡ signal.end) }
        ensures frame { explanation.new.frame ≡ explanation.old.frame }
        ensures asked { explanation.new.asked ≡ explanation.old.asked }
        ensures bench { IsOf bench.now.pair explanation.new }
        ensures none { OnOk result (NamesNothing bench.now.pair.circuit self.new.naming) }
        ensures signals { OnOk result (HasSameSignals self.old.naming self.new.naming) }
    {
        let end = end_of(&self.naming.latches, number);
        let frame = explanation.frame();
        match explanation.line(bench, end)? {
            Some(line) => self.push_line(bench, number, frame, &line, form),
            None => Ok(()),
        }
    }

    /// Adds the lines of a frame, and goes down to the one before.
    fn push_frame<G: Grid>(
        &mut self,
        bench: &Bench<G>,
        explanation: &mut Explanation,
        form: Form,
    ) -> Result<(), Memory>
        requires begins { BeginsFrame bench.now.pair self.old.naming explanation.old }
        requires some { 0 < explanation.old.frame }
        ensures come { (raw : Raw) → IsNamingOf raw bench.now.pair self.old.naming →
            (literals : List ℕ) (frames : List (List LineState)) →
            HasCome bench.now.pair literals explanation.old frames [] →
            OnOk result ((lines : List LineState) × HasCome bench.now.pair literals explanation.new (lines ∷ frames) []
            × Adds (AreLineTexts form raw (moment bench.now.pair explanation.new.frame) lines)
            self.old.text.items self.new.text.items) }
        ensures frame { OnOk result (explanation.new.frame + 1 ≡ explanation.old.frame) }
        ensures end { OnOk result (explanation.new.end ≡ 0) }
        ensures keeps { OnOk result (KeepsAsked bench.now.pair self.old self.new explanation.old explanation.new) }
    {
        for number in 0..self.naming.latches.signals().len() {
            self.push_signal(bench, number, explanation, form)?;
        }
        explanation.descend();
        Ok(())
    }

    /// Adds the lines of all frames down to the last one wanted, or to one at which no latch is named.
    pub(crate) fn push_frames<G: Grid>(
        &mut self,
        bench: &Bench<G>,
        explanation: &mut Explanation,
        last: u32,
        form: Form,
    ) -> Result<(), Memory>
        requires begins { BeginsFrame bench.now.pair self.old.naming explanation.old }
        requires last { last ≤ explanation.old.frame }
        ensures come { (raw : Raw) → IsNamingOf raw bench.now.pair self.old.naming → (literals : List ℕ) →
            HasCome bench.now.pair literals explanation.old [] [] →
            OnOk result ((frames : List (List LineState)) × HasCome bench.now.pair literals explanation.new frames []
            × (explanation.new.frame + length frames ≡ explanation.old.frame)
            × Adds (AreFrameTexts form raw (moment bench.now.pair explanation.new.frame) frames)
            self.old.text.items self.new.text.items) }
        ensures last { OnOk result (last ≤ explanation.new.frame) }
        ensures ends { OnOk result (last < explanation.new.frame → (p : ℕ) → IsNamed explanation.new.named p → ⊥) }
        ensures keeps { OnOk result (KeepsAsked bench.now.pair self.old self.new explanation.old explanation.new) }
    {
        while goes_on(explanation, last) {
            self.push_frame(bench, explanation, form)?;
        }
        Ok(())
    }
}
