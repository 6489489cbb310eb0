//! The last lines: latches that no line explains.
ghost use Rattle.std.specs.Prelude.{◌≡◌, ℕ, ◌<◌, ◌↔◌, List, [], length, Contains, OnOk};
ghost use Rattle.aig_parts.specs.declared.raw.Raw.{Raw};
ghost use Rattle.aig_causes.specs.Causes.{moment};
ghost use Rattle.aig_causes.specs.Explanation.{HasCome, IsOf, LineState, named_at};
ghost use Rattle.aig_why.specs.Lines.{AreLastTexts, IsOriginText};
ghost use Rattle.aig_why.specs.Named.{IsNamingOf, NamesNothing};
ghost use Rattle.aig_why.specs.state.Naming.{Adds, HasSameSignals};

use crate::lines::names::name_latches;
use crate::lines::starts::latches_that_start;
use crate::lines::writer::Writer;
use aig_base::{Latch, Memory};
use aig_bench::Bench;
use aig_causes::Explanation;
use aig_signals::{Form, Origin};
use aig_values::Grid;
use std::alloc::Global;

impl Writer {
    /// Adds the line of latches that no line explains; none where there are none.
    fn push_open_latches<G: Grid>(
        &mut self,
        bench: &Bench<G>,
        frame: u32,
        origin: Origin,
        latches: &[u32],
        form: Form,
    ) -> Result<(), Memory>
        requires frame { frame < length bench.now.pair.rows }
        requires latches { (p : ℕ) → Contains latches.now p → p < length bench.now.pair.circuit.latches }
        requires none { NamesNothing bench.now.pair.circuit self.old.naming }
        ensures text { (raw : Raw) → IsNamingOf raw bench.now.pair self.old.naming →
            OnOk result (Adds (IsOriginText form raw (moment bench.now.pair frame) origin latches.now)
            self.old.text.items self.new.text.items) }
        ensures none { OnOk result (NamesNothing bench.now.pair.circuit self.new.naming) }
        ensures signals { OnOk result (HasSameSignals self.old.naming self.new.naming) }
    {
        if latches.is_empty() {
            return Ok(());
        }
        form.push_origin(&mut self.text, origin)?;
        name_latches(&mut self.naming.latches, bench, frame, latches)?;
        form.end_line(&mut self.text, &mut self.naming)?;
        Ok(())
    }

    /// Adds the lines of latches that are named at frame 0: those that start as their resets say, then the others.
    fn push_starts<G: Grid>(
        &mut self,
        alloc: Global,
        bench: &Bench<G>,
        resets: &[Latch],
        latches: &[u32],
        form: Form,
    ) -> Result<(), Memory>
        requires frame { 0 < length bench.now.pair.rows }
        requires latches { (p : ℕ) → Contains latches.now p → p < length bench.now.pair.circuit.latches }
        requires size { length resets.now ≡ length bench.now.pair.circuit.latches }
        requires none { NamesNothing bench.now.pair.circuit self.old.naming }
        ensures { (raw : Raw) → IsNamingOf raw bench.now.pair self.old.naming → raw.latches ≡ resets.now →
            (named : List ℕ) → ((p : ℕ) → Contains latches.now p ↔ Contains named p) →
            OnOk result (Adds (AreLastTexts form raw (moment bench.now.pair 0) named)
            self.old.text.items self.new.text.items) }
    {
        let reset = latches_that_start(alloc, bench, resets, latches, true)?;
        let start = latches_that_start(alloc, bench, resets, latches, false)?;
        self.push_open_latches(bench, 0, Origin::Reset, &reset, form)?;
        self.push_open_latches(bench, 0, Origin::Start, &start, form)
    }

    /// Adds the last lines: what is named at the frame where the lines end.
    pub(crate) fn push_last<G: Grid>(
        &mut self,
        alloc: Global,
        bench: &Bench<G>,
        resets: &[Latch],
        explanation: &Explanation,
        form: Form,
    ) -> Result<(), Memory>
        requires bench { IsOf bench.now.pair explanation.now }
        requires size { length resets.now ≡ length bench.now.pair.circuit.latches }
        requires none { NamesNothing bench.now.pair.circuit self.old.naming }
        ensures { (raw : Raw) → IsNamingOf raw bench.now.pair self.old.naming → raw.latches ≡ resets.now →
            (literals : List ℕ) (frames : List (List LineState)) →
            HasCome bench.now.pair literals explanation.now frames [] →
            OnOk result (Adds (AreLastTexts form raw (moment bench.now.pair explanation.now.frame)
            (named_at explanation.now.asked frames).latches) self.old.text.items self.new.text.items) }
    {
        let frame = explanation.frame();
        let latches = explanation.latches(alloc, bench)?;
        if frame > 0 {
            let origin = Origin::NotExplained(frame);
            self.push_open_latches(bench, frame, origin, &latches, form)
        } else {
            self.push_starts(alloc, bench, resets, &latches, form)
        }
    }
}
