//! Values that an edit changed, carried on through the frames.
ghost use Rattle.std.specs.Prelude.{◌≡◌, ◌↔◌, ◌⊎◌, ℕ, ◌+◌, ◌*◌, ◌^◌, ◌<◌, ◌≤◌, [], length, Some, slice_get, Contains};
ghost use Rattle.aig_parts.specs.Limits.{frame_limit};
ghost use Rattle.aig_parts.specs.Literal.{variable};
ghost use Rattle.aig_base.specs.Sections.{IsGate};
ghost use Rattle.aig_base.specs.state.Marks.{IsMarked};
ghost use Rattle.aig_bench.specs.state.Current.{IsNext};
ghost use Rattle.aig_bench.specs.state.Renewed.{IsStaleFrom, IsStaleFromBit, RenewsAll};
ghost use Rattle.aig_bench.specs.state.Steps.{frame_work, PassesOver, PutsLatches, PutsSource};

mod buckets;
mod latch_list;
pub(crate) mod latch_readers;
mod level_set;
mod link;
pub(crate) mod pending;
mod settle;
mod waiting;

use crate::edit::EditReport;
use crate::engine::Engine;
use aig_base::Latch;
use aig_values::Grid;
use std::mem::swap;

// Adds up two reports.
fn total(first: EditReport, second: EditReport) -> EditReport
    requires evaluated { first.evaluated + second.evaluated < 2 ^ 64 }
    requires changed { first.changed + second.changed < 2 ^ 64 }
    ensures evaluated { result.evaluated ≡ first.evaluated + second.evaluated }
    ensures changed { result.changed ≡ first.changed + second.changed }
{
    EditReport {
        evaluated: first.evaluated + second.evaluated,
        changed: first.changed + second.changed,
    }
}

impl<G: Grid> Engine<G> {
    // Writes the value of a latch at a frame, by its reset or by the frame before.
    fn put_latch(&mut self, frame: u32, latch: Latch)
        requires next { IsNext self.old.pair frame self.old.cells }
        requires latch { (i : ℕ) × (slice_get self.old.pair.circuit.latches i ≡ Some latch) }
        ensures { PutsSource frame (variable latch.lit) self.old self.new }
    {
        let variable = latch.lit.var();
        let value = self.latch_value(frame, latch);
        self.put(frame, variable, value);
    }

    // Writes the values of the latches that are carried into a frame.
    fn carry(&mut self, frame: u32)
        requires { IsNext self.old.pair frame self.old.cells }
        ensures { PutsLatches frame self.old self.new }
    {
        while let Some(number) = self.pending.here.take() {
            let latch = self.driven.circuit.latches()[number as usize - 1];
            self.put_latch(frame, latch);
        }
    }

    // Writes the values of the latches that are carried into a frame, evaluates what that and what waits already touch,
    // and lists the latches that are carried into the next one. It answers how many gates were evaluated and the cells
    // of how many changed.
    fn pass(&mut self, frame: u32) -> EditReport
        requires { IsNext self.old.pair frame self.old.cells }
        ensures passes { PassesOver frame self.old self.new result }
        ensures evaluated { result.evaluated ≤ frame_work }
    {
        // Its invariant says that the pair's circuit is one.
        let _driven = &self.driven;
        self.carry(frame);
        self.settle(frame)
    }

    // Goes on to the next frame: what was carried ahead is carried into it.
    fn advance(&mut self)
        ensures { self.new ≡ record self.old { here = self.old.ahead; ahead = self.old.here } }
    {
        swap(&mut self.pending.here, &mut self.pending.ahead);
    }

    // Lets these gates wait.
    fn force(&mut self, gates: &[u32])
        requires { (v : ℕ) → Contains gates.now v → IsGate self.old.pair.circuit v }
        ensures same { self.new ≡ record self.old { queued = self.new.queued; heads = self.new.heads } }
        ensures queued { (v : ℕ) → IsMarked self.new.queued v ↔ (IsMarked self.old.queued v ⊎ Contains gates.now v) }
    {
        self.pending.buckets.link_all(gates);
    }

    /// Renews the frames from one on: evaluates these gates at each, and whatever is touched by them and by the latches
    /// that are carried into it. It ends at the first frame into which nothing is carried, if no gates are given.
    pub fn renew_from(&mut self, first: u32, forced: &[u32]) -> EditReport
        requires { IsStaleFrom self.old forced.now first }
        ensures renews { RenewsAll forced.now first self.old self.new result }
        ensures evaluated { result.evaluated ≤ frame_limit * frame_work }
    {
        let mut report = EditReport {
            evaluated: 0,
            changed: 0,
        };
        for frame in first..self.driven.stimulus.frames() {
            if forced.is_empty() && self.pending.here.is_empty() {
                return report;
            }
            self.force(forced);
            let more = self.pass(frame);
            self.advance();
            report = total(report, more);
        }
        self.pending.here.clear();
        report
    }

    /// Renews the frames from one on, of which an input's value at a position was replaced.
    pub fn renew_input(&mut self, frame: u32, position: u32) -> EditReport
        requires position { position < length self.old.pair.circuit.inputs }
        requires frame { frame < length self.old.pair.rows }
        requires stale { IsStaleFromBit self.old frame position }
        ensures { RenewsAll [] frame self.old self.new result }
    {
        let input = self.driven.circuit.inputs()[position as usize];
        let value = self.driven.stimulus.get(frame, position);
        self.put(frame, input.var(), value);
        let first = self.pass(frame);
        self.advance();
        let rest = self.renew_from(frame + 1, &[]);
        total(first, rest)
    }
}
