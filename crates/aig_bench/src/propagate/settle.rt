//! The evaluation of what waits at a frame, level by level: event-driven and levelized.
ghost use Rattle.std.specs.Prelude.{◌≡◌, ◌≢◌, ◌+◌, ◌<◌, ◌≤◌, length};
ghost use Rattle.aig_parts.specs.Formed.{limit};
ghost use Rattle.aig_base.specs.Levels.{AreLevels};
ghost use Rattle.aig_parts.specs.Limits.{cell_limit};
ghost use Rattle.aig_bench.specs.state.Buckets.{IsFirst};
ghost use Rattle.aig_bench.specs.state.Current.{IsSourceValue};
ghost use Rattle.aig_bench.specs.state.Steps.{frame_work, report_of, PutsSource, Settles, SettlesLevels};
ghost use Rattle.aig_bench.specs.state.Sweep.{queued_count};

use crate::edit::EditReport;
use crate::engine::Engine;
use aig_base::Tern;
use aig_values::Grid;

// Whether the cell of an evaluated gate changed, and the variable that is next in the chain of its level; 0 stands for
// none.
#[derive(Clone, Copy)]
struct Settled {
    changed: bool,
    next: u32,
}

/// Counts one more evaluation.
fn count(report: &mut EditReport, changed: bool)
    requires evaluated { report.old.evaluated < cell_limit }
    requires changed { report.old.changed ≤ report.old.evaluated }
    ensures evaluated { report.new.evaluated ≡ report.old.evaluated + 1 }
    ensures changed { report.new.changed ≡ report.old.changed + (report_of changed).changed }
{
    report.evaluated += 1;
    if changed {
        report.changed += 1;
    }
}

impl<G: Grid> Engine<G> {
    // Evaluates the first gate of a level's chain, and lets its readers wait if its cell changed; its latches are
    // carried ahead.
    fn settle_first(&mut self, frame: u32, level: u32, first: u32) -> Settled
        requires frame { frame < length self.old.pair.rows }
        requires level { level < length self.old.levels }
        requires first { IsFirst self.old.levels self.old.heads self.old.queued level first }
        requires some { first ≢ 0 }
        ensures fewer { queued_count self.old.levels self.new.queued level
            < queued_count self.old.levels self.old.queued level }
        ensures next { IsFirst self.new.levels self.new.heads self.new.queued level result.next }
        ensures settles { SettlesLevels frame level level self.old self.new (report_of result.changed) }
    {
        let taken = self.pending.buckets.take(level, first);
        let changed = self.grid.evaluate(frame, taken.gate);
        if changed {
            let readers = self.fanouts.readers.list(first);
            self.pending.buckets.link_all(readers);
            self.fanouts
                .latches
                .list_all(first, &mut self.pending.ahead);
        }
        Settled {
            changed,
            next: taken.next,
        }
    }

    // Evaluates all gates of a level that wait, and answers how many there were and the cells of how many changed. The
    // next gate is in a local, not read from memory that the gate before it wrote: its misses need not wait for those.
    fn settle_level(&mut self, frame: u32, level: u32) -> EditReport
        requires frame { frame < length self.old.pair.rows }
        requires level { level < length self.old.levels }
        requires levels { AreLevels self.old.pair.circuit self.old.levels }
        requires few { length self.old.levels ≤ limit + 1 }
        ensures settles { SettlesLevels frame level (level + 1) self.old self.new result }
        ensures evaluated { result.evaluated ≤ limit + 1 }
    {
        let mut report = EditReport {
            evaluated: 0,
            changed: 0,
        };
        let mut first = self.pending.buckets.first(level);
        while first != 0 {
            let settled = self.settle_first(frame, level, first);
            count(&mut report, settled.changed);
            first = settled.next;
        }
        report
    }

    /// Evaluates what waits at a frame and whatever that changes, level by level, and answers how many gates were
    /// evaluated and the cells of how many changed.
    pub fn settle(&mut self, frame: u32) -> EditReport
        requires frame { frame < length self.old.pair.rows }
        ensures settles { Settles frame self.old self.new result }
        ensures evaluated { result.evaluated ≤ frame_work }
    {
        let mut report = EditReport {
            evaluated: 0,
            changed: 0,
        };
        let mut from = 0;
        while let Some(level) = self.pending.buckets.lowest(from) {
            let more = self.settle_level(frame, level as u32);
            report.evaluated += more.evaluated;
            report.changed += more.changed;
            from = level + 1;
        }
        report
    }

    /// Writes the value of an input or a latch, and lets its readers wait if the cell changed; its latches are carried
    /// ahead.
    pub fn put(&mut self, frame: u32, variable: u32, value: Tern)
        requires { IsSourceValue self.old.pair frame variable value }
        ensures { PutsSource frame variable self.old self.new }
    {
        let before = self.grid.get(frame, variable);
        self.grid.put_source(frame, variable, value);
        if before != value {
            let readers = self.fanouts.readers.list(variable);
            self.pending.buckets.link_all(readers);
            self.fanouts
                .latches
                .list_all(variable, &mut self.pending.ahead);
        }
    }
}
