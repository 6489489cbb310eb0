//! Many edits in one call.
ghost use Rattle.std.specs.Prelude.{◌≡◌, ◌≢◌, ◌+◌, ◌<◌, ◌↔◌, IfErr, IfOk, Err, Ok, false};
ghost use Rattle.aig_c.specs.state.Changes.{HasAdded, Steps, edit_of};
ghost use Rattle.aig_c.specs.Live.{LiveRuns, Refuses, RunsEdits, edit_in, is_open};

use crate::answer::DONE;
use crate::live::change::{AigReport, Change, apply};
use crate::live::handle::AigLive;
use crate::live::status::{NO_KIND, NO_VALUE, NOT_OPEN, status_of, value_of};
use aig_base::Lit;
use aig_bench::{Bench, EditReport};
use aig_sim::PlaneGrid;
use std::alloc::Global;

/// An edit of an array: its kind, and what the call of that name takes.
#[repr(C)]
#[derive(Clone, Copy)]
pub struct AigEdit {
    pub kind: u32,
    pub a: u32,
    pub b: u32,
    pub c: u32,
}

/// The edit that an entry asks for, or the status that refuses it.
fn change_in(entry: AigEdit) -> Result<Change, u8>
    ensures change { IfOk result (λ change. edit_in entry ≡ Ok (edit_of change)) }
    ensures refused { IfErr result (λ status. (edit_in entry ≡ Err status) × (status ≢ 0) × (status ≢ 255)) }
{
    let AigEdit { kind, a, b, c } = entry;
    match kind {
        0 => match value_of(c) {
            Some(value) => Ok(Change::Set {
                frame: a,
                input: b,
                value,
            }),
            None => Err(NO_VALUE),
        },
        1 => Ok(Change::Rewire {
            gate: Lit::new(a),
            right0: Lit::new(b),
            right1: Lit::new(c),
        }),
        2 => match value_of(b) {
            Some(value) => Ok(Change::Reset {
                latch: Lit::new(a),
                value,
            }),
            None => Err(NO_VALUE),
        },
        3 => Ok(Change::Append {
            right0: Lit::new(a),
            right1: Lit::new(b),
        }),
        4 => Ok(Change::Output {
            position: a,
            literal: Lit::new(b),
        }),
        5 => Ok(Change::DropFrame),
        _ => Err(NO_KIND),
    }
}

/// Adds a report to a sum.
fn add(sum: &mut AigReport, report: EditReport)
    ensures adds { HasAdded sum.old report sum.new }
{
    *sum = AigReport {
        evaluated: sum.evaluated.saturating_add(report.evaluated),
        changed: sum.changed.saturating_add(report.changed),
    };
}

/// Does the edit of an entry, and adds its report to the sum.
fn step(bench: &mut Bench<PlaneGrid>, entry: AigEdit, sum: &mut AigReport) -> u8
    ensures done { result ≡ 0 → Steps bench.old entry sum.old sum.new bench.new }
    ensures refused { result ≢ 0 → Refuses bench.new (edit_in entry) result }
    ensures kept { result ≢ 0 → (bench.new ≡ bench.old) × (sum.new ≡ sum.old) }
    ensures open { result ≢ 255 }
{
    match change_in(entry) {
        Ok(change) => match apply(bench, change) {
            Ok(report) => {
                add(sum, report);
                DONE
            }
            Err(fault) => status_of(fault),
        },
        Err(status) => status,
    }
}

/// Does edits up to the first that is refused, from a count and a sum of 0 on.
fn run(
    bench: &mut Bench<PlaneGrid>,
    entries: &[AigEdit],
    done: &mut usize,
    sum: &mut AigReport,
) -> u8
    ensures runs { RunsEdits bench.old entries.now result done.new sum.new.evaluated sum.new.changed bench.new }
    ensures open { result ≢ 255 }
{
    *done = 0;
    *sum = AigReport {
        evaluated: 0,
        changed: 0,
    };
    for i in 0..entries.len() {
        let status = step(bench, entries[i], sum);
        if status != DONE {
            return status;
        }
        *done = i + 1;
    }
    DONE
}

/// Does edits one after the other, up to the first that is refused.
#[unsafe(no_mangle)]
pub extern "C" fn aig_live_edits(
    alloc: Global,
    bench: &mut AigLive,
    edits: &[AigEdit],
    done: &mut usize,
    sum: &mut AigReport,
) -> u8
    ensures runs { LiveRuns bench.old.seat.held edits.now result done.new sum.new.evaluated sum.new.changed
        bench.new.seat.held }
    ensures closed { (result ≡ 255) ↔ (is_open bench.old.seat.held ≡ false) }
    ensures kept { result ≡ 255 → (done.new ≡ done.old) × (sum.new ≡ sum.old) }
{
    let Some(mut held) = bench.take(alloc) else {
        return NOT_OPEN;
    };
    let status = run(&mut held, edits, done, sum);
    bench.put(held);
    status
}
