//! An edit of a bench that C holds, and what it answers.
ghost use Rattle.std.specs.Prelude.{◌≡◌, ◌≢◌, Ok};
ghost use Rattle.aig_c.specs.Live.{Does, LiveEdit, Tells};
ghost use Rattle.aig_c.specs.state.Changes.{edit_of};

use crate::answer::DONE;
use crate::live::handle::AigLive;
use crate::live::status::{NOT_OPEN, status_of};
use aig_base::{Lit, Tern};
use aig_bench::{Bench, EditFault, EditReport};
use aig_sim::PlaneGrid;
use std::alloc::Global;

/// How many cells of gates an edit evaluated, and how many of them changed.
#[repr(C)]
#[derive(Clone, Copy)]
pub struct AigReport {
    pub evaluated: u64,
    pub changed: u64,
}

/// An edit that adds no frame.
#[derive(Clone, Copy)]
pub enum Change {
    /// The stimulus has this value at a frame and an input.
    Set { frame: u32, input: u32, value: Tern },
    /// The gate of a literal gets these right sides.
    Rewire { gate: Lit, right0: Lit, right1: Lit },
    /// The latch of a literal starts at this value.
    Reset { latch: Lit, value: Tern },
    /// A gate with these right sides is appended.
    Append { right0: Lit, right1: Lit },
    /// The output at a position becomes this literal.
    Output { position: u32, literal: Lit },
    /// The last frame is taken off.
    DropFrame,
}

/// Does an edit.
pub(crate) fn apply(bench: &mut Bench<PlaneGrid>, change: Change) -> Result<EditReport, EditFault>
    ensures does { Does bench.old (edit_of change) result bench.new }
{
    match change {
        Change::Set {
            frame,
            input,
            value,
        } => bench.set_bit(frame, input, value),
        Change::Rewire {
            gate,
            right0,
            right1,
        } => bench.rewire(gate, right0, right1),
        Change::Reset { latch, value } => bench.set_reset(latch, value),
        Change::Append { right0, right1 } => bench.append_gate(right0, right1),
        Change::Output { position, literal } => bench.set_output(position, literal),
        Change::DropFrame => bench.drop_frame(),
    }
}

/// Writes the report of an edit that is done, and returns the status.
pub(crate) fn tell(answer: Result<EditReport, EditFault>, report: &mut AigReport) -> u8
    ensures tells { Tells result report.new.evaluated report.new.changed answer }
    ensures kept { result ≢ 0 → report.new ≡ report.old }
    ensures open { result ≢ 255 }
{
    match answer {
        Ok(EditReport { evaluated, changed }) => {
            *report = AigReport { evaluated, changed };
            DONE
        }
        Err(fault) => status_of(fault),
    }
}

/// Does an edit of a bench that C holds.
pub(crate) fn edit(alloc: Global, live: &mut AigLive, change: Change, report: &mut AigReport) -> u8
    ensures edits { LiveEdit live.old.seat.held (Ok (edit_of change)) result report.old report.new live.new.seat.held }
{
    let Some(mut held) = live.take(alloc) else {
        return NOT_OPEN;
    };
    let answer = apply(&mut held, change);
    live.put(held);
    tell(answer, report)
}
