//! Whether a run keeps all constraints at its first frames, and what breaks it.
ghost use Rattle.std.specs.Prelude.{◌≡◌, ◌≤◌, ◌<◌, length, IfNone, IfOk, IfSome};
ghost use Rattle.aig_sim.specs.Breaks.{BreaksNothing, IsFirstBreak, as_witness};
ghost use Rattle.aig_sim.specs.state.Checking.{HoldConstraints, IsFirstFailure};

use crate::simulation::machine::Machine;
use crate::witness::run::Run;
use crate::witness::{first_failure, wrong_start};
use aig_base::{Circuit, Memory};
use aig_values::Stimulus;
use std::alloc::Global;

/// Why a run does not keep all constraints at its first frames. Positions and frames count from 0.
#[derive(Clone, Copy, PartialEq, Eq, Debug)]
pub enum Break {
    /// The latch at this position starts at a value that its reset does not allow.
    Initial(u32),
    /// At this frame the constraint at this position is not 1.
    Constraint(u32, u32),
    /// The run has only so many frames.
    Frames(u32),
}

// Simulates so many frames, and returns the first frame and the position in it of a constraint that is not 1.
fn run_rows(machine: &mut Machine<'_>, rows: &Stimulus, frames: u32) -> Option<(u32, u32)>
    requires width { rows.now.width ≡ length machine.old.circuit.inputs }
    requires frames { frames ≤ length rows.now.rows }
    ensures some { IfSome result (λ at.
        IsFirstFailure machine.old.circuit (as_witness machine.old.states rows.now.rows) at.0 at.1) }
    ensures frame { IfSome result (λ at. at.0 < frames) }
    ensures none { IfNone result
        (HoldConstraints machine.old.circuit (as_witness machine.old.states rows.now.rows) frames) }
{
    // Their contracts say that the rows have the width, and that there is a value for each latch.
    rows.width();
    machine.states();
    for frame in 0..frames {
        machine.step(rows.row(frame));
        if let Some(position) = first_failure(machine) {
            return Some((frame, position));
        }
    }
    None
}

/// Why a run does not keep all constraints of a circuit at its first frames, so many of them: the first that applies. A
/// latch starts at another value than its reset, where that is 0 or 1; a constraint is not 1 at one of these frames; the
/// run has fewer frames. If none applies, the run keeps them, whatever its x turn out to be. Frames after these are not
/// looked at. All memory that it takes is reserved before the first frame.
pub fn first_break(
    alloc: Global,
    circuit: &Circuit,
    run: &Run,
    frames: u32,
) -> Result<Option<Break>, Memory>
    requires start { length run.now.start.items ≡ length circuit.now.latches }
    requires width { run.now.rows.width ≡ length circuit.now.inputs }
    ensures some { IfOk result (λ found. IfSome found
        (IsFirstBreak circuit.now run.now.start.items run.now.rows.rows frames)) }
    ensures none { IfOk result (λ found. IfNone found
        (BreaksNothing circuit.now run.now.start.items run.now.rows.rows frames)) }
{
    let start = Vec::from_slice(alloc, &run.start)?;
    let mut machine = Machine::new(alloc, circuit, start)?;
    if let Some(latch) = wrong_start(&machine) {
        return Ok(Some(Break::Initial(latch)));
    }
    let given = run.rows.frames();
    if let Some((frame, constraint)) = run_rows(&mut machine, &run.rows, frames.min(given)) {
        return Ok(Some(Break::Constraint(frame, constraint)));
    }
    if given < frames {
        return Ok(Some(Break::Frames(given)));
    }
    Ok(None)
}
