//! What can be unrolled. Where the standard is silent, the limits are our own choice.
ghost use Rattle.std.specs.Prelude.{◌≡◌, ◌≤◌, ◌*◌, ◌↔◌, IsTrue, length};
ghost use Rattle.aig_parts.specs.Formed.{limit};
ghost use Rattle.aig_parts.specs.Limits.{frame_limit};
ghost use Rattle.aig_unroll.specs.Unrollable.{FitsLimits, HasLiveness};
ghost use Rattle.aig_unroll.specs.Unrolled as parts;

use crate::unrolling::plan::{frame_size, has_guards, uninitialised};
use aig_base::{Circuit, LIMIT};

/// The greatest number of frames.
const FRAMES: u32 = 65_536;

/// Whether there are justice properties or fairness constraints.
pub(crate) fn has_liveness(circuit: &Circuit) -> bool
    ensures { IsTrue result ↔ HasLiveness circuit.now }
{
    !circuit.justice().is_empty() || !circuit.fairness().is_empty()
}

// How many constraints of a frame stay in their section.
fn kept_constraints(circuit: &Circuit) -> usize
    ensures { result ≡ length (parts.kept_constraints circuit.now) }
{
    if has_guards(circuit) {
        0
    } else {
        circuit.constraints().len()
    }
}

// A count of all frames.
fn in_frames(frames: usize, count: usize) -> usize
    requires frames { frames ≤ frame_limit }
    requires count { count ≤ 3 * limit }
    ensures value { result ≡ frames * count }
    ensures small { result ≤ frame_limit * (3 * limit) }
{
    frames * count
}

/// Whether neither the number of frames, nor a variable, nor a section of the unrolled circuit is over its limit.
pub fn fits_limits(circuit: &Circuit, frames: u32) -> bool
    ensures { IsTrue result ↔ FitsLimits circuit.now frames }
{
    if frames > FRAMES {
        return false;
    }
    circuit.facts();
    let frames = frames as usize;
    let inputs = in_frames(frames, circuit.inputs().len()) + uninitialised(circuit);
    let gates = in_frames(frames, frame_size(circuit));
    inputs + gates <= LIMIT
        && in_frames(frames, circuit.outputs().len()) <= LIMIT
        && in_frames(frames, circuit.bad().len()) <= LIMIT
        && in_frames(frames, kept_constraints(circuit)) <= LIMIT
}
