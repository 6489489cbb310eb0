//! Unrolling, the time-frame expansion of a circuit. Where the standard is silent, it is our own choice.
ghost use Rattle.std.specs.Prelude.{◌≡◌, ◌≤◌, IfOk, IfErr, OnOk};
ghost use Rattle.aig_parts.specs.Formed.{limit};
ghost use Rattle.aig_base.specs.Levels.{AreLevels};
ghost use Rattle.aig_base.specs.Order.{IsCanonicalOrder};
ghost use Rattle.aig_base.specs.Renumbered.{evens, IsBinaryReady};
ghost use Rattle.aig_unroll.specs.Answers.{AnswersUnrolling, IsUnrollable, IsUnrolled, RefusesUnrolling};
ghost use Rattle.aig_unroll.specs.Unrollable.{FitsLimits};
ghost use Rattle.aig_unroll.specs.Unrolled.{unrolled};

mod frame_literals;
mod guards;
pub(crate) mod laws;
pub(crate) mod limits;
mod numbers;
mod parts;
pub(crate) mod plan;
mod sections;

use crate::fault::UnrollFault;
use crate::unrolling::limits::{fits_limits, has_liveness};
use crate::unrolling::plan::Plan;
use crate::unrolling::sections::{Sections, unrolled_sections};
use aig_base::{Circuit, Levels, List, Lit, Memory, Raw, Symbols, canonical_order};
use std::alloc::Global;

// The literals of the variables 1 to this one.
fn even_literals(alloc: Global, last: u32) -> Result<List<Lit>, Memory>
    requires { last ≤ limit }
    ensures { IfOk result (λ new. new ≡ evens last) }
{
    let mut new = List::new(alloc);
    for variable in 0..last {
        new.push(Lit::new(2 * (variable + 1)))?;
    }
    Ok(new)
}

// The parts of the circuit unrolled for this many frames.
fn unrolled_parts(
    alloc: Global,
    circuit: &Circuit,
    order: &[u32],
    frames: u32,
) -> Result<Raw, Memory>
    requires order { IsCanonicalOrder circuit.now order.now }
    requires fits { FitsLimits circuit.now frames }
    ensures { IfOk result (λ parts. parts ≡ unrolled circuit.now order.now frames) }
{
    let plan = Plan::of(alloc, circuit, order, frames)?;
    let Sections {
        outputs,
        bad,
        constraints,
        gates,
    } = unrolled_sections(alloc, circuit, order, &plan, frames)?;
    Ok(Raw {
        max_var: plan.sources + frames * plan.size,
        inputs: even_literals(alloc, plan.sources)?,
        latches: List::new(alloc),
        outputs,
        bad,
        constraints,
        justice: List::new(alloc),
        fairness: List::new(alloc),
        gates,
        symbols: Symbols::new(alloc),
        comment: None,
    })
}

/// The circuit unrolled for this many frames, as `unroll` has it, where that is within the limits (`fits_limits`). It
/// leaves out justice and fairness, which no other part depends on, and takes 0 frames too.
pub fn unrolled_circuit(
    alloc: Global,
    circuit: &Circuit,
    levels: &Levels,
    frames: u32,
) -> Result<Circuit, Memory>
    requires levels { AreLevels circuit.now levels.now }
    requires fits { FitsLimits circuit.now frames }
    ensures parts { IfOk result (IsUnrolled circuit.now frames) }
    ensures ready { IfOk result IsBinaryReady }
{
    circuit.facts();
    let order = canonical_order(alloc, circuit, levels)?;
    let parts = unrolled_parts(alloc, circuit, &order, frames)?;
    Ok(Circuit::of_ready(parts))
}

// The first fault that stands in the way of unrolling.
fn check_request(circuit: &Circuit, frames: u32) -> Result<(), UnrollFault>
    ensures unrollable { OnOk result (IsUnrollable circuit.now frames) }
    ensures refused { IfErr result (RefusesUnrolling circuit.now frames) }
{
    if frames == 0 {
        return Err(UnrollFault::NoFrames);
    }
    if has_liveness(circuit) {
        return Err(UnrollFault::Liveness);
    }
    if !fits_limits(circuit, frames) {
        return Err(UnrollFault::Limit);
    }
    Ok(())
}

/// The circuit unrolled for this many frames: a combinational circuit with the inputs of the frames in turn and then
/// the uninitialised latches. Its other sections are those of the frames in turn; the gates of a frame are in the
/// canonical order. Where there are both bad literals and constraints, each bad literal is guarded by all constraints
/// up to its frame. Names and comment go. A binary file can hold it. The caller passes the circuit's levels. It refuses
/// 0 frames, then justice and fairness, then what is over its limit, and takes no memory before that.
pub fn unroll(
    alloc: Global,
    circuit: &Circuit,
    levels: &Levels,
    frames: u32,
) -> Result<Circuit, UnrollFault>
    requires { AreLevels circuit.now levels.now }
    ensures answers { AnswersUnrolling circuit.now frames result }
    ensures ready { IfOk result IsBinaryReady }
{
    check_request(circuit, frames)?;
    Ok(unrolled_circuit(alloc, circuit, levels, frames)?)
}
