//! The sections of an unrolled circuit.
ghost use Rattle.std.specs.Prelude.{◌≡◌, ◌≤◌, ◌<◌, ◌+◌, true, false, OnOk, IfOk, All, length, map};
ghost use Rattle.aig_parts.specs.Formed.{limit};
ghost use Rattle.aig_parts.specs.Limits.{frame_limit};
ghost use Rattle.aig_base.specs.Order.{IsCanonicalOrder};
ghost use Rattle.aig_base.specs.Renumbered.{ordered_gates};
ghost use Rattle.aig_base.specs.RenumberingTable.{HasAllEntries};
ghost use Rattle.aig_unroll.specs.FrameLiteral as literals;
ghost use Rattle.aig_unroll.specs.state.FrameTable.{IsWithin, IsPlan, AddsFrame, AddsNothing};
ghost use Rattle.aig_unroll.specs.state.FrameTable.{IsGateNumbered, numbered_gate};
ghost use Rattle.aig_unroll.specs.state.FrameTable.{AddsProperties, AreSections, IsNextFrame};
ghost use Rattle.aig_unroll.specs.Unrollable.{FitsLimits};

use crate::unrolling::frame_literals::Frame;
use crate::unrolling::guards::{push_chain, push_guard_literals, push_guards};
use crate::unrolling::numbers::Numbers;
use crate::unrolling::parts::{first_latches, next_latches, push_gates, push_literals};
use crate::unrolling::plan::{Plan, has_guards};
use aig_base::{Circuit, Gate, List, Lit, Memory};
use std::alloc::Global;

/// What the frames add to, section by section.
#[derive(Drop)]
pub(crate) struct Sections {
    pub outputs: List<Lit>,
    pub bad: List<Lit>,
    pub constraints: List<Lit>,
    pub gates: List<Gate>,
}

// Adds the bad literals and the constraints of a frame, where there are both: the gates that guard.
fn push_guarded(
    sections: &mut Sections,
    plan: &Plan,
    frame: &Frame,
    circuit: &Circuit,
) -> Result<(), Memory>
    requires within { IsWithin plan.now frame.now }
    requires chain { plan.now.chain ≡ length circuit.now.constraints }
    requires some { 0 < length circuit.now.constraints }
    requires size { plan.now.gates + plan.now.chain + length circuit.now.bad ≤ plan.now.size }
    requires listed { HasAllEntries circuit.now plan.now.numbers }
    requires guards { literals.has_guards circuit.now ≡ true }
    ensures { OnOk result (AddsProperties circuit.now plan.now frame.now sections.old sections.new) }
{
    push_chain(&mut sections.gates, plan, frame, circuit.constraints())?;
    push_guards(&mut sections.gates, plan, frame, circuit.bad())?;
    push_guard_literals(&mut sections.bad, plan, frame, circuit.bad().len())
}

// Adds the bad literals and the constraints of a frame as they are.
fn push_unguarded(
    sections: &mut Sections,
    plan: &Plan,
    frame: &Frame,
    circuit: &Circuit,
) -> Result<(), Memory>
    requires within { IsWithin plan.now frame.now }
    requires listed { HasAllEntries circuit.now plan.now.numbers }
    requires guards { literals.has_guards circuit.now ≡ false }
    ensures { OnOk result (AddsProperties circuit.now plan.now frame.now sections.old sections.new) }
{
    push_literals(&mut sections.bad, plan, frame, circuit.bad())?;
    push_literals(
        &mut sections.constraints,
        plan,
        frame,
        circuit.constraints(),
    )
}

// Adds a frame.
fn push_frame(
    sections: &mut Sections,
    plan: &Plan,
    frame: &Frame,
    circuit: &Circuit,
    numbered: &[Gate],
) -> Result<(), Memory>
    requires within { IsWithin plan.now frame.now }
    requires gates { plan.now.gates ≡ length circuit.now.gates }
    requires chain { plan.now.chain ≡ literals.chain_count circuit.now }
    requires size { plan.now.size ≡ literals.frame_size circuit.now }
    requires listed { HasAllEntries circuit.now plan.now.numbers }
    requires numbered { All (IsGateNumbered plan.now) numbered.now }
    ensures { OnOk result (AddsFrame circuit.now numbered.now plan.now frame.now sections.old sections.new) }
{
    push_literals(&mut sections.outputs, plan, frame, circuit.outputs())?;
    push_gates(&mut sections.gates, plan, frame, numbered)?;
    if has_guards(circuit) {
        push_guarded(sections, plan, frame, circuit)
    } else {
        push_unguarded(sections, plan, frame, circuit)
    }
}

// The gates in the order, with the literals of the renumbered circuit.
fn numbered_gates(
    alloc: Global,
    circuit: &Circuit,
    order: &[u32],
    numbers: &Numbers,
) -> Result<List<Gate>, Memory>
    requires listed { HasAllEntries circuit.now numbers.now }
    ensures { IfOk result (λ gates. gates
        ≡ map (numbered_gate numbers.now) (ordered_gates circuit.now order.now)) }
{
    let mut gates = List::new(alloc);
    for variable in order {
        if let Some(gate) = circuit.gate_of(*variable) {
            gates.push(numbers.gate(gate))?;
        }
    }
    Ok(gates)
}

// The frame after this one.
fn next_frame(alloc: Global, plan: &Plan, frame: &Frame, circuit: &Circuit) -> Result<Frame, Memory>
    requires within { IsWithin plan.now frame.now }
    requires number { frame.now.number < frame_limit }
    requires listed { HasAllEntries circuit.now plan.now.numbers }
    ensures { IfOk result (IsNextFrame circuit.now plan.now frame.now) }
{
    Ok(Frame {
        number: frame.number + 1,
        latches: next_latches(alloc, plan, frame, circuit.latches())?,
    })
}

// Whether a frame adds nothing, because the circuit has at most inputs and latches.
fn adds_nothing(circuit: &Circuit, order: &[u32]) -> bool
    ensures { result ≡ true → AddsNothing circuit.now order.now }
{
    circuit.outputs().is_empty()
        && circuit.bad().is_empty()
        && circuit.constraints().is_empty()
        && order.is_empty()
}

/// The sections of the circuit unrolled for this many frames.
pub(crate) fn unrolled_sections(
    alloc: Global,
    circuit: &Circuit,
    order: &[u32],
    plan: &Plan,
    frames: u32,
) -> Result<Sections, Memory>
    requires order { IsCanonicalOrder circuit.now order.now }
    requires fits { FitsLimits circuit.now frames }
    requires plan { IsPlan circuit.now order.now frames plan.now }
    ensures { IfOk result (AreSections circuit.now order.now frames frames) }
{
    circuit.facts();
    let mut sections = Sections {
        outputs: List::new(alloc),
        bad: List::new(alloc),
        constraints: List::new(alloc),
        gates: List::new(alloc),
    };
    if adds_nothing(circuit, order) {
        return Ok(sections);
    }
    let numbered = numbered_gates(alloc, circuit, order, &plan.numbers)?;
    let mut frame = Frame {
        number: 0,
        latches: first_latches(alloc, circuit.latches(), frames * plan.inputs)?,
    };
    while frame.number < frames {
        push_frame(&mut sections, plan, &frame, circuit, numbered.as_slice())?;
        frame = next_frame(alloc, plan, &frame, circuit)?;
    }
    Ok(sections)
}
