//! What a frame adds to the sections of the unrolled circuit.
ghost use Rattle.std.specs.Prelude.{◌≡◌, ◌+◌, ◌++◌, ◌≤◌, ◌<◌, OnOk, IfOk, All, length, map};
ghost use Rattle.std.specs.List.{range_with_len};
ghost use Rattle.aig_parts.specs.Formed.{limit};
ghost use Rattle.aig_base.specs.RenumberingTable.{IsInTable};
ghost use Rattle.aig_unroll.specs.FrameLiteral as literals;
ghost use Rattle.aig_unroll.specs.state.FrameTable as table;
ghost use Rattle.aig_unroll.specs.state.FrameTable.{AreGateLiterals, IsGateNumbered, IsNumbered, IsWithin};

use crate::unrolling::frame_literals::{Frame, literal_at, numbered_at, ready_gate};
use crate::unrolling::plan::{Plan, is_uninitialised};
use aig_base::{Gate, Latch, List, Lit, Memory};
use std::alloc::Global;

/// Adds the literals at the frame.
pub(crate) fn push_literals(
    to: &mut List<Lit>,
    plan: &Plan,
    frame: &Frame,
    literals: &[Lit],
) -> Result<(), Memory>
    requires within { IsWithin plan.now frame.now }
    requires listed { All (IsInTable plan.now.numbers) literals.now }
    ensures { OnOk result (to.new ≡ to.old ++ map (table.literal_at plan.now frame.now) literals.now) }
{
    for literal in literals {
        to.push(literal_at(plan, frame, *literal))?;
    }
    Ok(())
}

// The literals of gates at a frame: the least of the renumbered circuit, and what stands for it.
#[derive(Clone, Copy, Drop)]
struct GateLiterals {
    least: u32,
    first: u32,
}

impl GateLiterals {
    fn of(plan: &Plan, frame: &Frame) -> GateLiterals
        requires { IsWithin plan.now frame.now }
        ensures { AreGateLiterals plan.now frame.now result }
    {
        GateLiterals {
            least: 2 * (plan.inputs + plan.latches + 1),
            first: 2 * (plan.sources + frame.number * plan.size + 1),
        }
    }
}

// The literal that stands for a literal of the renumbered circuit at the frame. That of a gate is found by its distance
// from the first.
fn side_at(plan: &Plan, frame: &Frame, gates: GateLiterals, literal: Lit) -> Lit
    requires within { IsWithin plan.now frame.now }
    requires numbered { IsNumbered plan.now literal }
    requires gates { AreGateLiterals plan.now frame.now gates }
    ensures { result ≡ table.numbered_at plan.now frame.now literal }
{
    if literal.value() < gates.least {
        numbered_at(plan, frame, literal)
    } else {
        Lit::new(literal.value() - gates.least + gates.first)
    }
}

fn gate_at(plan: &Plan, frame: &Frame, gates: GateLiterals, gate: Gate) -> Gate
    requires within { IsWithin plan.now frame.now }
    requires numbered { IsGateNumbered plan.now gate }
    requires gates { AreGateLiterals plan.now frame.now gates }
    ensures { result ≡ table.plan_gate plan.now frame.now gate }
{
    ready_gate(
        side_at(plan, frame, gates, gate.lhs),
        side_at(plan, frame, gates, gate.rhs0),
        side_at(plan, frame, gates, gate.rhs1),
    )
}

/// Adds the gates at the frame, of gates with the literals of the renumbered circuit.
pub(crate) fn push_gates(
    to: &mut List<Gate>,
    plan: &Plan,
    frame: &Frame,
    gates: &[Gate],
) -> Result<(), Memory>
    requires within { IsWithin plan.now frame.now }
    requires numbered { All (IsGateNumbered plan.now) gates.now }
    ensures { OnOk result (to.new ≡ to.old ++ map (table.plan_gate plan.now frame.now) gates.now) }
{
    let literals = GateLiterals::of(plan, frame);
    for gate in gates {
        to.push(gate_at(plan, frame, literals, *gate))?;
    }
    Ok(())
}

/// The latches' literals at the frame after this one.
pub(crate) fn next_latches(
    alloc: Global,
    plan: &Plan,
    frame: &Frame,
    latches: &[Latch],
) -> Result<List<Lit>, Memory>
    requires within { IsWithin plan.now frame.now }
    requires listed { All (λ x. IsInTable plan.now.numbers x.next) latches.now }
    ensures { IfOk result (λ new. new ≡ map (λ x. table.literal_at plan.now frame.now x.next) latches.now) }
{
    let mut new = List::new(alloc);
    for latch in latches {
        new.push(literal_at(plan, frame, latch.next))?;
    }
    Ok(new)
}

/// The latches' literals at the first frame: resets, and inputs after this variable for uninitialised ones.
pub(crate) fn first_latches(
    alloc: Global,
    latches: &[Latch],
    offset: u32,
) -> Result<List<Lit>, Memory>
    requires { offset + length latches.now ≤ limit + limit }
    ensures { IfOk result (λ new. new
        ≡ map (table.first_at latches.now offset) (range_with_len 0 (length latches.now))) }
{
    let mut new = List::new(alloc);
    let mut variable = offset;
    for latch in latches {
        if is_uninitialised(latch) {
            variable += 1;
            new.push(Lit::new(2 * variable))?;
        } else {
            new.push(latch.reset)?;
        }
    }
    Ok(new)
}
