//! The gates that guard the bad literals of a frame.
ghost use Rattle.std.specs.Prelude.{◌≡◌, ◌+◌, ◌*◌, ◌++◌, ◌≤◌, ◌<◌, OnOk, IfOk, All, length, map};
ghost use Rattle.std.specs.List.{range_with_len};
ghost use Rattle.aig_base.specs.RenumberingTable.{IsInTable};
ghost use Rattle.aig_unroll.specs.state.FrameTable as table;
ghost use Rattle.aig_unroll.specs.state.FrameTable.{IsWithin};

use crate::unrolling::frame_literals::{Frame, literal_at, ready_gate};
use crate::unrolling::plan::Plan;
use aig_base::{Gate, List, Lit, Memory};

// The literal of a gate by its place in the frame, from 0.
fn gate_literal(plan: &Plan, frame: &Frame, place: u32) -> Lit
    requires within { IsWithin plan.now frame.now }
    requires place { place < plan.now.size }
    ensures { result ≡ 2 * table.variable_at plan.now frame.now.number place }
{
    Lit::new(2 * (plan.sources + frame.number * plan.size + place + 1))
}

// The last chain literal before the frame, or 1 where it is the first.
fn chain_before(plan: &Plan, frame: &Frame) -> Lit
    requires { IsWithin plan.now frame.now }
    ensures { result ≡ table.plan_chain_before plan.now frame.now.number }
{
    if frame.number == 0 {
        Lit::new(1)
    } else {
        let before = frame.number - 1;
        Lit::new(2 * (plan.sources + before * plan.size + plan.gates + plan.chain))
    }
}

/// Adds the chain gates: each ANDs a constraint to the chain literal before it.
pub(crate) fn push_chain(
    to: &mut List<Gate>,
    plan: &Plan,
    frame: &Frame,
    constraints: &[Lit],
) -> Result<(), Memory>
    requires within { IsWithin plan.now frame.now }
    requires chain { plan.now.chain ≡ length constraints.now }
    requires listed { All (IsInTable plan.now.numbers) constraints.now }
    ensures { OnOk result (to.new ≡ to.old
        ++ map (table.plan_chain_gate plan.now frame.now constraints.now) (range_with_len 0 plan.now.chain)) }
{
    let mut chain = chain_before(plan, frame);
    for (place, constraint) in constraints.iter().enumerate() {
        let literal = gate_literal(plan, frame, plan.gates + place as u32);
        to.push(ready_gate(literal, literal_at(plan, frame, *constraint), chain))?;
        chain = literal;
    }
    Ok(())
}

/// Adds the guard gates: each ANDs a bad literal to the last chain literal of the frame.
pub(crate) fn push_guards(
    to: &mut List<Gate>,
    plan: &Plan,
    frame: &Frame,
    bad: &[Lit],
) -> Result<(), Memory>
    requires within { IsWithin plan.now frame.now }
    requires chain { 0 < plan.now.chain }
    requires size { plan.now.gates + plan.now.chain + length bad.now ≤ plan.now.size }
    requires listed { All (IsInTable plan.now.numbers) bad.now }
    ensures { OnOk result (to.new ≡ to.old
        ++ map (table.plan_guard_gate plan.now frame.now bad.now) (range_with_len 0 (length bad.now))) }
{
    let chain = gate_literal(plan, frame, plan.gates + plan.chain - 1);
    for (place, literal) in bad.iter().enumerate() {
        let guard = gate_literal(plan, frame, plan.gates + plan.chain + place as u32);
        to.push(ready_gate(guard, literal_at(plan, frame, *literal), chain))?;
    }
    Ok(())
}

/// Adds the literals of this many guard gates.
pub(crate) fn push_guard_literals(
    to: &mut List<Lit>,
    plan: &Plan,
    frame: &Frame,
    guards: usize,
) -> Result<(), Memory>
    requires within { IsWithin plan.now frame.now }
    requires size { plan.now.gates + plan.now.chain + guards ≤ plan.now.size }
    ensures { OnOk result (to.new ≡ to.old
        ++ map (table.plan_guard_literal plan.now frame.now) (range_with_len 0 guards)) }
{
    for place in 0..guards {
        to.push(gate_literal(plan, frame, plan.gates + plan.chain + place as u32))?;
    }
    Ok(())
}
