//! The literals of a frame.
ghost use Rattle.std.specs.Prelude.{◌≡◌, ◌+◌, ◌≤◌, IfOk, map};
ghost use Rattle.aig_base.specs.Renumbered as renumbered;
ghost use Rattle.aig_base.specs.RenumberingTable.{IsInTable};
ghost use Rattle.aig_unroll.specs.state.FrameTable as table;
ghost use Rattle.aig_unroll.specs.state.FrameTable.{IsWithin, IsNumbered};

use crate::unrolling::plan::{Plan, is_uninitialised};
use aig_base::{Gate, Latch, List, Lit, Memory};
use std::alloc::Global;

/// A frame of an unrolled circuit: which it is, from 0, and the literal of each latch.
#[derive(Drop)]
pub(crate) struct Frame {
    pub number: u32,
    pub latches: List<Lit>,
}

// The literal of the variable with this number in the renumbered circuit.
fn number_literal(plan: &Plan, frame: &Frame, number: u32) -> Lit
    requires within { IsWithin plan.now frame.now }
    requires number { number ≤ plan.now.inputs + plan.now.latches + plan.now.gates }
    ensures { result ≡ table.number_literal plan.now frame.now number }
{
    let definitions = plan.inputs + plan.latches;
    if definitions < number {
        let place = number - definitions - 1;
        Lit::new(2 * (plan.sources + frame.number * plan.size + place + 1))
    } else if plan.inputs < number {
        frame.latches[(number - plan.inputs - 1) as usize]
    } else if 0 < number {
        Lit::new(2 * (frame.number * plan.inputs + number))
    } else {
        Lit::new(0)
    }
}

/// The literal that stands for a literal at the frame.
pub(crate) fn literal_at(plan: &Plan, frame: &Frame, literal: Lit) -> Lit
    requires within { IsWithin plan.now frame.now }
    requires listed { IsInTable plan.now.numbers literal }
    ensures { result ≡ table.literal_at plan.now frame.now literal }
{
    let positive = number_literal(plan, frame, plan.numbers.get(literal.var()));
    if literal.is_neg() {
        positive.not()
    } else {
        positive
    }
}

/// The literal that stands for a literal of the renumbered circuit at the frame.
pub(crate) fn numbered_at(plan: &Plan, frame: &Frame, literal: Lit) -> Lit
    requires within { IsWithin plan.now frame.now }
    requires numbered { IsNumbered plan.now literal }
    ensures { result ≡ table.numbered_at plan.now frame.now literal }
{
    let positive = number_literal(plan, frame, literal.var());
    if literal.is_neg() {
        positive.not()
    } else {
        positive
    }
}

/// The gate with these sides, the greater right side first.
pub(crate) fn ready_gate(lhs: Lit, left: Lit, right: Lit) -> Gate
    ensures { result ≡ renumbered.ready_gate lhs left right }
{
    if left.value() < right.value() {
        Gate {
            lhs,
            rhs0: right,
            rhs1: left,
        }
    } else {
        Gate {
            lhs,
            rhs0: left,
            rhs1: right,
        }
    }
}
