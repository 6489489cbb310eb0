//! What is the same in each frame of an unrolled circuit.
ghost use Rattle.std.specs.Prelude.{◌≡◌, ◌+◌, ◌*◌, ◌≤◌, ◌↔◌, IsTrue, IfOk};
ghost use Rattle.aig_parts.specs.Formed.{limit};
ghost use Rattle.aig_base.specs.Order.{IsCanonicalOrder};
ghost use Rattle.aig_unroll.specs.FrameLiteral as literals;
ghost use Rattle.aig_unroll.specs.state.FrameTable.{IsPlan};
ghost use Rattle.aig_unroll.specs.Unrollable.{FitsLimits};

use crate::unrolling::numbers::Numbers;
use aig_base::{Circuit, Latch, Memory};
use std::alloc::Global;

/// Counts that give the gates of each frame their variables, and what each variable is.
#[derive(Drop)]
pub(crate) struct Plan<'a> {
    /// How many inputs, latches and gates the circuit has.
    pub inputs: u32,
    pub latches: u32,
    pub gates: u32,
    /// How many chain gates a frame has, and how many gates in all.
    pub chain: u32,
    pub size: u32,
    /// The inputs of the unrolled circuit: those of all frames, and one for each uninitialised latch.
    pub sources: u32,
    /// For each variable its number in the renumbered circuit: inputs, latches, gates in the canonical order.
    pub numbers: Numbers<'a>,
}

/// Whether bad literals are guarded: there are bad literals and constraints.
pub(crate) fn has_guards(circuit: &Circuit) -> bool
    ensures { result ≡ literals.has_guards circuit.now }
{
    !circuit.bad().is_empty() && !circuit.constraints().is_empty()
}

/// Whether the reset is the latch's own literal.
pub(crate) fn is_uninitialised(latch: &Latch) -> bool
    ensures { result ≡ literals.is_uninitialised latch.now }
{
    latch.reset.value() == latch.lit.value()
}

/// How many latches are uninitialised: the reset is the latch's own literal, so it starts at no known value (AIGER 1.9,
/// reset logic).
pub fn uninitialised(circuit: &Circuit) -> usize
    ensures { result ≡ literals.uninitialised circuit.now.latches }
{
    circuit
        .latches()
        .iter()
        .filter(|latch| is_uninitialised(*latch))
        .count()
}

/// How many chain gates a frame has.
pub(crate) fn chain_count(circuit: &Circuit) -> usize
    ensures { result ≡ literals.chain_count circuit.now }
{
    if has_guards(circuit) {
        circuit.constraints().len()
    } else {
        0
    }
}

/// How many guard gates a frame has.
pub(crate) fn guard_count(circuit: &Circuit) -> usize
    ensures { result ≡ literals.guard_count circuit.now }
{
    if has_guards(circuit) {
        circuit.bad().len()
    } else {
        0
    }
}

/// How many gates a frame has.
pub(crate) fn frame_size(circuit: &Circuit) -> usize
    ensures { result ≡ literals.frame_size circuit.now }
{
    circuit.facts();
    circuit.gates().len() + chain_count(circuit) + guard_count(circuit)
}

impl<'a> Plan<'a> {
    /// The plan for this many frames.
    pub fn of(
        alloc: Global,
        circuit: &'a Circuit,
        order: &'a [u32],
        frames: u32,
    ) -> Result<Plan<'a>, Memory>
        requires order { IsCanonicalOrder circuit.now order.now }
        requires fits { FitsLimits circuit.now frames }
        ensures { IfOk result (IsPlan circuit.now order.now frames) }
    {
        circuit.facts();
        let inputs = circuit.inputs().len();
        Ok(Plan {
            inputs: inputs as u32,
            latches: circuit.latches().len() as u32,
            gates: circuit.gates().len() as u32,
            chain: chain_count(circuit) as u32,
            size: frame_size(circuit) as u32,
            sources: (frames as usize * inputs + uninitialised(circuit)) as u32,
            numbers: Numbers::of(alloc, circuit, order)?,
        })
    }
}
