//! Whether other fan-ins of a gate would close a combinational cycle.
ghost use Rattle.std.specs.Prelude.{IfOk};
ghost use Rattle.std.specs.Bool.{OnTrue, OnFalse};
ghost use Rattle.aig_base.specs.Changes.{with_gate};
ghost use Rattle.aig_base.specs.Grounded.{IsAcyclic};
ghost use Rattle.aig_parts.specs.Literal.{variable};
ghost use Rattle.aig_base.specs.Sections.{IsDefined, IsLeftSide};

use crate::check::walk::Walk;
use crate::circuit::Circuit;
use aig_bytes::Memory;
use aig_parts::Lit;
use std::alloc::Global;

/// Whether the circuit with these right sides at a gate would not be acyclic. `gate` is the gate's even literal, and
/// the right sides are defined. One walk, linear in the circuit.
pub fn would_cycle(
    alloc: Global,
    circuit: &Circuit,
    gate: Lit,
    r0: Lit,
    r1: Lit,
) -> Result<bool, Memory>
    requires gate { IsLeftSide circuit.now gate }
    requires defined0 { IsDefined circuit.now (variable r0) }
    requires defined1 { IsDefined circuit.now (variable r1) }
    ensures cycle { IfOk result (λ b. OnTrue b (IsAcyclic (with_gate circuit.now gate r0 r1) → ⊥)) }
    ensures none { IfOk result (λ b. OnFalse b (IsAcyclic (with_gate circuit.now gate r0 r1))) }
{
    let mut walk = Walk::new(alloc, circuit.max_var())?;
    walk.meet(r0.var())?;
    walk.meet(r1.var())?;
    while let Some(number) = walk.pending.pop() {
        if number == gate.var() {
            return Ok(true);
        }
        if let Some(read) = circuit.gate_of(number) {
            walk.meet(read.rhs0.var())?;
            walk.meet(read.rhs1.var())?;
        }
    }
    Ok(false)
}
