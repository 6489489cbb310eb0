//! Which faults of an edit apply, before anything changes.
ghost use Rattle.std.specs.Prelude.{◌≡◌, ◌↔◌, ◌⊎◌, ◌+◌, ◌*◌, ◌<◌, ◌≤◌, length, IfErr, IfOk, IfNone, IfSome, OnOk};
ghost use Rattle.std.specs.Prelude.{IsTrue};
ghost use Rattle.aig_parts.specs.declared.ternary.Tern.{Tern};
ghost use Rattle.aig_parts.specs.Formed.{limit};
ghost use Rattle.aig_parts.specs.Limits.{cell_limit};
ghost use Rattle.aig_parts.specs.Literal.{variable};
ghost use Rattle.aig_base.specs.Changes.{CanAppend};
ghost use Rattle.aig_base.specs.Sections.{IsDefined, IsLatchLiteral, IsLeftSide};
ghost use Rattle.aig_base.specs.Sound.{IsInRange, IsSound};
ghost use Rattle.aig_bench.specs.Edit.{Forbids, IsLeastFault, NoneApplies, append_gate, rewire, set_output, set_reset};
ghost use Rattle.aig_bench.specs.state.Latches.{IsLatchAt};
ghost use Rattle.aig_bench.specs.state.DrivenCircuit.{IsDriven, pair_of};

use crate::bench::sizes::CELLS;
use crate::edit::EditFault;
use crate::engine::driven_circuit::DrivenCircuit;
use aig_base::{Circuit, Definition, LIMIT, Lit};

/// Whether a variable is 0 or defined.
pub fn is_defined(circuit: &Circuit, variable: u32) -> bool
    ensures { IsTrue result ↔ IsDefined circuit.now variable }
{
    variable == 0 || circuit.definition(variable).is_some()
}

/// Whether a literal is the left side of a gate.
fn is_left_side(circuit: &Circuit, literal: Lit) -> bool
    requires { IsSound circuit.now }
    ensures { IsTrue result ↔ IsLeftSide circuit.now literal }
{
    match circuit.definition(literal.var()) {
        Some(Definition::Gate(position)) => {
            circuit.gates()[position as usize].lhs.value() == literal.value()
        }
        Some(Definition::Input(_)) => false,
        Some(Definition::Latch(_)) => false,
        None => false,
    }
}

/// The position of the latch of a literal.
fn latch_position(circuit: &Circuit, literal: Lit) -> Option<u32>
    requires { IsSound circuit.now }
    ensures latch { IfSome result (λ i. IsLatchAt circuit.now literal i) }
    ensures none { IfNone result (IsLatchLiteral circuit.now literal → ⊥) }
{
    match circuit.definition(literal.var()) {
        Some(Definition::Latch(position)) => {
            let latch = circuit.latches()[position as usize];
            if latch.lit.value() == literal.value() {
                Some(position)
            } else {
                None
            }
        }
        Some(Definition::Input(_)) => None,
        Some(Definition::Gate(_)) => None,
        None => None,
    }
}

/// Whether both literals are at most `2M + 1`.
fn are_in_range(circuit: &Circuit, r0: Lit, r1: Lit) -> bool
    ensures { IsTrue result ↔ (IsInRange circuit.now r0 × IsInRange circuit.now r1) }
{
    r0.var() <= circuit.max_var() && r1.var() <= circuit.max_var()
}

/// The fault of right sides: out of range, then undefined ones.
fn check_sides(circuit: &Circuit, r0: Lit, r1: Lit) -> Result<(), EditFault>
    ensures range { OnOk result (IsInRange circuit.now r0 × IsInRange circuit.now r1) }
    ensures defined { OnOk result (IsDefined circuit.now (variable r0) × IsDefined circuit.now (variable r1)) }
    ensures far { IfErr result (λ f. f ≡ EditFault.Range → IsInRange circuit.now r0 × IsInRange circuit.now r1 → ⊥) }
    ensures near { IfErr result (λ f. f ≡ EditFault.Undefined → IsInRange circuit.now r0 × IsInRange circuit.now r1) }
    ensures undefined { IfErr result (λ f. f ≡ EditFault.Undefined
        → IsDefined circuit.now (variable r0) × IsDefined circuit.now (variable r1) → ⊥) }
    ensures others { IfErr result (λ f. (f ≡ EditFault.Range) ⊎ (f ≡ EditFault.Undefined)) }
{
    if !are_in_range(circuit, r0, r1) {
        return Err(EditFault::Range);
    }
    if !is_defined(circuit, r0.var()) || !is_defined(circuit, r1.var()) {
        return Err(EditFault::Undefined);
    }
    Ok(())
}

/// Whether one more variable, and a cell of it at each frame, are within the limits.
fn has_room_for_variable(driven: &DrivenCircuit) -> bool
    ensures { IsTrue result ↔ ((driven.now.circuit.max_var < limit)
        × ((driven.now.circuit.max_var + 2) * length driven.now.stimulus.rows ≤ cell_limit)) }
{
    let max_var = driven.circuit.max_var();
    let frames = u64::from(driven.stimulus.frames());
    (max_var as usize) < LIMIT && (u64::from(max_var) + 2) * frames <= CELLS
}

/// The fault of a rewire, but for a cycle: no gate, then right sides out of range, then undefined ones.
pub fn check_rewire(driven: &DrivenCircuit, lhs: Lit, r0: Lit, r1: Lit) -> Result<(), EditFault>
    requires { IsDriven driven.now }
    ensures gate { OnOk result (IsLeftSide driven.now.circuit lhs) }
    ensures range { OnOk result (IsInRange driven.now.circuit r0 × IsInRange driven.now.circuit r1) }
    ensures defined { OnOk result (IsDefined driven.now.circuit (variable r0)
        × IsDefined driven.now.circuit (variable r1)) }
    ensures fault { IfErr result (IsLeastFault (Forbids (pair_of driven.now) (rewire lhs r0 r1))) }
{
    let circuit = &driven.circuit;
    if !is_left_side(circuit, lhs) {
        return Err(EditFault::NotAGate);
    }
    check_sides(circuit, r0, r1)
}

/// The latch of a reset, or the fault: no latch.
pub fn check_reset(driven: &DrivenCircuit, latch: Lit) -> Result<u32, EditFault>
    requires { IsDriven driven.now }
    ensures latch { IfOk result (λ i. IsLatchAt driven.now.circuit latch i) }
    ensures fault { (value : Tern) →
        IfErr result (IsLeastFault (Forbids (pair_of driven.now) (set_reset latch value))) }
{
    latch_position(&driven.circuit, latch).ok_or(EditFault::NotALatch)
}

/// The fault of an appended gate, but for out of memory: right sides out of range, then undefined ones, then a
/// variable or cells too many.
pub fn check_append(driven: &DrivenCircuit, r0: Lit, r1: Lit) -> Result<(), EditFault>
    ensures gate { OnOk result (CanAppend driven.now.circuit r0 r1) }
    ensures cells { OnOk result ((driven.now.circuit.max_var + 2) * length driven.now.stimulus.rows ≤ cell_limit) }
    ensures allowed { OnOk result (NoneApplies (Forbids (pair_of driven.now) (append_gate r0 r1))) }
    ensures fault { IfErr result (IsLeastFault (Forbids (pair_of driven.now) (append_gate r0 r1))) }
{
    check_sides(&driven.circuit, r0, r1)?;
    if !has_room_for_variable(driven) {
        return Err(EditFault::Limit);
    }
    Ok(())
}

/// The fault of a replaced output: a literal out of range, then an undefined one, then no output.
pub fn check_output(driven: &DrivenCircuit, position: u32, literal: Lit) -> Result<(), EditFault>
    ensures defined { OnOk result (IsDefined driven.now.circuit (variable literal)) }
    ensures position { OnOk result (position < length driven.now.circuit.outputs) }
    ensures allowed { OnOk result (NoneApplies (Forbids (pair_of driven.now) (set_output position literal))) }
    ensures fault { IfErr result (IsLeastFault (Forbids (pair_of driven.now) (set_output position literal))) }
{
    let circuit = &driven.circuit;
    check_sides(circuit, literal, literal)?;
    if position as usize >= circuit.outputs().len() {
        return Err(EditFault::NoOutput);
    }
    Ok(())
}
