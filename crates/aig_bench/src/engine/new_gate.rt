//! One more gate in what a bench keeps.
ghost use Rattle.std.specs.Prelude.{◌≡◌, ℕ, ◌-◌, ◌+◌, ◌<◌, ◌≤◌, length, IsTrue, OnOk, Some, slice_get, slice_set};
ghost use Rattle.std.specs.Vec.{vec_capacity};
ghost use Rattle.aig_parts.specs.Formed.{limit};
ghost use Rattle.aig_parts.specs.Literal.{variable};
ghost use Rattle.aig_values.specs.Cells.{gate_value, HasCells};
ghost use Rattle.aig_values.specs.InputRows.{row_at};
ghost use Rattle.aig_bench.specs.declared.engine.driven_circuit.DrivenCircuit.{DrivenCircuit};
ghost use Rattle.aig_bench.specs.state.Buckets.{FitsOneVariable};
ghost use Rattle.aig_bench.specs.state.Pending.{IsSettledBench};

use crate::edit::EditReport;
use crate::engine::fanouts::Fanouts;
use crate::propagate::pending::Pending;
use aig_base::{Circuit, Gate, Memory};
use aig_values::Grid;

/// Makes room for one more variable; nothing else changes.
pub fn make_room<G: Grid>(
    grid: &mut G,
    fanouts: &mut Fanouts,
    pending: &mut Pending,
) -> Result<(), Memory>
    requires few { length (G.gate_flags grid.old) ≤ limit }
    requires ready { (driven : DrivenCircuit) × IsSettledBench driven fanouts.old pending.old (G.gate_flags grid.old)
        (G.cells grid.old) }
    ensures ready { (driven : DrivenCircuit)
        → IsSettledBench driven fanouts.old pending.old (G.gate_flags grid.old) (G.cells grid.old)
        → IsSettledBench driven fanouts.new pending.new (G.gate_flags grid.new) (G.cells grid.new) }
    ensures latches { OnOk result (length fanouts.new.latches.last.items < vec_capacity fanouts.new.latches.last) }
    ensures buckets { OnOk result (FitsOneVariable pending.new.buckets) }
    ensures grid { OnOk result (IsTrue (G.has_room grid.new)) }
    ensures count { G.evaluations grid.new ≡ G.evaluations grid.old }
{
    fanouts.latches.make_room()?;
    pending.buckets.make_room()?;
    grid.reserve_gate()
}

/// The number of gates of a circuit.
pub fn gate_count(circuit: &Circuit) -> u32
    ensures { result ≡ length circuit.now.gates }
{
    circuit.facts();
    circuit.gates().len() as u32
}

/// The last gate of a circuit that has one.
pub fn last_gate(circuit: &Circuit) -> Gate
    requires { 0 < length circuit.now.gates }
    ensures { slice_get circuit.now.gates (length circuit.now.gates - 1) ≡ Some result }
{
    let gates = circuit.gates();
    gates[gates.len() - 1]
}

/// Evaluates a new gate at each frame. None of its cells was there before, so none has changed.
pub fn evaluate_new<G: Grid>(grid: &mut G, gate: &Gate) -> EditReport
    requires { HasCells (G.gate_flags grid.old) gate.now }
    ensures frames { length (G.cells grid.new) ≡ length (G.cells grid.old) }
    ensures rows { (t : ℕ) → t < length (G.cells grid.old) → row_at (G.cells grid.new) t
        ≡ slice_set (row_at (G.cells grid.old) t) (variable gate.now.lhs) (gate_value (row_at (G.cells grid.old) t)
        gate.now) }
    ensures flags { G.gate_flags grid.new ≡ G.gate_flags grid.old }
    ensures count { G.evaluations grid.new ≡ G.evaluations grid.old + result.evaluated }
    ensures evaluated { result.evaluated ≡ length (G.cells grid.old) }
    ensures changed { result.changed ≡ 0 }
{
    let frames = grid.rows();
    for frame in 0..frames {
        grid.evaluate(frame, *gate);
    }
    EditReport {
        evaluated: u64::from(frames),
        changed: 0,
    }
}
