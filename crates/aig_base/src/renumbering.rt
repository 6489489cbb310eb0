//! Renumbering.
ghost use Rattle.std.specs.Prelude.{◌≡◌, ℕ, List, map, All, IfOk};
ghost use Rattle.aig_base.specs.Order.{AreSorted, IsCanonicalOrder};
ghost use Rattle.aig_base.specs.Renumbered.{ordered_gates, renumbered, IsBinaryReady};
ghost use Rattle.aig_base.specs.RenumberingTable.{renumbered_by, HasAllEntries, IsGateListed, IsRenumbering};
ghost use Rattle.aig_base.specs.state.LeastFaulty.{gate_variable};

pub(crate) mod laws;
mod parts;
pub(crate) mod table;

use crate::circuit::Circuit;
use crate::circuit::gate_variables::variables_of;
use crate::level::order::sorted_gates;
use crate::renumbering::parts::{
    copied_comment, copied_symbols, new_justice, new_latches, new_literals, renewed_gates,
};
use crate::renumbering::table::renumbered_variables;
use aig_bytes::Memory;
use aig_parts::{Gate, Raw};
use std::alloc::Global;

// The table of renumbered variables, by the gates in the canonical order.
fn table_of(alloc: Global, circuit: &Circuit, gates: &[Gate]) -> Result<Vec<u32>, Memory>
    requires { AreSorted circuit.now gates.now }
    ensures { IfOk result (λ table. IsRenumbering circuit.now (map gate_variable gates.now) table.items) }
{
    let order = variables_of(alloc, gates)?;
    renumbered_variables(alloc, circuit, &order)
}

// The parts by the table and the gates in the canonical order.
fn renumbered_parts(
    alloc: Global,
    circuit: &Circuit,
    gates: Vec<Gate>,
    table: &[u32],
) -> Result<Raw, Memory>
    requires listed { HasAllEntries circuit.now table.now }
    requires gates { All (IsGateListed table.now) gates.items }
    requires sorted { ordered_gates circuit.now (map gate_variable gates.items) ≡ gates.items }
    ensures { IfOk result (λ new. new ≡ renumbered_by circuit.now (map gate_variable gates.items) table.now) }
{
    circuit.facts();
    let defined = circuit.inputs().len() + circuit.latches().len() + circuit.gates().len();
    Ok(Raw {
        max_var: defined as u32,
        inputs: new_literals(alloc, table, circuit.inputs())?,
        latches: new_latches(alloc, table, circuit.latches())?,
        outputs: new_literals(alloc, table, circuit.outputs())?,
        bad: new_literals(alloc, table, circuit.bad())?,
        constraints: new_literals(alloc, table, circuit.constraints())?,
        justice: new_justice(alloc, table, circuit.justice())?,
        fairness: new_literals(alloc, table, circuit.fairness())?,
        gates: renewed_gates(table, gates),
        symbols: copied_symbols(circuit.symbols())?,
        comment: copied_comment(alloc, circuit)?,
    })
}

/// The circuit with the variables 1, 2, .. in order: inputs, latches, gates in the canonical order, each gate with its
/// greater right side first. Negations, resets, symbols and comment stay; unused variables go. A binary file can hold
/// it. Linear in the circuit.
pub fn renumber(alloc: Global, circuit: &Circuit) -> Result<Circuit, Memory>
    ensures parts { IfOk result (λ new.
        (order : List ℕ) × IsCanonicalOrder circuit.now order × (new ≡ renumbered circuit.now order)) }
    ensures ready { IfOk result IsBinaryReady }
{
    circuit.facts();
    let gates = sorted_gates(alloc, circuit)?;
    let table = table_of(alloc, circuit, &gates)?;
    let parts = renumbered_parts(alloc, circuit, gates, &table)?;
    Ok(Circuit::of_ready(parts))
}
