//! For each variable of a circuit the one that stands for it in the renumbered circuit.
ghost use Rattle.std.specs.Prelude.{◌≡◌, [], IfOk};
ghost use Rattle.aig_base.specs.Order.{IsCanonicalOrder};
ghost use Rattle.aig_base.specs.Renumbered.{renumbered_variable};
ghost use Rattle.aig_base.specs.RenumberingTable.{IsRenumbering};

use crate::circuit::Circuit;
use crate::circuit::definition::Definition;
use aig_bytes::Memory;
use std::alloc::Global;

// The variable that stands for an input or a latch; 0 for any other.
fn source_variable(circuit: &Circuit, variable: u32) -> u32
    ensures { result ≡ renumbered_variable circuit.now [] variable }
{
    circuit.facts();
    match circuit.definition(variable) {
        Some(Definition::Input(position)) => position + 1,
        Some(Definition::Latch(position)) => circuit.inputs().len() as u32 + position + 1,
        Some(Definition::Gate(_)) => 0,
        None => 0,
    }
}

// The table of the inputs and the latches.
fn source_table(alloc: Global, circuit: &Circuit) -> Result<Vec<u32>, Memory>
    ensures { IfOk result (λ table. IsRenumbering circuit.now [] table.items) }
{
    let end = circuit.max_var() + 1;
    let mut table = Vec::with_capacity(alloc, end as usize)?;
    for variable in 0..end {
        table.push(source_variable(circuit, variable))?;
    }
    Ok(table)
}

// Numbers the gates, after the latches.
fn number_gates(circuit: &Circuit, order: &[u32], table: &mut [u32])
    requires order { IsCanonicalOrder circuit.now order.now }
    requires sources { IsRenumbering circuit.now [] table.old }
    ensures { IsRenumbering circuit.now order.now table.new }
{
    circuit.facts();
    let first = circuit.inputs().len() + circuit.latches().len() + 1;
    for (place, variable) in order.iter().enumerate() {
        table[*variable as usize] = (first + place) as u32;
    }
}

/// For each variable from 0 to M the one that stands for it in the renumbered circuit: inputs, latches, then gates in
/// the order, from 1 on; 0 for 0 and for a variable that nothing defines.
pub fn renumbered_variables(
    alloc: Global,
    circuit: &Circuit,
    order: &[u32],
) -> Result<Vec<u32>, Memory>
    requires { IsCanonicalOrder circuit.now order.now }
    ensures { IfOk result (λ table. IsRenumbering circuit.now order.now table.items) }
{
    let mut table = source_table(alloc, circuit)?;
    number_gates(circuit, order, &mut table);
    Ok(table)
}
