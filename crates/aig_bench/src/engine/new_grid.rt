//! A new grid for a driven circuit.
ghost use Rattle.std.specs.Prelude.{◌≡◌, ◌+◌, ◌*◌, ◌<◌, ◌≤◌, length, IfOk, OnOk, []};
ghost use Rattle.aig_bench.specs.state.DrivenCircuit.{IsDriven};
ghost use Rattle.aig_bench.specs.state.Current.{AreGateFlags, IsLaidOut};

use crate::engine::driven_circuit::DrivenCircuit;
use aig_base::{Circuit, Memory};
use aig_values::Grid;
use std::alloc::Global;

/// For each variable whether it is one of a gate.
fn gate_flags(alloc: Global, circuit: &Circuit) -> Result<Vec<bool>, Memory>
    ensures { IfOk result (λ flags. AreGateFlags circuit.now flags.items) }
{
    let mut flags = Vec::new(alloc);
    for variable in 0..circuit.max_var() + 1 {
        flags.push(circuit.gate_of(variable).is_some())?;
    }
    Ok(flags)
}

/// Appends a row a frame to a grid without rows.
fn add_rows<G: Grid>(grid: &mut G, driven: &DrivenCircuit) -> Result<(), Memory>
    requires driven { IsDriven driven.now }
    requires flags { AreGateFlags driven.now.circuit (G.gate_flags grid.old) }
    requires empty { G.cells grid.old ≡ [] }
    ensures laid_out { OnOk result (IsLaidOut driven.now (G.gate_flags grid.new) (G.cells grid.new)) }
    ensures count { G.evaluations grid.new ≡ G.evaluations grid.old }
{
    for _ in 0..driven.stimulus.frames() {
        grid.add_row()?;
    }
    Ok(())
}

/// A grid with a row a frame.
pub fn lay_out<G: Grid>(alloc: Global, driven: &DrivenCircuit) -> Result<G, Memory>
    requires { IsDriven driven.now }
    ensures laid_out { IfOk result (λ grid. IsLaidOut driven.now (G.gate_flags grid) (G.cells grid)) }
    ensures count { IfOk result (λ grid. G.evaluations grid ≡ 0) }
{
    let flags = gate_flags(alloc, &driven.circuit)?;
    let mut grid = G::new(alloc, flags.as_slice())?;
    add_rows(&mut grid, driven)?;
    Ok(grid)
}
