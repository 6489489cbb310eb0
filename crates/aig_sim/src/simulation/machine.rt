//! A circuit that is simulated row by row: three-valued simulation in a topological order.
ghost use Rattle.std.specs.Prelude.{◌≡◌, ◌+◌, ◌≤◌, List, length, map, unwrap_or, IfOk};
ghost use Rattle.aig_parts.specs.declared.ternary.Tern.{Tern};
ghost use Rattle.aig_base.specs.Circuit.{IsCircuit};
ghost use Rattle.aig_base.specs.Value.{start_of};
ghost use Rattle.aig_values.specs.state.Frame.{AreStates};
ghost use Rattle.aig_sim.specs.state.Machine.{Steps};

use crate::simulation::frame_cells::FramePlan;
use aig_base::{Circuit, Gate, List, Lit, Memory, Tern};
use aig_values::code::{Code, character_in, spell_in};
use aig_values::first_value;
use aig_values::gate_order::reordered;
use aig_values::row::{Row, first_of_contiguous};
use std::alloc::Global;
use std::marker::Model;

/// A circuit, the last frame's values, a cell a variable, and the latches' values at the next frame. A row takes no
/// memory.
pub struct Machine<'a> {
    circuit: &'a Circuit,
    // The gates in the order of their evaluation, where they do not stand in it.
    order: Option<List<Gate>>,
    // The first input's variable, where the inputs are neighbours.
    first: Option<usize>,
    cells: Vec<Code>,
    states: Vec<Code>,
}

// By hand: a value then ends in one call, which is one step of a proof (docs/PROOFS.md, Habits).
impl Drop for Machine<'_> {
    fn drop(self) {
        let Machine {
            circuit: _,
            order: _,
            first: _,
            cells: _,
            states: _,
        } = self;
    }
}

impl<'a> Model for Machine<'a> {
    ghost use Rattle.std.specs.Prelude.{◌≡◌, ◌+◌, length, unwrap_or, vec_len, IfSome};
    ghost use Rattle.aig_base.specs.Circuit.{IsCircuit};
    ghost use Rattle.aig_values.specs.GateOrder.{IsGateOrder};
    ghost use Rattle.aig_sim.specs.state.Machine.{Machine};
    ghost use Rattle.aig_values.specs.Contiguous.{AreContiguous};

    ghost Value = { Machine };

    ghost view = { λ m. record { circuit = m.circuit.now; cells = m.cells.items; states = m.states.items } };

    ghost invariant = { λ m. IsCircuit m.circuit.now × IsGateOrder m.circuit.now (unwrap_or m.order m.circuit.now.gates)
        × (vec_len m.cells ≡ m.circuit.now.max_var + 1) × (vec_len m.states ≡ length m.circuit.now.latches)
        × IfSome m.first (λ v. AreContiguous v m.circuit.now.inputs) };
}

/// The values that the latches begin with by their resets.
pub fn first_states(alloc: Global, circuit: &Circuit) -> Result<Vec<Tern>, Memory>
    ensures { IfOk result (λ states. states.items ≡ start_of circuit.now) }
{
    let mut states = Vec::with_capacity(alloc, circuit.latches().len())?;
    for latch in circuit.latches() {
        states.push(first_value(*latch))?;
    }
    Ok(states)
}

fn new_cells(alloc: Global, size: usize) -> Result<Vec<Code>, Memory>
    ensures { IfOk result (λ cells. length cells.items ≡ size) }
{
    let mut cells = Vec::with_capacity(alloc, size)?;
    cells.resize(size, Code::of(Tern::X))?;
    Ok(cells)
}

// The codes of some values.
fn codes_of(alloc: Global, values: &[Tern]) -> Result<Vec<Code>, Memory>
    ensures { IfOk result (λ codes. codes.items ≡ values.now) }
{
    let mut codes = Vec::with_capacity(alloc, values.len())?;
    for value in values {
        codes.push(Code::of(*value))?;
    }
    Ok(codes)
}

// The gates in the order of their evaluation: the order, or the gates as they stand.
fn gates_in_turn<'a>(circuit: &'a Circuit, order: &'a Option<List<Gate>>) -> &'a [Gate]
    ensures { result.now ≡ unwrap_or order.now circuit.now.gates }
{
    match order {
        Some(gates) => gates.as_slice(),
        None => circuit.gates(),
    }
}

impl<'a> Machine<'a> {
    /// The circuit before its first frame, where the latches start at these values. All memory that rows take is
    /// reserved here.
    pub fn new(alloc: Global, circuit: &'a Circuit, start: Vec<Tern>) -> Result<Machine<'a>, Memory>
        requires { length start.items ≡ length circuit.now.latches }
        ensures circuit { IfOk result (λ machine. machine.circuit ≡ circuit.now) }
        ensures states { IfOk result (λ machine. machine.states ≡ start.items) }
        ensures is_circuit { IfOk result (λ machine. IsCircuit machine.circuit) }
    {
        let size = circuit.max_var() as usize + 1;
        Ok(Machine {
            circuit,
            order: reordered(alloc, circuit)?,
            first: first_of_contiguous(circuit.inputs()),
            cells: new_cells(alloc, size)?,
            states: codes_of(alloc, &start)?,
        })
    }

    /// The circuit.
    pub fn circuit(&self) -> &'a Circuit
        ensures circuit { result.now ≡ self.now.circuit }
        ensures is_circuit { IsCircuit self.now.circuit }
        ensures size { length self.now.cells ≡ self.now.circuit.max_var + 1 }
    {
        self.circuit
    }

    /// The latches' values at the next frame.
    pub fn states(&self) -> &[Code]
        ensures states { result.now ≡ self.now.states }
        ensures length { length self.now.states ≡ length self.now.circuit.latches }
    {
        &self.states
    }

    /// Gives the cells the values of the next frame, with this row of input values, and the latches those after it.
    pub fn step(&mut self, row: &[Tern])
        requires { length row.now ≡ length self.old.circuit.inputs }
        ensures circuit { self.new.circuit ≡ self.old.circuit }
        ensures is_circuit { IsCircuit self.new.circuit }
        ensures step { (start : List Tern) (rows : List (List Tern)) →
            AreStates self.old.circuit start rows (length rows) self.old.states →
            Steps self.old.circuit start rows row.now self.new.cells self.new.states }
    {
        let plan = FramePlan {
            circuit: self.circuit,
            gates: gates_in_turn(self.circuit, &self.order),
            first: self.first,
        };
        plan.run_row(&mut self.cells, &mut self.states, row);
    }
}

impl<'a> Row for Machine<'a> {
    ghost use Rattle.std.specs.Prelude.{◌≤◌};

    ghost cells = { λ m. m.cells };

    ghost has = { λ m v. v ≤ m.circuit.max_var };

    fn value(&self, variable: u32) -> Tern {
        self.cells[variable as usize].value()
    }

    fn character(&self, literal: Lit) -> u8 {
        character_in(&self.cells, literal)
    }

    fn spell(&self, text: &mut [u8], literals: &[Lit]) {
        spell_in(text, &self.cells, literals);
    }
}
