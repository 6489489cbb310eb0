//! The values of one frame: a cell a variable.
ghost use Rattle.std.specs.Prelude.{◌≡◌, ℕ, ◌+◌, ◌<◌, List, length, map, Some, slice_get, IfSome};
ghost use Rattle.aig_parts.specs.declared.ternary.Tern.{Tern};
ghost use Rattle.aig_parts.specs.declared.gate.Gate.{Gate};
ghost use Rattle.aig_parts.specs.declared.raw.Raw.{Raw};
ghost use Rattle.aig_base.specs.Circuit.{IsCircuit};
ghost use Rattle.aig_parts.specs.Literal.{variable};
ghost use Rattle.aig_base.specs.Sound.{IsSound};
ghost use Rattle.aig_values.specs.Cells.{literal_value};
ghost use Rattle.aig_values.specs.state.Frame.{AreStates, Renews, PutsInputs, HoldsLatches, HoldsSources, HoldsAll};
ghost use Rattle.aig_values.specs.Contiguous.{AreContiguous};
ghost use Rattle.aig_values.specs.GateOrder.{IsGateOrder};
ghost use Rattle.aig_sim.specs.state.Machine.{Steps};

use aig_base::{Circuit, Gate, Tern};
use aig_values::code::{Code, code_in};

// Writes the inputs' values. Those that are known to be neighbours from some variable on are written many at a time.
fn put_inputs(cells: &mut [Code], circuit: &Circuit, row: &[Tern], first: Option<usize>)
    requires cells { length cells.old ≡ circuit.now.max_var + 1 }
    requires row { length row.now ≡ length circuit.now.inputs }
    requires first { IfSome first (λ v. AreContiguous v circuit.now.inputs) }
    ensures { PutsInputs circuit.now row.now cells.old cells.new }
{
    circuit.facts();
    match first {
        Some(first) => {
            for (position, value) in row.iter().enumerate() {
                cells[first + position] = Code::of(*value);
            }
        }
        None => {
            for (place, input) in circuit.inputs().iter().enumerate() {
                cells[input.var() as usize] = Code::of(row[place]);
            }
        }
    }
}

// Writes the latches' values.
fn put_latches(cells: &mut [Code], circuit: &Circuit, states: &[Code])
    requires cells { length cells.old ≡ circuit.now.max_var + 1 }
    requires states { length states.now ≡ length circuit.now.latches }
    ensures renews { (start : List Tern) (rows : List (List Tern)) (t : ℕ)
        → AreStates circuit.now start rows t states.now →
        Renews circuit.now start rows t cells.old cells.new }
    ensures latches { (start : List Tern) (rows : List (List Tern)) (t : ℕ)
        → AreStates circuit.now start rows t states.now →
        HoldsLatches circuit.now start rows t cells.new }
{
    circuit.facts();
    for (position, latch) in circuit.latches().iter().enumerate() {
        cells[latch.lit.var() as usize] = states[position];
    }
}

// Evaluates the gates in turn: the cell of each becomes the AND of its right sides. Where the cells of the sources are
// values and the gates are those of a circuit, each after the ones that it reads, all cells become values.
fn evaluate_frame(cells: &mut [Code], gates: &[Gate])
    requires lhs { (q : ℕ) (g : Gate) → slice_get gates.now q ≡ Some g → variable g.lhs < length cells.old }
    requires rhs0 { (q : ℕ) (g : Gate) → slice_get gates.now q ≡ Some g → variable g.rhs0 < length cells.old }
    requires rhs1 { (q : ℕ) (g : Gate) → slice_get gates.now q ≡ Some g → variable g.rhs1 < length cells.old }
    ensures { (raw : Raw) (start : List Tern) (rows : List (List Tern)) (t : ℕ) → IsSound raw
        → IsGateOrder raw gates.now →
        HoldsSources raw start rows t cells.old → HoldsAll raw start rows t cells.new }
{
    for gate in gates {
        let value = code_in(cells, gate.rhs0).and(code_in(cells, gate.rhs1));
        cells[gate.lhs.var() as usize] = value;
    }
}

// Replaces the latches' values by those of the next frame.
fn renew_states(states: &mut [Code], circuit: &Circuit, cells: &[Code])
    requires cells { length cells.now ≡ circuit.now.max_var + 1 }
    requires states { length states.old ≡ length circuit.now.latches }
    ensures { states.new ≡ map (λ x. literal_value cells.now x.next) circuit.now.latches }
{
    circuit.facts();
    for (position, latch) in circuit.latches().iter().enumerate() {
        states[position] = code_in(cells, latch.next);
    }
}

/// By what a frame is evaluated.
#[derive(Clone, Copy)]
pub struct FramePlan<'a> {
    pub circuit: &'a Circuit,
    /// The gates in the order of their evaluation.
    pub gates: &'a [Gate],
    /// The first input's variable, where the inputs are known to be neighbours.
    pub first: Option<usize>,
}

impl FramePlan<'_> {
    /// Gives the cells the values of a frame, and the latches those after it.
    pub fn run_row(&self, cells: &mut [Code], states: &mut [Code], row: &[Tern])
        requires circuit { IsCircuit self.now.circuit.now }
        requires gates { IsGateOrder self.now.circuit.now self.now.gates.now }
        requires first { IfSome self.now.first (λ v. AreContiguous v self.now.circuit.now.inputs) }
        requires cells { length cells.old ≡ self.now.circuit.now.max_var + 1 }
        requires states { length states.old ≡ length self.now.circuit.now.latches }
        requires row { length row.now ≡ length self.now.circuit.now.inputs }
        ensures { (start : List Tern) (rows : List (List Tern)) →
            AreStates self.now.circuit.now start rows (length rows) states.old →
            Steps self.now.circuit.now start rows row.now cells.new states.new }
    {
        cells[0] = Code::of(Tern::Zero);
        put_inputs(cells, self.circuit, row, self.first);
        put_latches(cells, self.circuit, states);
        evaluate_frame(cells, self.gates);
        renew_states(states, self.circuit, cells);
    }
}
