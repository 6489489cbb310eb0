//! The topological order in which the gates of a circuit are evaluated at a new frame.
ghost use Rattle.std.specs.Prelude.{◌≡◌, ℕ, ◌+◌, ◌<◌, List, length, All, IfOk, OnOk, Some, slice_get};
ghost use Rattle.aig_parts.specs.declared.gate.Gate as gate;
ghost use Rattle.aig_parts.specs.declared.raw.Raw.{Raw};
ghost use Rattle.aig_base.specs.Changes.{next_gate, with_appended_gate};
ghost use Rattle.aig_base.specs.Levels.{AreLevels};
ghost use Rattle.aig_parts.specs.Literal as literal;
ghost use Rattle.aig_base.specs.Sections.{IsDefined, IsGate};
ghost use Rattle.aig_values.specs.Cells.{with_swept_row};
ghost use Rattle.aig_values.specs.GateOrder.{AreGatesOf};
ghost use Rattle.aig_bench.specs.state.Current.{AreGateFlags};
ghost use Rattle.aig_bench.specs.state.SweepOrder.{FitsOneGate, IsFullOrder, IsKnownOrder, Orders};

use aig_base::{Circuit, Gate, Levels, Memory, canonical_order};
use aig_values::{Grid, stand_in_order};
use std::alloc::Global;

/// How the gates of a circuit are taken, so that each comes after those that it reads.
#[derive(Clone, Copy, PartialEq, Eq, Debug)]
pub enum Way {
    /// As they stand.
    Standing,
    /// As they are listed.
    Listed,
    /// It has to be found anew, since a gate reads others than before.
    Stale,
}

/// An order of a circuit's gates in which each comes after those that it reads. It takes no memory where the gates
/// stand in one.
#[derive(Drop, Debug)]
pub struct Order {
    way: Way,
    // The gates where they are listed, else none.
    gates: Vec<Gate>,
}

// The gate of a variable that has one.
fn gate_at(circuit: &Circuit, variable: u32) -> Gate
    requires { IsGate circuit.now variable }
    ensures known { (q : ℕ) × (slice_get circuit.now.gates q ≡ Some result) }
    ensures variable { literal.variable result.lhs ≡ variable }
{
    match circuit.gate_of(variable) {
        Some(gate) => gate,
        None => unreachable!(),
    }
}

// The gates of these variables.
fn gates_of(alloc: Global, circuit: &Circuit, variables: &[u32]) -> Result<Vec<Gate>, Memory>
    requires { All (IsGate circuit.now) variables.now }
    ensures { IfOk result (λ gates. AreGatesOf circuit.now variables.now gates.items) }
{
    let mut gates = Vec::with_capacity(alloc, variables.len())?;
    for variable in variables {
        gates.push(gate_at(circuit, *variable))?;
    }
    Ok(gates)
}

impl Order {
    /// An order for a circuit, whose levels these are. Linear in the circuit.
    pub fn of(alloc: Global, circuit: &Circuit, levels: &Levels) -> Result<Order, Memory>
        requires { AreLevels circuit.now levels.now }
        ensures orders { IfOk result (Orders circuit.now) }
        ensures known { IfOk result (λ order. IsKnownOrder order.way) }
    {
        circuit.facts();
        if stand_in_order(alloc, circuit)? {
            return Ok(Order {
                way: Way::Standing,
                gates: Vec::new(alloc),
            });
        }
        let variables = canonical_order(alloc, circuit, levels)?;
        let gates = gates_of(alloc, circuit, &variables)?;
        Ok(Order {
            way: Way::Listed,
            gates,
        })
    }

    /// Forgets the order, as a gate reads others than before: whatever the circuit, this is right. Constant time.
    pub fn forget(&mut self)
        ensures { (raw : Raw) → Orders raw self.new }
    {
        let alloc = *self.gates.allocator();
        self.way = Way::Stale;
        self.gates = Vec::new(alloc);
    }

    /// Finds an order where none is known. Where memory runs out, it stays unknown.
    pub fn renew(&mut self, circuit: &Circuit, levels: &Levels) -> Result<(), Memory>
        requires levels { AreLevels circuit.now levels.now }
        requires orders { Orders circuit.now self.old }
        ensures orders { Orders circuit.now self.new }
        ensures known { OnOk result (IsKnownOrder self.new.way) }
    {
        match self.way {
            Way::Standing => Ok(()),
            Way::Listed => Ok(()),
            Way::Stale => {
                let alloc = *self.gates.allocator();
                *self = Order::of(alloc, circuit, levels)?;
                Ok(())
            }
        }
    }

    /// Makes room for one more gate; nothing else changes.
    pub fn reserve_gate(&mut self) -> Result<(), Memory>
        ensures orders { (raw : Raw) → Orders raw self.old → Orders raw self.new }
        ensures room { OnOk result (FitsOneGate self.new) }
    {
        match self.way {
            Way::Standing => Ok(()),
            Way::Listed => {
                self.gates.reserve(1)?;
                Ok(())
            }
            Way::Stale => Ok(()),
        }
    }

    /// One more gate after the others, where there is room: the one that is appended to the circuit.
    pub fn push_gate(&mut self, gate: Gate)
        requires { FitsOneGate self.old }
        ensures { (raw : Raw) (r0 r1 : ℕ) → gate ≡ next_gate raw r0 r1
            → IsDefined raw (literal.variable r0) → IsDefined raw (literal.variable r1) → Orders raw self.old
            → Orders (with_appended_gate raw r0 r1) self.new }
    {
        match self.way {
            Way::Standing => {}
            Way::Listed => self.gates.push_reserved(gate),
            Way::Stale => {}
        }
    }

    /// Evaluates each gate of the circuit once at a frame, in this order.
    pub fn sweep<G: Grid>(&self, grid: &mut G, circuit: &Circuit, frame: u32)
        requires orders { Orders circuit.now self.now }
        requires known { IsKnownOrder self.now.way }
        requires frame { frame < length (G.cells grid.old) }
        requires flags { AreGateFlags circuit.now (G.gate_flags grid.old) }
        ensures cells { (gates : List gate.Gate) × IsFullOrder circuit.now gates
            × (G.cells grid.new ≡ with_swept_row (G.cells grid.old) frame gates) }
        ensures flags { G.gate_flags grid.new ≡ G.gate_flags grid.old }
        ensures count { G.evaluations grid.new ≡ G.evaluations grid.old + length circuit.now.gates }
    {
        circuit.facts();
        match self.way {
            Way::Standing => grid.sweep(frame, circuit.gates()),
            Way::Listed => grid.sweep(frame, &self.gates),
            Way::Stale => unreachable!(),
        }
    }
}
