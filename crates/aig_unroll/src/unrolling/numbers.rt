//! For each variable of a circuit its number in the renumbered one.
ghost use Rattle.std.specs.Prelude.{◌≡◌, ◌≤◌, ◌<◌, length, slice_index, IfOk, All};
ghost use Rattle.aig_parts.specs.Formed.{limit};
ghost use Rattle.aig_base.specs.Definition.{Defines};
ghost use Rattle.aig_base.specs.Order.{IsCanonicalOrder};
ghost use Rattle.aig_base.specs.RenumberingTable.{IsRenumbering, IsInTable, IsGateListed, literal_by};
ghost use Rattle.aig_base.specs.Sections.{IsGate};
ghost use Rattle.aig_unroll.specs.state.FrameTable.{numbered_gate};
ghost use Rattle.aig_unroll.specs.state.Numbers.{ArePlaces};

use aig_base::{Circuit, Definition, Gate, Lit, Memory};
use std::alloc::Global;
use std::marker::Model;

/// For each variable of a circuit its number in the renumbered circuit: inputs, latches, gates in the canonical order.
/// Contracts see a list of the numbers. It takes memory by the gates, and not by the variables.
#[derive(Drop)]
pub(crate) struct Numbers<'a> {
    circuit: &'a Circuit,
    order: &'a [u32],
    // For each gate, by its position in the circuit, its place in the order.
    places: Vec<u32>,
}

impl<'a> Model for Numbers<'a> {
    ghost use Rattle.std.specs.Prelude.{List, ℕ};

    ghost Value = { List ℕ };

    ghost use Rattle.aig_unroll.specs.state.Numbers.{numbers_of, ArePlaces};

    ghost view = { λ a. numbers_of a.circuit.now a.order.now };

    ghost invariant = { λ a. ArePlaces a.circuit.now a.order.now a.places.items };
}

// The position of the gate that defines a variable.
fn position_of(circuit: &Circuit, variable: u32) -> u32
    requires { IsGate circuit.now variable }
    ensures { Defines circuit.now variable (Definition.Gate result) }
{
    circuit.facts();
    match circuit.definition(variable) {
        Some(Definition::Gate(position)) => position,
        Some(Definition::Input(_)) => unreachable!(),
        Some(Definition::Latch(_)) => unreachable!(),
        None => unreachable!(),
    }
}

// For each gate, by its position in the circuit, its place in the order.
fn places_of(alloc: Global, circuit: &Circuit, order: &[u32]) -> Result<Vec<u32>, Memory>
    requires { IsCanonicalOrder circuit.now order.now }
    ensures { IfOk result (λ places. ArePlaces circuit.now order.now places.items) }
{
    circuit.facts();
    let mut places = vec![in alloc; 0_u32; circuit.gates().len()]?;
    for (place, variable) in order.iter().enumerate() {
        let position = position_of(circuit, *variable);
        places[position as usize] = place as u32;
    }
    Ok(places)
}

impl<'a> Numbers<'a> {
    /// The numbers of a circuit's variables.
    pub(crate) fn of(
        alloc: Global,
        circuit: &'a Circuit,
        order: &'a [u32],
    ) -> Result<Numbers<'a>, Memory>
        requires { IsCanonicalOrder circuit.now order.now }
        ensures { IfOk result (IsRenumbering circuit.now order.now) }
    {
        let places = places_of(alloc, circuit, order)?;
        Ok(Numbers {
            circuit,
            order,
            places,
        })
    }

    /// The number of a variable from 0 to M; 0 for 0 and for a variable that nothing defines.
    pub(crate) fn get(&self, variable: u32) -> u32
        requires { variable < length self.now }
        ensures { result ≡ slice_index self.now variable }
    {
        let circuit = self.circuit;
        circuit.facts();
        let inputs = circuit.inputs().len() as u32;
        let definitions = inputs + circuit.latches().len() as u32;
        match circuit.definition(variable) {
            Some(Definition::Input(position)) => position + 1,
            Some(Definition::Latch(position)) => inputs + position + 1,
            Some(Definition::Gate(position)) => definitions + self.places[position as usize] + 1,
            None => 0,
        }
    }

    // The literal of the renumbered circuit that stands for this one.
    fn literal(&self, literal: Lit) -> Lit
        requires listed { IsInTable self.now literal }
        requires entries { All (λ n. n ≤ limit) self.now }
        ensures { result ≡ literal_by self.now literal }
    {
        let positive = Lit::new(2 * self.get(literal.var()));
        if literal.is_neg() {
            positive.not()
        } else {
            positive
        }
    }

    /// The gate with the literals of the renumbered circuit.
    pub(crate) fn gate(&self, gate: Gate) -> Gate
        requires listed { IsGateListed self.now gate }
        requires entries { All (λ n. n ≤ limit) self.now }
        ensures { result ≡ numbered_gate self.now gate }
    {
        Gate {
            lhs: self.literal(gate.lhs),
            rhs0: self.literal(gate.rhs0),
            rhs1: self.literal(gate.rhs1),
        }
    }
}
