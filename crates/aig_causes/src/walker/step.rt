//! One step of a walk: from a variable to those by which it has its value.
ghost use Rattle.std.specs.Prelude.{◌≡◌, ℕ, ◌<◌, ◌++◌, length, Some, slice_get, OnOk};
ghost use Rattle.aig_parts.specs.Literal.{variable};
ghost use Rattle.aig_causes.specs.Causes.{moment};
ghost use Rattle.aig_causes.specs.state.Walk.{GoesOn, HaveReached, IsSide, IsWalkerAt, Leads, queued, steps_left};
ghost use Rattle.aig_causes.specs.state.Walk.{walk_of, with_queued};

use crate::sides::{Sides, sides_of};
use crate::values::value_at;
use crate::walker::Walker;
use aig_base::{Circuit, Definition, Gate, Lit, Memory};
use aig_bench::Bench;
use aig_values::Grid;

// Whether a variable is an input or a latch.
fn is_source(circuit: &Circuit, variable: u32) -> bool {
    match circuit.definition(variable) {
        Some(Definition::Input(_)) => true,
        Some(Definition::Latch(_)) => true,
        _ => false,
    }
}

// The gate at a place.
fn gate_at(circuit: &Circuit, place: u32) -> Gate
    requires { place < length circuit.now.gates }
    ensures { slice_get circuit.now.gates place ≡ Some result }
{
    circuit.gates()[place as usize]
}

// Queues the variables of sides, the first side to be visited first.
fn queue(todo: &mut Vec<u32>, first: u32, second: u32, sides: Sides) -> Result<(), Memory>
    ensures { OnOk result (todo.new.items ≡ todo.old.items ++ queued first second sides) }
{
    match sides {
        Sides::First => {
            todo.push(first)?;
            Ok(())
        }
        Sides::Second => {
            todo.push(second)?;
            Ok(())
        }
        Sides::Both => {
            todo.push(second)?;
            todo.push(first)?;
            Ok(())
        }
    }
}

// Queues the variables of sides of a gate.
fn queue_sides(rhs0: Lit, rhs1: Lit, sides: Sides, todo: &mut Vec<u32>) -> Result<(), Memory>
    ensures { OnOk result (todo.new.items ≡ todo.old.items ++ queued (variable rhs0) (variable rhs1) sides) }
{
    let first = rhs0.var();
    let second = rhs1.var();
    queue(todo, first, second, sides)?;
    Ok(())
}

impl Walker {
    // Whether this walk was at a variable, or it is an input or a latch that a walk at this frame found.
    fn knows(&self, circuit: &Circuit, variable: u32) -> bool
        requires { variable < length self.now.visited.marks.items }
    {
        variable != 0
            && self.visited.has_at_frame(variable)
            && (self.visited.has(variable) || is_source(circuit, variable))
    }

    // The side to go on by at a gate whose sides are both 0: the lighter one, the first where they weigh the same; but
    // the other one where that is known already.
    fn choose(&self, circuit: &Circuit, gate: Gate) -> Sides
        requires rhs0 { variable gate.rhs0 < length self.now.visited.marks.items }
        requires rhs1 { variable gate.rhs1 < length self.now.visited.marks.items }
        requires weights { length self.now.weights.items ≡ length self.now.visited.marks.items }
    {
        let first = gate.rhs0.var();
        let second = gate.rhs1.var();
        if self.weights[second as usize] < self.weights[first as usize] {
            if self.knows(circuit, first) {
                Sides::First
            } else {
                Sides::Second
            }
        } else if self.knows(circuit, second) {
            Sides::Second
        } else {
            Sides::First
        }
    }

    // The sides by which a gate has its value.
    fn sides<G: Grid>(&self, bench: &Bench<G>, frame: u32, gate: Gate) -> Sides
        requires walker { IsWalkerAt bench.now.pair frame self.now }
        requires gate { (q : ℕ) × (slice_get bench.now.pair.circuit.gates q ≡ Some gate) }
        ensures { HaveReached bench.now.pair.circuit (moment bench.now.pair frame) (IsSide gate result) gate }
    {
        // Its contract says that it is a circuit.
        bench.width();
        let first = value_at(bench, frame, gate.rhs0);
        let second = value_at(bench, frame, gate.rhs1);
        let chosen = self.choose(bench.circuit(), gate);
        sides_of(first, second, chosen)
    }

    // Goes on from a variable that this walk visits for the first time.
    fn go_on<G: Grid>(&mut self, bench: &Bench<G>, frame: u32, variable: u32) -> Result<(), Memory>
        requires { IsWalkerAt bench.now.pair frame self.old }
        ensures walker { IsWalkerAt bench.now.pair frame self.new }
        ensures visited { self.new.visited ≡ self.old.visited }
        ensures leads { OnOk result (Leads bench.now.pair.circuit (moment bench.now.pair frame) variable
            (walk_of self.old) (walk_of self.new)) }
    {
        // Its contract says that it is a circuit.
        bench.width();
        match bench.circuit().definition(variable) {
            None => Ok(()),
            Some(Definition::Input(position)) => {
                self.found.add_input(position)?;
                Ok(())
            }
            Some(Definition::Latch(position)) => {
                self.found.add_latch(position)?;
                Ok(())
            }
            Some(Definition::Gate(place)) => {
                let gate = gate_at(bench.circuit(), place);
                let rhs0 = gate.rhs0;
                let rhs1 = gate.rhs1;
                let sides = self.sides(bench, frame, gate);
                queue_sides(rhs0, rhs1, sides, &mut self.todo)?;
                Ok(())
            }
        }
    }

    /// Visits a variable that was taken from those that are queued.
    pub fn visit<G: Grid>(
        &mut self,
        bench: &Bench<G>,
        frame: u32,
        variable: u32,
    ) -> Result<(), Memory>
        requires walker { IsWalkerAt bench.now.pair frame self.old }
        requires variable { variable < length self.old.visited.marks.items }
        ensures walker { IsWalkerAt bench.now.pair frame self.new }
        ensures goes_on { OnOk result (GoesOn bench.now.pair.circuit (moment bench.now.pair frame)
            (with_queued (walk_of self.old) variable) (walk_of self.new)) }
        ensures fewer { OnOk result
            (steps_left (walk_of self.new) < steps_left (with_queued (walk_of self.old) variable)) }
    {
        if self.visited.has(variable) {
            return Ok(());
        }
        self.visited.add(variable);
        self.go_on(bench, frame, variable)?;
        Ok(())
    }
}
