//! A walk from literals to the inputs and latches by which they have their values, at one frame.
ghost use Rattle.std.specs.Prelude.{◌≡◌, ℕ, ◌+◌, ◌≤◌, [], length, Contains, IfOk, OnOk, unwrap_or};
ghost use Rattle.aig_parts.specs.Literal.{variable};
ghost use Rattle.aig_causes.specs.Causes.{moment};
ghost use Rattle.aig_causes.specs.state.Walk.{Begins, IsReached, IsWalk, IsWalker, IsWalkerAt, walk_of};

mod step;

use crate::causes::Causes;
use crate::visited::Visited;
use crate::weights::{new_weights, weigh};
use aig_base::{Circuit, Gate, List, Lit, Memory};
use aig_bench::Bench;
use aig_values::Grid;
use aig_values::gate_order::reordered;
use std::alloc::Global;

/// What is kept from walk to walk, and the state of one.
pub struct Walker {
    pub visited: Visited,
    /// The variables that are still to be visited, the next one last.
    pub todo: Vec<u32>,
    pub found: Causes,
    pub weights: Vec<u32>,
    /// The frame of the weights.
    pub weighed: Option<u32>,
    /// The gates in an order in which they can be evaluated, where they are in none.
    pub order: Option<List<Gate>>,
}

// By hand: a value then ends in one call, which is one step of a proof (docs/PROOFS.md, Habits).
impl Drop for Walker {
    fn drop(self) {
        let Walker {
            visited: _,
            todo: _,
            found: _,
            weights: _,
            weighed: _,
            order: _,
        } = self;
    }
}

// The gates in the order in which each comes after those that it reads.
fn gates_in_turn<'a>(circuit: &'a Circuit, order: &'a Option<List<Gate>>) -> &'a [Gate]
    ensures { result.now ≡ unwrap_or order.now circuit.now.gates }
{
    match order {
        Some(gates) => gates.as_slice(),
        None => circuit.gates(),
    }
}

impl Walker {
    /// A walker for the circuit of a bench.
    pub fn new<G: Grid>(alloc: Global, bench: &Bench<G>) -> Result<Walker, Memory>
        ensures walker { IfOk result IsWalker }
        ensures size { IfOk result (λ w. length w.visited.marks.items ≡ bench.now.pair.circuit.max_var + 1) }
    {
        // Its contract says that it is a circuit.
        bench.width();
        let circuit = bench.circuit();
        let size = circuit.max_var() as usize + 1;
        let visited = Visited::new(alloc, size)?;
        let weights = new_weights(alloc, size)?;
        let order = reordered(alloc, circuit)?;
        Ok(Walker {
            visited,
            todo: Vec::new(alloc),
            found: Causes::none(alloc),
            weights,
            weighed: None,
            order,
        })
    }

    // Weighs the gates at a frame, unless that is done.
    fn weigh<G: Grid>(&mut self, bench: &Bench<G>, frame: u32)
        requires { IsWalkerAt bench.now.pair frame self.old }
        ensures { IsWalkerAt bench.now.pair frame self.new }
    {
        // Its contract says that it is a circuit.
        bench.width();
        if self.weighed == Some(frame) {
            return;
        }
        weigh(
            bench,
            frame,
            gates_in_turn(bench.circuit(), &self.order),
            &mut self.weights,
        );
        self.weighed = Some(frame);
        self.visited.before = self.visited.number;
    }

    // Begins a walk from these literals, the first one to be visited first.
    fn begin(&mut self, literals: &[Lit]) -> Result<(), Memory>
        requires { IsWalker self.old }
        ensures walker { IsWalker self.new }
        ensures size { length self.new.visited.marks.items ≡ length self.old.visited.marks.items }
        ensures begins { OnOk result (Begins literals.now (walk_of self.new)) }
    {
        let alloc = *self.todo.allocator();
        self.visited.begin();
        self.found = Causes::none(alloc);
        self.todo.clear();
        let mut left = literals.len();
        'literals: while left > 0 {
            left -= 1;
            self.todo.push(literals[left].var())?;
        }
        Ok(())
    }

    /// Walks from literals at a frame. What was found afterwards explains them.
    pub fn walk<G: Grid>(
        &mut self,
        bench: &Bench<G>,
        frame: u32,
        literals: &[Lit],
    ) -> Result<(), Memory>
        requires walker { IsWalkerAt bench.now.pair frame self.old }
        requires literals { (l : ℕ) → Contains literals.now l → variable l ≤ bench.now.pair.circuit.max_var }
        ensures walker { IsWalkerAt bench.now.pair frame self.new }
        ensures walk { OnOk result (IsWalk bench.now.pair.circuit (moment bench.now.pair frame) (walk_of self.new)) }
        ensures done { OnOk result (self.new.todo.items ≡ []) }
        ensures reached { OnOk result ((l : ℕ) → Contains literals.now l → IsReached (walk_of self.new) (variable l)) }
    {
        self.weigh(bench, frame);
        self.begin(literals)?;
        while let Some(variable) = self.todo.pop() {
            self.visit(bench, frame, variable)?;
        }
        Ok(())
    }
}
