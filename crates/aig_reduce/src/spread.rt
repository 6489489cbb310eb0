//! What becomes x at a frame where an input or a start does.
ghost use Rattle.std.specs.Prelude.{◌≡◌, ◌≢◌, ℕ, suc, ◌+◌, ◌⊎◌, ◌<◌, ◌≤◌, length, Some, slice_get, IfSome, IsTrue};
ghost use Rattle.aig_parts.specs.declared.ternary.Tern.{Tern};
ghost use Rattle.aig_parts.specs.Literal.{variable};
ghost use Rattle.aig_bench.specs.BenchState.{HasValue};
ghost use Rattle.aig_values.specs.InputRows.{row_at};
ghost use Rattle.aig_reduce.specs.state.Looks.{IsLiteralAt};
ghost use Rattle.aig_reduce.specs.state.Needed.{Breaks, Follows, IsKnownAt, IsListed, ListsFollowing, ListsKnown};

use crate::looks::{has_value, is_x};
use crate::needed::Known;
use crate::place::ValuePlace;
use aig_base::{Gate, Lit, Memory, Tern};
use aig_bench::Bench;
use aig_sim::Grid;
use std::alloc::Global;

// An input. Its variable is x where a frame has x at it.
fn input_at<G: Grid>(bench: &Bench<G>, position: usize) -> Lit
    requires { position < length bench.now.pair.circuit.inputs }
    ensures { (property t : ℕ) → Follows bench.now.pair property t (suc t) position (variable result) }
{
    // Its contract says that it is a circuit.
    bench.width();
    bench.circuit().inputs()[position]
}

/// Variables that are x at a frame if one of them is, each once.
#[derive(Drop)]
pub struct Spread {
    list: Vec<u32>,
    // Where each variable stands in the list, if it does.
    places: Vec<usize>,
}

impl Spread {
    /// No variables, with room for so many.
    pub fn new(alloc: Global, size: usize) -> Result<Spread, Memory> {
        Ok(Spread {
            list: Vec::with_capacity(alloc, size)?,
            places: vec![in alloc; 0; size]?,
        })
    }

    // Whether a variable stands at a place of the list.
    fn stands_at(&self, place: usize, variable: u32) -> bool
        ensures { IsTrue result → IsListed self.now.list.items variable }
    {
        match self.list.get(place) {
            Some(listed) => *listed == variable,
            None => false,
        }
    }

    // Whether a variable is listed.
    fn has(&self, variable: u32) -> bool
        ensures { IsTrue result → IsListed self.now.list.items variable }
    {
        match self.places.get(variable as usize) {
            Some(place) => self.stands_at(*place, variable),
            None => false,
        }
    }

    // Lists a variable, unless it is listed.
    fn meet(&mut self, variable: u32)
        ensures { (u : ℕ) → IsListed self.new.list.items u → IsListed self.old.list.items u ⊎ (u ≡ variable) }
    {
        if self.has(variable) {
            return;
        }
        if variable as usize >= self.places.len() {
            return;
        }
        if self.list.len() >= self.list.capacity() {
            return;
        }
        self.places[variable as usize] = self.list.len();
        self.list.push_reserved(variable);
    }

    // Whether a gate is x by one of its sides, which is listed: the other side is listed too, or not 0.
    fn passes<G: Grid>(&self, bench: &Bench<G>, frame: u32, side: Lit, other: Lit) -> bool
        requires { IsLiteralAt bench.now.pair frame other }
        ensures { IsTrue result → IsListed self.now.list.items (variable side)
            × (IsListed self.now.list.items (variable other) ⊎ (HasValue bench.now.pair frame other Tern.Zero → ⊥)) }
    {
        if !self.has(side.var()) {
            return false;
        }
        if self.has(other.var()) {
            return true;
        }
        !has_value(bench, frame, other, Tern::Zero)
    }

    // Lists the variable of a gate, if it becomes x by what is listed.
    fn follow<G: Grid>(&mut self, bench: &Bench<G>, frame: u32, gate: Gate)
        requires frame { frame < length bench.now.pair.rows }
        requires gate { (q : ℕ) × (slice_get bench.now.pair.circuit.gates q ≡ Some gate) }
        ensures { ListsFollowing bench.now.pair frame self.old.list.items self.new.list.items }
    {
        // Its contract says that it is a circuit.
        bench.width();
        if is_x(bench, frame, gate.lhs) {
            return;
        }
        if self.passes(bench, frame, gate.rhs0, gate.rhs1) {
            self.meet(gate.lhs.var());
            return;
        }
        if self.passes(bench, frame, gate.rhs1, gate.rhs0) {
            self.meet(gate.lhs.var());
        }
    }

    // Whether a variable is listed, and needed at a frame.
    fn has_needed(&self, known: &Known, frame: u32, variable: u32) -> bool
        ensures { IsTrue result → IsListed self.now.list.items variable
            × IsKnownAt known.now.needed.cells.rows frame variable }
    {
        if !self.has(variable) {
            return false;
        }
        known.needed.has_cell(frame, variable)
    }

    // Follows the readers of a variable, up to one that is needed.
    fn follow_all<G: Grid>(
        &mut self,
        bench: &Bench<G>,
        known: &Known,
        frame: u32,
        readers: &[u32],
    ) -> bool
        requires frame { frame < length bench.now.pair.rows }
        ensures following { ListsFollowing bench.now.pair frame self.old.list.items self.new.list.items }
        ensures needed { IsTrue result → ListsKnown known.now.needed.cells.rows frame self.new.list.items }
    {
        for reader in readers.iter() {
            let Some(gate) = bench.circuit().gate_of(*reader) else {
                continue;
            };
            self.follow(bench, frame, gate);
            if self.has_needed(known, frame, *reader) {
                return true;
            }
        }
        false
    }

    // Lists a variable alone.
    fn begin(&mut self, source: Lit)
        ensures { (u : ℕ) → IsListed self.new.list.items u → u ≡ variable source }
    {
        self.list.clear();
        self.meet(source.var());
    }

    // The variable at a place of the list, if it is one of the circuit.
    fn variable_at<G: Grid>(&self, bench: &Bench<G>, place: usize) -> Option<u32>
        ensures { IfSome result (λ v. v ≤ bench.now.pair.circuit.max_var) }
    {
        if place >= self.list.len() {
            return None;
        }
        let variable = self.list[place];
        if variable > bench.circuit().max_var() {
            return None;
        }
        Some(variable)
    }

    // Whether x of a variable at a frame makes x of one that is needed there.
    fn reaches_needed<G: Grid>(
        &mut self,
        bench: &Bench<G>,
        known: &Known,
        frame: u32,
        source: Lit,
    ) -> bool
        requires frame { frame < length bench.now.pair.rows }
        requires readers { length known.now.readers.lists ≡ bench.now.pair.circuit.max_var + 1 }
        ensures { IsTrue result → (v : ℕ) × (w : Tern) × (w ≢ Tern.X)
            × (slice_get (row_at known.now.needed.cells.rows frame) v ≡ Some w)
            × ((property m i : ℕ) → Follows bench.now.pair property frame m i (variable source)
            → Follows bench.now.pair property frame m i v) }
    {
        self.begin(source);
        for place in 0..self.places.len() {
            let Some(variable) = self.variable_at(bench, place) else {
                return false;
            };
            if self.follow_all(bench, known, frame, known.readers.list(variable)) {
                return true;
            }
        }
        false
    }

    // Whether x at a start makes x of a variable that is needed at the first frame.
    fn start_breaks<G: Grid>(&mut self, bench: &Bench<G>, known: &Known, position: usize) -> bool
        requires readers { length known.now.readers.lists ≡ bench.now.pair.circuit.max_var + 1 }
        ensures { IsTrue result → Breaks bench.now.pair known.now.needed.cells.rows 0 position }
    {
        // Its contract says that it is a circuit.
        bench.width();
        if bench.frames() == 0 {
            return false;
        }
        let latches = bench.circuit().latches();
        if position >= latches.len() {
            return false;
        }
        let latch = latches[position];
        self.reaches_needed(bench, known, 0, latch.lit)
    }

    /// Whether x at a place makes x of a variable that is needed. It follows gates that become x, up to the first one
    /// that is needed, and only at the frame of the place: the first one for a start.
    pub fn breaks<G: Grid>(&mut self, bench: &Bench<G>, known: &Known, place: ValuePlace) -> bool
        requires { length known.now.readers.lists ≡ bench.now.pair.circuit.max_var + 1 }
        ensures { IsTrue result → Breaks bench.now.pair known.now.needed.cells.rows place.list place.position }
    {
        if place.list == 0 {
            return self.start_breaks(bench, known, place.position);
        }
        if place.list > bench.frames() as usize {
            return false;
        }
        if place.position >= bench.width() as usize {
            return false;
        }
        let source = input_at(bench, place.position);
        self.reaches_needed(bench, known, (place.list - 1) as u32, source)
    }
}
