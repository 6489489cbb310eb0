//! The values of a witness on its bench, place by place.
ghost use Rattle.std.specs.Prelude.{◌≡◌, ◌↔◌, ◌<◌, Some, length, slice_get, IsTrue};
ghost use Rattle.aig_base.specs.Circuit.{IsCircuit};
ghost use Rattle.aig_base.specs.Sections.{IsLatchLiteral};
ghost use Rattle.aig_bench.specs.Edit.{edited, set_bit, set_reset};
ghost use Rattle.aig_values.specs.InputRows.{row_at};
ghost use Rattle.aig_reduce.specs.state.Steps.{HasPlace, Puts, RunsLatches, values_now};

use crate::place::ValuePlace;
use crate::reducer::Reducer;
use aig_base::{Latch, Lit, Tern};
use aig_bench::Bench;
use aig_sim::Grid;

/// Puts a value to an input of a frame.
pub fn put_input<G: Grid>(bench: &mut Bench<G>, frame: u32, position: u32, value: Tern)
    requires frame { frame < length bench.old.pair.rows }
    requires position { position < length bench.old.pair.circuit.inputs }
    ensures { bench.new.pair ≡ edited bench.old.pair (set_bit frame position value) }
{
    let _report = bench.set_bit(frame, position, value);
}

/// Lets a latch of the bench start at a value. Its circuit is one before and after.
pub fn put_reset<G: Grid>(bench: &mut Bench<G>, latch: Lit, value: Tern)
    requires { IsLatchLiteral bench.old.pair.circuit latch }
    ensures bench { bench.new.pair ≡ edited bench.old.pair (set_reset latch value) }
    ensures before { IsCircuit bench.old.pair.circuit }
    ensures after { IsCircuit bench.new.pair.circuit }
{
    // Its contract says that it is a circuit.
    bench.width();
    let _report = bench.set_reset(latch, value);
    bench.width();
}

impl Reducer {
    /// Puts a value to a place. The latches are those of the circuit, with their own resets.
    pub fn put(&mut self, latches: &[Latch], place: ValuePlace, value: Tern)
        requires place { HasPlace self.old place }
        requires runs { RunsLatches latches.now self.old }
        ensures { Puts latches.now self.old place value self.new }
    {
        if place.list == 0 {
            put_reset(&mut self.bench, latches[place.position].lit, value);
            self.start[place.position] = value;
        } else {
            // Their contracts say that the rows have that width, and how many there are.
            self.bench.width();
            self.bench.frames();
            put_input(
                &mut self.bench,
                (place.list - 1) as u32,
                place.position as u32,
                value,
            );
        }
    }

    /// The value at a place.
    pub fn get(&self, place: ValuePlace) -> Tern
        requires { HasPlace self.now place }
        ensures { slice_get (row_at (values_now self.now) place.list) place.position ≡ Some result }
    {
        if place.list == 0 {
            return self.start[place.position];
        }
        // Its contract says that the rows have that width.
        self.bench.width();
        self.bench
            .stimulus()
            .get((place.list - 1) as u32, place.position as u32)
    }

    /// Whether there is a value at a place.
    pub fn has(&self, place: ValuePlace) -> bool
        ensures { IsTrue result ↔ HasPlace self.now place }
    {
        if place.list == 0 {
            return place.position < self.start.len();
        }
        let width = self.bench.width() as usize;
        place.list <= self.bench.frames() as usize && place.position < width
    }
}
