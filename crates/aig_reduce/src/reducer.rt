//! Trying x at the values of a witness, many at once where they can go.
ghost use Rattle.std.specs.Prelude.{◌≡◌, suc, ◌<◌, ◌≤◌, Some, length, slice_get};
ghost use Rattle.aig_parts.specs.declared.latch.Latch.{Latch};
ghost use Rattle.aig_parts.specs.declared.raw.Raw.{Raw};
ghost use Rattle.aig_sim.specs.WitnessText.{Witness};
ghost use Rattle.aig_reduce.specs.Reduction.{IsReduced};
ghost use Rattle.aig_reduce.specs.state.Needed.{Knows};
ghost use Rattle.aig_reduce.specs.state.Places.{IsBefore, IsUpTo};
ghost use Rattle.aig_reduce.specs.state.Steps.{Confirmed, HasPlace, ReducesKnown, ReducesTo, Tries, TriesAt};

mod clearing;
mod values;

use crate::looks::reaches_from;
use crate::needed::{Known, is_unknown};
use crate::pace::Pace;
use crate::place::{Cleared, ValuePlace, frame_of, is_before};
use crate::spread::Spread;
use crate::starts::{is_fixed, is_uninitialised};
use aig_base::{Latch, Lit, Tern};
use aig_bench::Bench;
use aig_sim::PlaneGrid;
use values::{put_input, put_reset};

/// A confirmed witness whose run a bench simulates: the position of its property, and what its latches start at; and
/// room for the variables that an input makes x.
#[derive(Drop)]
pub struct Reducer {
    pub bench: Bench<PlaneGrid>,
    pub property: u32,
    pub start: Vec<Tern>,
    pub spread: Spread,
}

impl Reducer {
    // Tries x at an input of a frame, and takes it back where the run is not confirmed any more.
    fn try_input(&mut self, frame: u32, position: u32)
        requires frame { frame < length self.old.bench.pair.rows }
        requires position { position < length self.old.bench.pair.circuit.inputs }
        requires runs { (raw : Raw) × Confirmed raw self.old }
        ensures { (raw : Raw) → Confirmed raw self.old → TriesAt raw self.old self.new (suc frame) position }
    {
        let given = self.bench.stimulus().get(frame, position);
        put_input(&mut self.bench, frame, position, Tern::X);
        if !reaches_from(&self.bench, self.property, frame) {
            put_input(&mut self.bench, frame, position, given);
        }
    }

    // Tries x at the start of an uninitialised latch.
    fn try_start(&mut self, position: usize, latch: Lit)
        requires position { position < length self.old.start.items }
        requires runs { (raw : Raw) × (x : Latch) × Confirmed raw self.old
            × (slice_get raw.latches position ≡ Some x) × (x.lit ≡ latch) × (1 < x.reset) }
        ensures { (raw : Raw) (x : Latch) → Confirmed raw self.old → slice_get raw.latches position ≡ Some x →
            x.lit ≡ latch → 1 < x.reset → TriesAt raw self.old self.new 0 position }
    {
        let given = self.start[position];
        put_reset(&mut self.bench, latch, Tern::X);
        if reaches_from(&self.bench, self.property, 0) {
            self.start[position] = Tern::X;
        } else {
            put_reset(&mut self.bench, latch, given);
        }
    }

    // Tries x at the start of a latch, where its reset is not 0 or 1.
    fn try_latch(&mut self, position: usize, latch: &Latch)
        requires { (raw : Raw) × (given : Witness) × (slice_get raw.latches position ≡ Some latch.now)
            × ReducesTo raw given self.old (record { list = 0; position = position }) }
        ensures { (raw : Raw) (given : Witness) → slice_get raw.latches position ≡ Some latch.now →
            ReducesTo raw given self.old (record { list = 0; position = position }) →
            ReducesTo raw given self.new (record { list = 0; position = suc position }) }
    {
        if is_uninitialised(*latch) {
            self.try_start(position, latch.lit);
        }
    }

    // Tries x at the values from a place on, all at once in so many steps, and takes that back where the run is not
    // confirmed any more. Returns the place up to which values have been tried.
    fn try_range(
        &mut self,
        known: &Known,
        cleared: &mut Vec<Cleared>,
        from: ValuePlace,
        size: usize,
    ) -> ValuePlace
        requires list { from.list ≤ length self.old.bench.pair.rows }
        requires reducing { ReducesKnown known.now self.old from }
        ensures reducing { Tries known.now self.old from self.new result }
        ensures on { IsUpTo from.list from.position result.list result.position }
    {
        // Its contract says how many frames there are.
        self.bench.frames();
        cleared.clear();
        let reached = self.clear(known, cleared, from, size);
        if reaches_from(&self.bench, self.property, frame_of(from)) {
            return reached;
        }
        self.take_back(&known.latches, cleared);
        from
    }

    // Tries fewer and fewer values from a place on, but more than one, until all can go.
    fn try_ranges(
        &mut self,
        known: &Known,
        cleared: &mut Vec<Cleared>,
        pace: &mut Pace,
        from: ValuePlace,
    ) -> ValuePlace
        requires list { from.list ≤ length self.old.bench.pair.rows }
        requires reducing { ReducesKnown known.now self.old from }
        ensures reducing { Tries known.now self.old from self.new result }
        ensures on { IsUpTo from.list from.position result.list result.position }
    {
        'sizes: while pace.size > 1 {
            let place = self.try_range(known, cleared, from, pace.size);
            if is_before(from, place) {
                pace.pass();
                return place;
            }
            pace.fail();
        }
        from
    }

    // Notes in the pace whether x stayed at a place.
    fn note(&self, pace: &mut Pace, place: ValuePlace) {
        if self.has(place) && is_unknown(self.get(place)) {
            pace.pass();
        } else {
            pace.meet_needed();
        }
    }

    // Tries x at one place.
    fn try_value(&mut self, latches: &[Latch], place: ValuePlace)
        requires place { HasPlace self.old place }
        requires reducing { (raw : Raw) × (given : Witness) × (latches.now ≡ raw.latches)
            × ReducesTo raw given self.old place }
        ensures { (raw : Raw) (given : Witness) → latches.now ≡ raw.latches
            → ReducesTo raw given self.old place
            → ReducesTo raw given self.new (record { list = place.list; position = suc place.position }) }
    {
        if place.list == 0 {
            self.try_latch(place.position, &latches[place.position]);
        } else {
            // Their contracts say that the rows have that width, and how many there are.
            self.bench.width();
            self.bench.frames();
            self.try_input((place.list - 1) as u32, place.position as u32);
        }
    }

    // Tries the values from a place on: many at once where they can all go, else the one at the place. Returns the
    // place up to which values have been tried.
    fn try_place(
        &mut self,
        known: &Known,
        cleared: &mut Vec<Cleared>,
        pace: &mut Pace,
        place: ValuePlace,
    ) -> ValuePlace
        requires place { HasPlace self.old place }
        requires reducing { ReducesKnown known.now self.old place }
        ensures reducing { Tries known.now self.old place self.new result }
        ensures on { IsBefore place.list place.position result.list result.position }
    {
        let reached = self.try_ranges(known, cleared, pace, place);
        if is_before(place, reached) {
            return reached;
        }
        self.try_value(&known.latches, place);
        self.note(pace, place);
        ValuePlace {
            list: place.list,
            position: place.position + 1,
        }
    }

    // Tries the values from a place on, or goes on to the next list where there is none.
    fn step(
        &mut self,
        known: &Known,
        cleared: &mut Vec<Cleared>,
        pace: &mut Pace,
        place: ValuePlace,
    ) -> ValuePlace
        requires list { place.list ≤ length self.old.bench.pair.rows }
        requires reducing { ReducesKnown known.now self.old place }
        ensures reducing { Tries known.now self.old place self.new result }
        ensures on { IsBefore place.list place.position result.list result.position }
    {
        // Its contract says how many frames there are.
        self.bench.frames();
        if !self.has(place) {
            return ValuePlace {
                list: place.list + 1,
                position: 0,
            };
        }
        let next = ValuePlace {
            list: place.list,
            position: place.position + 1,
        };
        if is_fixed(&known.latches, place) {
            return next;
        }
        if known.needed.has(place) {
            return next;
        }
        if self.spread.breaks(&self.bench, known, place) {
            return next;
        }
        self.try_place(known, cleared, pace, place)
    }

    /// Tries all starts and then all inputs.
    pub fn try_all(&mut self, known: &Known, cleared: &mut Vec<Cleared>)
        requires { ReducesKnown known.now self.old (record { list = 0; position = 0 }) }
        ensures { (raw : Raw) (given : Witness) → Knows raw given known.now →
            ReducesTo raw given self.old (record { list = 0; position = 0 }) →
            IsReduced raw given (record {
              property = self.new.property;
              start = self.new.start.items;
              rows = self.new.bench.pair.rows;
            }) }
    {
        let frames = self.bench.frames() as usize;
        let mut pace = Pace::new();
        let mut place = ValuePlace {
            list: 0,
            position: 0,
        };
        'places: while place.list <= frames {
            place = self.step(known, cleared, &mut pace, place);
        }
    }
}
