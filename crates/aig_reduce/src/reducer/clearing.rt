//! Values that become x all at once, and are put back.
ghost use Rattle.std.specs.Prelude.{◌≡◌, ◌<◌, List, vec_len, vec_capacity};
ghost use Rattle.aig_parts.specs.declared.raw.Raw.{Raw};
ghost use Rattle.aig_reduce.specs.state.Places.{IsUpTo, Undoes};
ghost use Rattle.aig_reduce.specs.state.Reducing.{Runs};
ghost use Rattle.aig_reduce.specs.state.Steps.{Clears, ClearsKnown, HasPlace, LeadsBack, Puts, RunsLatches};
ghost use Rattle.aig_reduce.specs.state.Steps.{values_now};

use crate::needed::Known;
use crate::place::{Cleared, ValuePlace};
use crate::reducer::Reducer;
use crate::starts::is_fixed;
use aig_base::{Latch, Tern};

impl Reducer {
    // Puts x to a place, and keeps what was there.
    fn clear_value(&mut self, latches: &[Latch], cleared: &mut Vec<Cleared>, place: ValuePlace)
        requires room { vec_len cleared.old < vec_capacity cleared.old }
        requires place { HasPlace self.old place }
        requires runs { RunsLatches latches.now self.old }
        ensures puts { Puts latches.now self.old place Tern.X self.new }
        ensures undoes { (raw : Raw) (was : List (List Tern)) → latches.now ≡ raw.latches
            → Runs raw self.old.bench.pair self.old.start.items
            → Undoes cleared.old.items (values_now self.old) was
            → Undoes cleared.new.items (values_now self.new) was }
    {
        let value = self.get(place);
        cleared.push_reserved(Cleared { place, value });
        self.put(latches, place, Tern::X);
    }

    // Clears a value, unless it is needed or the start of a latch with a reset of 0 or 1, and returns the next place of
    // its list. It returns the place itself where there is no room for one more.
    fn clear_at(
        &mut self,
        known: &Known,
        cleared: &mut Vec<Cleared>,
        place: ValuePlace,
    ) -> ValuePlace
        requires place { HasPlace self.old place }
        requires clearing { ClearsKnown known.now self.old place }
        ensures clearing { Clears known.now self.old place self.new result }
        ensures undoes { LeadsBack known.now self.old cleared.old.items place self.new cleared.new.items }
        ensures on { IsUpTo place.list place.position result.list result.position }
    {
        let next = ValuePlace {
            list: place.list,
            position: place.position + 1,
        };
        if is_fixed(&known.latches, place) {
            return next;
        }
        if known.needed.has(place) {
            return next;
        }
        if self.spread.breaks(&self.bench, known, place) {
            return next;
        }
        if cleared.len() >= cleared.capacity() {
            return place;
        }
        self.clear_value(&known.latches, cleared, place);
        next
    }

    // Clears the value at a place, and returns the next place. At the end of a list that is the first of the next list.
    fn clear_next(
        &mut self,
        known: &Known,
        cleared: &mut Vec<Cleared>,
        place: ValuePlace,
    ) -> ValuePlace
        requires clearing { ClearsKnown known.now self.old place }
        ensures clearing { Clears known.now self.old place self.new result }
        ensures undoes { LeadsBack known.now self.old cleared.old.items place self.new cleared.new.items }
        ensures on { IsUpTo place.list place.position result.list result.position }
    {
        if self.has(place) {
            return self.clear_at(known, cleared, place);
        }
        if place.list >= self.bench.frames() as usize {
            return place;
        }
        ValuePlace {
            list: place.list + 1,
            position: 0,
        }
    }

    /// Clears the values from a place on, in so many steps, and returns the place after them.
    pub fn clear(
        &mut self,
        known: &Known,
        cleared: &mut Vec<Cleared>,
        from: ValuePlace,
        size: usize,
    ) -> ValuePlace
        requires clearing { ClearsKnown known.now self.old from }
        ensures clearing { Clears known.now self.old from self.new result }
        ensures undoes { LeadsBack known.now self.old cleared.old.items from self.new cleared.new.items }
        ensures on { IsUpTo from.list from.position result.list result.position }
    {
        let mut place = from;
        for step in 0..size {
            place = self.clear_next(known, cleared, place);
        }
        place
    }

    /// Puts back all that was cleared, the last value first.
    pub fn take_back(&mut self, latches: &[Latch], cleared: &mut Vec<Cleared>)
        requires { (raw : Raw) × (was : List (List Tern)) × (latches.now ≡ raw.latches)
            × Runs raw self.old.bench.pair self.old.start.items × Undoes cleared.old.items (values_now self.old) was }
        ensures property { self.new.property ≡ self.old.property }
        ensures runs { (raw : Raw) (was : List (List Tern)) → latches.now ≡ raw.latches
            → Runs raw self.old.bench.pair self.old.start.items → Undoes cleared.old.items (values_now self.old) was
            → Runs raw self.new.bench.pair self.new.start.items × (values_now self.new ≡ was) }
    {
        while let Some(last) = cleared.pop() {
            self.put(latches, last.place, last.value);
        }
    }
}
