//! The lists of the gates that read a variable, with the places of gates in long lists.
ghost use Rattle.std.specs.Prelude.{◌≡◌, ◌≢◌, ◌⊎◌, ℕ, ◌+◌, ◌^◌, ◌<◌, ◌≤◌, length, Some, IfOk, OnOk, OnErr};
ghost use Rattle.std.specs.Prelude.{slice_get};
ghost use Rattle.aig_base.specs.state.ListPlaces.{HasPlace, StandsNew, TakesFrom, short};
ghost use Rattle.aig_parts.specs.Formed.{limit};
ghost use Rattle.aig_parts.specs.Literal.{variable};
ghost use Rattle.aig_base.specs.state.ReaderSlots.{AddsReader, AddsBoth, Appends, Enters, FitsOneReader, KeepsLists};
ghost use Rattle.aig_base.specs.state.ReaderSlots.{MovesReader, TakesOut, items_at, tally};

use crate::readers::gate_lists::GateLists;
use crate::readers::list_places::{
    Places, cover_for_list, cover_more, place_of, renew_moved, write_places,
};
use aig_bytes::Memory;
use aig_parts::Gate;
use std::alloc::Global;
use std::marker::Model;

/// For each variable the gates that read it, and where a gate is in a long list.
#[derive(Drop)]
pub(crate) struct FanOuts {
    lists: GateLists,
    // By the gate's variable; none is there while no list is long.
    places: Vec<Places>,
}

impl Model for FanOuts {
    ghost use Rattle.std.specs.Prelude.{length};
    ghost use Rattle.aig_base.specs.state.FanOuts.{FanOutLists, fitting_lists, AreFanOuts};

    ghost Value = { FanOutLists };

    ghost view = { λ a. record {
      slots = a.lists.slots;
      fitting = fitting_lists a.lists.fitting (length a.places.items);
    } };

    ghost invariant = { λ a. AreFanOuts a.lists.slots a.places.items };
}

// Takes a gate out of the list of a variable, if it is there, in constant time; the last gate moves to its place.
fn take_out_of(lists: &mut GateLists, places: &mut [Places], variable: u32, gate: u32)
    requires within { variable < length lists.old.slots }
    requires kept { (i w : ℕ) → short ≤ i → slice_get (items_at lists.old.slots variable) i ≡ Some w
        → HasPlace places.old w i }
    requires narrow { length (items_at lists.old.slots variable) < 2 ^ 32 }
    ensures takes { TakesFrom variable gate lists.old.slots lists.new.slots places.old places.new }
    ensures fitting { lists.new.fitting ≡ lists.old.fitting }
{
    if let Some(place) = place_of(lists.list(variable), places, gate) {
        lists.swap_remove(variable, place);
        renew_moved(lists.list(variable), places, place);
    }
}

// Adds a gate to the list of a variable that has room, and returns its place there.
fn add(lists: &mut GateLists, variable: u32, gate: u32) -> u32
    requires room { FitsOneReader lists.old.slots variable }
    requires narrow { length (items_at lists.old.slots variable) < 2 ^ 32 }
    ensures adds { AddsReader variable gate lists.old.slots lists.new.slots }
    ensures stands { StandsNew variable variable gate (record { first = result; second = result })
        lists.old.slots lists.new.slots }
    ensures fitting { lists.new.fitting ≡ lists.old.fitting }
{
    let place = lists.list(variable).len() as u32;
    lists.push(variable, gate);
    place
}

// Adds a gate to the lists of both variables, which have room, once where the two are one, and returns its places.
fn add_to_lists(lists: &mut GateLists, first: u32, second: u32, gate: u32) -> Places
    requires room0 { FitsOneReader lists.old.slots first }
    requires room1 { FitsOneReader lists.old.slots second }
    requires narrow { (v : ℕ) → length (items_at lists.old.slots v) < 2 ^ 32 }
    ensures adds { AddsBoth first second gate lists.old.slots lists.new.slots }
    ensures stands { StandsNew first second gate result lists.old.slots lists.new.slots }
    ensures fitting { lists.new.fitting ≡ lists.old.fitting }
{
    let place = add(lists, first, gate);
    if second == first {
        return Places {
            first: place,
            second: place,
        };
    }
    Places {
        first: place,
        second: add(lists, second, gate),
    }
}

impl FanOuts {
    /// An empty list for each of so many variables.
    pub(crate) fn new(alloc: Global, variables: usize) -> Result<FanOuts, Memory>
        requires { variables ≤ limit + 1 }
        ensures size { IfOk result (λ fan_outs. length fan_outs.slots ≡ variables) }
        ensures empty { IfOk result (λ fan_outs. (v w : ℕ) → tally fan_outs.slots v w ≡ 0) }
    {
        Ok(FanOuts {
            lists: GateLists::new(alloc, variables)?,
            places: Vec::new(alloc),
        })
    }

    /// The gates that read a variable, in any order.
    pub(crate) fn list(&self, variable: u32) -> &[u32]
        requires { variable < length self.now.slots }
        ensures { result.now ≡ items_at self.now.slots variable }
    {
        self.lists.list(variable)
    }

    // Takes a gate out of the list of a variable, if it is there.
    fn take_out(&mut self, variable: u32, gate: u32)
        requires { variable < length self.old.slots }
        ensures { TakesOut variable gate self.old.slots self.new.slots }
    {
        take_out_of(&mut self.lists, &mut self.places, variable, gate);
    }

    // Adds a gate that is in no list to the lists of both variables, which have room; once where the two are one.
    fn add_to_both(&mut self, first: u32, second: u32, gate: u32)
        requires room0 { FitsOneReader self.old.slots first }
        requires room1 { FitsOneReader self.old.slots second }
        requires gate { gate < length self.old.slots }
        requires absent { (v : ℕ) → tally self.old.slots v gate ≡ 0 }
        ensures { AddsBoth first second gate self.old.slots self.new.slots }
    {
        let new = add_to_lists(&mut self.lists, first, second, gate);
        write_places(&mut self.places, gate, new);
    }

    /// Moves a gate from the lists of its sides, where alone it is, to those of two variables with room.
    pub(crate) fn move_gate(&mut self, before: &Gate, first: u32, second: u32)
        requires gate { variable before.now.lhs < length self.old.slots }
        requires side0 { variable before.now.rhs0 < length self.old.slots }
        requires side1 { variable before.now.rhs1 < length self.old.slots }
        requires room0 { FitsOneReader self.old.slots first }
        requires room1 { FitsOneReader self.old.slots second }
        requires elsewhere { (v : ℕ) → v ≢ variable before.now.rhs0 → v ≢ variable before.now.rhs1
            → tally self.old.slots v (variable before.now.lhs) ≡ 0 }
        ensures { MovesReader (variable before.now.rhs0) (variable before.now.rhs1) first second
            (variable before.now.lhs)
            self.old.slots self.new.slots }
    {
        let number = before.lhs.var();
        self.take_out(before.rhs0.var(), number);
        self.take_out(before.rhs1.var(), number);
        self.add_to_both(first, second, number);
    }

    // Makes room for one more in the list of a variable, and places for all gates where it may get long.
    fn make_room_at(&mut self, variable: u32) -> Result<(), Memory>
        requires { variable < length self.old.slots }
        ensures keeps { KeepsLists self.old.slots self.new.slots }
        ensures ok { OnOk result (FitsOneReader self.new.slots variable) }
        ensures refused { OnErr result (4 ≤ length (items_at self.old.slots variable)) }
    {
        let len = self.lists.list(variable).len();
        cover_for_list(&mut self.places, len, self.lists.len())?;
        self.lists.make_room(variable)
    }

    /// Makes room for one more in the lists of both variables.
    pub(crate) fn make_room_at_both(&mut self, first: u32, second: u32) -> Result<(), Memory>
        requires within0 { first < length self.old.slots }
        requires within1 { second < length self.old.slots }
        ensures keeps { KeepsLists self.old.slots self.new.slots }
        ensures ok { OnOk result (FitsOneReader self.new.slots first × FitsOneReader self.new.slots second) }
        ensures refused { OnErr result
            ((4 ≤ length (items_at self.old.slots first)) ⊎ (4 ≤ length (items_at self.old.slots second))) }
    {
        self.make_room_at(first)?;
        self.make_room_at(second)?;
        Ok(())
    }

    /// Makes room for one more list, and for one more gate in the lists of both variables.
    pub(crate) fn make_room_for_list(&mut self, first: u32, second: u32) -> Result<(), Memory>
        requires within0 { first < length self.old.slots }
        requires within1 { second < length self.old.slots }
        ensures keeps { KeepsLists self.old.slots self.new.slots }
        ensures list { OnOk result (length self.new.slots < self.new.fitting) }
        ensures room { OnOk result (FitsOneReader self.new.slots first × FitsOneReader self.new.slots second) }
    {
        self.make_room_at_both(first, second)?;
        self.lists.make_room_for_list()?;
        cover_more(&mut self.places, self.lists.len() + 1)
    }

    /// Adds the list of the gate of the next variable, and that gate to the lists of its sides; there is room.
    pub(crate) fn append_list(&mut self, gate: &Gate)
        requires few { length self.old.slots ≤ limit }
        requires list { length self.old.slots < self.old.fitting }
        requires room0 { FitsOneReader self.old.slots (variable gate.now.rhs0) }
        requires room1 { FitsOneReader self.old.slots (variable gate.now.rhs1) }
        requires gate { variable gate.now.lhs ≡ length self.old.slots }
        ensures { Appends (variable gate.now.rhs0) (variable gate.now.rhs1) (variable gate.now.lhs)
            self.old.slots self.new.slots }
    {
        self.lists.push_list();
        self.add_to_both(gate.rhs0.var(), gate.rhs1.var(), gate.lhs.var());
    }

    /// Adds a gate that is in no list to the lists of its sides' variables.
    pub(crate) fn list_gate(&mut self, gate: &Gate) -> Result<(), Memory>
        requires gate { variable gate.now.lhs < length self.old.slots }
        requires side0 { variable gate.now.rhs0 < length self.old.slots }
        requires side1 { variable gate.now.rhs1 < length self.old.slots }
        requires absent { (v : ℕ) → tally self.old.slots v (variable gate.now.lhs) ≡ 0 }
        ensures { OnOk result (Enters (variable gate.now.rhs0) (variable gate.now.rhs1) (variable gate.now.lhs)
            self.old.slots self.new.slots) }
    {
        let first = gate.rhs0.var();
        let second = gate.rhs1.var();
        self.make_room_at_both(first, second)?;
        self.add_to_both(first, second, gate.lhs.var());
        Ok(())
    }
}
