//! For each variable a list of gates. Four gates are in place; a list that needs room for more is in a second table,
//! among the far lists.
ghost use Rattle.std.specs.Prelude.{◌≡◌, ◌+◌, ◌*◌, ◌<◌, ◌≤◌, [], ◌∷◌, ◌++◌, max, length, map, replicate, swap_remove};
ghost use Rattle.std.specs.Prelude.{IfOk, OnOk, OnErr};
ghost use Rattle.aig_base.specs.state.GateLists.{GetsRoom, far_list, position};
ghost use Rattle.aig_base.specs.state.ReaderSlots.{FitsOneReader, items_at, with_items_at};

use crate::readers::slot_table::{FAR, NEAR, Slot, SlotTable};
use aig_bytes::Memory;
use smallvec::SmallVec;
use std::alloc::Global;
use std::marker::Model;

/// For each variable a list of gates.
#[derive(Drop)]
pub(crate) struct GateLists {
    slots: SlotTable,
    // Of five to eight gates they take no memory of their own.
    far: Vec<SmallVec<u32, 8>>,
}

impl Model for GateLists {
    ghost use Rattle.std.specs.Prelude.{map};
    ghost use Rattle.aig_base.specs.state.GateLists.{AreSlots, RoomyLists, far_list, slot_list};

    ghost Value = { RoomyLists };

    ghost view = { λ a. record {
      slots = map (slot_list (map far_list a.far.items)) a.slots.slots;
      fitting = a.slots.fitting;
    } };

    ghost invariant = { λ a. AreSlots (map far_list a.far.items) a.slots.slots };
}

// Makes room for one more in a list, which doubles if it is full.
fn double_full(list: &mut SmallVec<u32, 8>) -> Result<(), Memory>
    requires { 4 ≤ list.old.capacity }
    ensures items { list.new.items ≡ list.old.items }
    ensures ok { OnOk result (length list.new.items < list.new.capacity) }
    ensures capacity { list.old.capacity ≤ list.new.capacity }
    ensures doubled { list.new.capacity ≤ max (list.old.capacity) (2 * length list.old.items) }
    ensures refused { OnErr result (4 ≤ length list.old.items) }
{
    let len = list.len();
    if len < list.capacity() {
        return Ok(());
    }
    list.reserve_exact(len)?;
    Ok(())
}

// A list of these gates, with room for as many again.
fn far_copy(alloc: Global, gates: &[u32]) -> Result<SmallVec<u32, 8>, Memory>
    requires { length gates.now ≡ 4 }
    ensures items { IfOk result (λ list. list.items ≡ gates.now) }
    ensures capacity { IfOk result (λ list. list.capacity ≡ 8) }
{
    Ok(SmallVec::from_slice(alloc, gates)?)
}

// Keeps these gates as one more far list, and returns its slot.
fn keep_far(alloc: Global, gates: &[u32], far: &mut Vec<SmallVec<u32, 8>>) -> Result<Slot, Memory>
    requires { length gates.now ≡ 4 }
    ensures slot { IfOk result (λ slot. (slot.count ≡ 5) × (position slot ≡ length far.old.items)) }
    ensures far { OnOk result (map far_list far.new.items
        ≡ map far_list far.old.items ++ (record { items = gates.now; capacity = 8 }) ∷ []) }
    ensures kept { OnErr result (far.new.items ≡ far.old.items) }
{
    let Ok(position) = u32::try_from(far.len()) else {
        return Err(Memory);
    };
    far.push(far_copy(alloc, gates)?)?;
    Ok(Slot {
        count: FAR,
        gates: [position, 0, 0, 0],
    })
}

impl GateLists {
    /// An empty list for each of so many variables.
    pub(crate) fn new(alloc: Global, variables: usize) -> Result<GateLists, Memory>
        ensures { IfOk result (λ lists. lists.slots ≡ replicate variables (record { items = []; capacity = 4 })) }
    {
        let slots = SlotTable::new(alloc, variables)?;
        let far = Vec::new(alloc);
        Ok(GateLists { slots, far })
    }

    /// How many lists there are.
    pub(crate) fn len(&self) -> usize
        ensures { result ≡ length self.now.slots }
    {
        self.slots.len()
    }

    /// The gates of a variable.
    pub(crate) fn list(&self, variable: u32) -> &[u32]
        requires { variable < length self.now.slots }
        ensures { result.now ≡ items_at self.now.slots variable }
    {
        let count = self.slots.count(variable);
        if count == FAR {
            return self.far[self.slots.get(variable).position()].as_slice();
        }
        self.slots.near(variable, count)
    }

    /// Adds a gate to the list of a variable, which has room.
    pub(crate) fn push(&mut self, variable: u32, gate: u32)
        requires { FitsOneReader self.old.slots variable }
        ensures slots { self.new.slots
            ≡ with_items_at self.old.slots variable (items_at self.old.slots variable ++ gate ∷ []) }
        ensures fitting { self.new.fitting ≡ self.old.fitting }
    {
        let count = self.slots.count(variable);
        if count == FAR {
            self.far[self.slots.get(variable).position()].push_reserved(gate);
        } else {
            self.slots.push_near(variable, count, gate);
        }
    }

    /// Takes the gate at a place out of the list of a variable; the last one moves to its place.
    pub(crate) fn swap_remove(&mut self, variable: u32, place: usize)
        requires { place < length (items_at self.old.slots variable) }
        ensures slots { self.new.slots
            ≡ with_items_at self.old.slots variable (swap_remove (items_at self.old.slots variable) place 0) }
        ensures fitting { self.new.fitting ≡ self.old.fitting }
    {
        let mut slot = self.slots.get(variable);
        if slot.is_far() {
            let _ = self.far[slot.position()].swap_remove(place);
        } else {
            slot.swap_remove(place);
            self.slots.set(variable, slot);
        }
    }

    /// Makes room for one more gate in the list of a variable.
    pub(crate) fn make_room(&mut self, variable: u32) -> Result<(), Memory>
        requires { variable < length self.old.slots }
        ensures gets { GetsRoom variable self.old.slots self.new.slots }
        ensures ok { OnOk result (FitsOneReader self.new.slots variable) }
        ensures refused { OnErr result (4 ≤ length (items_at self.old.slots variable)) }
        ensures fitting { self.new.fitting ≡ self.old.fitting }
    {
        if self.slots.count(variable) < NEAR as u8 {
            return Ok(());
        }
        let slot = self.slots.get(variable);
        if slot.is_far() {
            return double_full(&mut self.far[slot.position()]);
        }
        let moved = keep_far(self.slots.allocator(), &slot.gates, &mut self.far)?;
        self.slots.set(variable, moved);
        Ok(())
    }

    /// Makes room for one more list.
    pub(crate) fn make_room_for_list(&mut self) -> Result<(), Memory>
        ensures slots { self.new.slots ≡ self.old.slots }
        ensures fitting { OnOk result (length self.new.slots < self.new.fitting) }
    {
        self.slots.reserve()
    }

    /// Adds an empty list; there is room.
    pub(crate) fn push_list(&mut self)
        requires { length self.old.slots < self.old.fitting }
        ensures slots { self.new.slots ≡ self.old.slots ++ (record { items = []; capacity = 4 }) ∷ [] }
        ensures fitting { self.new.fitting ≡ self.old.fitting }
    {
        self.slots.push_none();
    }
}
