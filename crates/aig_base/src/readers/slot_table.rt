//! For each variable the list of gates that it has in place, or where it is. The counts have a table of their own, so
//! the four gates of a variable are 16 bytes that never lie across two lines of a cache.
ghost use Rattle.std.specs.Prelude.{◌≡◌, ◌+◌, ◌<◌, ◌≤◌, [], ◌∷◌, ◌++◌, length, replicate, swap_remove, take};
ghost use Rattle.std.specs.Prelude.{IfOk, IsTrue, ◌↔◌, OnOk, Some, slice_get, slice_index_or, slice_set};
ghost use Rattle.aig_base.specs.declared.readers.slot_table.Slot as slot;
ghost use Rattle.aig_base.specs.state.GateLists.{near_list, no_gates, position};

use aig_bytes::Memory;
use std::alloc::Global;
use std::marker::Model;

/// How many gates a list has in place.
pub(crate) const NEAR: usize = 4;

/// In place of a count: the list is far.
pub(crate) const FAR: u8 = 5;

/// The list of a variable, or where it is.
#[derive(Clone, Copy)]
pub(crate) struct Slot {
    /// How many gates the list has, or `FAR`.
    pub count: u8,
    /// The gates; of a far list, first its position among the far lists.
    pub gates: [u32; NEAR],
}

impl Slot {
    /// Whether the list is far.
    pub fn is_far(&self) -> bool
        ensures far { IsTrue result ↔ (self.now.count ≡ 5) }
        ensures places { length self.now.gates ≡ 4 }
    {
        self.count == FAR
    }

    /// Where a far list is among the far lists.
    pub fn position(&self) -> usize
        ensures { result ≡ position self.now }
    {
        self.gates[0] as usize
    }

    /// Takes out the gate at a place; the last one moves there.
    pub fn swap_remove(&mut self, place: usize)
        requires few { self.old.count ≤ 4 }
        requires within { place < self.old.count }
        ensures items { (near_list self.new).items ≡ swap_remove (near_list self.old).items place 0 }
        ensures count { self.new.count + 1 ≡ self.old.count }
    {
        self.count -= 1;
        self.gates[place] = self.gates[self.count as usize];
    }
}

// Puts a gate after so many in place, and says how many there are then.
fn put_near(gates: &mut [u32; NEAR], count: u8, gate: u32) -> u8
    requires { length (take count gates.old) < 4 }
    ensures items { take result gates.new ≡ take count gates.old ++ gate ∷ [] }
    ensures count { (result ≡ count + 1) × (count < 4) }
    ensures long { length gates.new ≡ 4 }
{
    gates[count as usize] = gate;
    count + 1
}

/// For each variable its slot.
#[derive(Drop)]
pub(crate) struct SlotTable {
    counts: Vec<u8>,
    gates: Vec<[u32; NEAR]>,
}

impl Model for SlotTable {
    ghost use Rattle.std.specs.Prelude.{◌≡◌, length, min};
    ghost use Rattle.std.specs.Vec.{vec_capacity};
    ghost use Rattle.aig_base.specs.state.GateLists.{Slots, slots_of};

    ghost Value = { Slots };

    ghost view = { λ a. record {
      slots = slots_of a.counts.items a.gates.items;
      fitting = min (vec_capacity a.counts) (vec_capacity a.gates);
    } };

    ghost invariant = { λ a. length a.counts.items ≡ length a.gates.items };
}

impl SlotTable {
    /// The slots of so many variables, which have no gates.
    pub(crate) fn new(alloc: Global, variables: usize) -> Result<SlotTable, Memory>
        ensures { IfOk result (λ table. table.slots ≡ replicate variables no_gates) }
    {
        let counts = vec![in alloc; 0; variables]?;
        let gates = vec![in alloc; [0; NEAR]; variables]?;
        Ok(SlotTable { counts, gates })
    }

    /// How many slots there are.
    pub(crate) fn len(&self) -> usize
        ensures { result ≡ length self.now.slots }
    {
        self.counts.len()
    }

    /// Where memory comes from.
    pub(crate) fn allocator(&self) -> Global {
        *self.counts.allocator()
    }

    /// The slot of a variable.
    pub(crate) fn get(&self, variable: u32) -> Slot
        requires { variable < length self.now.slots }
        ensures { result ≡ slice_index_or self.now.slots variable result }
    {
        Slot {
            count: self.counts[variable as usize],
            gates: self.gates[variable as usize],
        }
    }

    /// How many gates a variable has in place, or `FAR`.
    pub(crate) fn count(&self, variable: u32) -> u8
        requires { variable < length self.now.slots }
        ensures { (s : slot.Slot) → slice_get self.now.slots variable ≡ Some s → result ≡ s.count }
    {
        self.counts[variable as usize]
    }

    /// The gates that a variable has in place.
    pub(crate) fn near(&self, variable: u32, count: u8) -> &[u32]
        requires slot { (s : slot.Slot) × (slice_get self.now.slots variable ≡ Some s) × (s.count ≡ count) }
        requires few { count ≤ 4 }
        ensures { (s : slot.Slot) → slice_get self.now.slots variable ≡ Some s → result.now ≡ (near_list s).items }
    {
        let gates = &self.gates[variable as usize];
        &gates[..count as usize]
    }

    /// Adds a gate after those that a variable has in place.
    pub(crate) fn push_near(&mut self, variable: u32, count: u8, gate: u32)
        requires slot { (s : slot.Slot) × (slice_get self.old.slots variable ≡ Some s) × (s.count ≡ count)
            × (length (near_list s).items < 4) }
        ensures slots { (s : slot.Slot) → slice_get self.old.slots variable ≡ Some s
            → (t : slot.Slot) × (self.new.slots ≡ slice_set self.old.slots variable t) × (t.count ≤ 4)
            × ((near_list t).items ≡ (near_list s).items ++ gate ∷ []) }
        ensures fitting { self.new.fitting ≡ self.old.fitting }
    {
        let more = put_near(&mut self.gates[variable as usize], count, gate);
        self.counts[variable as usize] = more;
    }

    /// Replaces the slot of a variable.
    pub(crate) fn set(&mut self, variable: u32, slot: Slot)
        requires { variable < length self.old.slots }
        ensures slots { self.new.slots ≡ slice_set self.old.slots variable slot }
        ensures fitting { self.new.fitting ≡ self.old.fitting }
    {
        let gates = slot.gates;
        self.counts[variable as usize] = slot.count;
        self.gates[variable as usize] = gates;
    }

    /// Makes room for one more slot.
    pub(crate) fn reserve(&mut self) -> Result<(), Memory>
        ensures slots { self.new.slots ≡ self.old.slots }
        ensures fitting { OnOk result (length self.new.slots < self.new.fitting) }
    {
        self.counts.reserve(1)?;
        self.gates.reserve(1)?;
        Ok(())
    }

    /// Adds a slot without gates; there is room.
    pub(crate) fn push_none(&mut self)
        requires { length self.old.slots < self.old.fitting }
        ensures slots { self.new.slots ≡ self.old.slots ++ no_gates ∷ [] }
        ensures fitting { self.new.fitting ≡ self.old.fitting }
    {
        self.counts.push_reserved(0);
        self.gates.push_reserved([0; NEAR]);
    }
}
