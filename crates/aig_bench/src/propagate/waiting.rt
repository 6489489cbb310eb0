//! Which variables wait, the chains in which they stand, and what an event looks at of a variable: in one place.
ghost use Rattle.std.specs.Prelude.{◌≡◌, ℕ, ◌*◌, ◌<◌, ◌++◌, ◌∷◌, [], false, length, IfOk, IsTrue, OnOk};
ghost use Rattle.std.specs.Prelude.{Contains, List, Some, slice_get, slice_index, slice_set};
ghost use Rattle.aig_parts.specs.declared.gate.Gate as gate;
ghost use Rattle.aig_parts.specs.Literal as literal;
ghost use Rattle.aig_base.specs.Levels.{AreLevels};
ghost use Rattle.aig_base.specs.state.Marks.{IsMarked};
ghost use Rattle.aig_bench.specs.state.Buckets.{AreQueues, CanBeQueued, LinksIn};
ghost use Rattle.aig_bench.specs.state.Waiting.{idle, HaveSides, Sides};

use crate::propagate::level_set::LevelSet;
use crate::propagate::link::link_all;
use aig_base::{Circuit, Levels, Lit, Memory};
use std::alloc::Global;
use std::marker::Model;

/// Stands for a variable that does not wait, in place of the next one of its chain.
pub const IDLE: u32 = 0xffff_ffff;

/// What an event looks at of a variable, 16 bytes.
#[derive(Clone, Copy, Debug)]
pub struct EventSlot {
    /// The next variable of the chain, 0 after the last one, or `IDLE`.
    pub next: u32,
    pub level: u32,
    /// The right sides of the variable's gate; 0 where it has none.
    pub rhs0: Lit,
    pub rhs1: Lit,
}

impl EventSlot {
    // The slot of a variable that does not wait.
    fn idle(level: u32, rhs0: Lit, rhs1: Lit) -> EventSlot
        ensures { result ≡ record { next = idle; level = level; rhs0 = rhs0; rhs1 = rhs1 } }
    {
        EventSlot {
            next: IDLE,
            level,
            rhs0,
            rhs1,
        }
    }
}

// The slot of a variable of a circuit where none waits.
fn slot_of(circuit: &Circuit, levels: &Levels, variable: u32) -> EventSlot
    requires { variable < length levels.now }
    ensures next { result.next ≡ idle }
    ensures level { slice_get levels.now variable ≡ Some result.level }
    ensures first { (q : ℕ) (g : gate.Gate) → slice_get circuit.now.gates q ≡ Some g → literal.variable g.lhs ≡ variable
        → result.rhs0 ≡ g.rhs0 }
    ensures second { (q : ℕ) (g : gate.Gate) → slice_get circuit.now.gates q ≡ Some g → literal.variable g.lhs
        ≡ variable
        → result.rhs1 ≡ g.rhs1 }
{
    circuit.facts();
    let level = levels.level(variable);
    match circuit.gate_of(variable) {
        Some(gate) => EventSlot::idle(level, gate.rhs0, gate.rhs1),
        None => EventSlot::idle(level, Lit::new(0), Lit::new(0)),
    }
}

/// For each variable whether it waits, the next one of its chain, its level and the right sides of its gate: one slot
/// for all, so an event looks at one place. Contracts see a list of each.
#[derive(Drop, Debug)]
pub struct Waiting {
    slots: Vec<EventSlot>,
}

impl Model for Waiting {
    ghost use Rattle.std.specs.Prelude.{nat_lt, vec_len};
    ghost use Rattle.std.specs.Vec.{vec_capacity};
    ghost use Rattle.aig_bench.specs.state.Waiting.{WaitingVariables, view_of};

    ghost Value = { WaitingVariables };

    ghost view = { λ a. view_of a.slots.items (nat_lt (vec_len a.slots) (vec_capacity a.slots)) };
}

impl Waiting {
    /// The variables of a circuit, none of which waits, with their levels.
    pub fn of(alloc: Global, circuit: &Circuit, levels: &Levels) -> Result<Waiting, Memory>
        requires { AreLevels circuit.now levels.now }
        ensures next { IfOk result (λ w. length w.next ≡ length levels.now) }
        ensures marks { IfOk result (λ w. length w.items ≡ length levels.now) }
        ensures none { IfOk result (λ w. (v : ℕ) → IsMarked w.items v → ⊥) }
        ensures levels { IfOk result (λ w. w.levels ≡ levels.now) }
        ensures sides { IfOk result (λ w. HaveSides circuit.now w.sides) }
    {
        circuit.facts();
        let mut slots = Vec::with_capacity(alloc, circuit.max_var() as usize + 1)?;
        for variable in 0..circuit.max_var() + 1 {
            slots.push(slot_of(circuit, levels, variable))?;
        }
        Ok(Waiting { slots })
    }

    /// Makes room for one more variable; nothing else changes.
    pub fn make_room(&mut self) -> Result<(), Memory>
        ensures same { self.new ≡ record self.old { room = self.new.room } }
        ensures room { OnOk result (IsTrue self.new.room) }
    {
        self.slots.reserve(1)?;
        Ok(())
    }

    /// One more variable, which does not wait, with its level and the right sides of its gate, where there is room.
    pub fn push(&mut self, level: u32, rhs0: Lit, rhs1: Lit)
        requires { IsTrue self.old.room }
        ensures next { self.new.next ≡ self.old.next ++ idle ∷ [] }
        ensures marks { self.new.items ≡ self.old.items ++ false ∷ [] }
        ensures levels { self.new.levels ≡ self.old.levels ++ level ∷ [] }
        ensures sides { self.new.sides ≡ self.old.sides ++ (let s : Sides = record { rhs0 = rhs0; rhs1 = rhs1 } in s)
            ∷ [] }
    {
        let slot = EventSlot::idle(level, rhs0, rhs1);
        self.slots.push_reserved(slot);
    }

    /// Lets these variables wait.
    pub fn link_all(&mut self, head: &mut [u32], occupied: &mut LevelSet, variables: &[u32])
        requires { (levels : List ℕ) × AreQueues levels head.old self.old occupied.old
            × ((v : ℕ) → Contains variables.now v → CanBeQueued levels (length head.old) v) }
        ensures queues { (levels : List ℕ) → AreQueues levels head.old self.old occupied.old
            → AreQueues levels head.new self.new occupied.new }
        ensures links { LinksIn (Contains variables.now) head.old self.old head.new self.new }
    {
        link_all(&mut self.slots, head, occupied, variables);
    }

    /// Lets a variable wait no more, and returns what its slot was.
    pub fn leave(&mut self, variable: u32) -> EventSlot
        requires { variable < length self.old.next }
        ensures second { result.next ≡ slice_index self.old.next variable }
        ensures gate { slice_get self.old.sides variable ≡ Some (record { rhs0 = result.rhs0; rhs1 = result.rhs1 }) }
        ensures next { self.new.next ≡ slice_set self.old.next variable idle }
        ensures marks { self.new.items ≡ slice_set self.old.items variable false }
        ensures levels { self.new.levels ≡ self.old.levels }
        ensures sides { self.new.sides ≡ self.old.sides }
    {
        let slot = &mut self.slots[variable as usize];
        let before = *slot;
        slot.next = IDLE;
        before
    }

    /// Replaces the level of a variable.
    pub fn set_level(&mut self, variable: u32, level: u32)
        requires { variable < length self.old.next }
        ensures { self.new ≡ record self.old { levels = slice_set self.old.levels variable level } }
    {
        let slot = &mut self.slots[variable as usize];
        slot.level = level;
    }

    /// Replaces the right sides of a variable's gate.
    pub fn set_sides(&mut self, variable: u32, rhs0: Lit, rhs1: Lit)
        requires { variable < length self.old.next }
        ensures { self.new ≡ record self.old {
          sides = slice_set self.old.sides variable (record { rhs0 = rhs0; rhs1 = rhs1 });
        } }
    {
        let slot = &mut self.slots[variable as usize];
        slot.rhs0 = rhs0;
        slot.rhs1 = rhs1;
    }
}
