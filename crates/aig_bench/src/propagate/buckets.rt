//! Gates that wait for their evaluation, by level: the queue of events.
ghost use Rattle.std.specs.Prelude.{◌≡◌, ℕ, ◌+◌, ◌<◌, ◌≤◌, List, length, IfOk, OnOk, IfSome, Some, slice_get};
ghost use Rattle.std.specs.Prelude.{slice_index, slice_set, Contains, ◌≢◌, ◌*◌};
ghost use Rattle.std.specs.Prelude.{[], ◌∷◌, ◌++◌};
ghost use Rattle.aig_parts.specs.Formed.{limit};
ghost use Rattle.aig_base.specs.Levels.{AreLevels};
ghost use Rattle.aig_bench.specs.declared.propagate.buckets.Buckets as buckets;
ghost use Rattle.aig_bench.specs.state.Buckets.{AreBuckets, IsQueued, CanBeQueued, FitsOneVariable};
ghost use Rattle.aig_bench.specs.state.Buckets.{IsFirst, IsLowest, IsOccupied, Links, TakesVariable};
ghost use Rattle.aig_bench.specs.state.Waiting.{HaveSides, sides_of};

use crate::propagate::level_set::LevelSet;
use crate::propagate::waiting::Waiting;
use aig_base::{Circuit, Gate, LevelCopy, Levels, Lit, Memory};
use std::alloc::Global;

/// A gate that waited, and the variable that was next in the chain of its level; 0 stands for none.
#[derive(Clone, Copy)]
pub struct Taken {
    pub gate: Gate,
    pub next: u32,
}

/// Variables of gates that wait, a chain for each level, and a copy of the levels. It takes memory when it is made and
/// when the circuit grows, and else none.
#[derive(Drop, Debug)]
pub struct Buckets {
    // The first variable of each level's chain; 0 stands for none.
    head: Vec<u32>,
    // Which variables wait, and for each the next one of its chain.
    marks: Waiting,
    // The levels of which a variable waits.
    occupied: LevelSet,
}

impl Buckets {
    /// Buckets for the gates of a circuit, in which nothing waits.
    pub fn of(alloc: Global, circuit: &Circuit, levels: &Levels) -> Result<Buckets, Memory>
        requires { AreLevels circuit.now levels.now }
        ensures heads { IfOk result (λ b. length b.head.items ≡ circuit.now.max_var + 1) }
        ensures buckets { IfOk result (AreBuckets levels.now) }
        ensures sides { IfOk result (λ b. HaveSides circuit.now b.marks.sides) }
        ensures empty { IfOk result (λ b. (v : ℕ) → IsQueued b v → ⊥) }
    {
        circuit.facts();
        let size = circuit.max_var() as usize + 1;
        let head = vec![in alloc; 0; size]?;
        let marks = Waiting::of(alloc, circuit, levels)?;
        let occupied = LevelSet::new(alloc, size)?;
        Ok(Buckets {
            head,
            marks,
            occupied,
        })
    }

    /// Makes room for one more variable, and for one more level; nothing else changes.
    pub fn make_room(&mut self) -> Result<(), Memory>
        requires few { length self.old.head.items ≤ limit }
        requires buckets { (levels : List ℕ) × AreBuckets levels self.old }
        ensures heads { length self.new.head.items ≡ length self.old.head.items }
        ensures marks { self.new.marks.items ≡ self.old.marks.items }
        ensures sides { self.new.marks.sides ≡ self.old.marks.sides }
        ensures buckets { (levels : List ℕ) → AreBuckets levels self.old → AreBuckets levels self.new }
        ensures room { OnOk result (FitsOneVariable self.new) }
    {
        self.head.reserve(1)?;
        self.marks.make_room()?;
        self.occupied.make_room(self.head.len())
    }

    /// The variable of one more gate, which has this level, and one more level, where nothing waits and there is room.
    pub fn add_variable(&mut self, level: u32, gate: &Gate)
        requires room { FitsOneVariable self.old }
        requires empty { (v : ℕ) → IsQueued self.old v → ⊥ }
        ensures heads { length self.new.head.items ≡ length self.old.head.items + 1 }
        ensures buckets { (levels : List ℕ) → AreBuckets levels self.old → AreBuckets (levels ++ level ∷ []) self.new }
        ensures sides { self.new.marks.sides ≡ self.old.marks.sides ++ sides_of gate.now ∷ [] }
        ensures empty { (v : ℕ) → IsQueued self.new v → ⊥ }
    {
        self.head.push_reserved(0);
        self.marks.push(level, gate.rhs0, gate.rhs1);
    }

    /// Replaces the right sides of a variable's gate.
    pub fn set_sides(&mut self, variable: u32, rhs0: Lit, rhs1: Lit)
        requires { variable < length self.old.marks.next }
        ensures { self.new ≡ record self.old {
          marks = record self.old.marks {
            sides = slice_set self.old.marks.sides variable (record { rhs0 = rhs0; rhs1 = rhs1 });
          };
        } }
    {
        self.marks.set_sides(variable, rhs0, rhs1);
    }

    // Takes the first variable out of a level's chain, where this one is the second; 0 stands for none.
    fn drop_first(&mut self, level: usize, second: u32)
        requires level { level < length self.old.head.items }
        requires some { slice_index self.old.head.items level ≢ 0 }
        requires room { length self.old.head.items ≤ 64 * length self.old.occupied }
        requires occupied { IsOccupied self.old.head.items self.old.occupied }
        ensures head { self.new.head.items ≡ slice_set self.old.head.items level second }
        ensures marks { self.new.marks ≡ self.old.marks }
        ensures room { length self.new.head.items ≤ 64 * length self.new.occupied }
        ensures occupied { IsOccupied self.new.head.items self.new.occupied }
    {
        self.head[level] = second;
        if second == 0 {
            self.occupied.remove(level);
        }
    }

    /// The lowest level from this one on of which a variable waits, if there is one.
    pub fn lowest(&self, from: usize) -> Option<usize>
        ensures inside { IfSome result (λ l. l < length self.now.head.items) }
        ensures least { (levels : List ℕ) → AreBuckets levels self.now → IsLowest levels self.now from result }
    {
        let level = self.occupied.first_from(from)?;
        if level < self.head.len() {
            Some(level)
        } else {
            None
        }
    }

    /// Lets these variables wait.
    pub fn link_all(&mut self, variables: &[u32])
        requires { (levels : List ℕ) × AreBuckets levels self.old
            × ((v : ℕ) → Contains variables.now v → CanBeQueued levels (length self.old.head.items) v) }
        ensures buckets { (levels : List ℕ) → AreBuckets levels self.old → AreBuckets levels self.new }
        ensures links { Links (Contains variables.now) self.old self.new }
    {
        self.marks
            .link_all(&mut self.head, &mut self.occupied, variables);
    }

    /// The first variable of a level's chain; 0 stands for none.
    pub fn first(&self, level: u32) -> u32
        requires { level < length self.now.head.items }
        ensures { (levels : List ℕ) → AreBuckets levels self.now
            → IsFirst levels self.now.head.items self.now.marks.items level result }
    {
        self.head[level as usize]
    }

    /// Takes the gate of a variable, which is the first of its level's chain.
    pub fn take(&mut self, level: u32, first: u32) -> Taken
        requires level { level < length self.old.head.items }
        requires buckets { (levels : List ℕ) × AreBuckets levels self.old }
        requires first { slice_index self.old.head.items level ≡ first }
        requires some { first ≢ 0 }
        ensures takes { (levels : List ℕ) → AreBuckets levels self.old
            → TakesVariable levels level self.old self.new first }
        ensures lhs { result.gate.lhs ≡ 2 * first }
        ensures sides { slice_get self.old.marks.sides first ≡ Some (sides_of result.gate) }
        ensures next { slice_index self.new.head.items level ≡ result.next }
    {
        let slot = self.marks.leave(first);
        self.drop_first(level as usize, slot.next);
        Taken {
            gate: Gate {
                lhs: Lit::new(2 * first),
                rhs0: slot.rhs0,
                rhs1: slot.rhs1,
            },
            next: slot.next,
        }
    }
}

impl LevelCopy for Buckets {
    ghost use Rattle.aig_bench.specs.state.Buckets.{without_levels};

    ghost has = { λ b levels. (b.marks.levels ≡ levels) × (length b.marks.next ≡ length levels) };

    ghost Rest = { buckets.Buckets };

    ghost rest = { without_levels };

    fn set_level(&mut self, variable: u32, level: u32) {
        self.marks.set_level(variable, level);
    }
}
