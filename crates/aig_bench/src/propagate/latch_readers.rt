//! The latches that read a variable. A latch's number here is one more than its position.
ghost use Rattle.std.specs.Prelude.{◌≡◌, ℕ, ◌<◌, ◌≤◌, [], ◌∷◌, ◌++◌, length, IfOk, OnOk};
ghost use Rattle.std.specs.Vec.{vec_capacity};
ghost use Rattle.aig_parts.specs.declared.raw.Raw.{Raw};
ghost use Rattle.aig_bench.specs.state.Latches.{AreLatchReaders, TakesNextFrom, IsLatchList, Lists};

use crate::propagate::latch_list::LatchList;
use crate::propagate::level_set::NumberSet;
use aig_base::{Circuit, Memory};
use std::alloc::Global;

/// For each variable the latches that read it, as a chain.
#[derive(Drop, Debug)]
pub struct LatchReaders {
    // For each variable the last latch that reads it; 0 stands for none.
    last: Vec<u32>,
    // For each latch the one before it that reads the same variable; 0 stands for none.
    before: Vec<u32>,
    // The variables that a latch reads: few mostly, and in little memory.
    read: NumberSet,
}

impl LatchReaders {
    /// The latches that read each variable of a circuit.
    pub fn of(alloc: Global, circuit: &Circuit) -> Result<LatchReaders, Memory>
        ensures { IfOk result (AreLatchReaders circuit.now) }
    {
        let mut last = vec![in alloc; 0; circuit.max_var() as usize + 1]?;
        let mut before = Vec::new(alloc);
        before.push(0)?;
        let mut read = NumberSet::new(alloc, circuit.max_var() as usize + 1)?;
        for (position, latch) in circuit.latches().iter().enumerate() {
            let variable = latch.next.var() as usize;
            before.push(last[variable])?;
            last[variable] = position as u32 + 1;
            read.insert(variable);
        }
        Ok(LatchReaders { last, before, read })
    }

    /// Makes room for one more variable; nothing else changes.
    pub fn make_room(&mut self) -> Result<(), Memory>
        ensures readers { (raw : Raw) → AreLatchReaders raw self.old → AreLatchReaders raw self.new }
        ensures room { OnOk result (length self.new.last.items < vec_capacity self.new.last) }
    {
        self.last.reserve(1)?;
        Ok(())
    }

    /// One more variable, which no latch reads, where there is room.
    pub fn add_variable(&mut self)
        requires { length self.old.last.items < vec_capacity self.old.last }
        ensures last { self.new.last.items ≡ self.old.last.items ++ 0 ∷ [] }
        ensures before { self.new.before.items ≡ self.old.before.items }
        ensures read { self.new.read.words.items ≡ self.old.read.words.items }
    {
        self.last.push_reserved(0);
    }

    /// Adds the latches that read a variable to a list.
    pub fn list_all(&self, variable: u32, list: &mut LatchList)
        requires { (raw : Raw) × AreLatchReaders raw self.now × (variable ≤ raw.max_var)
            × IsLatchList (length raw.latches) list.old }
        ensures list { (n : ℕ) → IsLatchList n list.old → IsLatchList n list.new }
        ensures lists { (raw : Raw) → AreLatchReaders raw self.now → variable ≤ raw.max_var
            → Lists (λ i. TakesNextFrom raw i variable) list.old list.new }
    {
        if !self.read.contains(variable as usize) {
            return;
        }
        let mut latch = self.last[variable as usize];
        while latch != 0 {
            list.add(latch);
            latch = self.before[latch as usize];
        }
    }
}
