//! Gates that wait for their turn, the one of the least level first.
ghost use Rattle.std.specs.Prelude.{◌≡◌, ℕ, ◌<◌, ◌≤◌, ◌∷◌, [], length, All, IfOk, IfSome, IfNone, OnOk, IsPermutation};
ghost use Rattle.std.specs.Prelude.{slice_index, ◌⊎◌};
ghost use Rattle.aig_base.specs.state.Queue.{IsEmptyQueue, IsEmptyBelow, IsFirstLevel, IsQueued, entry};

use aig_bytes::Memory;
use std::alloc::Global;
use std::marker::Model;

/// Variables that wait, in a chain for each level: nothing is compared, and an entry takes no more than its place in
/// two tables.
#[derive(Drop)]
pub(crate) struct Queue {
    // The first variable of each level's chain; 0: none.
    head: Vec<u32>,
    // The next variable of each in its chain; 0: none.
    next: Vec<u32>,
    // No level below this one has a chain.
    first: usize,
    // How many variables wait.
    waiting: usize,
}

impl Model for Queue {
    ghost use Rattle.std.specs.Prelude.{length};
    ghost use Rattle.aig_base.specs.state.Queue.{Queued, AreLevelChains, chained_entries};

    ghost Value = { Queued };

    ghost view = { λ a. record { entries = chained_entries a.head.items a.next.items; capacity = length a.next.items } };

    ghost invariant = { λ a. AreLevelChains a.head.items a.next.items a.first a.waiting };
}

// The first level from this one on that has a chain, if there is one.
fn first_level(head: &[u32], from: usize) -> Option<usize>
    requires { IsEmptyBelow head.now from }
    ensures { IsFirstLevel head.now result }
{
    for level in from..head.len() {
        if head[level] != 0 {
            return Some(level);
        }
    }
    None
}

// Where the search for the first level can begin once a variable waits at this one.
fn first_after(first: usize, waiting: usize, level: usize) -> usize
    ensures least { result ≤ level }
    ensures before { (result ≤ first) ⊎ (waiting ≡ 0) }
{
    if waiting == 0 || level < first {
        return level;
    }
    first
}

// Adds zeros to a list until it has so many numbers.
fn lengthen(list: &mut Vec<u32>, size: usize) -> Result<(), Memory>
    ensures same { (l : ℕ) → slice_index list.new.items l ≡ slice_index list.old.items l }
    ensures longer { length list.old.items ≤ length list.new.items }
    ensures few { (length list.new.items ≡ length list.old.items) ⊎ (length list.new.items ≤ size) }
    ensures ok { OnOk result (size ≤ length list.new.items) }
{
    for _ in list.len()..size {
        list.push(0)?;
    }
    Ok(())
}

impl Queue {
    /// An empty queue with room for so many variables, and as many levels.
    pub(crate) fn new(alloc: Global, capacity: usize) -> Result<Queue, Memory>
        ensures { IfOk result (IsEmptyQueue capacity) }
    {
        Ok(Queue {
            head: vec![in alloc; 0; capacity]?,
            next: vec![in alloc; 0; capacity]?,
            first: 0,
            waiting: 0,
        })
    }

    /// Adds a variable with its level, where there is room and it does not wait.
    pub(crate) fn push(&mut self, level: u32, variable: u32)
        requires room { length self.old.entries < self.old.capacity }
        requires level { level < self.old.capacity }
        requires positive { 0 < variable }
        requires within { variable < self.old.capacity }
        requires alone { IsQueued self.old variable → ⊥ }
        ensures entries { IsPermutation (entry level variable ∷ self.old.entries) self.new.entries }
        ensures capacity { self.old.capacity ≤ self.new.capacity }
    {
        let place = level as usize;
        self.first = first_after(self.first, self.waiting, place);
        self.next[variable as usize] = self.head[place];
        self.head[place] = variable;
        self.waiting += 1;
    }

    /// Takes a variable of the least level.
    pub(crate) fn pop(&mut self) -> Option<u32>
        ensures some { IfSome result (λ v. (rank : ℕ)
            × IsPermutation self.old.entries ((rank, v) ∷ self.new.entries)
            × All (λ e. e.0 ≤ rank) self.new.entries) }
        ensures none { IfNone result (self.old.entries ≡ []) }
        ensures left { IfNone result (self.new.entries ≡ []) }
        ensures capacity { self.new.capacity ≡ self.old.capacity }
    {
        if self.waiting == 0 {
            return None;
        }
        let level = first_level(&self.head, self.first)?;
        let variable = self.head[level];
        self.head[level] = self.next[variable as usize];
        self.first = level;
        self.waiting -= 1;
        Some(variable)
    }

    /// Sees that there is room for so many in all, those that wait included.
    pub(crate) fn make_room(&mut self, additional: usize) -> Result<(), Memory>
        ensures entries { self.new.entries ≡ self.old.entries }
        ensures capacity { self.old.capacity ≤ self.new.capacity }
        ensures ok { OnOk result (additional ≤ self.new.capacity) }
    {
        lengthen(&mut self.head, additional)?;
        lengthen(&mut self.next, additional)
    }
}
