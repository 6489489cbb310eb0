//! Variables that begin to wait. All is in slices here, so a loop reads no address of a table from memory again.
ghost use Rattle.std.specs.Prelude.{◌≡◌, ◌≢◌, ℕ, ◌*◌, ◌≤◌, ◌<◌, List, Contains, false, length};
ghost use Rattle.std.specs.Prelude.{slice_index_or, slice_set};
ghost use Rattle.aig_bench.specs.state.Buckets.{AreQueues, CanBeQueued, IsOccupied, LinksIn};
ghost use Rattle.aig_bench.specs.state.Waiting.{view_of};

use crate::propagate::level_set::LevelSet;
use crate::propagate::waiting::{EventSlot, IDLE};

// Puts a variable before the others of a level's chain, and returns which was the first; 0 stands for none.
fn push_first(head: &mut [u32], occupied: &mut LevelSet, level: usize, first: u32) -> u32
    requires level { level < length head.old }
    requires first { first ≢ 0 }
    requires room { length head.old ≤ 64 * length occupied.old }
    requires occupied { IsOccupied head.old occupied.old }
    ensures before { result ≡ slice_index_or head.old level result }
    ensures head { head.new ≡ slice_set head.old level first }
    ensures room { length head.new ≤ 64 * length occupied.new }
    ensures occupied { IsOccupied head.new occupied.new }
{
    let before = head[level];
    head[level] = first;
    if before == 0 {
        occupied.insert(level);
    }
    before
}

// Lets a variable wait, unless it waits already.
fn link(slots: &mut [EventSlot], head: &mut [u32], occupied: &mut LevelSet, variable: u32)
    requires { (levels : List ℕ) × AreQueues levels head.old (view_of slots.old false) occupied.old
        × CanBeQueued levels (length head.old) variable }
    ensures queues { (levels : List ℕ) → AreQueues levels head.old (view_of slots.old false) occupied.old
        → AreQueues levels head.new (view_of slots.new false) occupied.new }
    ensures links { LinksIn (λ u. u ≡ variable) head.old (view_of slots.old false) head.new (view_of slots.new false) }
{
    let slot = slots[variable as usize];
    if slot.next != IDLE {
        return;
    }
    let second = push_first(head, occupied, slot.level as usize, variable);
    slots[variable as usize].next = second;
}

/// Lets these variables wait.
pub fn link_all(
    slots: &mut [EventSlot],
    head: &mut [u32],
    occupied: &mut LevelSet,
    variables: &[u32],
)
    requires { (levels : List ℕ) × AreQueues levels head.old (view_of slots.old false) occupied.old
        × ((v : ℕ) → Contains variables.now v → CanBeQueued levels (length head.old) v) }
    ensures queues { (levels : List ℕ) → AreQueues levels head.old (view_of slots.old false) occupied.old
        → AreQueues levels head.new (view_of slots.new false) occupied.new }
    ensures links { LinksIn (Contains variables.now) head.old (view_of slots.old false) head.new
        (view_of slots.new false) }
{
    for variable in variables {
        link(slots, head, occupied, *variable);
    }
}
