//! Gates whose levels are to be renewed: each is queued once, and the one of the least level comes first.
ghost use Rattle.std.specs.Prelude.{◌≡◌, ◌+◌, ◌<◌, ◌∷◌, [], length, All, IfOk, OnOk};
ghost use Rattle.aig_base.specs.state.Rewires.{Queues};
ghost use Rattle.aig_base.specs.state.Worklists.{CanWait, FitsOneVariable, HasRoom, IsIdle};

use crate::level::queue::Queue;
use crate::level::visits::Visits;
use aig_bytes::Memory;
use std::alloc::Global;

/// The variables that were visited, and those of them that are still queued.
#[derive(Drop)]
pub(crate) struct Worklist {
    pub(crate) visits: Visits,
    pub(crate) queue: Queue,
}

impl Worklist {
    /// An idle worklist with room for so many variables.
    pub(crate) fn new(alloc: Global, size: usize) -> Result<Worklist, Memory>
        ensures { IfOk result (IsIdle size) }
    {
        Ok(Worklist {
            visits: Visits::new(alloc, size)?,
            queue: Queue::new(alloc, size)?,
        })
    }

    // Queues a variable with its level, unless it was visited.
    fn push(&mut self, levels: &[u32], variable: u32)
        requires waits { CanWait levels.now variable }
        requires room { HasRoom (length levels.now) self.old }
        ensures { Queues (variable ∷ []) levels.now self.old.visits self.new.visits self.old.queue self.new.queue }
    {
        if !self.visits.met[variable as usize] {
            self.visits.visit(variable);
            self.queue.push(levels[variable as usize], variable);
        }
    }

    /// Queues the variables of a list with their levels, those that were not visited.
    pub(crate) fn push_all(&mut self, levels: &[u32], list: &[u32])
        requires wait { All (CanWait levels.now) list.now }
        requires room { HasRoom (length levels.now) self.old }
        ensures { Queues list.now levels.now self.old.visits self.new.visits self.old.queue self.new.queue }
    {
        for reader in list {
            self.push(levels, *reader);
        }
    }

    /// Makes room for one more variable.
    pub(crate) fn make_room(&mut self) -> Result<(), Memory>
        requires { IsIdle (length self.old.visits.met.items) self.old }
        ensures idle { IsIdle (length self.old.visits.met.items) self.new }
        ensures fits { OnOk result (FitsOneVariable (length self.old.visits.met.items) self.new) }
    {
        let size = self.visits.met.len();
        self.visits.make_room()?;
        self.queue.make_room(size + 1)
    }

    /// One more variable, where there is room.
    pub(crate) fn add_variable(&mut self)
        requires idle { IsIdle (length self.old.visits.met.items) self.old }
        requires fits { FitsOneVariable (length self.old.visits.met.items) self.old }
        ensures { IsIdle (length self.old.visits.met.items + 1) self.new }
    {
        self.visits.add_variable();
    }
}
