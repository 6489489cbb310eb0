//! Visits of variables that take no memory and are taken back.
ghost use Rattle.std.specs.Prelude.{ℕ, ◌<◌, ◌≤◌, ◌∷◌, [], length, All, IfOk, OnOk, ◌≡◌, ◌+◌, not, count_by};
ghost use Rattle.std.specs.Vec.{vec_capacity};
ghost use Rattle.aig_base.specs.state.Descent.{IsMet};
ghost use Rattle.aig_base.specs.state.Visits.{AreNoVisits, AreVisits, FitsOneVisit, IsFrom, IsVisited, VisitsAmong};

use aig_bytes::Memory;
use std::alloc::Global;

/// The variables that were visited, with room for all of them.
#[derive(Drop)]
pub(crate) struct Visits {
    /// Whether each variable was visited.
    pub(crate) met: Vec<bool>,
    /// The visited variables in order.
    pub(crate) list: Vec<u32>,
}

// Takes back the marks of the variables of a list.
fn unmark(met: &mut [bool], list: &[u32])
    requires within { All (λ v. v < length met.old) list.now }
    requires listed { (v : ℕ) → IsMet met.old v → IsFrom list.now 0 v }
    ensures { (v : ℕ) → IsMet met.new v → ⊥ }
{
    for variable in list {
        met[*variable as usize] = false;
    }
}

impl Visits {
    /// No visits, with room for so many variables.
    pub(crate) fn new(alloc: Global, size: usize) -> Result<Visits, Memory>
        ensures { IfOk result (AreNoVisits size) }
    {
        Ok(Visits {
            met: vec![in alloc; false; size]?,
            list: Vec::with_capacity(alloc, size)?,
        })
    }

    /// Marks a variable and adds it to the list, unless it is marked.
    pub(crate) fn visit(&mut self, variable: u32)
        requires within { variable < length self.old.met.items }
        requires visits { AreVisits self.old }
        ensures among { VisitsAmong (variable ∷ []) self.old self.new }
        ensures visited { IsVisited self.new variable }
        ensures fewer { (IsVisited self.old variable → ⊥)
            → count_by not self.new.met.items + 1 ≡ count_by not self.old.met.items }
    {
        if !self.met[variable as usize] {
            self.list.push_reserved(variable);
            self.met[variable as usize] = true;
        }
    }

    /// Takes back all visits.
    pub(crate) fn clear(&mut self)
        requires visits { AreVisits self.old }
        requires room { length self.old.met.items ≤ vec_capacity self.old.list }
        ensures { AreNoVisits (length self.old.met.items) self.new }
    {
        unmark(&mut self.met, &self.list);
        self.list.clear();
    }

    /// Makes room for one more variable, where nothing is visited.
    pub(crate) fn make_room(&mut self) -> Result<(), Memory>
        requires { AreNoVisits (length self.old.met.items) self.old }
        ensures ok { OnOk result (FitsOneVisit self.new) }
        ensures unvisited { AreNoVisits (length self.old.met.items) self.new }
    {
        self.met.reserve(1)?;
        self.list.reserve(self.met.len() + 1)?;
        Ok(())
    }

    /// One more variable, where there is room.
    pub(crate) fn add_variable(&mut self)
        requires unvisited { AreNoVisits (length self.old.met.items) self.old }
        requires room { FitsOneVisit self.old }
        ensures { AreNoVisits (length self.old.met.items + 1) self.new }
    {
        self.met.push_reserved(false);
    }
}
