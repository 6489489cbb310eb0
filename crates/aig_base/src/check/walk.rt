//! Walks over the variables of a circuit.
ghost use Rattle.std.specs.Prelude.{◌≡◌, ◌+◌, ◌<◌, [], false, length, replicate, IfOk, OnOk};
ghost use Rattle.aig_base.specs.state.Walk.{Meets};

use aig_bytes::Memory;
use std::alloc::Global;

/// A walk over variables that meets each one once.
#[derive(Drop)]
pub(crate) struct Walk {
    /// Whether each variable was met.
    pub(crate) met: Vec<bool>,
    /// Variables that were met and are not done yet.
    pub(crate) pending: Vec<u32>,
}

impl Walk {
    /// A walk that met no variable yet.
    pub(crate) fn new(alloc: Global, max_var: u32) -> Result<Walk, Memory>
        ensures met { IfOk result (λ w. w.met.items ≡ replicate (max_var + 1) false) }
        ensures pending { IfOk result (λ w. w.pending.items ≡ []) }
    {
        Ok(Walk {
            met: vec![in alloc; false; max_var as usize + 1]?,
            pending: Vec::new(alloc),
        })
    }

    /// Adds a variable to the pending ones if it was not met before.
    pub(crate) fn meet(&mut self, variable: u32) -> Result<(), Memory>
        requires { variable < length self.old.met.items }
        ensures { OnOk result
            (Meets variable self.old.met.items self.new.met.items self.old.pending.items self.new.pending.items) }
    {
        if !self.met[variable as usize] {
            self.pending.push(variable)?;
            self.met[variable as usize] = true;
        }
        Ok(())
    }
}
