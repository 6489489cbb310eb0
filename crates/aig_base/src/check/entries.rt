//! The table of definitions.
ghost use Rattle.std.specs.Prelude.{◌≡◌, ◌∷◌, ◌++◌, ◌+◌, ◌<◌, ◌≤◌, List, [], ℕ, length, map, IfOk};
ghost use Rattle.aig_base.specs.state.Entries.{AreEntries};
ghost use Rattle.aig_parts.specs.Formed.{limit};
ghost use Rattle.aig_base.specs.state.LeastFaulty.{gate_variable, latch_variable};
ghost use Rattle.aig_parts.specs.Literal.{variable};
ghost use Rattle.aig_base.specs.state.Ranged.{IsRanged};
ghost use Rattle.aig_base.specs.Sections.{definitions};

use crate::check::least_faulty::lesser;
use crate::circuit::definitions::{first_gate, first_latch};
use aig_parts::Raw;
use std::alloc::{AllocError, Global};

/// For each variable the number of its definition, or 0, and the least variable that is defined again.
#[derive(Drop)]
pub(crate) struct Entries {
    pub(crate) table: Vec<u32>,
    pub(crate) again: Option<u32>,
}

impl Entries {
    fn empty(alloc: Global, max_var: u32) -> Result<Entries, AllocError>
        requires { max_var ≤ limit }
        ensures { IfOk result (λ e. AreEntries max_var [] e.table.items e.again) }
    {
        Ok(Entries {
            table: vec![in alloc; 0; max_var as usize + 1]?,
            again: None,
        })
    }

    fn enter(&mut self, variable: u32, number: u32)
        requires { variable < length self.old.table.items }
        ensures { (max_var : ℕ) (done : List ℕ) → AreEntries max_var done self.old.table.items self.old.again
            → number ≡ 1 + length done
            → AreEntries max_var (done ++ variable ∷ []) self.new.table.items self.new.again }
    {
        if self.table[variable as usize] == 0 {
            self.table[variable as usize] = number;
        } else {
            self.again = lesser(self.again, Some(variable));
        }
    }

    fn enter_inputs(&mut self, raw: &Raw)
        requires parts { IsRanged raw.now }
        requires entries { AreEntries raw.now.max_var [] self.old.table.items self.old.again }
        ensures { AreEntries raw.now.max_var (map variable raw.now.inputs) self.new.table.items self.new.again }
    {
        for position in 0..raw.inputs.len() {
            self.enter(raw.inputs[position].var(), 1 + position as u32);
        }
    }

    fn enter_latches(&mut self, raw: &Raw)
        requires parts { IsRanged raw.now }
        requires entries { AreEntries raw.now.max_var (map variable raw.now.inputs)
            self.old.table.items self.old.again }
        ensures { AreEntries raw.now.max_var (map variable raw.now.inputs ++ map latch_variable raw.now.latches)
            self.new.table.items self.new.again }
    {
        let first = first_latch(raw);
        for position in 0..raw.latches.len() {
            self.enter(raw.latches[position].lit.var(), first + position as u32);
        }
    }

    fn enter_gates(&mut self, raw: &Raw)
        requires parts { IsRanged raw.now }
        requires entries { AreEntries raw.now.max_var
            (map variable raw.now.inputs ++ map latch_variable raw.now.latches) self.old.table.items self.old.again }
        ensures { AreEntries raw.now.max_var
            (map variable raw.now.inputs ++ map latch_variable raw.now.latches ++ map gate_variable raw.now.gates)
            self.new.table.items self.new.again }
    {
        let first = first_gate(raw);
        for position in 0..raw.gates.len() {
            self.enter(raw.gates[position].lhs.var(), first + position as u32);
        }
    }

    /// The table of these parts' definitions, which are in range.
    pub(crate) fn of(alloc: Global, raw: &Raw) -> Result<Entries, AllocError>
        requires { IsRanged raw.now }
        ensures { IfOk result
            (λ e. AreEntries raw.now.max_var (map variable (definitions raw.now)) e.table.items e.again) }
    {
        let mut entries = Entries::empty(alloc, raw.max_var)?;
        entries.enter_inputs(raw);
        entries.enter_latches(raw);
        entries.enter_gates(raw);
        Ok(entries)
    }
}
