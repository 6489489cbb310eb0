//! Which variables are grounded: their transitive fan-in ends at inputs, latches and the constant. And their levels.
ghost use Rattle.std.specs.Prelude.{◌≡◌, ◌↔◌, IsTrue, ◌+◌, ◌/◌, ◌∷◌, ◌++◌, ◌<◌, ◌≤◌, List, [], ℕ, suc, Some, length};
ghost use Rattle.std.specs.Prelude.{map, All, slice_get, IfOk, OnOk};
ghost use Rattle.aig_parts.specs.Formed.{limit};
ghost use Rattle.aig_base.specs.Levels.{AreLevels};
ghost use Rattle.aig_base.specs.Sound.{IsSound};
ghost use Rattle.aig_base.specs.state.LeastFaulty.{latch_variable};
ghost use Rattle.aig_base.specs.state.KeyChains.{AreKeyChains};
ghost use Rattle.aig_parts.specs.Literal.{variable};
ghost use Rattle.aig_base.specs.state.Marks.{sides, AreGroundedMarks, IsGateBelow};
ghost use Rattle.aig_base.specs.state.Marks.{AreStarted, AddsMark, AddsMarks, IsMarked};
ghost use Rattle.aig_base.specs.state.Marks.{IsMarking};
ghost use Rattle.aig_base.specs.state.Ranged.{IsRanged};
ghost use Rattle.aig_parts.specs.declared.raw.Raw.{Raw};

use crate::check::walk::Walk;
use crate::readers::key_chains::KeyChains;
use aig_bytes::Memory;
use aig_parts::{Gate, Latch, Lit, Raw};
use std::alloc::Global;

/// A walk that meets the variables which are known to be grounded; pending are those whose readers are still to be
/// visited.
#[derive(Drop)]
struct Marking {
    walk: Walk,
}

impl Marking {
    fn empty(alloc: Global, max_var: u32) -> Result<Marking, Memory>
        requires { max_var ≤ limit }
        ensures started { IfOk result (λ m. AreStarted [] m.walk.met.items m.walk.pending.items) }
        ensures below { IfOk result (λ m. All (λ v. v < length m.walk.met.items) m.walk.pending.items) }
        ensures size { IfOk result (λ m. length m.walk.met.items ≡ max_var + 1) }
    {
        let walk = Walk::new(alloc, max_var)?;
        Ok(Marking { walk })
    }

    fn is_marked(&self, variable: u32) -> bool
        requires { variable < length self.now.walk.met.items }
        ensures { IsTrue result ↔ IsMarked self.now.walk.met.items variable }
    {
        self.walk.met[variable as usize]
    }

    // Marks a variable, and queues it unless it was marked.
    fn mark(&mut self, variable: u32) -> Result<(), Memory>
        requires { variable < length self.old.walk.met.items }
        ensures { OnOk result (AddsMark variable self.old.walk.met.items self.old.walk.pending.items
            self.new.walk.met.items self.new.walk.pending.items) }
    {
        self.walk.meet(variable)
    }

    // Marks variable 0, the inputs and the latches.
    fn of_sources(
        alloc: Global,
        max_var: u32,
        inputs: &[Lit],
        latches: &[Latch],
    ) -> Result<Marking, Memory>
        requires max_var { max_var ≤ limit }
        requires inputs { All (λ l. variable l < max_var + 1) inputs.now }
        requires latches { All (λ x. variable x.lit < max_var + 1) latches.now }
        ensures started { IfOk result
            (λ m. AreStarted (0 ∷ map variable inputs.now ++ map latch_variable latches.now)
            m.walk.met.items m.walk.pending.items) }
        ensures below { IfOk result (λ m. All (λ v. v < length m.walk.met.items) m.walk.pending.items) }
        ensures size { IfOk result (λ m. length m.walk.met.items ≡ max_var + 1) }
    {
        let mut marking = Marking::empty(alloc, max_var)?;
        marking.mark(0)?;
        for input in inputs {
            marking.mark(input.var())?;
        }
        for latch in latches {
            marking.mark(latch.lit.var())?;
        }
        Ok(marking)
    }

    // Marks the left side of a gate, with its level, if both right sides are marked. `IsMarking` goes on from a
    // position of this gate to the link that follows. No level wraps.
    fn visit(&mut self, levels: &mut [u32], gate: Gate) -> Result<(), Memory>
        requires gate { IsGateBelow (length self.old.walk.met.items) gate }
        requires levels { length levels.old ≡ length self.old.walk.met.items }
        ensures moves { OnOk result (AddsMarks self.old.walk.met.items self.old.walk.pending.items
            self.new.walk.met.items self.new.walk.pending.items) }
        ensures marking { OnOk result ((raw : Raw) (next : List ℕ) (p link : ℕ)
            → slice_get raw.gates (p / 2) ≡ Some gate → slice_get next p ≡ Some link
            → IsMarking raw next (suc p) self.old.walk.met.items self.old.walk.pending.items levels.old
            → IsMarking raw next link self.new.walk.met.items self.new.walk.pending.items levels.new) }
    {
        if self.is_marked(gate.rhs0.var()) && self.is_marked(gate.rhs1.var()) {
            let first = levels[gate.rhs0.var() as usize];
            let second = levels[gate.rhs1.var() as usize];
            levels[gate.lhs.var() as usize] = first.max(second).wrapping_add(1);
            self.mark(gate.lhs.var())?;
        }
        Ok(())
    }

    // Visits the readers of each variable that waits, until none does.
    fn close(
        &mut self,
        readers: &KeyChains,
        gates: &[Gate],
        levels: &mut [u32],
    ) -> Result<(), Memory>
        requires readers { AreKeyChains (sides gates.now) readers.now.first.items readers.now.next.items }
        requires size { length readers.now.first.items ≡ length self.old.walk.met.items }
        requires gates { All (IsGateBelow (length self.old.walk.met.items)) gates.now }
        requires levels { length levels.old ≡ length self.old.walk.met.items }
        requires below { All (λ v. v < length self.old.walk.met.items) self.old.walk.pending.items }
        ensures size { OnOk result (length self.new.walk.met.items ≡ length self.old.walk.met.items) }
        ensures done { OnOk result (self.new.walk.pending.items ≡ []) }
        ensures marking { OnOk result ((raw : Raw) → raw.gates ≡ gates.now
            → IsMarking raw readers.now.next.items 0 self.old.walk.met.items self.old.walk.pending.items levels.old
            → IsMarking raw readers.now.next.items 0 self.new.walk.met.items self.new.walk.pending.items levels.new) }
        ensures kept { OnOk result ((v : ℕ) → IsMarked self.old.walk.met.items v → IsMarked self.new.walk.met.items v) }
    {
        while let Some(variable) = self.walk.pending.pop() {
            let mut link = readers.first(variable);
            while link != 0 {
                let position = link as usize - 1;
                self.visit(levels, gates[position / 2])?;
                link = readers.next(position);
            }
        }
        Ok(())
    }
}

/// A mark for each variable, and the levels of those that are marked.
#[derive(Drop)]
pub(crate) struct GroundedLevels {
    pub(crate) marks: Vec<bool>,
    pub(crate) levels: Vec<u32>,
}

/// For each variable of sound parts whether it rests on variable 0, the inputs and the latches alone, and then its
/// level. Linear in the parts and M.
pub(crate) fn grounded_levels(alloc: Global, raw: &Raw) -> Result<GroundedLevels, Memory>
    requires parts { IsRanged raw.now }
    requires sound { IsSound raw.now }
    ensures marks { IfOk result (λ found. AreGroundedMarks raw.now found.marks.items) }
    ensures levels { IfOk result (λ found. AreLevels raw.now found.levels.items) }
{
    let max_var = raw.max_var;
    let gates = raw.gates.as_slice();
    let readers = KeyChains::of_sides(alloc, max_var, gates)?;
    let mut levels = vec![in alloc; 0; max_var as usize + 1]?;
    let mut marking = Marking::of_sources(
        alloc,
        max_var,
        raw.inputs.as_slice(),
        raw.latches.as_slice(),
    )?;
    marking.close(&readers, gates, &mut levels)?;
    Ok(GroundedLevels {
        marks: marking.walk.met,
        levels,
    })
}
