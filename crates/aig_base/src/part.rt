//! What a property reads of a circuit, together with the constraints.
ghost use Rattle.std.specs.Prelude.{◌≡◌, ℕ, ◌+◌, [], ◌∷◌, not, count_by, length, IfOk, OnOk};
ghost use Rattle.aig_parts.specs.Literal.{variable};
ghost use Rattle.aig_base.specs.Part.{AreReadMarks};
ghost use Rattle.aig_base.specs.Sections.{IsDefined};
ghost use Rattle.aig_base.specs.state.ReadWalk.{IsMet, IsReading};

use crate::check::walk::Walk;
use crate::circuit::Circuit;
use crate::circuit::definition::Definition;
use aig_bytes::Memory;
use aig_parts::Lit;
use std::alloc::Global;

// Meets what a variable reads: the sides of its gate, or the next state of its latch.
fn meet_read(walk: &mut Walk, circuit: &Circuit, read: u32) -> Result<(), Memory>
    requires { length walk.old.met.items ≡ circuit.now.max_var + 1 }
    ensures size { OnOk result (length walk.new.met.items ≡ length walk.old.met.items) }
    ensures left { OnOk result (count_by not walk.new.met.items + length walk.new.pending.items
        ≡ count_by not walk.old.met.items + length walk.old.pending.items) }
    ensures kept { OnOk result ((v : ℕ) → IsMet walk.old.met.items v → IsMet walk.new.met.items v) }
    ensures reading { OnOk result ((bad : ℕ) →
        IsReading circuit.now bad walk.old.pending.items (read ∷ []) walk.old.met.items
        → IsReading circuit.now bad walk.new.pending.items [] walk.new.met.items) }
{
    circuit.facts();
    match circuit.definition(read) {
        Some(Definition::Gate(position)) => {
            let gate = circuit.gates()[position as usize];
            walk.meet(gate.rhs0.var())?;
            walk.meet(gate.rhs1.var())
        }
        Some(Definition::Latch(position)) => {
            let latch = circuit.latches()[position as usize];
            walk.meet(latch.next.var())
        }
        Some(Definition::Input(_)) => Ok(()),
        None => Ok(()),
    }
}

/// For each variable up to M whether it is read for the property with this literal: by the property, by a constraint,
/// by a gate that is read, or as the next state of a latch that is read. One walk, linear in M and in what is read.
pub fn read_marks(alloc: Global, circuit: &Circuit, bad: Lit) -> Result<Vec<bool>, Memory>
    requires { IsDefined circuit.now (variable bad) }
    ensures { IfOk result (λ marks. AreReadMarks circuit.now bad marks.items) }
{
    circuit.facts();
    let mut walk = Walk::new(alloc, circuit.max_var())?;
    walk.meet(bad.var())?;
    for constraint in circuit.constraints() {
        walk.meet(constraint.var())?;
    }
    while let Some(read) = walk.pending.pop() {
        meet_read(&mut walk, circuit, read)?;
    }
    Ok(walk.met)
}
