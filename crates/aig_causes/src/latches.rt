//! Latches, by their literals and by their positions.
ghost use Rattle.std.specs.Prelude.{◌≡◌, ℕ, ◌<◌, ◌≤◌, length, All, Contains, IfOk, IfNone, IfSome, Some, slice_get};
ghost use Rattle.aig_parts.specs.Literal.{variable};
ghost use Rattle.aig_parts.specs.declared.latch.Latch.{Latch};
ghost use Rattle.aig_base.specs.Sections.{IsDefined, IsLatchLiteral};
ghost use Rattle.aig_causes.specs.state.Asked.{AreLatchesOf};

use aig_base::{Circuit, Definition, Latch, Lit, Memory};
use std::alloc::Global;

// The latch that a literal is, if it is one of a latch.
fn latch_of(circuit: &Circuit, literal: Lit) -> Option<u32>
    ensures some { IfSome result (λ p.
        (x : Latch) × (slice_get circuit.now.latches p ≡ Some x) × (x.lit ≡ literal)) }
    ensures none { IfNone result (IsLatchLiteral circuit.now literal → ⊥) }
{
    // Its contract says that it is a circuit.
    circuit.facts();
    if literal.is_neg() {
        return None;
    }
    match circuit.definition(literal.var()) {
        Some(Definition::Latch(position)) => Some(position),
        Some(Definition::Input(_)) => None,
        Some(Definition::Gate(_)) => None,
        None => None,
    }
}

/// The latches that these literals are, if each is one of a latch.
pub fn latches_of(
    alloc: Global,
    circuit: &Circuit,
    literals: &[Lit],
) -> Result<Option<Vec<u32>>, Memory>
    ensures some { IfOk result (λ found. IfSome found (λ latches.
        AreLatchesOf circuit.now literals.now latches.items)) }
    ensures none { IfOk result (λ found. IfNone found (All (IsLatchLiteral circuit.now) literals.now → ⊥)) }
{
    let mut latches = Vec::new(alloc);
    for literal in literals {
        match latch_of(circuit, *literal) {
            Some(position) => latches.push(position)?,
            None => return Ok(None),
        }
    }
    Ok(Some(latches))
}

/// The latch at a position.
pub fn latch_at(circuit: &Circuit, position: u32) -> Latch
    requires { position < length circuit.now.latches }
    ensures { slice_get circuit.now.latches position ≡ Some result }
{
    circuit.latches()[position as usize]
}

/// The next states of latches.
pub fn next_literals(alloc: Global, circuit: &Circuit, latches: &[u32]) -> Result<Vec<Lit>, Memory>
    requires { All (λ p. p < length circuit.now.latches) latches.now }
    ensures nexts { IfOk result (λ nexts. (p : ℕ) (x : Latch) → Contains latches.now p →
        slice_get circuit.now.latches p ≡ Some x → Contains nexts.items x.next) }
    ensures range { IfOk result (λ nexts. All (λ l. variable l ≤ circuit.now.max_var) nexts.items) }
    ensures defined { IfOk result (λ nexts. All (λ l. IsDefined circuit.now (variable l)) nexts.items) }
{
    // Its contract says that it is a circuit.
    circuit.facts();
    let mut nexts = Vec::new(alloc);
    for position in latches {
        nexts.push(latch_at(circuit, *position).next)?;
    }
    Ok(nexts)
}
