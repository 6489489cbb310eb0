//! The least variable of a section that fails a test.
ghost use Rattle.std.specs.Prelude.{◌≡◌, ◌+◌, ◌∷◌, ◌<◌, ◌↔◌, [], length, map, All, IsTrue, slice_get};
ghost use Rattle.std.specs.List.{flat_map};
ghost use Rattle.aig_base.specs.state.LeastFaulty.{lesser, IsLeastAmong, IsKnownLiteral};
ghost use Rattle.aig_base.specs.state.LeastFaulty.{IsMarkedGate, gate_variable, latch_variable};
ghost use Rattle.aig_parts.specs.Literal.{variable};
ghost use Rattle.aig_base.specs.state.Ranged.{AreInRange};
ghost use Rattle.aig_base.specs.Sections.{uses};
ghost use Rattle.aig_base.specs.Sound.{IsReset};

use aig_parts::{Gate, Latch, List, Lit, Raw};

/// The lesser number, where there is one.
pub(crate) fn lesser(a: Option<u32>, b: Option<u32>) -> Option<u32>
    ensures { result ≡ lesser a b }
{
    match (a, b) {
        (Some(v), Some(w)) => Some(v.min(w)),
        (Some(v), None) => Some(v),
        (None, other) => other,
    }
}

// The variable of a literal, if it is not 0 and not in the table.
fn unknown(table: &[u32], literal: Lit) -> Option<u32>
    requires { variable literal < length table.now }
    ensures { IsLeastAmong (IsKnownLiteral table.now) variable (literal ∷ []) result }
{
    let variable = literal.var();
    if variable == 0 {
        return None;
    }
    if table[variable as usize] == 0 {
        Some(variable)
    } else {
        None
    }
}

fn least_unknown(table: &[u32], literals: &[Lit]) -> Option<u32>
    requires { All (λ l. variable l < length table.now) literals.now }
    ensures { IsLeastAmong (IsKnownLiteral table.now) variable literals.now result }
{
    let mut least = None;
    for literal in literals {
        least = lesser(least, unknown(table, *literal));
    }
    least
}

fn least_unknown_next(table: &[u32], latches: &[Latch]) -> Option<u32>
    requires { All (λ x. variable x.next < length table.now) latches.now }
    ensures { IsLeastAmong (IsKnownLiteral table.now) variable (map (λ x. x.next) latches.now) result }
{
    let mut least = None;
    for latch in latches {
        least = lesser(least, unknown(table, latch.next));
    }
    least
}

fn least_unknown_in_lists(table: &[u32], lists: &[List<Lit>]) -> Option<u32>
    requires { All (λ p. All (λ l. variable l < length table.now) p) lists.now }
    ensures { IsLeastAmong (IsKnownLiteral table.now) variable (flat_map (λ p. p) lists.now) result }
{
    let mut least = None;
    for list in lists {
        least = lesser(least, least_unknown(table, list.as_slice()));
    }
    least
}

fn least_unknown_side(table: &[u32], gates: &[Gate]) -> Option<u32>
    requires { All (λ g. (variable g.rhs0 < length table.now) × (variable g.rhs1 < length table.now)) gates.now }
    ensures { IsLeastAmong (IsKnownLiteral table.now) variable (flat_map (λ g. g.rhs0 ∷ g.rhs1 ∷ []) gates.now) result }
{
    let mut least = None;
    for gate in gates {
        let side = lesser(unknown(table, gate.rhs0), unknown(table, gate.rhs1));
        least = lesser(least, side);
    }
    least
}

/// The least variable that something reads, that is not 0 and not in the table.
pub(crate) fn least_undefined(table: &[u32], raw: &Raw) -> Option<u32>
    requires range { AreInRange raw.now }
    requires size { length table.now ≡ raw.now.max_var + 1 }
    ensures { IsLeastAmong (IsKnownLiteral table.now) variable (uses raw.now) result }
{
    let mut least = least_unknown_next(table, raw.latches.as_slice());
    least = lesser(least, least_unknown(table, raw.outputs.as_slice()));
    least = lesser(least, least_unknown(table, raw.bad.as_slice()));
    least = lesser(least, least_unknown(table, raw.constraints.as_slice()));
    least = lesser(least, least_unknown_in_lists(table, raw.justice.as_slice()));
    least = lesser(least, least_unknown(table, raw.fairness.as_slice()));
    lesser(least, least_unknown_side(table, raw.gates.as_slice()))
}

fn is_reset(latch: Latch) -> bool
    ensures { IsTrue result ↔ IsReset latch }
{
    latch.reset.value() < 2 || latch.reset == latch.lit
}

/// The least latch variable whose reset is not 0, 1 or the latch's own literal.
pub(crate) fn least_bad_reset(latches: &[Latch]) -> Option<u32>
    ensures { IsLeastAmong IsReset latch_variable latches.now result }
{
    let mut least = None;
    for latch in latches {
        if !is_reset(*latch) {
            least = lesser(least, Some(latch.lit.var()));
        }
    }
    least
}

/// The least gate variable that is not marked.
pub(crate) fn least_unmarked(marks: &[bool], gates: &[Gate]) -> Option<u32>
    requires { All (λ g. variable g.lhs < length marks.now) gates.now }
    ensures { IsLeastAmong (IsMarkedGate marks.now) gate_variable gates.now result }
{
    let mut least = None;
    for gate in gates {
        let variable = gate.lhs.var();
        if !marks[variable as usize] {
            least = lesser(least, Some(variable));
        }
    }
    least
}
