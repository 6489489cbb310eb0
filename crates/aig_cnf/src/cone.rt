//! The gates that some literals depend on.
ghost use Rattle.std.specs.Prelude.{◌≡◌, ℕ, ◌+◌, ◌<◌, ◌≤◌, List, [], ◌∷◌, length, true, slice_set, All, IfOk, OnOk};
ghost use Rattle.aig_parts.specs.Literal.{variable};
ghost use Rattle.aig_parts.specs.declared.gate.Gate.{Gate};
ghost use Rattle.aig_cnf.specs.Formula.{cone, reads};
ghost use Rattle.aig_cnf.specs.state.Cones.{AreMarks, IsCone, IsGateBelow};

use aig_base::{Circuit, Gate, Lit, Memory};
use std::alloc::Global;

// Marks the variable of a literal.
fn mark(marks: &mut [bool], literal: Lit)
    requires { variable literal < length marks.old }
    ensures { marks.new ≡ slice_set marks.old (variable literal) true }
{
    marks[literal.var() as usize] = true;
}

// Marks for the variables up to the greatest one: those of the literals are true.
fn marks_of(alloc: Global, max_var: u32, literals: &[Lit]) -> Result<Vec<bool>, Memory>
    requires { All (λ l. variable l ≤ max_var) literals.now }
    ensures { IfOk result (λ marks. AreMarks (max_var + 1) (reads literals.now []) marks.items) }
{
    let mut marks = vec![in alloc; false; max_var as usize + 1]?;
    for literal in literals {
        mark(&mut marks, *literal);
    }
    Ok(marks)
}

// Adds a gate to the cone if its variable has a mark, and marks what the gate reads.
fn add_read(marks: &mut [bool], found: &mut Vec<Gate>, gate: Gate) -> Result<(), Memory>
    requires { IsGateBelow (length marks.old) gate }
    ensures { OnOk result ((n : ℕ) (literals : List ℕ) (gates : List Gate) →
        IsCone n literals gates marks.old found.old.items
        → IsCone n literals (gate ∷ gates) marks.new found.new.items) }
{
    if marks[gate.lhs.var() as usize] {
        mark(marks, gate.rhs0);
        mark(marks, gate.rhs1);
        found.push(gate)?;
    }
    Ok(())
}

/// The gates of a circuit in the cone of some of its literals. It goes over the gates once, from the last one on.
pub(crate) fn cone_of(
    alloc: Global,
    circuit: &Circuit,
    literals: &[Lit],
) -> Result<Vec<Gate>, Memory>
    requires { All (λ l. variable l ≤ circuit.now.max_var) literals.now }
    ensures { IfOk result (λ gates. gates.items ≡ cone literals.now circuit.now.gates) }
{
    circuit.facts();
    let mut marks = marks_of(alloc, circuit.max_var(), literals)?;
    let mut found = Vec::new(alloc);
    for gate in circuit.gates().iter().rev() {
        add_read(&mut marks, &mut found, *gate)?;
    }
    found.reverse();
    Ok(found)
}
