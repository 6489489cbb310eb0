//! The clauses of a formula, given to the checker of proofs. If memory runs out, some were not given; each assignment
//! that satisfies the formula satisfies what the checker has then, too.
ghost use Rattle.std.specs.Prelude.{◌≡◌, [], ◌∷◌, IfOk, IsTrue, OnOk, true};
ghost use Rattle.std.specs.List.{flat_map};
ghost use Rattle.aig_cnf.specs.Formula.{all_but_last, first_reached, gate_clauses, goal_clauses, implies};
ghost use Rattle.aig_cnf.specs.Numbered.{NumbersFormula};
ghost use Rattle.aig_cnf.specs.state.Added.{Adds, Numbers};
ghost use Rattle.aig_sat.specs.checker.Consequence.{Follows};

use crate::formula::{Formula, last_of};
use crate::query::Goal;
use aig_base::{Gate, Lit, Memory};
use aig_sat::Refutation;
use std::alloc::Global;

// Adds one clause.
fn add(refutation: &mut Refutation, clause: &[Lit]) -> Result<(), Memory>
    ensures adds { Adds (clause.now ∷ []) refutation.old.clauses refutation.new.clauses }
    ensures numbered { OnOk result (Numbers (clause.now ∷ []) refutation.old refutation.new) }
{
    refutation.add_clause(clause)
}

// Adds the three clauses of a gate.
fn add_gate(refutation: &mut Refutation, gate: Gate) -> Result<(), Memory>
    ensures adds { Adds (gate_clauses gate) refutation.old.clauses refutation.new.clauses }
    ensures numbered { OnOk result (Numbers (gate_clauses gate) refutation.old refutation.new) }
{
    add(refutation, &[gate.lhs.not(), gate.rhs0])?;
    add(refutation, &[gate.lhs.not(), gate.rhs1])?;
    add(refutation, &[gate.lhs, gate.rhs0.not(), gate.rhs1.not()])
}

// Adds the clauses of all gates.
fn add_gates(refutation: &mut Refutation, gates: &[Gate]) -> Result<(), Memory>
    ensures adds { Adds (flat_map gate_clauses gates.now) refutation.old.clauses refutation.new.clauses }
    ensures numbered { OnOk result (Numbers (flat_map gate_clauses gates.now) refutation.old refutation.new) }
{
    for gate in gates {
        add_gate(refutation, *gate)?;
    }
    Ok(())
}

// Adds that the last literal is true, and those before it are false.
fn add_first_reached(refutation: &mut Refutation, goals: &[Lit]) -> Result<(), Memory>
    ensures adds { Adds (first_reached goals.now) refutation.old.clauses refutation.new.clauses }
    ensures numbered { OnOk result (Numbers (first_reached goals.now) refutation.old refutation.new) }
{
    let Some((last, earlier)) = goals.split_last() else {
        return Ok(());
    };
    for literal in earlier {
        add(refutation, &[literal.not()])?;
    }
    add(refutation, &[*last])
}

// Adds that each of some literals is true if another one is.
fn add_implied(refutation: &mut Refutation, literal: Lit, implied: &[Lit]) -> Result<(), Memory>
    ensures adds { Adds (implies implied.now literal) refutation.old.clauses refutation.new.clauses }
    ensures numbered { OnOk result (Numbers (implies implied.now literal) refutation.old refutation.new) }
{
    for other in implied {
        add(refutation, &[literal.not(), *other])?;
    }
    Ok(())
}

// Adds that the start obeys the resets if a bad literal before the last one is true.
fn add_starts(refutation: &mut Refutation, starts: &[Lit], goals: &[Lit]) -> Result<(), Memory>
    ensures adds { Adds (flat_map (implies starts.now) (all_but_last goals.now)) refutation.old.clauses refutation.new.clauses }
    ensures numbered { OnOk result (Numbers (flat_map (implies starts.now) (all_but_last goals.now)) refutation.old refutation.new) }
{
    let Some((_, earlier)) = goals.split_last() else {
        return Ok(());
    };
    for bad in earlier {
        add_implied(refutation, *bad, starts)?;
    }
    Ok(())
}

// Adds that a bad literal is true, and that the start obeys the resets if it is one before the last.
fn add_induction(refutation: &mut Refutation, starts: &[Lit], goals: &[Lit]) -> Result<(), Memory>
    ensures adds { Adds (goals.now ∷ flat_map (implies starts.now) (all_but_last goals.now)) refutation.old.clauses refutation.new.clauses }
    ensures numbered { OnOk result (Numbers (goals.now ∷ flat_map (implies starts.now) (all_but_last goals.now)) refutation.old refutation.new) }
{
    add(refutation, goals)?;
    add_starts(refutation, starts, goals)
}

// Adds the clauses of a goal.
fn add_goal(
    refutation: &mut Refutation,
    goal: Goal,
    starts: &[Lit],
    goals: &[Lit],
) -> Result<(), Memory>
    ensures adds { Adds (goal_clauses goal starts.now goals.now) refutation.old.clauses refutation.new.clauses }
    ensures numbered { OnOk result (Numbers (goal_clauses goal starts.now goals.now) refutation.old refutation.new) }
{
    match goal {
        Goal::Within => add(refutation, goals),
        Goal::Last => add(refutation, last_of(goals)),
        Goal::Step => add_first_reached(refutation, goals),
        Goal::Induction => add_induction(refutation, starts, goals),
    }
}

// A checker without clauses, for steps with hints or without.
fn checker(alloc: Global, variables: u32, is_hinted: bool) -> Result<Refutation, Memory>
    ensures follows { IfOk result (λ refutation. Follows [] refutation.clauses) }
    ensures begins { IfOk result (λ refutation. IsTrue is_hinted → (refutation.is_hinted ≡ true)
        × (refutation.next ≡ 1) × (refutation.variables ≡ variables)) }
{
    if is_hinted {
        Refutation::with_hints(alloc, variables)
    } else {
        Refutation::new(alloc, variables)
    }
}

impl Formula {
    // Adds all clauses.
    fn add_all(&self, refutation: &mut Refutation) -> Result<(), Memory>
        ensures adds { Adds self.now.clauses refutation.old.clauses refutation.new.clauses }
        ensures numbered { OnOk result (Numbers self.now.clauses refutation.old refutation.new) }
    {
        let gates = self.gates.as_slice();
        add(refutation, &[Lit::new(1)])?;
        add_goal(refutation, self.goal, &self.starts, &self.goals)?;
        add_gates(refutation, gates)
    }

    /// Returns a checker that has the formula, for steps with hints or without: what it refutes, no assignment
    /// satisfies. With hints the clauses have the numbers from 1 on, in the order of the formula.
    pub fn refutation(&self, alloc: Global, is_hinted: bool) -> Result<Refutation, Memory>
        ensures follows { IfOk result (λ refutation. Follows self.now.clauses refutation.clauses) }
        ensures numbered { IsTrue is_hinted → IfOk result (NumbersFormula self.now.variables self.now.clauses) }
    {
        let mut refutation = checker(alloc, self.variables(), is_hinted)?;
        self.add_all(&mut refutation)?;
        Ok(refutation)
    }
}
