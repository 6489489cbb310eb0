//! Marking the variables that a run needs at a frame.
ghost use Rattle.std.specs.Prelude.{◌≡◌, ◌⊎◌, ℕ, suc, ◌<◌, length, IsTrue};
ghost use Rattle.aig_parts.specs.declared.ternary.Tern.{Tern};
ghost use Rattle.aig_parts.specs.Literal.{variable};
ghost use Rattle.aig_base.specs.state.Marks.{IsMarked};
ghost use Rattle.aig_bench.specs.BenchState.{HasValue};
ghost use Rattle.aig_reduce.specs.state.Looks.{IsLiteralAt};
ghost use Rattle.aig_reduce.specs.state.Needed.{AddsNeeded, AreItsGates, AreNeeded, IsNeeded};

use crate::looks::has_value;
use aig_base::{Gate, Lit, Tern};
use aig_bench::Bench;
use aig_sim::Grid;

/// Whether a variable is marked.
pub fn is_marked(marks: &[bool], variable: u32) -> bool
    ensures { IsTrue result → IsMarked marks.now variable }
{
    match marks.get(variable as usize) {
        Some(mark) => *mark,
        None => false,
    }
}

/// Takes all marks away.
pub fn unmark(marks: &mut Vec<bool>)
    ensures { (v : ℕ) → IsMarked marks.new.items v → ⊥ }
{
    for place in 0..marks.len() {
        marks[place] = false;
    }
}

// Marks the variable of a literal, where there is a mark for it.
fn mark(marks: &mut Vec<bool>, literal: Lit)
    ensures { (v : ℕ) → IsMarked marks.new.items v → IsMarked marks.old.items v ⊎ (v ≡ variable literal) }
{
    let place = literal.var() as usize;
    if place < marks.len() {
        marks[place] = true;
    }
}

/// Marks the constraints, which are 1 at each frame.
pub fn mark_constraints<G: Grid>(bench: &Bench<G>, marks: &mut Vec<bool>)
    ensures { (property t : ℕ) → t < length bench.now.pair.rows →
        AddsNeeded bench.now.pair property t marks.old.items marks.new.items }
{
    // Its contract says that it is a circuit.
    bench.width();
    for literal in bench.circuit().constraints().iter() {
        mark(marks, *literal);
    }
}

/// Marks the property at the last frame, where it is 1.
pub fn mark_bad<G: Grid>(bench: &Bench<G>, property: u32, frame: u32, marks: &mut Vec<bool>)
    requires property { property < length bench.now.pair.circuit.bad }
    requires frame { frame < length bench.now.pair.rows }
    ensures { AddsNeeded bench.now.pair property frame marks.old.items marks.new.items }
{
    // Its contract says that it is a circuit.
    bench.width();
    if frame < bench.frames() - 1 {
        return;
    }
    mark(marks, bench.circuit().bad()[property as usize]);
}

/// Marks the next states of all latches that are marked at the next frame.
pub fn mark_latches<G: Grid>(bench: &Bench<G>, ahead: &[bool], marks: &mut Vec<bool>)
    ensures { (property t : ℕ) → AreNeeded bench.now.pair property (suc t) ahead.now →
        AddsNeeded bench.now.pair property t marks.old.items marks.new.items }
{
    // Its contract says that it is a circuit.
    bench.width();
    for latch in bench.circuit().latches().iter() {
        if !is_marked(ahead, latch.lit.var()) {
            continue;
        }
        mark(marks, latch.next);
    }
}

// Marks a side of a gate, if the other side is not 0.
fn mark_side<G: Grid>(bench: &Bench<G>, frame: u32, side: Lit, other: Lit, marks: &mut Vec<bool>)
    requires { IsLiteralAt bench.now.pair frame other }
    ensures { (property : ℕ) → (AreNeeded bench.now.pair property frame marks.old.items →
        (HasValue bench.now.pair frame other Tern.Zero → ⊥) →
        IsNeeded bench.now.pair property frame (variable side)) →
        AddsNeeded bench.now.pair property frame marks.old.items marks.new.items }
{
    if has_value(bench, frame, other, Tern::Zero) {
        return;
    }
    mark(marks, side);
}

/// Marks what the marked gates need, from the last gate on: each side whose other side is not 0, since the gate is x
/// where that side is.
pub fn mark_gates<G: Grid>(bench: &Bench<G>, frame: u32, gates: &[Gate], marks: &mut Vec<bool>)
    requires frame { frame < length bench.now.pair.rows }
    requires gates { AreItsGates bench.now.pair.circuit gates.now }
    ensures { (property : ℕ) → AddsNeeded bench.now.pair property frame marks.old.items marks.new.items }
{
    // Its contract says that it is a circuit.
    bench.width();
    let mut left = gates.len();
    'gates: while left > 0 {
        left -= 1;
        let gate = gates[left];
        if !is_marked(marks, gate.lhs.var()) {
            continue;
        }
        mark_side(bench, frame, gate.rhs0, gate.rhs1, marks);
        mark_side(bench, frame, gate.rhs1, gate.rhs0, marks);
    }
}
