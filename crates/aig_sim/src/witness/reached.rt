//! The first frame of a run at which a bad state property is reached.
ghost use Rattle.std.specs.Prelude.{◌≡◌, ◌<◌, ℕ, false, length, None, IfNone, IfOk, IfSome, IsTrue};
ghost use Rattle.aig_sim.specs.Reached.{IsFirstReached, ReachesNone};
ghost use Rattle.aig_sim.specs.Verdict.{StartsWrong};
ghost use Rattle.aig_sim.specs.state.Checking.{ReadsNotOne};
ghost use Rattle.aig_sim.specs.state.Reaching.{ReadsFirstBad, ReadsNoBad};

use crate::simulation::machine::Machine;
use crate::witness::{first_failure, is_bad, wrong_start};
use aig_base::{Circuit, Memory, Tern};
use aig_values::Stimulus;
use std::alloc::Global;

/// A frame of a run and the position of a bad state property that is reached there, both counted from 0.
#[derive(Clone, Copy, PartialEq, Eq, Debug)]
pub struct Reached {
    pub frame: u32,
    pub property: u32,
}

// Whether each latch starts at a value that its reset allows.
fn starts_right(machine: &Machine<'_>) -> bool
    ensures yes { IsTrue result → (p : ℕ) → StartsWrong machine.now.circuit machine.now.states p → ⊥ }
    ensures no { result ≡ false → (p : ℕ) × StartsWrong machine.now.circuit machine.now.states p }
{
    match wrong_start(machine) {
        Some(_) => false,
        None => true,
    }
}

// Whether all constraints are 1.
fn holds_constraints(machine: &Machine<'_>) -> bool
    ensures yes { IsTrue result → (p : ℕ) → ReadsNotOne machine.now.cells machine.now.circuit.constraints p → ⊥ }
    ensures no { result ≡ false → (p : ℕ) × ReadsNotOne machine.now.cells machine.now.circuit.constraints p }
{
    match first_failure(machine) {
        Some(_) => false,
        None => true,
    }
}

// How many bad state properties there are.
fn bad_count(machine: &Machine<'_>) -> u32
    ensures { result ≡ length machine.now.circuit.bad }
{
    machine.circuit().bad().len() as u32
}

// The position of the first property that is 1.
fn first_bad(machine: &Machine<'_>) -> Option<u32>
    ensures some { IfSome result (ReadsFirstBad machine.now.cells machine.now.circuit.bad None) }
    ensures none { IfNone result (ReadsNoBad machine.now.cells machine.now.circuit.bad None) }
{
    for position in 0..bad_count(machine) {
        if is_bad(machine, position) {
            return Some(position);
        }
    }
    None
}

// The same of one property.
fn asked_bad(machine: &Machine<'_>, property: u32) -> Option<u32>
    requires { property < length machine.now.circuit.bad }
    ensures some { IfSome result (ReadsFirstBad machine.now.cells machine.now.circuit.bad (Some property)) }
    ensures none { IfNone result (ReadsNoBad machine.now.cells machine.now.circuit.bad (Some property)) }
{
    if is_bad(machine, property) {
        Some(property)
    } else {
        None
    }
}

// The position of the first property that is 1, of those that are asked for.
fn first_asked(machine: &Machine<'_>, asked: Option<u32>) -> Option<u32>
    requires { IfSome asked (λ p. p < length machine.now.circuit.bad) }
    ensures some { IfSome result (ReadsFirstBad machine.now.cells machine.now.circuit.bad asked) }
    ensures none { IfNone result (ReadsNoBad machine.now.cells machine.now.circuit.bad asked) }
{
    match asked {
        Some(property) => asked_bad(machine, property),
        None => first_bad(machine),
    }
}

// Simulates the frames up to the first that reaches a property, or up to one where a constraint is not 1.
fn run_to_bad(machine: &mut Machine<'_>, rows: &Stimulus, asked: Option<u32>) -> Option<Reached>
    requires width { rows.now.width ≡ length machine.old.circuit.inputs }
    requires property { IfSome asked (λ p. p < length machine.old.circuit.bad) }
    requires start { (p : ℕ) → StartsWrong machine.old.circuit machine.old.states p → ⊥ }
    ensures some { IfSome result (λ at.
        IsFirstReached machine.old.circuit machine.old.states rows.now.rows asked at.frame at.property) }
    ensures none { IfNone result (ReachesNone machine.old.circuit machine.old.states rows.now.rows asked) }
{
    // Their contracts say that the rows have the width, and that there is a value for each latch.
    rows.width();
    machine.states();
    for frame in 0..rows.frames() {
        machine.step(rows.row(frame));
        if !holds_constraints(machine) {
            return None;
        }
        if let Some(property) = first_asked(machine, asked) {
            return Some(Reached { frame, property });
        }
    }
    None
}

// The same values.
fn copied(alloc: Global, values: &[Tern]) -> Result<Vec<Tern>, Memory>
    ensures { IfOk result (λ copy. copy.items ≡ values.now) }
{
    let mut copy = Vec::with_capacity(alloc, values.len())?;
    copy.extend_from_slice(values)?;
    Ok(copy)
}

/// The first frame of a run from this start over these rows at which the property that is asked for is 1 and all
/// constraints were 1 so far; where none is named, the least property of the first frame that reaches any. The witness
/// of it, the frames up to that one, is confirmed. There is none where no frame reaches one, or where the start is not
/// one that the resets allow. All memory that it takes is reserved before the first frame.
pub fn first_reached(
    alloc: Global,
    circuit: &Circuit,
    start: &[Tern],
    rows: &Stimulus,
    asked: Option<u32>,
) -> Result<Option<Reached>, Memory>
    requires start { length start.now ≡ length circuit.now.latches }
    requires width { rows.now.width ≡ length circuit.now.inputs }
    requires property { IfSome asked (λ p. p < length circuit.now.bad) }
    ensures some { IfOk result (λ reached. IfSome reached (λ at.
        IsFirstReached circuit.now start.now rows.now.rows asked at.frame at.property)) }
    ensures none { IfOk result (λ reached. IfNone reached (ReachesNone circuit.now start.now rows.now.rows asked)) }
{
    let mut machine = Machine::new(alloc, circuit, copied(alloc, start)?)?;
    if !starts_right(&machine) {
        return Ok(None);
    }
    Ok(run_to_bad(&mut machine, rows, asked))
}
