//! The part of a circuit that a property reads, as a circuit of its own.
ghost use Rattle.std.specs.Prelude.{◌≡◌, Bool, [], ◌∷◌, ◌++◌, map, slice_index_or, IfOk, OnOk};
ghost use Rattle.aig_parts.specs.Literal.{variable};
ghost use Rattle.aig_parts.specs.declared.gate.Gate.{Gate};
ghost use Rattle.aig_parts.specs.declared.latch.Latch.{Latch};
ghost use Rattle.aig_base.specs.Part.{part, picked};
ghost use Rattle.aig_cnf.specs.ReadFormula.{marked};

use aig_base::{Circuit, Gate, Latch, List, Lit, Memory, Raw, Symbols};
use std::alloc::Global;

// Whether the variable of a literal has a mark.
fn is_marked(marks: &[bool], literal: Lit) -> bool
    ensures { result ≡ marked marks.now (variable literal) }
{
    match marks.get(literal.var() as usize) {
        Some(mark) => *mark,
        None => false,
    }
}

// Adds an item if its variable has a mark.
fn push_marked<T: Copy>(found: &mut Vec<T>, item: T, is_marked: bool) -> Result<(), Memory>
    ensures { OnOk result (found.new.items ≡ found.old.items ++ picked (is_marked ∷ []) (item ∷ [])) }
{
    if is_marked {
        found.push(item)?;
    }
    Ok(())
}

// The inputs that have a mark.
fn read_inputs(alloc: Global, inputs: &[Lit], marks: &[bool]) -> Result<List<Lit>, Memory>
    ensures { IfOk result (λ list.
        list ≡ picked (map (λ l. marked marks.now (variable l)) inputs.now) inputs.now) }
{
    let mut found = Vec::new(alloc);
    for input in inputs {
        push_marked(&mut found, *input, is_marked(marks, *input))?;
    }
    Ok(List::from_vec(found))
}

// The latches that have a mark.
fn read_latches(alloc: Global, latches: &[Latch], marks: &[bool]) -> Result<List<Latch>, Memory>
    ensures { IfOk result (λ list.
        list ≡ picked (map (λ (x : Latch). marked marks.now (variable x.lit)) latches.now) latches.now) }
{
    let mut found = Vec::new(alloc);
    for latch in latches {
        push_marked(&mut found, *latch, is_marked(marks, latch.lit))?;
    }
    Ok(List::from_vec(found))
}

// The gates that have a mark.
fn read_gates(alloc: Global, gates: &[Gate], marks: &[bool]) -> Result<List<Gate>, Memory>
    ensures { IfOk result (λ list.
        list ≡ picked (map (λ (g : Gate). marked marks.now (variable g.lhs)) gates.now) gates.now) }
{
    let mut found = Vec::new(alloc);
    for gate in gates {
        push_marked(&mut found, *gate, is_marked(marks, gate.lhs))?;
    }
    Ok(List::from_vec(found))
}

// A list of these literals.
fn list_of(alloc: Global, literals: &[Lit]) -> Result<List<Lit>, Memory>
    ensures { IfOk result (λ list. list ≡ literals.now) }
{
    Ok(List::from_vec(Vec::from_slice(alloc, literals)?))
}

// The parts of the part.
fn parts_of(alloc: Global, circuit: &Circuit, bad: Lit, marks: &[bool]) -> Result<Raw, Memory>
    ensures { IfOk result (λ parts. parts ≡ part circuit.now bad (marked marks.now)) }
{
    Ok(Raw {
        max_var: circuit.max_var(),
        inputs: read_inputs(alloc, circuit.inputs(), marks)?,
        latches: read_latches(alloc, circuit.latches(), marks)?,
        outputs: List::new(alloc),
        bad: list_of(alloc, &[bad])?,
        constraints: list_of(alloc, circuit.constraints())?,
        justice: List::new(alloc),
        fairness: List::new(alloc),
        gates: read_gates(alloc, circuit.gates(), marks)?,
        symbols: Symbols::new(alloc),
        comment: None,
    })
}

/// The part of a circuit that is read for the property with this literal, where these marks say what that is. Its parts
/// have no fault then, so the check fails only where memory runs out.
pub(crate) fn part_of(
    alloc: Global,
    circuit: &Circuit,
    bad: Lit,
    marks: &[bool],
) -> Result<Circuit, Memory>
    ensures { IfOk result (λ new. new ≡ part circuit.now bad (marked marks.now)) }
{
    circuit.facts();
    let parts = parts_of(alloc, circuit, bad, marks)?;
    match Circuit::check(alloc, parts) {
        Ok(new) => Ok(new),
        Err(_) => Err(Memory),
    }
}
