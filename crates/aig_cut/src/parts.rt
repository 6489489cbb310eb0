//! The circuit that is cut.
ghost use Rattle.std.specs.Prelude.{◌≡◌, ◌↔◌, ◌+◌, ◌*◌, ◌≤◌, ◌∷◌, ◌++◌, [], length, All, IsTrue, IfOk, IfErr, OnOk};
ghost use Rattle.std.specs.Prelude.{option_copied};
ghost use Rattle.aig_parts.specs.Formed.{limit};
ghost use Rattle.aig_cut.specs.Cut.{IsCut};
ghost use Rattle.aig_cut.specs.CutOf as spec;
ghost use Rattle.aig_cut.specs.CutOf.{cut_of, gate_inputs, in_front, latch_inputs, one_more};
ghost use Rattle.aig_cut.specs.Lines.{IsCutBy, IsOverLimit, RefusesCut};
ghost use Rattle.aig_cut.specs.state.Marks.{FitMarks, HasMarks, marked};

use crate::fault::CutFault;
use crate::marks::Marks;
use aig_base::{Bytes, Circuit, Gate, LIMIT, Latch, List, Lit, Memory, Raw};
use std::alloc::Global;

/// Inputs, and the variable of the next one.
#[derive(Drop)]
struct Inputs {
    literals: List<Lit>,
    next: u32,
}

impl Inputs {
    // Adds an input.
    fn add(&mut self) -> Result<Lit, Memory>
        requires { self.old.next ≤ 4 * limit }
        ensures added { OnOk result (self.new.literals ≡ self.old.literals ++ 2 * self.old.next ∷ []) }
        ensures next { OnOk result (self.new.next ≡ self.old.next + 1) }
        ensures literal { IfOk result (λ literal. literal ≡ 2 * self.old.next) }
    {
        let literal = Lit::new(2 * self.next);
        self.literals.push(literal)?;
        self.next += 1;
        Ok(literal)
    }
}

// The next literal of a latch: that of a free one is a new input.
fn next_of(marks: &Marks, latch: &Latch, inputs: &mut Inputs) -> Result<Lit, Memory>
    requires marks { HasMarks marks.now latch.now.lit }
    requires few { inputs.old.next ≤ 4 * limit }
    ensures literal { IfOk result (λ literal.
        literal ≡ spec.next_of ((marked marks.now).free latch.now.lit) inputs.old.next latch.now) }
    ensures added { OnOk result (inputs.new.literals
        ≡ inputs.old.literals ++ in_front ((marked marks.now).free latch.now.lit) (2 * inputs.old.next) []) }
    ensures next { OnOk result (inputs.new.next ≡ one_more ((marked marks.now).free latch.now.lit) inputs.old.next) }
{
    if marks.is_free(latch.lit) {
        inputs.add()
    } else {
        Ok(latch.next)
    }
}

// The reset of a latch: one that may start at any value has its own literal.
fn reset_of(marks: &Marks, latch: &Latch) -> Lit
    requires { HasMarks marks.now latch.now.lit }
    ensures { result ≡ spec.reset_of ((marked marks.now).starts latch.now.lit) latch.now }
{
    if marks.starts(latch.lit) {
        latch.lit
    } else {
        latch.reset
    }
}

// A latch, with this next literal and this reset.
fn cut_latch(marks: &Marks, latch: &Latch, inputs: &mut Inputs) -> Result<Latch, Memory>
    requires marks { HasMarks marks.now latch.now.lit }
    requires few { inputs.old.next ≤ 4 * limit }
    ensures latch { IfOk result (λ cut. cut ≡ spec.cut_latch (marked marks.now) inputs.old.next latch.now) }
    ensures added { OnOk result (inputs.new.literals
        ≡ inputs.old.literals ++ in_front ((marked marks.now).free latch.now.lit) (2 * inputs.old.next) []) }
    ensures next { OnOk result (inputs.new.next ≡ one_more ((marked marks.now).free latch.now.lit) inputs.old.next) }
{
    let next = next_of(marks, latch, inputs)?;
    let reset = reset_of(marks, latch);
    Ok(Latch {
        lit: latch.lit,
        next,
        reset,
    })
}

// A gate: a free one is a new input.
fn cut_gate(marks: &Marks, gate: Gate, inputs: &mut Inputs) -> Result<Gate, Memory>
    requires marks { HasMarks marks.now gate.lhs }
    requires few { inputs.old.next ≤ 4 * limit }
    ensures gate { IfOk result (λ cut. cut ≡ spec.cut_gate ((marked marks.now).free gate.lhs) inputs.old.next gate) }
    ensures added { OnOk result (inputs.new.literals
        ≡ inputs.old.literals ++ in_front ((marked marks.now).free gate.lhs) (2 * inputs.old.next) []) }
    ensures next { OnOk result (inputs.new.next ≡ one_more ((marked marks.now).free gate.lhs) inputs.old.next) }
{
    if !marks.is_free(gate.lhs) {
        return Ok(gate);
    }
    let input = inputs.add()?;
    let one = Lit::new(1);
    Ok(Gate {
        lhs: gate.lhs,
        rhs0: input,
        rhs1: one,
    })
}

// The latches, and their new inputs.
fn cut_latches(
    alloc: Global,
    marks: &Marks,
    latches: &[Latch],
    inputs: &mut Inputs,
) -> Result<List<Latch>, Memory>
    requires marks { All (λ x. HasMarks marks.now x.lit) latches.now }
    requires few { inputs.old.next + length latches.now ≤ 4 * limit }
    ensures latches { IfOk result (λ cut. cut
        ≡ spec.cut_latches (marked marks.now) inputs.old.next latches.now) }
    ensures added { OnOk result (inputs.new.literals
        ≡ inputs.old.literals ++ latch_inputs (marked marks.now) inputs.old.next latches.now) }
    ensures next { OnOk result (inputs.new.next
        ≡ inputs.old.next + length (latch_inputs (marked marks.now) inputs.old.next latches.now)) }
    ensures few { OnOk result (inputs.new.next ≤ inputs.old.next + length latches.now) }
{
    let mut cut = List::with_capacity(alloc, latches.len())?;
    for latch in latches {
        let new = cut_latch(marks, latch, inputs)?;
        cut.push(new)?;
    }
    Ok(cut)
}

// The gates, and their new inputs.
fn cut_gates(
    alloc: Global,
    marks: &Marks,
    gates: &[Gate],
    inputs: &mut Inputs,
) -> Result<List<Gate>, Memory>
    requires marks { All (λ g. HasMarks marks.now g.lhs) gates.now }
    requires few { inputs.old.next + length gates.now ≤ 4 * limit }
    ensures gates { IfOk result (λ cut. cut ≡ spec.cut_gates (marked marks.now) inputs.old.next gates.now) }
    ensures added { OnOk result (inputs.new.literals
        ≡ inputs.old.literals ++ gate_inputs (marked marks.now) inputs.old.next gates.now) }
    ensures next { OnOk result (inputs.new.next
        ≡ inputs.old.next + length (gate_inputs (marked marks.now) inputs.old.next gates.now)) }
{
    let mut cut = List::with_capacity(alloc, gates.len())?;
    for gate in gates {
        let new = cut_gate(marks, *gate, inputs)?;
        cut.push(new)?;
    }
    Ok(cut)
}

// A constraint: one that is not demanded is 1.
fn demanded(is_dropped: bool, constraint: Lit) -> Lit
    ensures { result ≡ spec.demanded is_dropped constraint }
{
    if is_dropped { Lit::new(1) } else { constraint }
}

// The constraints.
fn cut_constraints(alloc: Global, marks: &Marks, constraints: &[Lit]) -> Result<List<Lit>, Memory>
    requires { length (marks.now.constraints.items) ≡ length constraints.now }
    ensures { IfOk result (λ cut. cut ≡ spec.cut_constraints (marked marks.now) 0 constraints.now) }
{
    let mut cut = List::with_capacity(alloc, constraints.len())?;
    for position in 0..constraints.len() {
        let new = demanded(marks.drops(position), constraints[position]);
        cut.push(new)?;
    }
    Ok(cut)
}

// A list of these items.
fn list_of<T: Copy>(alloc: Global, items: &[T]) -> Result<List<T>, Memory>
    ensures { IfOk result (λ list. list ≡ items.now) }
{
    Ok(List::from_vec(Vec::from_slice(alloc, items)?))
}

// The same of lists.
fn lists_of(alloc: Global, lists: &[List<Lit>]) -> Result<List<List<Lit>>, Memory>
    ensures { IfOk result (λ copies. copies ≡ lists.now) }
{
    let mut copies = List::new(alloc);
    for list in lists {
        copies.push(list_of(alloc, list.as_slice())?)?;
    }
    Ok(copies)
}

// The same of a comment.
fn comment_of(alloc: Global, comment: Option<&[u8]>) -> Result<Option<Bytes>, Memory>
    ensures { IfOk result (λ copy. copy ≡ option_copied comment.entry) }
{
    match comment {
        Some(bytes) => Ok(Some(list_of(alloc, bytes)?)),
        None => Ok(None),
    }
}

// The inputs of a circuit, and the first variable after its own.
fn own_inputs(alloc: Global, circuit: &Circuit) -> Result<Inputs, Memory>
    ensures literals { IfOk result (λ inputs. inputs.literals ≡ circuit.now.inputs) }
    ensures next { IfOk result (λ inputs. inputs.next ≡ circuit.now.max_var + 1) }
{
    Ok(Inputs {
        literals: list_of(alloc, circuit.inputs())?,
        next: circuit.max_var() + 1,
    })
}

// The parts of the circuit that is cut.
fn parts_of(alloc: Global, circuit: &Circuit, marks: &Marks) -> Result<Raw, Memory>
    requires { FitMarks circuit.now marks.now }
    ensures { IfOk result (λ parts. parts ≡ cut_of (marked marks.now) circuit.now) }
{
    circuit.facts();
    let mut inputs = own_inputs(alloc, circuit)?;
    let latches = cut_latches(alloc, marks, circuit.latches(), &mut inputs)?;
    let gates = cut_gates(alloc, marks, circuit.gates(), &mut inputs)?;
    let Inputs { literals, next } = inputs;
    Ok(Raw {
        max_var: next - 1,
        inputs: literals,
        latches,
        outputs: list_of(alloc, circuit.outputs())?,
        bad: list_of(alloc, circuit.bad())?,
        constraints: cut_constraints(alloc, marks, circuit.constraints())?,
        justice: lists_of(alloc, circuit.justice())?,
        fairness: list_of(alloc, circuit.fairness())?,
        gates,
        symbols: circuit.symbols().clone()?,
        comment: comment_of(alloc, circuit.comment())?,
    })
}

// Whether the parts have more variables or inputs than a circuit may have.
fn is_over_limit(parts: &Raw) -> bool
    ensures { IsTrue result ↔ IsOverLimit parts.now }
{
    parts.max_var as usize > LIMIT || parts.inputs.len() > LIMIT
}

/// The circuit in which the parts that a text names may be anything. The text has one line per part, with an LF at its
/// end: `f L` for the next states of the latch, or the values of the gate, of literal L; `r L` for the initial value of
/// a latch; `c P` for the constraint at position P. A free latch or gate gets a new input, after the others: it is the
/// latch's next literal, and the gate is the AND of it and 1. A constraint that is not demanded is 1. All else stays, at
/// its place. Linear in the circuit and the text. It takes memory for a copy of the circuit, and two bytes per variable.
pub fn cut(alloc: Global, circuit: &Circuit, text: &[u8]) -> Result<Circuit, CutFault>
    ensures by { IfOk result (IsCutBy circuit.now text.now) }
    ensures cut { IfOk result (IsCut circuit.now) }
    ensures refused { IfErr result (RefusesCut circuit.now text.now) }
{
    circuit.facts();
    let marks = Marks::of(alloc, circuit, text)?;
    let parts = parts_of(alloc, circuit, &marks)?;
    if is_over_limit(&parts) {
        return Err(CutFault::Limit);
    }
    match Circuit::check(alloc, parts) {
        Ok(cut) => Ok(cut),
        // The parts are a circuit (`law_of_what_is_written`), so memory is missing.
        Err(_) => Err(CutFault::Memory),
    }
}
