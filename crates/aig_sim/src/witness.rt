//! Whether a witness shows what it says. Where the standard (AIGER 1.9, witnesses) is silent, this is our own choice.
ghost use Rattle.std.specs.Prelude.{◌≡◌, ℕ, ◌<◌, ◌↔◌, false, List, ◌∷◌, ◌++◌, length, map, IfOk, IfErr, IfSome};
ghost use Rattle.std.specs.Prelude.{IfNone, IsTrue};
ghost use Rattle.aig_parts.specs.declared.ternary.Tern.{Tern};
ghost use Rattle.aig_base.specs.Circuit.{IsCircuit};
ghost use Rattle.aig_base.specs.Runs.{Allows};
ghost use Rattle.aig_sim.specs.state.Checking.{BeginsWithRow, SpellsFrames, ArePartsOf};
ghost use Rattle.aig_sim.specs.state.Checking.{ReadsNotOne, HasRun, IsFirstFailure};
ghost use Rattle.aig_values.specs.Characters.{character};
ghost use Rattle.aig_sim.specs.Verdict.{StartsWrong, IsVerdict, IsConfirmed};
ghost use Rattle.aig_sim.specs.WitnessText.{Witness, SpellsWitness, IsAdmitted, HasWitnessFault};

pub(crate) mod breaks;
pub(crate) mod fault;
pub(crate) mod judging;
pub(crate) mod reach_fault;
pub(crate) mod reached;
pub(crate) mod reader;
pub(crate) mod replay;
pub(crate) mod replay_fault;
pub(crate) mod run;
mod text;
pub(crate) mod verdict;
pub(crate) mod writer;

use crate::simulation::machine::Machine;
use crate::stimulus::row_parser::value_by;
use crate::witness::fault::WitnessFault;
use crate::witness::text::{WitnessParts, read_parts};
use crate::witness::verdict::Verdict;
use aig_base::{Circuit, Latch, Memory, Tern};
use aig_values::row::literal_in;
use aig_values::{FRAMES, first_value};
use std::alloc::Global;

/// Reads a value a character, and returns the text after the line.
pub fn read_values<'a>(values: &mut [Tern], text: &'a [u8]) -> &'a [u8]
    requires { BeginsWithRow (length values.old) text.now }
    ensures { text.now ≡ map character values.new ++ (10 ∷ result.now) }
{
    let width = values.len();
    for place in 0..width {
        values[place] = value_by(text[place]);
    }
    &text[width + 1..]
}

/// Room for so many values.
pub fn new_values(alloc: Global, size: usize) -> Result<Vec<Tern>, Memory>
    ensures { IfOk result (λ values. length values.items ≡ size) }
{
    let mut values = Vec::with_capacity(alloc, size)?;
    values.resize(size, Tern::X)?;
    Ok(values)
}

// Whether a latch may start at a value.
fn is_allowed(latch: Latch, value: Tern) -> bool
    ensures { IsTrue result ↔ Allows latch value }
{
    latch.reset == latch.lit || value == first_value(latch)
}

/// The position of the first latch that stands at a value which its reset does not allow.
pub fn wrong_start(machine: &Machine<'_>) -> Option<u32>
    ensures some { IfSome result (StartsWrong machine.now.circuit machine.now.states) }
    ensures least { IfSome result (λ p. (q : ℕ) → q < p → StartsWrong machine.now.circuit machine.now.states q → ⊥) }
    ensures none { IfNone result ((q : ℕ) → StartsWrong machine.now.circuit machine.now.states q → ⊥) }
{
    let states = machine.states();
    for (position, latch) in machine.circuit().latches().iter().enumerate() {
        if !is_allowed(*latch, states[position].value()) {
            return Some(position as u32);
        }
    }
    None
}

fn is_one(value: Tern) -> bool
    ensures { IsTrue result ↔ (value ≡ Tern.One) }
{
    matches!(value, Tern::One)
}

/// The position of the first constraint that is not 1.
pub fn first_failure(machine: &Machine<'_>) -> Option<u32>
    ensures some { IfSome result (ReadsNotOne machine.now.cells machine.now.circuit.constraints) }
    ensures least { IfSome result (λ p. (q : ℕ) → q < p →
        ReadsNotOne machine.now.cells machine.now.circuit.constraints q → ⊥) }
    ensures none { IfNone result ((q : ℕ) → ReadsNotOne machine.now.cells machine.now.circuit.constraints q → ⊥) }
{
    for (position, literal) in machine.circuit().constraints().iter().enumerate() {
        if !is_one(literal_in(machine, *literal)) {
            return Some(position as u32);
        }
    }
    None
}

/// Whether the property at this position is 1.
pub fn is_bad(machine: &Machine<'_>, property: u32) -> bool
    requires { property < length machine.now.circuit.bad }
    ensures yes { IsTrue result → ReadsNotOne machine.now.cells machine.now.circuit.bad property → ⊥ }
    ensures no { result ≡ false → ReadsNotOne machine.now.cells machine.now.circuit.bad property }
{
    let literal = machine.circuit().bad()[property as usize];
    is_one(literal_in(machine, literal))
}

// Simulates so many frames, and answers the first frame and the position in it of a constraint that is not 1.
fn run_frames(
    machine: &mut Machine<'_>,
    row: &mut [Tern],
    rows: &[u8],
    frames: u32,
) -> Option<(u32, u32)>
    requires row { length row.old ≡ length machine.old.circuit.inputs }
    requires rows { (given : List (List Tern)) × (length given ≡ frames)
        × SpellsFrames (length row.old) rows.now given }
    ensures circuit { machine.new.circuit ≡ machine.old.circuit }
    ensures some { IfSome result (λ at. (w : Witness)
        → HasRun machine.old.circuit w 0 rows.now machine.old.cells machine.old.states →
        length w.rows ≡ frames → IsFirstFailure machine.old.circuit w at.0 at.1) }
    ensures none { IfNone result ((w : Witness)
        → HasRun machine.old.circuit w 0 rows.now machine.old.cells machine.old.states →
        length w.rows ≡ frames → (rest : List ℕ)
        × HasRun machine.old.circuit w frames rest machine.new.cells machine.new.states) }
{
    let mut rest = rows;
    for frame in 0..frames {
        rest = read_values(row, rest);
        machine.step(row);
        if let Some(position) = first_failure(machine) {
            return Some((frame, position));
        }
    }
    None
}

/// The latches' values at the start.
pub fn read_start(alloc: Global, text: &[u8], size: usize) -> Result<Vec<Tern>, Memory>
    requires { BeginsWithRow size text.now }
    ensures length { IfOk result (λ start. length start.items ≡ size) }
    ensures read { IfOk result (λ start. (rest : List ℕ) × (text.now ≡ map character start.items ++ (10 ∷ rest))) }
{
    let mut start = new_values(alloc, size)?;
    let _rest = read_values(&mut start, text);
    Ok(start)
}

/// The parts of the text of a witness that the circuit admits.
pub fn admitted_parts<'a>(
    circuit: &Circuit,
    text: &'a [u8],
) -> Result<WitnessParts<'a>, WitnessFault>
    ensures parts { IfOk result (λ parts. (w : Witness) × SpellsWitness circuit.now text.now w
        × ArePartsOf circuit.now parts w × IsAdmitted circuit.now w) }
    ensures fault { IfErr result (HasWitnessFault circuit.now text.now) }
{
    circuit.facts();
    let Some(parts) = read_parts(circuit, text) else {
        return Err(WitnessFault::Text);
    };
    if parts.property as usize >= circuit.bad().len() {
        return Err(WitnessFault::Property);
    }
    if parts.frames > FRAMES as usize {
        return Err(WitnessFault::Limit);
    }
    Ok(parts)
}

/// A witness's run before its first frame: the circuit, where the latches start as the witness has it, and room for a
/// row.
#[derive(Drop)]
pub struct WitnessRun<'a> {
    pub machine: Machine<'a>,
    pub row: Vec<Tern>,
}

impl<'a> WitnessRun<'a> {
    /// All memory that the run takes is reserved here.
    pub fn new(
        alloc: Global,
        circuit: &'a Circuit,
        parts: &WitnessParts<'_>,
    ) -> Result<WitnessRun<'a>, Memory>
        requires { (w : Witness) × ArePartsOf circuit.now parts.now w }
        ensures circuit { IfOk result (λ run. run.machine.circuit ≡ circuit.now) }
        ensures is_circuit { IfOk result (λ run. IsCircuit run.machine.circuit) }
        ensures states { IfOk result (λ run. (w : Witness) → ArePartsOf circuit.now parts.now w →
            run.machine.states ≡ w.start) }
        ensures row { IfOk result (λ run. length run.row.items ≡ length circuit.now.inputs) }
    {
        let start = read_start(alloc, parts.start, circuit.latches().len())?;
        Ok(WitnessRun {
            machine: Machine::new(alloc, circuit, start)?,
            row: new_values(alloc, circuit.inputs().len())?,
        })
    }
}

// The verdict on a witness of these parts.
fn judge(alloc: Global, circuit: &Circuit, parts: &WitnessParts<'_>) -> Result<Verdict, Memory>
    requires { (w : Witness) × ArePartsOf circuit.now parts.now w × IsAdmitted circuit.now w }
    ensures { IfOk result (λ verdict. (w : Witness) → ArePartsOf circuit.now parts.now w → IsAdmitted circuit.now w →
        IsVerdict circuit.now w verdict) }
{
    let WitnessRun {
        mut machine,
        mut row,
    } = WitnessRun::new(alloc, circuit, parts)?;
    if let Some(position) = wrong_start(&machine) {
        return Ok(Verdict::Initial(position));
    }
    let failure = run_frames(&mut machine, &mut row, parts.rows, parts.frames as u32);
    if let Some((frame, position)) = failure {
        return Ok(Verdict::Constraint(frame, position));
    }
    if !is_bad(&machine, parts.property) {
        return Ok(Verdict::NotBad);
    }
    Ok(Verdict::Confirmed)
}

/// What a witness shows of a circuit (AIGER 1.9, witnesses). Its text begins with the line `1` and the line `b` and the
/// position of a bad state property. Then come a line of the latches' values, from which the run starts, and one line
/// of the inputs' values per frame, at least one. It ends with the line `.`. Values are `0`, `1` and `x`. Refused are,
/// in this order, any other text, a property that the circuit has not, and more than 65,536 frames.
///
/// The verdict is the first that applies: a latch that starts at another value than its reset, where that is 0 or 1;
/// a constraint that is not 1; a property that is not 1 at the last frame. Otherwise the witness is confirmed: its run
/// reaches the bad state, whatever its x turn out to be. Linear in the text, and in the circuit a frame; it keeps a
/// frame's values, the latches' and a line.
pub fn check_witness(alloc: Global, circuit: &Circuit, text: &[u8]) -> Result<Verdict, WitnessFault>
    ensures verdict { IfOk result (λ verdict. (w : Witness) × SpellsWitness circuit.now text.now w
        × IsAdmitted circuit.now w × IsVerdict circuit.now w verdict) }
    ensures confirmed { IfOk result (λ verdict. verdict ≡ Verdict.Confirmed → (w : Witness) →
        SpellsWitness circuit.now text.now w → IsConfirmed circuit.now w) }
    ensures fault { IfErr result (HasWitnessFault circuit.now text.now) }
{
    circuit.facts();
    let parts = admitted_parts(circuit, text)?;
    let verdict = judge(alloc, circuit, &parts)?;
    Ok(verdict)
}
