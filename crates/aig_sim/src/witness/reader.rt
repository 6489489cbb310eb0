//! Reading a witness as values.
ghost use Rattle.std.specs.Prelude.{◌≡◌, ◌≤◌, List, [], length, IfOk, IfErr, OnOk};
ghost use Rattle.aig_parts.specs.declared.ternary.Tern.{Tern};
ghost use Rattle.aig_parts.specs.Limits.{frame_limit};
ghost use Rattle.aig_sim.specs.WitnessText.{SpellsWitness, IsAdmitted, IsWitnessOf, HasWitnessFault};
ghost use Rattle.aig_sim.specs.state.Checking.{SpellsFrames};

use crate::witness::fault::WitnessFault;
use crate::witness::{admitted_parts, new_values, read_start, read_values};
use aig_base::{Circuit, Memory, Tern};
use aig_values::Stimulus;
use std::alloc::Global;

/// A witness: the position of its property, what its latches start at, and its inputs' values frame by frame.
#[derive(Drop, Debug)]
pub struct Witness {
    pub property: u32,
    pub start: Vec<Tern>,
    pub rows: Stimulus,
}

// Appends so many rows of the text of a witness.
fn push_rows(rows: &mut Stimulus, row: &mut [Tern], text: &[u8], frames: u32) -> Result<(), Memory>
    requires none { rows.old.rows ≡ [] }
    requires row { length row.old ≡ rows.old.width }
    requires limit { frames ≤ frame_limit }
    requires text { (given : List (List Tern)) × (length given ≡ frames) × SpellsFrames rows.old.width text.now given }
    ensures { OnOk result ((given : List (List Tern)) → length given ≡ frames →
        SpellsFrames rows.old.width text.now given → rows.new ≡ record rows.old { rows = given }) }
{
    let mut rest = text;
    for _frame in 0..frames {
        rest = read_values(row, rest);
        rows.push(row)?;
    }
    Ok(())
}

/// The rows of a witness of so many frames.
pub fn read_rows(alloc: Global, text: &[u8], width: u32, frames: u32) -> Result<Stimulus, Memory>
    requires limit { frames ≤ frame_limit }
    requires rows { (given : List (List Tern)) × (length given ≡ frames) × SpellsFrames width text.now given }
    ensures { IfOk result (λ rows. (given : List (List Tern)) → length given ≡ frames →
        SpellsFrames width text.now given → rows ≡ record { width = width; rows = given }) }
{
    let mut row = new_values(alloc, width as usize)?;
    let mut rows = Stimulus::new(alloc, width);
    push_rows(&mut rows, &mut row, text, frames)?;
    Ok(rows)
}

/// Reads the text of a witness, as `check_witness` does, and keeps its values. Refused are the same texts.
pub fn read_witness(alloc: Global, circuit: &Circuit, text: &[u8]) -> Result<Witness, WitnessFault>
    ensures spelled { IfOk result (λ w. SpellsWitness circuit.now text.now
        (record { property = w.property; start = w.start.items; rows = w.rows.rows })) }
    ensures admitted { IfOk result (λ w. IsAdmitted circuit.now
        (record { property = w.property; start = w.start.items; rows = w.rows.rows })) }
    ensures width { IfOk result (λ w. w.rows.width ≡ length circuit.now.inputs) }
    ensures fault { IfErr result (HasWitnessFault circuit.now text.now) }
{
    circuit.facts();
    let parts = admitted_parts(circuit, text)?;
    let start = read_start(alloc, parts.start, circuit.latches().len())?;
    let width = circuit.inputs().len() as u32;
    let rows = read_rows(alloc, parts.rows, width, parts.frames as u32)?;
    Ok(Witness {
        property: parts.property,
        start,
        rows,
    })
}

/// The position of the property that a witness names. Refused are the texts that `check_witness` refuses. It runs
/// nothing and takes no memory.
pub fn witness_property(circuit: &Circuit, text: &[u8]) -> Result<u32, WitnessFault>
    ensures property { IfOk result (λ property. IsWitnessOf property circuit.now text.now) }
    ensures fault { IfErr result (HasWitnessFault circuit.now text.now) }
{
    circuit.facts();
    let parts = admitted_parts(circuit, text)?;
    Ok(parts.property)
}
