//! Reading the run of a witness, whatever property that is of.
ghost use Rattle.std.specs.Prelude.{◌≡◌, ◌≤◌, length, IfErr, IfOk};
ghost use Rattle.aig_parts.specs.Limits.{frame_limit};
ghost use Rattle.aig_sim.specs.Breaks.{HasRunFault, SpellsRun};
ghost use Rattle.aig_sim.specs.WitnessText.{SpellsWitness, Witness};
ghost use Rattle.aig_sim.specs.state.Checking.{ArePartsOf};

use crate::witness::fault::WitnessFault;
use crate::witness::read_start;
use crate::witness::reader::read_rows;
use crate::witness::text::{WitnessParts, read_parts};
use aig_base::{Circuit, Tern};
use aig_values::{FRAMES, Stimulus};
use std::alloc::Global;

/// A run: what its latches start at, and its inputs' values frame by frame.
#[derive(Drop, Debug)]
pub struct Run {
    pub start: Vec<Tern>,
    pub rows: Stimulus,
}

// The parts of the text of a witness, of whatever property.
fn run_parts<'a>(circuit: &Circuit, text: &'a [u8]) -> Result<WitnessParts<'a>, WitnessFault>
    ensures parts { IfOk result (λ parts. (w : Witness) × SpellsWitness circuit.now text.now w
        × ArePartsOf circuit.now parts w × (length w.rows ≤ frame_limit)) }
    ensures fault { IfErr result (HasRunFault circuit.now text.now) }
{
    circuit.facts();
    let Some(parts) = read_parts(circuit, text) else {
        return Err(WitnessFault::Text);
    };
    if parts.frames > FRAMES as usize {
        return Err(WitnessFault::Limit);
    }
    Ok(parts)
}

/// Reads the run of a witness. The property that the text names may be any, and the circuit needs none. Refused are, in
/// this order, any other text, and more than 65,536 frames.
pub fn read_run(alloc: Global, circuit: &Circuit, text: &[u8]) -> Result<Run, WitnessFault>
    ensures spelled { IfOk result (λ run. SpellsRun circuit.now text.now run.start.items run.rows.rows) }
    ensures width { IfOk result (λ run. run.rows.width ≡ length circuit.now.inputs) }
    ensures fault { IfErr result (HasRunFault circuit.now text.now) }
{
    circuit.facts();
    let parts = run_parts(circuit, text)?;
    let start = read_start(alloc, parts.start, circuit.latches().len())?;
    let width = circuit.inputs().len() as u32;
    let rows = read_rows(alloc, parts.rows, width, parts.frames as u32)?;
    Ok(Run { start, rows })
}
