//! The run that is given with a circuit.
ghost use Rattle.std.specs.Prelude.{◌≡◌, IfErr, IfOk, length};
ghost use Rattle.aig_base.specs.Circuit.{IsCircuit};
ghost use Rattle.aig_command.specs.Given.{by_resets, given_text, IsGiven, RefusesGiven, read_run};

use crate::run_fault::RunFault;
use crate::stimulus_file::read_rows;
use aig_base::{Circuit, Tern};
use aig_sim::{Stimulus, Witness, first_states, read_witness};
use std::alloc::Global;

/// The run that is given with a circuit: by the text of a stimulus or of a witness, or by none; or by an open file.
#[derive(Clone, Copy, Drop)]
pub enum Given<T> {
    /// No frames, from the start by the resets.
    Nothing,
    /// The rows of a stimulus, from the start by the resets.
    Stimulus(T),
    /// The run of a witness, from its own start.
    Witness(T),
}

/// A run that was read: the position of the property that a witness names, what the latches start at, and the inputs'
/// values frame by frame.
#[derive(Drop)]
pub struct GivenRun {
    pub property: Option<u32>,
    pub start: Vec<Tern>,
    pub rows: Stimulus,
}

/// The run over some rows, from the start by the resets.
fn run_by_resets(alloc: Global, circuit: &Circuit, rows: Stimulus) -> Result<GivenRun, RunFault>
    ensures run { IfOk result (λ run. read_run run ≡ by_resets circuit.now rows.rows) }
    ensures width { IfOk result (λ run. run.rows.width ≡ rows.width) }
    ensures memory { IfErr result (λ fault. fault ≡ RunFault.Memory) }
{
    let start = first_states(alloc, circuit)?;
    Ok(GivenRun {
        property: None,
        start,
        rows,
    })
}

/// Reads the run that is given with a circuit: a stimulus as `read_rows` does, a witness as `read_witness` does.
pub fn read_given(
    alloc: Global,
    circuit: &Circuit,
    given: Given<&[u8]>,
) -> Result<GivenRun, RunFault>
    ensures run { IfOk result (λ run. IsGiven circuit.now (given_text given.entry) (read_run run)) }
    ensures width { IfOk result (λ run. run.rows.width ≡ length circuit.now.inputs) }
    ensures fault { IfErr result (RefusesGiven circuit.now (given_text given.entry)) }
{
    circuit.facts();
    match given {
        Given::Nothing => {
            let rows = Stimulus::new(alloc, circuit.inputs().len() as u32);
            run_by_resets(alloc, circuit, rows)
        }
        Given::Stimulus(text) => {
            let rows = read_rows(alloc, circuit, text)?;
            run_by_resets(alloc, circuit, rows)
        }
        Given::Witness(text) => {
            let Witness {
                property,
                start,
                rows,
            } = read_witness(alloc, circuit, text)?;
            Ok(GivenRun {
                property: Some(property),
                start,
                rows,
            })
        }
    }
}
