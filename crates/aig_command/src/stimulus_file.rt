//! Stimulus files.
ghost use Rattle.std.specs.Prelude.{◌≡◌, ◌≤◌, length, IfOk, IfErr};
ghost use Rattle.aig_base.specs.Circuit.{IsCircuit};
ghost use Rattle.aig_parts.specs.Limits.{frame_limit};
ghost use Rattle.aig_sim.specs.StimulusText.{SpellsRows};
ghost use Rattle.aig_command.specs.Command.{RefusesStimulus};

use aig_base::Circuit;
use aig_sim::{StimFault, Stimulus, read_stimulus};
use std::alloc::Global;

/// Reads a stimulus file for a circuit: a row for each frame, 65,536 at most, with a value for each input.
pub fn read_rows(alloc: Global, circuit: &Circuit, file: &[u8]) -> Result<Stimulus, StimFault>
    requires { IsCircuit circuit.now }
    ensures width { IfOk result (λ stimulus. stimulus.width ≡ length circuit.now.inputs) }
    ensures rows { IfOk result (λ stimulus. SpellsRows (length circuit.now.inputs) file.now stimulus.rows) }
    ensures limit { IfOk result (λ stimulus. length stimulus.rows ≤ frame_limit) }
    ensures fault { IfErr result (RefusesStimulus (length circuit.now.inputs) file.now) }
{
    read_stimulus(alloc, file, circuit.inputs().len() as u32)
}
