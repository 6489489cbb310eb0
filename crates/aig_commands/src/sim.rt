//! `sim`: the trace of a circuit's run on a stimulus.
ghost use Rattle.std.specs.Prelude.{◌≡◌, Err, IfErr};
ghost use Rattle.aig_bytes.specs.Flow.{flow};
ghost use Rattle.aig_command.specs.Command.{OfReader};
ghost use Rattle.aig_command.specs.Command.{EndsReading};
ghost use Rattle.aig_commands.specs.Sim.{WritesSimulation};
ghost use Rattle.aig_commands.specs.state.Parts.{IsOfStimulus};

use aig_base::{Circuit, Fault, Read, Write};
use aig_command::RunFault;
use aig_format::read_from;
use aig_sim::{StimFault, simulate};
use std::alloc::Global;

/// Simulates a circuit on a stimulus.
fn run<R: Read, W: Write>(
    alloc: Global,
    circuit: &Circuit,
    stimulus: &mut R,
    out: &mut W,
) -> Result<u64, RunFault>
    ensures ends { EndsReading (flow R.left R.failures stimulus.old stimulus.new)
        (flow W.written W.failures out.old out.new)
        (RunFault.Stimulus StimFault.Io) (λ text. WritesSimulation text circuit.now) result }
    ensures part { IfErr result IsOfStimulus }
{
    match simulate(alloc, circuit, stimulus, out) {
        Ok(frames) => Ok(frames),
        Err(fault) => Err(RunFault::Stimulus(fault)),
    }
}

/// The command `sim`: reads the circuit and simulates it on a stimulus that is read row by row, from the start by its
/// resets. For every circuit file that is accepted and every stimulus, the bytes that are written are those of the
/// trace. It answers how many frames there were (`u64::MAX` for more). Where the circuit is refused, or a read of it
/// fails, nothing of the stimulus is read.
pub fn sim<C: Read, R: Read, W: Write>(
    alloc: Global,
    circuit: &mut C,
    stimulus: &mut R,
    out: &mut W,
) -> Result<u64, RunFault>
    ensures ends { EndsReading (flow R.left R.failures stimulus.old stimulus.new)
        (flow W.written W.failures out.old out.new)
        (RunFault.Stimulus StimFault.Io)
        (λ text. OfReader (flow C.left C.failures circuit.old circuit.new) (WritesSimulation text)) result }
    ensures unread { (fault : Fault) → result ≡ Err (RunFault.Circuit fault) → stimulus.new ≡ stimulus.old }
{
    match read_from(alloc, circuit) {
        Ok(circuit) => run(alloc, &circuit, stimulus, out),
        Err(fault) => Err(RunFault::Circuit(fault)),
    }
}
