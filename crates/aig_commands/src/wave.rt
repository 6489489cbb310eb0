//! `wave`: the value change dump of a run, on a stimulus or of a witness.
ghost use Rattle.std.specs.Prelude.{◌≡◌, ℕ, List, Some, Err, IfErr};
ghost use Rattle.aig_parts.specs.declared.raw.Raw.{Raw};
ghost use Rattle.aig_bytes.specs.Flow.{flow};
ghost use Rattle.aig_command.specs.Command.{IsFileOf, OfFile, OfReader};
ghost use Rattle.aig_command.specs.Command.{CommandEnds, EndsReading};
ghost use Rattle.aig_commands.specs.Wave.{WritesWave, DumpsRun, HeaderFirst};
ghost use Rattle.aig_commands.specs.state.Parts.{IsOfStimulus};

use aig_base::{Circuit, Fault, Read, Write};
use aig_command::{RunFault, read_circuit};
use aig_format::read_from;
use aig_sim::{ReplayFault, StimFault, dump, dump_witness};
use std::alloc::Global;

/// Dumps the run of a circuit on a stimulus.
fn run<R: Read, W: Write>(
    alloc: Global,
    circuit: &Circuit,
    stimulus: &mut R,
    out: &mut W,
) -> Result<u64, RunFault>
    ensures ends { EndsReading (flow R.left R.failures stimulus.old stimulus.new)
        (flow W.written W.failures out.old out.new)
        (RunFault.Stimulus StimFault.Io) (λ text. WritesWave text circuit.now) result }
    ensures part { IfErr result IsOfStimulus }
    ensures header { HeaderFirst (flow R.left R.failures stimulus.old stimulus.new)
        (flow W.written W.failures out.old out.new) circuit.now }
{
    match dump(alloc, circuit, stimulus, out) {
        Ok(frames) => Ok(frames),
        Err(fault) => Err(RunFault::Stimulus(fault)),
    }
}

/// The command `wave`: reads the circuit and writes the value change dump (IEEE 1364) of its run on a stimulus that is
/// read row by row, from the start by its resets. For every circuit file that is accepted and every stimulus, the bytes
/// that are written are those of the dump. It answers how many frames there were (`u64::MAX` for more). Where a read of
/// the circuit fails, no stimulus was read.
pub fn wave<C: Read, R: Read, W: Write>(
    alloc: Global,
    circuit: &mut C,
    stimulus: &mut R,
    out: &mut W,
) -> Result<u64, RunFault>
    ensures ends { EndsReading (flow R.left R.failures stimulus.old stimulus.new)
        (flow W.written W.failures out.old out.new)
        (RunFault.Stimulus StimFault.Io)
        (λ text. OfReader (flow C.left C.failures circuit.old circuit.new) (WritesWave text)) result }
    ensures unread { (fault : Fault) → result ≡ Err (RunFault.Circuit fault) → stimulus.new ≡ stimulus.old }
    ensures header { (file : List ℕ) (raw : Raw) → C.left circuit.old ≡ Some file → IsFileOf file raw
        → HeaderFirst (flow R.left R.failures stimulus.old stimulus.new) (flow W.written W.failures out.old out.new)
        raw }
{
    match read_from(alloc, circuit) {
        Ok(circuit) => run(alloc, &circuit, stimulus, out),
        Err(fault) => Err(RunFault::Circuit(fault)),
    }
}

/// Dumps the run of a witness of a circuit.
fn replay<W: Write>(
    alloc: Global,
    circuit: &Circuit,
    witness: &[u8],
    out: &mut W,
) -> Result<(), RunFault>
    ensures { CommandEnds (flow W.written W.failures out.old out.new) RunFault.Output (DumpsRun witness.now circuit.now)
        result }
{
    match dump_witness(alloc, circuit, witness, out) {
        Ok(()) => Ok(()),
        Err(ReplayFault::Witness(why)) => Err(RunFault::Witness(why)),
        Err(ReplayFault::Io) => Err(RunFault::Output),
    }
}

/// The command `wave --witness`: writes the value change dump (IEEE 1364) of the run that a witness of the circuit of a
/// file describes, from the witness's own start, whatever its verdict. For every circuit file that is accepted and
/// every witness for it, the bytes that are written are those of the dump. A circuit that is refused wins over the
/// witness, which is refused where `check` refuses it; then nothing is written.
pub fn wave_witness<W: Write>(
    alloc: Global,
    circuit: &[u8],
    witness: &[u8],
    out: &mut W,
) -> Result<(), RunFault>
    ensures ends { CommandEnds (flow W.written W.failures out.old out.new) RunFault.Output
        (OfFile circuit.now (DumpsRun witness.now)) result }
{
    let circuit = read_circuit(alloc, circuit)?;
    replay(alloc, &circuit, witness, out)
}
