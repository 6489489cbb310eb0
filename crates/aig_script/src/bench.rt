//! `bench`: a script on a bench, from bytes to bytes, and the files of what it leaves.
ghost use Rattle.std.specs.Prelude.{◌≡◌, ◌≢◌, ℕ, ◌+◌, ◌≤◌, List, IfOk, IfErr};
ghost use Rattle.aig_bytes.specs.Bytes.{Writes};
ghost use Rattle.aig_bytes.specs.Flow.{flow};
ghost use Rattle.aig_bench.specs.BenchState.{CircuitAndRows};
ghost use Rattle.aig_command.specs.Command.{IsFileOf, EndsReading};
ghost use Rattle.aig_script.specs.Bench.{RunsScript, LeavesBench};
ghost use Rattle.aig_script.specs.BenchFiles.{AreFilesOf, AreBenchFiles, RefusesFiles};
ghost use Rattle.aig_script.specs.BenchFiles.{circuit_text, stimulus_rows_text};

use crate::script::run_script;
use aig_base::{Io, Read, Write};
use aig_bench::Bench;
use aig_command::{RunFault, ScriptFault, as_output, read_circuit, read_rows};
use aig_format::{law_of_round_trip, write_ascii};
use aig_sim::{Grid, write_stimulus};
use std::alloc::Global;

/// A bench of a circuit file and a stimulus file.
pub fn open_bench<G: Grid>(
    alloc: Global,
    circuit: &[u8],
    stimulus: &[u8],
) -> Result<Bench<G>, RunFault>
    ensures bench { IfOk result (λ bench. AreBenchFiles circuit.now stimulus.now bench.pair) }
    ensures fault { IfErr result (RefusesFiles circuit.now stimulus.now) }
{
    let circuit = read_circuit(alloc, circuit)?;
    let stimulus = read_rows(alloc, &circuit, stimulus)?;
    Ok(Bench::new(alloc, circuit, stimulus)?)
}

/// Reads circuit and stimulus, makes the bench and runs the script on it: for every circuit file that is accepted,
/// every stimulus for it and every script, the bytes that are written are those of the script's meaning. At most one
/// call of the reader or the writer fails. Where a file is refused, or no memory is found for the script, nothing is
/// read or written.
pub fn run_bench<G: Grid, R: Read, W: Write>(
    alloc: Global,
    circuit: &[u8],
    stimulus: &[u8],
    script: &mut R,
    out: &mut W,
) -> Result<(), RunFault>
    ensures ends { EndsReading (flow R.left R.failures script.old script.new)
        (flow W.written W.failures out.old out.new) (RunFault.Script ScriptFault.Io)
        (RunsScript circuit.now stimulus.now) result }
    ensures count { R.failures script.new + W.failures out.new ≤ R.failures script.old + W.failures out.old + 1 }
    ensures refused { IfErr result (λ fault. fault ≢ RunFault.Script ScriptFault.Io →
        (script.new ≡ script.old) × (out.new ≡ out.old)) }
{
    let _left = bench::<G, R, W>(alloc, circuit, stimulus, script, out)?;
    Ok(())
}

/// The command `bench`: writes the replies to a script as `run_bench` does, and returns the bench that the script
/// leaves. Its circuit and rows are those that the script's meaning ends with.
pub fn bench<G: Grid, R: Read, W: Write>(
    alloc: Global,
    circuit: &[u8],
    stimulus: &[u8],
    script: &mut R,
    out: &mut W,
) -> Result<Bench<G>, RunFault>
    ensures ends { EndsReading (flow R.left R.failures script.old script.new)
        (flow W.written W.failures out.old out.new) (RunFault.Script ScriptFault.Io)
        (LeavesBench circuit.now stimulus.now) result }
    ensures count { R.failures script.new + W.failures out.new ≤ R.failures script.old + W.failures out.old + 1 }
    ensures refused { IfErr result (λ fault. fault ≢ RunFault.Script ScriptFault.Io →
        (script.new ≡ script.old) × (out.new ≡ out.old)) }
{
    let mut bench = open_bench::<G>(alloc, circuit, stimulus)?;
    run_script(alloc, &mut bench, script, out)?;
    Ok(bench)
}

/// Writes the circuit of a bench as text, as it stands: gates and symbols in their order, an appended gate last, and
/// the comment. Where a write fails it has written a beginning. Its contract also says that this text is a file of that
/// circuit. It takes no memory.
pub fn keep_circuit<G: Grid, W: Write>(bench: &Bench<G>, out: &mut W) -> Result<(), RunFault>
    ensures written { Writes W.written W.failures out.old out.new (circuit_text bench.now.pair) result }
    ensures output { IfErr result (λ fault. fault ≡ RunFault.Output) }
    ensures file { IsFileOf (circuit_text bench.now.pair) bench.now.pair.circuit }
{
    // Their contracts say that it is a circuit, and what its text spells.
    bench.width();
    law_of_round_trip();
    as_output(write_ascii(bench.circuit(), out))
}

/// Writes the rows of a bench as a stimulus. Where a write fails it has written a beginning. Its contract also says
/// that this text and that of the circuit are files of which a bench with the same circuit and rows can be made. It
/// takes no memory.
pub fn keep_stimulus<G: Grid, W: Write>(bench: &Bench<G>, out: &mut W) -> Result<(), RunFault>
    ensures written { Writes W.written W.failures out.old out.new (stimulus_rows_text bench.now.pair) result }
    ensures output { IfErr result (λ fault. fault ≡ RunFault.Output) }
    ensures files { AreBenchFiles (circuit_text bench.now.pair) (stimulus_rows_text bench.now.pair) bench.now.pair }
{
    // Their contracts say that it is a circuit, and what its text spells.
    bench.width();
    law_of_round_trip();
    let stimulus = bench.stimulus();
    // Its contract says how many rows there are at most.
    stimulus.frames();
    match write_stimulus(out, stimulus) {
        Ok(()) => Ok(()),
        Err(Io) => Err(RunFault::Output),
    }
}

/// Files are of one circuit and one list of rows, so that a run on the files of a pair begins with that pair (our own
/// choice).
pub fn law_of_kept_files()
    ensures { (circuit stimulus : List ℕ) (p q : CircuitAndRows) → AreFilesOf circuit stimulus p
        → AreFilesOf circuit stimulus q
        → p ≡ q }
{}
