//! `witness --alive`: the witness of the run that a solver's model names, if that keeps all constraints.
ghost use Rattle.std.specs.Prelude.{◌≡◌, ◌≤◌, ◌<◌, [], Err, IfErr, IfOk, OnOk, decimal, length};
ghost use Rattle.aig_bytes.specs.Bytes.{Writes};
ghost use Rattle.aig_bytes.specs.Flow.{flow};
ghost use Rattle.aig_cnf.specs.ReadFormula.{IsReadAliveOf};
ghost use Rattle.aig_command.specs.Command.{CommandEnds};
ghost use Rattle.aig_commands.specs.AliveWitness.{NamesKept, WritesAliveModel};
ghost use Rattle.aig_commands.specs.ModelWitness.{rows_named, start_named};
ghost use Rattle.aig_parts.specs.Limits.{frame_limit};
ghost use Rattle.aig_refute.specs.Satisfiable.{KeepsConstraints};
ghost use Rattle.aig_sim.specs.WitnessText.{IsDecimal, witness_text};
ghost use Rattle.aig_unroll.specs.FrameLiteral.{input_count};

use crate::model_witness::read_values;
use crate::named_run::named_run;
use crate::spread::spread_run;
use crate::witness::start_by_resets;
use aig_base::{Circuit, Io, Tern, Write};
use aig_cnf::ReadFormula;
use aig_command::RunFault;
use aig_sim::{ReachFault, Run, first_break, write_witness};
use std::alloc::Global;

/// Refuses a run that does not keep all constraints at its first frames, so many of them.
fn refuse_broken(alloc: Global, circuit: &Circuit, run: &Run, frames: u32) -> Result<(), ReachFault>
    requires start { length run.now.start.items ≡ length circuit.now.latches }
    requires width { run.now.rows.width ≡ length circuit.now.inputs }
    ensures kept { OnOk result (KeepsConstraints circuit.now frames run.now.start.items run.now.rows.rows) }
    ensures none { result ≡ Err ReachFault.NoRun →
        KeepsConstraints circuit.now frames run.now.start.items run.now.rows.rows → ⊥ }
    ensures property { result ≡ Err ReachFault.Property → ⊥ }
{
    circuit.facts();
    // Its contract says that the rows have the width.
    run.rows.width();
    match first_break(alloc, circuit, run, frames)? {
        None => Ok(()),
        Some(_) => Err(ReachFault::NoRun),
    }
}

/// The run that the values name, if it keeps all constraints.
fn kept_run(
    alloc: Global,
    circuit: &Circuit,
    read: &ReadFormula,
    frames: u32,
    values: &[Tern],
) -> Result<Run, ReachFault>
    requires read { IsReadAliveOf circuit.now frames read.now }
    requires frames { frames ≤ frame_limit }
    requires values { input_count read.now.small frames < length values.now }
    ensures start { IfOk result (λ run. run.start.items ≡ start_named circuit.now read.now frames values.now) }
    ensures rows { IfOk result (λ run. run.rows.rows ≡ rows_named circuit.now read.now frames values.now) }
    ensures kept { OnOk result (KeepsConstraints circuit.now frames (start_named circuit.now read.now frames values.now)
        (rows_named circuit.now read.now frames values.now)) }
    ensures refused { IfErr result (λ fault.
        NamesKept frames values.now circuit.now read.now (Err (RunFault.Reach fault)) []) }
{
    let part = read.part();
    part.facts();
    let run = named_run(alloc, part, frames, values)?;
    refuse_broken(alloc, part, &run, frames)?;
    let resets = start_by_resets(alloc, circuit)?;
    Ok(spread_run(alloc, circuit, read.marks(), &resets, &run)?)
}

/// Writes the witness of a run. Its property is 0.
fn write_run<W: Write>(run: &Run, out: &mut W) -> Result<(), RunFault>
    ensures written { Writes W.written W.failures out.old out.new
        (witness_text (decimal 0) run.now.start.items run.now.rows.rows) result }
    ensures output { IfErr result (λ fault. fault ≡ RunFault.Output) }
    ensures position { IsDecimal (decimal 0) 0 }
{
    match write_witness(out, 0, &run.start, &run.rows, run.rows.frames()) {
        Ok(()) => Ok(()),
        Err(Io) => Err(RunFault::Output),
    }
}

/// Writes the witness of the run that the values name.
fn find_and_write<W: Write>(
    alloc: Global,
    circuit: &Circuit,
    read: &ReadFormula,
    frames: u32,
    values: &[Tern],
    out: &mut W,
) -> Result<(), RunFault>
    requires read { IsReadAliveOf circuit.now frames read.now }
    requires some { 0 < frames }
    requires frames { frames ≤ frame_limit }
    requires values { input_count read.now.small frames < length values.now }
    ensures { CommandEnds (flow W.written W.failures out.old out.new) RunFault.Output
        (NamesKept frames values.now circuit.now read.now) result }
{
    let run = kept_run(alloc, circuit, read, frames, values)?;
    write_run(&run, out)
}

/// Writes the witness of the run that a model's text names.
pub(crate) fn read_model_and_write<W: Write>(
    alloc: Global,
    circuit: &Circuit,
    frames: u32,
    model: &[u8],
    out: &mut W,
) -> Result<(), RunFault>
    ensures { CommandEnds (flow W.written W.failures out.old out.new) RunFault.Output
        (WritesAliveModel frames model.now circuit.now) result }
{
    let read = ReadFormula::alive(alloc, circuit, frames)?;
    let values = read_values(alloc, model, read.formula().variables())?;
    find_and_write(alloc, circuit, &read, frames, values.as_slice(), out)
}
