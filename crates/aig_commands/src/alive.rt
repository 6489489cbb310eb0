//! `check --alive`: whether a run keeps all constraints.
ghost use Rattle.std.specs.Prelude.{◌≡◌, IfErr, IfOk, Some, codes};
ghost use Rattle.aig_bytes.specs.Bytes.{Writes};
ghost use Rattle.aig_bytes.specs.Flow.{flow};
ghost use Rattle.aig_command.specs.Command.{CommandEnds, OfFile};
ghost use Rattle.aig_commands.specs.Check.{Prints};
ghost use Rattle.aig_commands.specs.CheckAlive.{AreAlive, ChecksRun, HoldsAlive, ShowsRun, alive_text};
ghost use Rattle.aig_sim.specs.Breaks.{HasRunFault};

use crate::check::write_verdict;
use aig_base::{Circuit, Io, Write, write_all, write_number};
use aig_command::{RunFault, read_circuit};
use aig_sim::{Break, Verdict, WitnessFault, first_break, read_run};
use std::alloc::Global;

/// Writes the line of a run that has too few frames.
fn write_frames<W: Write>(frames: u32, out: &mut W) -> Result<(), Io>
    ensures { Writes W.written W.failures out.old out.new (alive_text (Some (Break.Frames frames))) result }
{
    write_all(out, b"frames ")?;
    write_number(out, frames)?;
    write_all(out, b"\n")
}

/// Writes the line of an answer: what breaks a run, or that nothing does.
fn write_answer<W: Write>(answer: Option<Break>, out: &mut W) -> Result<(), Io>
    ensures { Writes W.written W.failures out.old out.new (alive_text answer) result }
{
    match answer {
        None => write_all(out, b"alive\n"),
        Some(Break::Initial(latch)) => write_verdict(Verdict::Initial(latch), out),
        Some(Break::Constraint(frame, constraint)) => {
            write_verdict(Verdict::Constraint(frame, constraint), out)
        }
        Some(Break::Frames(frames)) => write_frames(frames, out),
    }
}

/// What breaks the run of a witness at its first frames: so many, or all that it has.
fn find_break(
    alloc: Global,
    circuit: &Circuit,
    witness: &[u8],
    frames: Option<u32>,
) -> Result<Option<Break>, WitnessFault>
    ensures shown { IfOk result (ShowsRun circuit.now frames witness.now) }
    ensures fault { IfErr result (HasRunFault circuit.now witness.now) }
{
    circuit.facts();
    let run = read_run(alloc, circuit, witness)?;
    // Its contract says that the rows have the width.
    run.rows.width();
    let frames = frames.unwrap_or(run.rows.frames());
    let found = first_break(alloc, circuit, &run, frames)?;
    Ok(found)
}

/// Checks the run of a witness, and writes the answer's line.
fn find_and_write<W: Write>(
    alloc: Global,
    circuit: &Circuit,
    witness: &[u8],
    frames: Option<u32>,
    out: &mut W,
) -> Result<Option<Break>, RunFault>
    ensures printed { Prints (W.written out.old) (W.written out.new) (codes "alive") →
        HoldsAlive circuit.now frames witness.now }
    ensures ends { CommandEnds (flow W.written W.failures out.old out.new) RunFault.Output
        (ChecksRun frames witness.now circuit.now) result }
{
    let answer = find_break(alloc, circuit, witness, frames)?;
    match write_answer(answer, out) {
        Ok(()) => Ok(answer),
        Err(Io) => Err(RunFault::Output),
    }
}

/// The command `check --alive`: checks that the run of a witness starts as the resets allow and keeps all constraints at
/// its first frames: so many as are asked for, else all that it has. It writes `alive`, or the line of the first reason
/// why it does not (`initial P`, `constraint T P`, or `frames N` if it has only N), and answers that reason. A value x
/// is not 1. The property that the witness names may be any. At a refusal nothing is written.
pub fn check_alive<W: Write>(
    alloc: Global,
    circuit: &[u8],
    witness: &[u8],
    frames: Option<u32>,
    out: &mut W,
) -> Result<Option<Break>, RunFault>
    ensures printed { Prints (W.written out.old) (W.written out.new) (codes "alive") →
        AreAlive frames circuit.now witness.now }
    ensures ends { CommandEnds (flow W.written W.failures out.old out.new) RunFault.Output
        (OfFile circuit.now (ChecksRun frames witness.now)) result }
{
    let read = read_circuit(alloc, circuit)?;
    find_and_write(alloc, &read, witness, frames, out)
}
