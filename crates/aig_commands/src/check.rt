//! `check`: the verdict on a witness.
ghost use Rattle.std.specs.Prelude.{◌≡◌, ◌≢◌, ℕ, ◌+◌, ◌≤◌, Err, IfErr, IfOk, IfSome, None, OnOk, codes};
ghost use Rattle.aig_bytes.specs.Bytes.{Writes};
ghost use Rattle.aig_bytes.specs.Flow.{flow};
ghost use Rattle.aig_command.specs.Command.{OfFile};
ghost use Rattle.aig_command.specs.Command.{CommandEnds};
ghost use Rattle.aig_commands.specs.GoesWell.{GoesWell, WritesOnce};
ghost use Rattle.aig_commands.specs.Check.{verdict_text, AreConfirmed, Checks, ChecksAndTraces, HoldsConfirmed, IsShown};
ghost use Rattle.aig_commands.specs.Check.{OfProperty, Prints, PrintsWithin};
ghost use Rattle.aig_commands.specs.state.Asked.{RefusesAsked};
ghost use Rattle.aig_sim.specs.Replayed.{Replays};
ghost use Rattle.aig_sim.specs.Verdict.{ShowsVerdict};
ghost use Rattle.aig_sim.specs.WitnessText.{IsWitnessOf};

use aig_base::{Circuit, Io, Write, write_all, write_number};
use aig_command::{RunFault, read_circuit};
use aig_sim::{
    ReplayFault, Verdict, check_witness, trace_properties, trace_witness, witness_property,
};
use std::alloc::Global;

/// What the trace of a witness's run shows of each frame.
#[derive(Clone, Copy, Drop)]
pub enum Shown {
    /// What `sim` shows: state, inputs, outputs and next state.
    Trace,
    /// After them the bad state properties and the constraints.
    Properties,
}

/// Writes the line of a latch that starts at a wrong value.
fn write_initial<W: Write>(latch: u32, out: &mut W) -> Result<(), Io>
    ensures { Writes W.written W.failures out.old out.new (verdict_text (Verdict.Initial latch)) result }
{
    write_all(out, b"initial ")?;
    write_number(out, latch)?;
    write_all(out, b"\n")
}

/// Writes the line of a constraint that is not 1 at a frame.
fn write_constraint<W: Write>(frame: u32, constraint: u32, out: &mut W) -> Result<(), Io>
    ensures { Writes W.written W.failures out.old out.new (verdict_text (Verdict.Constraint frame constraint)) result }
{
    write_all(out, b"constraint ")?;
    write_number(out, frame)?;
    write_all(out, b" ")?;
    write_number(out, constraint)?;
    write_all(out, b"\n")
}

/// Writes the line of a verdict.
pub(crate) fn write_verdict<W: Write>(verdict: Verdict, out: &mut W) -> Result<(), Io>
    ensures { Writes W.written W.failures out.old out.new (verdict_text verdict) result }
{
    match verdict {
        Verdict::Initial(latch) => write_initial(latch, out),
        Verdict::Constraint(frame, constraint) => write_constraint(frame, constraint, out),
        Verdict::NotBad => write_all(out, b"not bad\n"),
        Verdict::Confirmed => write_all(out, b"confirmed\n"),
    }
}

/// Checks a witness of a circuit, and writes its verdict's line.
fn check_circuit<W: Write>(
    alloc: Global,
    circuit: &Circuit,
    witness: &[u8],
    out: &mut W,
) -> Result<Verdict, RunFault>
    ensures printed { Prints (W.written out.old) (W.written out.new) (codes "confirmed") →
        HoldsConfirmed circuit.now witness.now }
    ensures ends { CommandEnds (flow W.written W.failures out.old out.new) RunFault.Output
        (Checks witness.now circuit.now) result }
    ensures once { WritesOnce (Checks witness.now circuit.now) (flow W.written W.failures out.old out.new) result }
{
    let verdict = check_witness(alloc, circuit, witness)?;
    match write_verdict(verdict, out) {
        Ok(()) => Ok(verdict),
        Err(Io) => Err(RunFault::Output),
    }
}

/// Rejects a witness of another property than the one that is asked for, if one is.
fn refuse_other(circuit: &Circuit, witness: &[u8], asked: Option<u32>) -> Result<(), RunFault>
    ensures ok { OnOk result (IfSome asked (λ property. IsWitnessOf property circuit.now witness.now)) }
    ensures fault { IfErr result (RefusesAsked asked circuit.now witness.now) }
{
    let Some(asked) = asked else {
        return Ok(());
    };
    let found = witness_property(circuit, witness)?;
    if found != asked {
        return Err(RunFault::OtherProperty { found, asked });
    }
    Ok(())
}

/// Checks a witness against the circuit of a file (AIGER 1.9, witnesses). It writes the verdict's line (`confirmed`,
/// `initial P`, `constraint T P` or `not bad`) and answers the verdict, for every circuit file that is accepted and
/// every witness for it. A circuit that is refused wins over the witness; at a refusal nothing is written. A failed
/// write is reported only of an admitted witness. It does not flush.
pub fn check_bytes<W: Write>(
    alloc: Global,
    circuit: &[u8],
    witness: &[u8],
    out: &mut W,
) -> Result<Verdict, RunFault>
    ensures printed { Prints (W.written out.old) (W.written out.new) (codes "confirmed") →
        AreConfirmed None circuit.now witness.now }
    ensures ends { CommandEnds (flow W.written W.failures out.old out.new) RunFault.Output
        (OfFile circuit.now (Checks witness.now)) result }
    ensures count { W.failures out.new ≤ W.failures out.old + 1 }
    ensures refused { IfErr result (λ fault. fault ≢ RunFault.Output → out.new ≡ out.old) }
    ensures output { result ≡ Err RunFault.Output → GoesWell (OfFile circuit.now (Checks witness.now)) }
{
    check(alloc, circuit, witness, None, out)
}

/// The command `check`: checks as `check_bytes` does. If a property is asked for, it rejects a witness of another
/// property: after the faults of the text, and before it runs the circuit.
pub fn check<W: Write>(
    alloc: Global,
    circuit: &[u8],
    witness: &[u8],
    property: Option<u32>,
    out: &mut W,
) -> Result<Verdict, RunFault>
    ensures printed { Prints (W.written out.old) (W.written out.new) (codes "confirmed") →
        AreConfirmed property circuit.now witness.now }
    ensures ends { CommandEnds (flow W.written W.failures out.old out.new) RunFault.Output
        (OfFile circuit.now (OfProperty property Checks witness.now)) result }
    ensures count { W.failures out.new ≤ W.failures out.old + 1 }
    ensures refused { IfErr result (λ fault. fault ≢ RunFault.Output → out.new ≡ out.old) }
    ensures output { result ≡ Err RunFault.Output →
        GoesWell (OfFile circuit.now (OfProperty property Checks witness.now)) }
{
    let circuit = read_circuit(alloc, circuit)?;
    refuse_other(&circuit, witness, property)?;
    check_circuit(alloc, &circuit, witness, out)
}

/// Writes the trace of a witness's run, and returns its verdict.
fn write_trace<W: Write>(
    alloc: Global,
    circuit: &Circuit,
    witness: &[u8],
    shown: Shown,
    out: &mut W,
) -> Result<Verdict, ReplayFault>
    ensures text { Replays (λ raw start rows text. IsShown shown raw start rows text) circuit.now witness.now
        (flow W.written W.failures out.old out.new) result }
    ensures verdict { IfOk result (ShowsVerdict circuit.now witness.now) }
{
    match shown {
        Shown::Trace => trace_witness(alloc, circuit, witness, out),
        Shown::Properties => trace_properties(alloc, circuit, witness, out),
    }
}

/// Writes the trace of a witness's run, and then the line of its verdict.
fn write_run<W: Write>(
    alloc: Global,
    circuit: &Circuit,
    witness: &[u8],
    shown: Shown,
    out: &mut W,
) -> Result<Verdict, RunFault>
    ensures { CommandEnds (flow W.written W.failures out.old out.new) RunFault.Output
        (ChecksAndTraces shown witness.now circuit.now) result }
{
    // Its contract says that this is a circuit: then each witness of it has a verdict.
    circuit.facts();
    let verdict = match write_trace(alloc, circuit, witness, shown, out) {
        Ok(verdict) => verdict,
        Err(ReplayFault::Witness(why)) => return Err(RunFault::Witness(why)),
        Err(ReplayFault::Io) => return Err(RunFault::Output),
    };
    match write_verdict(verdict, out) {
        Ok(()) => Ok(verdict),
        Err(Io) => Err(RunFault::Output),
    }
}

/// The command `check --trace`: checks a witness as `check` does, and writes the trace of its run before the verdict's
/// line, with properties for `--properties`. At a refusal nothing is written.
pub fn check_and_trace<W: Write>(
    alloc: Global,
    circuit: &[u8],
    witness: &[u8],
    property: Option<u32>,
    shown: Shown,
    out: &mut W,
) -> Result<Verdict, RunFault>
    ensures printed { PrintsWithin (W.written out.old) (W.written out.new) (codes "confirmed") →
        AreConfirmed property circuit.now witness.now }
    ensures ends { CommandEnds (flow W.written W.failures out.old out.new) RunFault.Output
        (OfFile circuit.now (OfProperty property (ChecksAndTraces shown) witness.now)) result }
{
    let read = read_circuit(alloc, circuit)?;
    refuse_other(&read, witness, property)?;
    write_run(alloc, &read, witness, shown, out)
}
