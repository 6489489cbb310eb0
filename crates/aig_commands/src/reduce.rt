//! `reduce`: a witness with x in place of each value that its failure does not need.
ghost use Rattle.std.specs.Prelude.{◌≡◌, IfErr, IfOk};
ghost use Rattle.aig_base.specs.Circuit.{IsCircuit};
ghost use Rattle.aig_bytes.specs.Bytes.{Writes};
ghost use Rattle.aig_bytes.specs.Flow.{flow};
ghost use Rattle.aig_command.specs.Command.{CommandEnds, OfFile};
ghost use Rattle.aig_reduce.specs.Answers.{AnswersReduction};
ghost use Rattle.aig_commands.specs.Reduce.{HasDecimalPosition, Reduces, RefusesToReduce, reduction_text, verdict_of};

use crate::check::write_verdict;
use aig_base::{Circuit, Io, Write};
use aig_command::{RunFault, read_circuit};
use aig_reduce::{ReduceFault, Reduction, reduce_witness};
use aig_sim::Verdict;
use std::alloc::Global;

/// Reduces a witness; a fault is that of the run's part.
fn reduce_text(alloc: Global, circuit: Circuit, witness: &[u8]) -> Result<Reduction, RunFault>
    ensures circuit { IsCircuit circuit }
    ensures reduced { IfOk result (AnswersReduction circuit witness.now) }
    ensures refused { IfErr result (RefusesToReduce witness.now circuit) }
{
    // Its contract says that it is a circuit.
    circuit.facts();
    match reduce_witness(alloc, circuit, witness) {
        Ok(reduction) => Ok(reduction),
        Err(ReduceFault::Witness(fault)) => Err(RunFault::Witness(fault)),
        Err(ReduceFault::Bench(fault)) => Err(RunFault::Bench(fault)),
    }
}

/// The verdict of the witness that was to be reduced.
fn given_verdict(reduction: &Reduction) -> Verdict
    ensures { result ≡ verdict_of reduction.now }
{
    match reduction {
        Reduction::Reduced(_) => Verdict::Confirmed,
        Reduction::Refused(verdict) => *verdict,
    }
}

/// Writes the reduced witness, or the line of another verdict.
fn write_reduction<W: Write>(reduction: &Reduction, out: &mut W) -> Result<(), Io>
    ensures written { Writes W.written W.failures out.old out.new (reduction_text reduction.now) result }
    ensures position { HasDecimalPosition reduction.now }
{
    match reduction {
        Reduction::Reduced(witness) => witness.write(out),
        Reduction::Refused(verdict) => write_verdict(*verdict, out),
    }
}

/// Writes the same, and answers the verdict of the witness that was to be reduced.
fn report<W: Write>(reduction: &Reduction, out: &mut W) -> Result<Verdict, RunFault>
    ensures written { Writes W.written W.failures out.old out.new (reduction_text reduction.now) result }
    ensures verdict { IfOk result (λ verdict. verdict ≡ verdict_of reduction.now) }
    ensures output { IfErr result (λ fault. fault ≡ RunFault.Output) }
    ensures position { HasDecimalPosition reduction.now }
{
    match write_reduction(reduction, out) {
        Ok(()) => Ok(given_verdict(reduction)),
        Err(Io) => Err(RunFault::Output),
    }
}

/// Reduces a witness of a circuit and writes what that gives.
fn reduce_and_write<W: Write>(
    alloc: Global,
    circuit: Circuit,
    witness: &[u8],
    out: &mut W,
) -> Result<Verdict, RunFault>
    ensures { CommandEnds (flow W.written W.failures out.old out.new) RunFault.Output
        (Reduces witness.now circuit) result }
{
    let reduction = reduce_text(alloc, circuit, witness)?;
    report(&reduction, out)
}

/// The command `reduce`: writes a confirmed witness with x in place of each value that can be x while it stays
/// confirmed, as `reduce_witness` finds them. What is written is confirmed, and no more of its values can be x. Of a
/// witness with another verdict it writes the verdict's line, as `check` does, and nothing else. It answers the verdict
/// of the given witness. Nothing is written where the circuit, the witness or, as for `bench`, the number of cells is
/// refused, in this order.
pub fn reduce<W: Write>(
    alloc: Global,
    circuit: &[u8],
    witness: &[u8],
    out: &mut W,
) -> Result<Verdict, RunFault>
    ensures ends { CommandEnds (flow W.written W.failures out.old out.new) RunFault.Output
        (OfFile circuit.now (Reduces witness.now)) result }
{
    let circuit = read_circuit(alloc, circuit)?;
    reduce_and_write(alloc, circuit, witness, out)
}
