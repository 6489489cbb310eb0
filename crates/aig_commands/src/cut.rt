//! `cut`: a circuit in which some parts may be anything.
ghost use Rattle.std.specs.Prelude.{IfErr, IfOk};
ghost use Rattle.aig_bytes.specs.Flow.{flow};
ghost use Rattle.aig_command.specs.Command.{CommandEnds, OfReader};
ghost use Rattle.aig_commands.specs.Cut.{WritesCut};
ghost use Rattle.aig_cut.specs.Lines.{IsCutBy, RefusesCut};

use crate::toaig::write_converted;
use aig_base::{Circuit, Read, Write};
use aig_command::RunFault;
use aig_cut::{CutFault, cut as cut_circuit};
use aig_format::{Format, read_from};
use std::alloc::Global;

/// The circuit that is cut. The other one ends here, before what is left is written.
fn cut_once(alloc: Global, circuit: Circuit, cuts: &[u8]) -> Result<Circuit, CutFault>
    ensures cut { IfOk result (IsCutBy circuit cuts.now) }
    ensures refused { IfErr result (RefusesCut circuit cuts.now) }
{
    cut_circuit(alloc, &circuit, cuts)
}

/// Cuts a circuit, and writes it in a format.
fn write_cut<W: Write>(
    alloc: Global,
    circuit: Circuit,
    cuts: &[u8],
    to: Format,
    out: &mut W,
) -> Result<(), RunFault>
    ensures { CommandEnds (flow W.written W.failures out.old out.new) RunFault.Output (WritesCut cuts.now to circuit)
        result }
{
    let cut = cut_once(alloc, circuit, cuts)?;
    write_converted(alloc, &cut, to, out)
}

/// The command `cut`: reads a circuit and writes it in a format, as `convert_from` does, where the parts that a text
/// names may be anything. What is unreachable in it is unreachable in the circuit that was read (`law_of_cut` of
/// `aig_refute`). The file is never held whole. If it is rejected, or the text names what the circuit does not have,
/// nothing is written.
pub fn cut<R: Read, W: Write>(
    alloc: Global,
    circuit: &mut R,
    cuts: &[u8],
    to: Format,
    out: &mut W,
) -> Result<(), RunFault>
    ensures ends { CommandEnds (flow W.written W.failures out.old out.new) RunFault.Output
        (OfReader (flow R.left R.failures circuit.old circuit.new) (WritesCut cuts.now to)) result }
{
    match read_from(alloc, circuit) {
        Ok(circuit) => write_cut(alloc, circuit, cuts, to, out),
        Err(fault) => Err(RunFault::Circuit(fault)),
    }
}
