//! `toaig`: a circuit file in another format.
ghost use Rattle.std.specs.Prelude.{◌≡◌, ◌≢◌, ℕ, ◌+◌, ◌≤◌, Err, IfErr};
ghost use Rattle.aig_format.specs.declared.reader.header.Format.TheVariants.{Binary};
ghost use Rattle.aig_bytes.specs.Flow.{flow};
ghost use Rattle.aig_command.specs.Command.{OfFile, OfReader};
ghost use Rattle.aig_command.specs.Command.{CommandEnds};
ghost use Rattle.aig_commands.specs.GoesWell.{GoesWell, WritesOnce};
ghost use Rattle.aig_commands.specs.Toaig.{Converts};

use aig_base::{Circuit, Read, Write, is_binary_ready, renumber};
use aig_command::{RunFault, as_output, read_circuit};
use aig_format::{Format, read_from, write_ascii, write_binary};
use std::alloc::Global;

/// Writes a circuit as a binary file: a ready one as it stands, any other renumbered.
fn write_ready<W: Write>(alloc: Global, circuit: &Circuit, out: &mut W) -> Result<(), RunFault>
    ensures ends { CommandEnds (flow W.written W.failures out.old out.new) RunFault.Output (Converts Binary circuit.now)
        result }
    ensures once { WritesOnce (Converts Binary circuit.now) (flow W.written W.failures out.old out.new) result }
{
    if is_binary_ready(circuit) {
        return as_output(write_binary(circuit, out));
    }
    let Ok(renumbered) = renumber(alloc, circuit) else {
        return Err(RunFault::Memory);
    };
    as_output(write_binary(&renumbered, out))
}

/// Writes a circuit in a format: to text as it stands, to binary as it stands where it is ready for that, else
/// renumbered.
pub(crate) fn write_converted<W: Write>(
    alloc: Global,
    circuit: &Circuit,
    to: Format,
    out: &mut W,
) -> Result<(), RunFault>
    ensures ends { CommandEnds (flow W.written W.failures out.old out.new) RunFault.Output (Converts to circuit.now)
        result }
    ensures once { WritesOnce (Converts to circuit.now) (flow W.written W.failures out.old out.new) result }
{
    match to {
        Format::Ascii => as_output(write_ascii(circuit, out)),
        Format::Binary => write_ready(alloc, circuit, out),
    }
}

/// Writes the circuit of a file in a format: to text as it stands, to binary as it stands where it is ready for that,
/// else renumbered. Counts and resets of 0 that may be left out are left out. Where the file is refused, or no memory
/// was found to renumber its circuit, nothing is written. A failed write is reported only of an accepted file. It does
/// not flush.
pub fn convert<W: Write>(
    alloc: Global,
    file: &[u8],
    to: Format,
    out: &mut W,
) -> Result<(), RunFault>
    ensures ends { CommandEnds (flow W.written W.failures out.old out.new) RunFault.Output
        (OfFile file.now (Converts to)) result }
    ensures count { W.failures out.new ≤ W.failures out.old + 1 }
    ensures refused { IfErr result (λ fault. fault ≢ RunFault.Output → out.new ≡ out.old) }
    ensures output { result ≡ Err RunFault.Output → GoesWell (OfFile file.now (Converts to)) }
{
    let circuit = read_circuit(alloc, file)?;
    write_converted(alloc, &circuit, to, out)
}

/// Writes the circuit that a reader holds in a format: as `convert` does for the bytes that the reader holds, or a read
/// failed and nothing is written. The file is never held whole: memory is taken for its circuit, and where that is
/// renumbered for the renumbered one. A failed write is reported only of an accepted file. It does not flush.
pub fn convert_from<R: Read, W: Write>(
    alloc: Global,
    reader: &mut R,
    to: Format,
    out: &mut W,
) -> Result<(), RunFault>
    ensures ends { CommandEnds (flow W.written W.failures out.old out.new) RunFault.Output
        (OfReader (flow R.left R.failures reader.old reader.new) (Converts to)) result }
    ensures count { W.failures out.new ≤ W.failures out.old + 1 }
    ensures refused { IfErr result (λ fault. fault ≢ RunFault.Output → out.new ≡ out.old) }
    ensures output { result ≡ Err RunFault.Output
        → GoesWell (OfReader (flow R.left R.failures reader.old reader.new) (Converts to)) }
{
    match read_from(alloc, reader) {
        Ok(circuit) => write_converted(alloc, &circuit, to, out),
        Err(fault) => Err(RunFault::Circuit(fault)),
    }
}
