//! `strengthen`: a circuit that is strengthened by a certificate.
ghost use Rattle.std.specs.Prelude.{◌≡◌};
ghost use Rattle.aig_bytes.specs.Flow.{flow};
ghost use Rattle.aig_command.specs.Command.{CommandEnds};
ghost use Rattle.aig_commands.specs.Certified.{OfCertified};
ghost use Rattle.aig_commands.specs.Toaig.{Converts};
ghost use Rattle.aig_commands.specs.declared.certified.Purpose.TheVariants.{Circuit};

use crate::certified::{Certified, Purpose};
use crate::toaig::write_converted;
use aig_base::Write;
use aig_command::RunFault;
use aig_format::Format;
use std::alloc::Global;

/// The command `strengthen`: reads a circuit and a certificate, and writes the strengthened circuit in a format, as
/// `convert_from` does. Its one bad state property is 1 where the property of the circuit is, or where a claim of the
/// certificate is broken; its outputs are these parts. The circuit is an extension of the one that was read: where no
/// run reaches its property, none of the circuit reaches its own (`law_of_extension` of `aig_refute`). If a file is
/// rejected, or the two do not go together, nothing is written.
pub fn strengthen<W: Write>(
    alloc: Global,
    certified: Certified<'_>,
    to: Format,
    out: &mut W,
) -> Result<(), RunFault>
    ensures ends { CommandEnds (flow W.written W.failures out.old out.new) RunFault.Output
        (OfCertified Circuit certified.entry.circuit.now certified.entry.property certified.entry.certificate.now
        (Converts to)) result }
{
    let circuit = certified.strengthened(alloc, Purpose::Circuit)?;
    write_converted(alloc, &circuit, to, out)
}
