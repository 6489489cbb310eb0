//! The property that a text names in a circuit's file.
ghost use Rattle.std.specs.Prelude.{IfOk, IfErr};
ghost use Rattle.aig_command.specs.Position.{IsPositionIn, RefusesPositionIn};

use crate::circuit_file::read_circuit;
use crate::run_fault::RunFault;
use aig_base::PropertySection;
use aig_signals::position_of;
use std::alloc::Global;

/// The position of the property of a section that a text names in a circuit's file: by its number, as `3` or `b3`, or
/// else by its name.
pub fn position_in(
    alloc: Global,
    file: &[u8],
    section: PropertySection,
    text: &[u8],
) -> Result<u32, RunFault>
    ensures position { IfOk result (IsPositionIn file.now section text.now) }
    ensures refused { IfErr result (RefusesPositionIn file.now section text.now) }
{
    let circuit = read_circuit(alloc, file)?;
    Ok(position_of(&circuit, section, text)?)
}
