//! A circuit's file.
ghost use Rattle.std.specs.Prelude.{IfOk, IfErr};
ghost use Rattle.aig_command.specs.Command.{IsFileOf, RefusesCircuit};

use aig_base::{Circuit, Fault};
use aig_format::read;
use std::alloc::Global;

/// Reads a circuit file.
pub fn read_circuit(alloc: Global, file: &[u8]) -> Result<Circuit, Fault>
    ensures circuit { IfOk result (IsFileOf file.now) }
    ensures fault { IfErr result (RefusesCircuit file.now) }
{
    read(alloc, file)
}
