//! `unroll`: a circuit unrolled for some frames, and the map of its inputs.
ghost use Rattle.std.specs.Prelude.{◌≡◌, ◌≢◌, ℕ, ◌+◌, ◌≤◌, Err, IfErr};
ghost use Rattle.aig_base.specs.Renumbered.{IsBinaryReady};
ghost use Rattle.aig_bytes.specs.Bytes.{Writes};
ghost use Rattle.aig_bytes.specs.Flow.{flow};
ghost use Rattle.aig_unroll.specs.InputMap.{map_text};
ghost use Rattle.aig_command.specs.Command.{OfFile};
ghost use Rattle.aig_command.specs.Command.{CommandEnds};
ghost use Rattle.aig_commands.specs.GoesWell.{GoesWell, WritesOnce};
ghost use Rattle.aig_commands.specs.Unroll.{IsMap, Unrolls, UnrollsKept, short_spelling};

use aig_base::{Circuit, Io, Levels, Write};
use aig_command::{RunFault, as_output, read_circuit};
use aig_format::{Format, write_ascii, write_binary};
use aig_unroll::write_input_map;
use std::alloc::Global;

/// Writes a circuit that a binary file can hold in a format, as it stands.
fn write_short<W: Write>(circuit: &Circuit, to: Format, out: &mut W) -> Result<(), RunFault>
    requires { IsBinaryReady circuit.now }
    ensures written { Writes W.written W.failures out.old out.new (short_spelling to circuit.now) result }
    ensures output { IfErr result (λ fault. fault ≡ RunFault.Output) }
{
    match to {
        Format::Ascii => as_output(write_ascii(circuit, out)),
        Format::Binary => as_output(write_binary(circuit, out)),
    }
}

/// Unrolls a circuit for this many frames, and writes it in a format.
fn unroll_circuit<W: Write>(
    alloc: Global,
    circuit: &Circuit,
    frames: u32,
    to: Format,
    out: &mut W,
) -> Result<(), RunFault>
    ensures ends { CommandEnds (flow W.written W.failures out.old out.new) RunFault.Output
        (Unrolls frames to circuit.now) result }
    ensures once { WritesOnce (Unrolls frames to circuit.now) (flow W.written W.failures out.old out.new) result }
{
    let levels = Levels::of(alloc, circuit)?;
    let unrolled = aig_unroll::unroll(alloc, circuit, &levels, frames)?;
    write_short(&unrolled, to, out)
}

/// Reads a circuit, unrolls it for this many frames, and writes the unrolled circuit in a format: for every circuit
/// file that is accepted, the bytes that are written are the short spelling of the unrolled circuit. Where the circuit
/// is not unrolled, or no memory was found for its levels, nothing is written. A failed write is reported only of a
/// circuit that is unrolled. It does not flush.
pub fn unroll_bytes<W: Write>(
    alloc: Global,
    circuit: &[u8],
    frames: u32,
    to: Format,
    out: &mut W,
) -> Result<(), RunFault>
    ensures ends { CommandEnds (flow W.written W.failures out.old out.new) RunFault.Output
        (OfFile circuit.now (Unrolls frames to)) result }
    ensures count { W.failures out.new ≤ W.failures out.old + 1 }
    ensures refused { IfErr result (λ fault. fault ≢ RunFault.Output → out.new ≡ out.old) }
    ensures output { result ≡ Err RunFault.Output → GoesWell (OfFile circuit.now (Unrolls frames to)) }
{
    let circuit = read_circuit(alloc, circuit)?;
    unroll_circuit(alloc, &circuit, frames, to, out)
}

/// The command `unroll`: unrolls as `unroll_bytes` does, and returns the circuit that was read, for `unroll_map`.
pub fn unroll<W: Write>(
    alloc: Global,
    circuit: &[u8],
    frames: u32,
    to: Format,
    out: &mut W,
) -> Result<Circuit, RunFault>
    ensures ends { CommandEnds (flow W.written W.failures out.old out.new) RunFault.Output
        (OfFile circuit.now (UnrollsKept frames to)) result }
{
    let circuit = read_circuit(alloc, circuit)?;
    match unroll_circuit(alloc, &circuit, frames, to, out) {
        Ok(()) => Ok(circuit),
        Err(fault) => Err(fault),
    }
}

/// The map of `unroll --map`: writes what each input of the circuit unrolled for this many frames is, a line each. Only
/// a write can fail.
pub fn unroll_map<W: Write>(circuit: &Circuit, frames: u32, out: &mut W) -> Result<(), RunFault>
    ensures ends { CommandEnds (flow W.written W.failures out.old out.new) RunFault.Output (IsMap frames circuit.now)
        result }
{
    match write_input_map(circuit, frames, out) {
        Ok(()) => Ok(()),
        Err(Io) => Err(RunFault::Output),
    }
}
