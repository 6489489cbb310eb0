//! The symbol of an entry, as lines about a circuit end with it.
ghost use Rattle.aig_bytes.specs.Bytes.{Writes};
ghost use Rattle.aig_unroll.specs.InputMap.{is_same, symbol_name_at};

use aig_base::{Circuit, Io, Kind, Write, write_all};

/// Writes the symbol of an entry, if it has one. It takes no memory.
pub fn write_symbol<W: Write>(
    out: &mut W,
    circuit: &Circuit,
    kind: Kind,
    position: u32,
) -> Result<(), Io>
    ensures written { Writes W.written W.failures out.old out.new
        (symbol_name_at (is_same kind) circuit.now.symbols position) result }
{
    circuit.facts();
    match circuit.symbols().get(kind, position) {
        Some(name) => write_all(out, name),
        None => Ok(()),
    }
}
