//! Dumps of a simulation.
ghost use Rattle.std.specs.Prelude.{◌≡◌, ◌++◌, [], IfErr};
ghost use Rattle.aig_bytes.specs.Bytes.{Writes};
ghost use Rattle.aig_sim.specs.Dumped.{Dumps};
ghost use Rattle.aig_sim.specs.state.Dumping.{ending};

use crate::dumps::header::circuit_header;
use crate::dumps::recorder::DumpRecorder;
use crate::dumps::text::write_time;
use crate::simulation::Simulation;
use crate::stimulus::fault::StimFault;
use aig_base::{Circuit, Io, Read, Write, write_all};
use std::alloc::Global;

/// Writes the end after so many frames.
pub fn write_end<W: Write>(out: &mut W, frames: u64) -> Result<(), Io>
    ensures { Writes W.written W.failures out.old out.new (ending frames) result }
{
    if frames == 0 {
        return Ok(());
    }
    write_time(out, frames)
}

/// Reads rows to the end, writes a value change dump of their frames (IEEE 1364), and returns how many there were
/// (`u64::MAX` for more). The header goes out before the first read. It keeps what `simulate` keeps, the header, and
/// for each signal its literal and two characters. It reserves all this before it writes the header. There is no limit
/// on frames. It flushes before each read. At a fault in line n the frames of the n - 1 rows before it are written,
/// without the line that ends a dump; where memory runs out, nothing was read or written.
pub fn dump<R: Read, W: Write>(
    alloc: Global,
    circuit: &Circuit,
    reader: &mut R,
    out: &mut W,
) -> Result<u64, StimFault>
    ensures dumped { Dumps circuit.now
        (record { left = R.left reader.old; reads = R.failures reader.old; writes = W.failures out.old })
        (record { left = R.left reader.new; reads = R.failures reader.new; writes = W.failures out.new })
        (W.written out.old) (W.written out.new) result }
    ensures memory { IfErr result (λ fault. fault ≡ StimFault.Memory → (reader.new ≡ reader.old)
        × (out.new ≡ out.old)) }
{
    let header = circuit_header(alloc, circuit)?;
    let recorder = DumpRecorder::new(alloc, circuit)?;
    let mut simulation = Simulation::new(alloc, circuit, recorder)?;
    write_all(out, header.as_slice())?;
    let frames = simulation.run(reader, out)?;
    write_end(out, frames)?;
    Ok(frames)
}
