//! Writing the text of a witness.
ghost use Rattle.std.specs.Prelude.{◌≡◌, ◌<◌, ◌≤◌, ◌∷◌, [], ◌++◌, codes, decimal, length, take};
ghost use Rattle.aig_bytes.specs.Bytes.{Writes};
ghost use Rattle.aig_sim.specs.StimulusText.{row_line};
ghost use Rattle.aig_sim.specs.WitnessText.{IsDecimal, witness_rows_text, witness_text};

use crate::stimulus::writer::{put_row, put_rows};
use aig_base::{Io, Tern, Write, write_all, write_number};
use aig_values::Stimulus;
use aig_values::trace_line::TraceBlock;

// Writes the lines of a start and of the first rows, and the line `.`.
fn write_run<W: Write>(out: &mut W, start: &[Tern], rows: &Stimulus, frames: u32) -> Result<(), Io>
    requires { frames ≤ length rows.now.rows }
    ensures { Writes W.written W.failures out.old out.new
        (row_line start.now ++ witness_rows_text (take frames rows.now.rows)) result }
{
    let mut block = TraceBlock::new();
    put_row(out, &mut block, start)?;
    put_rows(out, &mut block, rows, frames)?;
    block.put_all(out, b".\n")?;
    block.forward(out)
}

/// Writes the text of the witness of a property with this start and the first of these rows, as many as `frames` says.
/// It takes no memory, and writes the first lines in small pieces: pass a writer that buffers them.
pub fn write_witness<W: Write>(
    out: &mut W,
    property: u32,
    start: &[Tern],
    rows: &Stimulus,
    frames: u32,
) -> Result<(), Io>
    requires { frames ≤ length rows.now.rows }
    ensures written { Writes W.written W.failures out.old out.new
        (witness_text (decimal property) start.now (take frames rows.now.rows)) result }
    ensures position { IsDecimal (decimal property) property }
{
    write_all(out, b"1\nb")?;
    write_number(out, property)?;
    write_all(out, b"\n")?;
    write_run(out, start, rows, frames)
}
