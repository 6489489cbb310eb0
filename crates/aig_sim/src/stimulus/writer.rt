//! Writing the text of a stimulus.
ghost use Rattle.std.specs.Prelude.{◌≡◌, ◌≤◌, length, map, take, flat_map};
ghost use Rattle.aig_bytes.specs.Bytes.{Writes};
ghost use Rattle.aig_bytes.specs.Gathered.{Gathers};
ghost use Rattle.aig_values.specs.Characters.{character};
ghost use Rattle.aig_sim.specs.StimulusText.{row_line, SpellsRows};

use aig_base::{Io, Tern, Write};
use aig_values::Stimulus;
use aig_values::code::Code;
use aig_values::trace_line::TraceBlock;

/// How many characters are put at a time.
const PIECE: usize = 256;

// Writes a character for each value.
fn spell_values(text: &mut [u8], values: &[Tern])
    requires { length text.old ≡ length values.now }
    ensures { text.new ≡ map character values.now }
{
    for (place, value) in values.iter().enumerate() {
        text[place] = Code::of(*value).character(false);
    }
}

/// Puts the line of a row.
pub fn put_row<W: Write>(out: &mut W, block: &mut TraceBlock, row: &[Tern]) -> Result<(), Io>
    ensures { Gathers W.written W.failures out.old out.new block.old block.new (row_line row.now) result }
{
    let mut piece = [0u8; PIECE];
    let mut at = 0;
    while at < row.len() {
        let count = PIECE.min(row.len() - at);
        spell_values(&mut piece[..count], &row[at..at + count]);
        block.put_all(out, &piece[..count])?;
        at += count;
    }
    block.put(out, b'\n')
}

/// Puts the lines of the first rows, as many as `frames` says.
pub fn put_rows<W: Write>(
    out: &mut W,
    block: &mut TraceBlock,
    stimulus: &Stimulus,
    frames: u32,
) -> Result<(), Io>
    requires { frames ≤ length stimulus.now.rows }
    ensures { Gathers W.written W.failures out.old out.new block.old block.new
        (flat_map row_line (take frames stimulus.now.rows)) result }
{
    for frame in 0..frames {
        put_row(out, block, stimulus.row(frame))?;
    }
    Ok(())
}

/// Writes the text of a stimulus, as `read_stimulus` reads it: one line per frame, one character per input, each line
/// ended by LF. It takes no memory. Its contract also says that this text spells the rows, so that nothing else
/// can be read of it (`law_of_stimulus_text`).
pub fn write_stimulus<W: Write>(out: &mut W, stimulus: &Stimulus) -> Result<(), Io>
    ensures written { Writes W.written W.failures out.old out.new (flat_map row_line stimulus.now.rows) result }
    ensures spelled { SpellsRows stimulus.now.width (flat_map row_line stimulus.now.rows) stimulus.now.rows }
{
    // Its contract says that the rows have the width.
    stimulus.width();
    let mut block = TraceBlock::new();
    put_rows(out, &mut block, stimulus, stimulus.frames())?;
    block.forward(out)
}
