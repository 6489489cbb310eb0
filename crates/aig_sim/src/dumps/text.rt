//! Numbers, identifier codes and values in a value change dump.
ghost use Rattle.std.specs.Prelude.{◌≡◌, ◌<◌, ◌≤◌, ◌==◌, if◌then◌else◌, [], ◌++◌, length, take, decimal};
ghost use Rattle.std.specs.Prelude.{false, IsTrue};
ghost use Rattle.aig_bytes.specs.Bytes.{Writes};
ghost use Rattle.aig_bytes.specs.Gathered.{Gathers};
ghost use Rattle.aig_sim.specs.Dump.{value_line, changed_lines};
ghost use Rattle.aig_names.specs.Names.{identifier_code};
ghost use Rattle.aig_sim.specs.state.Dumping.{time_line, dumped_text, ArePairs};

use aig_base::{Io, Write};
use aig_values::trace_line::TraceBlock;
use itoa::Buffer;

/// How many bytes serve as digits of identifier codes, from `!` to `~`.
const BASE: u32 = 94;

/// Puts a number's decimal digits.
pub fn put_number<W: Write>(out: &mut W, block: &mut TraceBlock, number: u64) -> Result<(), Io>
    ensures { Gathers W.written W.failures out.old out.new block.old block.new (decimal number) result }
{
    let mut buffer = Buffer::new();
    block.put_all(out, buffer.format(number).as_bytes())
}

/// Puts the identifier code of a signal.
pub fn put_code<W: Write>(out: &mut W, block: &mut TraceBlock, signal: u32) -> Result<(), Io>
    ensures { Gathers W.written W.failures out.old out.new block.old block.new (identifier_code signal) result }
{
    let mut rest = signal;
    while rest >= BASE {
        block.put(out, b'!' + (rest % BASE) as u8)?;
        rest /= BASE;
    }
    block.put(out, b'!' + rest as u8)
}

// Puts the line of a time.
fn put_time<W: Write>(out: &mut W, block: &mut TraceBlock, time: u64) -> Result<(), Io>
    ensures { Gathers W.written W.failures out.old out.new block.old block.new (time_line time) result }
{
    block.put(out, b'#')?;
    put_number(out, block, time)?;
    block.put(out, b'\n')
}

// The line that gives a signal a character, where its code has at most two bytes: four bytes, and how many of them are
// the line.
fn short_line(signal: u32, character: u8) -> ([u8; 4], usize)
    requires { signal < 8836 }
    ensures length { result.1 ≤ 4 }
    ensures line { take result.1 result.0 ≡ value_line signal character }
{
    let first = b'!' + (signal % BASE) as u8;
    if signal < BASE {
        ([character, first, b'\n', b'\n'], 3)
    } else {
        ([character, first, b'!' + (signal / BASE) as u8, b'\n'], 4)
    }
}

// Puts in the line that gives a signal a character, where its code has at most two bytes and there is room for it.
// Answers whether it did; else nothing changes.
fn push_value(block: &mut TraceBlock, signal: u32, character: u8) -> bool
    ensures pushed { IsTrue result → block.new ≡ block.old ++ value_line signal character }
    ensures full { result ≡ false → block.new ≡ block.old }
{
    if signal >= BASE * BASE {
        return false;
    }
    block.push_firsts(short_line(signal, character), ([0; 4], 0))
}

// Puts the line that gives a signal a character.
fn put_value<W: Write>(
    out: &mut W,
    block: &mut TraceBlock,
    signal: u32,
    character: u8,
) -> Result<(), Io>
    ensures { Gathers W.written W.failures out.old out.new block.old block.new (value_line signal character) result }
{
    if push_value(block, signal, character) {
        return Ok(());
    }
    block.put(out, character)?;
    put_code(out, block, signal)?;
    block.put(out, b'\n')
}

// Puts the line of a signal whose character is no longer the one before.
fn put_change<W: Write>(
    out: &mut W,
    block: &mut TraceBlock,
    signal: u32,
    before: u8,
    after: u8,
) -> Result<(), Io>
    ensures { Gathers W.written W.failures out.old out.new block.old block.new
        (if before == after then [] else value_line signal after) result }
{
    if before == after {
        return Ok(());
    }
    put_value(out, block, signal, after)
}

// Puts the lines of all signals whose characters are no longer those before.
fn put_changes<W: Write>(
    out: &mut W,
    block: &mut TraceBlock,
    before: &[u8],
    after: &[u8],
) -> Result<(), Io>
    requires { ArePairs before.now after.now }
    ensures { Gathers W.written W.failures out.old out.new block.old block.new
        (changed_lines 0 before.now after.now) result }
{
    for signal in 0..after.len() {
        put_change(out, block, signal as u32, before[signal], after[signal])?;
    }
    Ok(())
}

// Puts the text of a frame by the characters of the signals before it and in it.
fn put_frame<W: Write>(
    out: &mut W,
    block: &mut TraceBlock,
    frame: u64,
    before: &[u8],
    after: &[u8],
) -> Result<(), Io>
    requires { ArePairs before.now after.now }
    ensures { Gathers W.written W.failures out.old out.new block.old block.new
        (dumped_text frame before.now after.now) result }
{
    put_time(out, block, frame)?;
    if frame > 0 {
        return put_changes(out, block, before, after);
    }
    block.put_all(out, b"$dumpvars\n")?;
    put_changes(out, block, before, after)?;
    block.put_all(out, b"$end\n")
}

/// Writes the text of a frame by the characters of the signals before it, of which there are none before frame 0, and
/// in it. The block is room for it, whatever it holds.
pub fn write_frame<W: Write>(
    out: &mut W,
    block: &mut TraceBlock,
    frame: u64,
    before: &[u8],
    after: &[u8],
) -> Result<(), Io>
    requires { ArePairs before.now after.now }
    ensures { Writes W.written W.failures out.old out.new (dumped_text frame before.now after.now) result }
{
    block.clear();
    put_frame(out, block, frame, before, after)?;
    block.forward(out)
}

/// Writes the line of a time.
pub fn write_time<W: Write>(out: &mut W, time: u64) -> Result<(), Io>
    ensures { Writes W.written W.failures out.old out.new (time_line time) result }
{
    let mut block = TraceBlock::new();
    put_time(out, &mut block, time)?;
    block.forward(out)
}
