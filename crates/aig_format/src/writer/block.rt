//! Bytes that are gathered in a block before they go to a writer, so that a file costs few calls.
ghost use Rattle.std.specs.Fmt.{decimal};
ghost use Rattle.aig_bytes.specs.Gathered.{Gathers};

use aig_base::{Block, Io, Write};
use itoa::Buffer;

/// Puts a number's decimal digits.
pub(crate) fn put_number<W: Write>(out: &mut W, block: &mut Block, number: u32) -> Result<(), Io>
    ensures { Gathers W.written W.failures out.old out.new block.old block.new (decimal number) result }
{
    let mut buffer = Buffer::new();
    block.put_all(out, buffer.format(number).as_bytes())
}
