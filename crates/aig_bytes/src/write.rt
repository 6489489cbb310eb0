//! Writing bytes and numbers.
ghost use Rattle.std.specs.Fmt.{decimal};
ghost use Rattle.aig_bytes.specs.Bytes.{Writes};

use crate::bytes::{Failed, Write};
use crate::fault::Io;
use itoa::Buffer;

impl From<Failed> for Io {
    fn from(_failed: Failed) -> Io {
        Io
    }
}

// Writes bytes, one write after the other.
#[inline(never)]
#[tactic(auto, using(crate::proofs::WriteLemmas::writes))]
fn write_rest<W: Write>(out: &mut W, bytes: &[u8]) -> Result<(), Io>
    ensures { Writes W.written W.failures out.old out.new bytes.now result }
{
    let mut at = 0;
    while at < bytes.len() {
        at += out.write(&bytes[at..])?;
    }
    Ok(())
}

/// Writes all of the bytes, or a beginning of them where a write fails. No failure is tried again.
#[inline(always)]
pub fn write_all<W: Write>(out: &mut W, bytes: &[u8]) -> Result<(), Io>
    ensures { Writes W.written W.failures out.old out.new bytes.now result }
{
    if bytes.is_empty() {
        return Ok(());
    }
    // Mostly the first write takes all.
    let count = out.write(bytes)?;
    if count == bytes.len() {
        Ok(())
    } else {
        write_rest(out, &bytes[count..])
    }
}

/// Writes a number's decimal digits.
pub fn write_number<W: Write>(out: &mut W, number: u32) -> Result<(), Io>
    ensures { Writes W.written W.failures out.old out.new (decimal number) result }
{
    let mut buffer = Buffer::new();
    write_all(out, buffer.format(number).as_bytes())
}
