//! Names of entries as JSON.
ghost use Rattle.std.specs.Prelude.{◌≡◌, ◌∷◌, map, flat_map, decimal};
ghost use Rattle.aig_bytes.specs.Bytes.{Writes};
ghost use Rattle.aig_signals.specs.Json.{array_text, comma_before, name_text, string_byte, string_text};

use crate::json::digit;
use aig_base::{Io, Write, write_all, write_number};

/// Writes a byte of a string.
fn write_byte<W: Write>(out: &mut W, byte: u8) -> Result<(), Io>
    ensures { Writes W.written W.failures out.old out.new (string_byte byte) result }
{
    if byte == b'"' || byte == b'\\' {
        return write_all(out, &[b'\\', byte]);
    }
    if byte < 32 {
        let code = [b'\\', b'u', b'0', b'0', digit(byte / 16), digit(byte % 16)];
        return write_all(out, &code);
    }
    write_all(out, &[byte])
}

/// Writes the bytes of a string.
fn write_bytes<W: Write>(out: &mut W, bytes: &[u8]) -> Result<(), Io>
    ensures { Writes W.written W.failures out.old out.new (flat_map string_byte bytes.now) result }
{
    for byte in bytes {
        write_byte(out, *byte)?;
    }
    Ok(())
}

/// Writes a string.
fn write_string<W: Write>(out: &mut W, bytes: &[u8]) -> Result<(), Io>
    ensures { Writes W.written W.failures out.old out.new (string_text bytes.now) result }
{
    write_all(out, b"\"")?;
    write_bytes(out, bytes)?;
    write_all(out, b"\"")
}

/// Writes a number after a comma.
fn write_next<W: Write>(out: &mut W, number: u8) -> Result<(), Io>
    ensures { Writes W.written W.failures out.old out.new (comma_before (decimal number)) result }
{
    write_all(out, b",")?;
    write_number(out, u32::from(number))
}

/// Writes numbers, each after a comma.
fn write_more<W: Write>(out: &mut W, numbers: &[u8]) -> Result<(), Io>
    ensures { Writes W.written W.failures out.old out.new (flat_map comma_before (map decimal numbers.now)) result }
{
    for number in numbers {
        write_next(out, *number)?;
    }
    Ok(())
}

/// Writes an array of a number and more of them.
fn write_numbers<W: Write>(out: &mut W, first: u8, more: &[u8]) -> Result<(), Io>
    ensures { Writes W.written W.failures out.old out.new (array_text (map decimal (first ∷ more.now))) result }
{
    write_all(out, b"[")?;
    write_number(out, u32::from(first))?;
    write_more(out, more)?;
    write_all(out, b"]")
}

/// Writes a name: `null` if it is empty, a string if it is UTF-8, else the array of its bytes.
pub fn write_name<W: Write>(out: &mut W, name: &[u8]) -> Result<(), Io>
    ensures { Writes W.written W.failures out.old out.new (name_text name.now) result }
{
    let Some((first, more)) = name.split_first() else {
        return write_all(out, b"null");
    };
    match std::str::from_utf8(name) {
        Ok(_) => write_string(out, name),
        Err(_) => write_numbers(out, *first, more),
    }
}
