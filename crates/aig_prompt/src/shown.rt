//! Bytes as a terminal shows them.
ghost use Rattle.std.specs.Prelude.{◌≡◌, ◌++◌, ◌<◌, OnOk};
ghost use Rattle.aig_prompt.specs.Shown as spec;
ghost use Rattle.aig_prompt.specs.Shown.{escaped};

use aig_bytes::Memory;

/// The letter of a digit of base 16.
fn hexadecimal_digit(digit: u8) -> u8
    requires { digit < 16 }
    ensures { result ≡ spec.hexadecimal_digit digit }
{
    if digit < 10 { b'0' + digit } else { 87 + digit }
}

/// Adds a byte as a terminal shows it.
fn push_byte(text: &mut Vec<u8>, byte: u8) -> Result<(), Memory>
    ensures { OnOk result (text.new.items ≡ text.old.items ++ spec.escaped_byte byte) }
{
    if byte >= 32 && byte <= 126 {
        text.push(byte)?;
        return Ok(());
    }
    text.extend_from_slice(&[
        b'\\',
        b'x',
        hexadecimal_digit(byte / 16),
        hexadecimal_digit(byte % 16),
    ])?;
    Ok(())
}

/// Adds bytes, each outside 32 to 126 as `\x1b`: no terminal obeys what is added.
pub fn push_shown(text: &mut Vec<u8>, bytes: &[u8]) -> Result<(), Memory>
    ensures { OnOk result (text.new.items ≡ text.old.items ++ escaped bytes.now) }
{
    for byte in bytes {
        push_byte(text, *byte)?;
    }
    Ok(())
}
