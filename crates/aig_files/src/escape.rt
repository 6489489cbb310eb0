//! Bytes of files and arguments in messages.
ghost use Rattle.std.specs.Prelude.{◌≡◌, List, ◌++◌, ◌∷◌, ◌<◌, ◌/◌, ◌%◌, [], IsTrue, IfOk, OnOk};
ghost use Rattle.std.specs.String.{string_bytes};
ghost use Rattle.aig_files.specs.Shown.{is_printable, ArePrintable, hexadecimal_digit, escape, escaped_byte, escaped};

use aig_bytes::Memory;
use std::alloc::Global;

/// Whether a terminal shows a byte as it is.
pub(crate) fn is_printable(byte: u8) -> bool
    ensures { result ≡ is_printable byte }
{
    byte >= 32 && byte <= 126
}

/// The hexadecimal digit of a number below 16.
fn hexadecimal(digit: u8) -> u8
    requires { digit < 16 }
    ensures value { result ≡ hexadecimal_digit digit }
    ensures printable { IsTrue (is_printable result) }
{
    if digit < 10 { 48 + digit } else { 87 + digit }
}

/// A byte as a backslash, `x` and two digits.
pub(crate) fn escape(byte: u8) -> [u8; 4]
    ensures bytes { result ≡ escape byte }
    ensures printable { ArePrintable result }
{
    [b'\\', b'x', hexadecimal(byte / 16), hexadecimal(byte % 16)]
}

/// Adds a byte as it is.
fn push_printable(text: &mut String, byte: u8) -> Result<(), Memory>
    requires { IsTrue (is_printable byte) }
    ensures bytes { OnOk result (string_bytes text.new ≡ string_bytes text.old ++ byte ∷ []) }
    ensures printable { ArePrintable (string_bytes text.old) → OnOk result (ArePrintable (string_bytes text.new)) }
{
    text.push(char::from(byte))?;
    Ok(())
}

/// Adds a byte as a backslash, `x` and two digits.
fn push_escape(text: &mut String, byte: u8) -> Result<(), Memory>
    ensures bytes { OnOk result (string_bytes text.new ≡ string_bytes text.old ++ escape byte) }
    ensures printable { ArePrintable (string_bytes text.old) → OnOk result (ArePrintable (string_bytes text.new)) }
{
    push_printable(text, b'\\')?;
    push_printable(text, b'x')?;
    push_printable(text, hexadecimal(byte / 16))?;
    push_printable(text, hexadecimal(byte % 16))
}

/// Adds a byte, escaped.
fn push_byte(text: &mut String, byte: u8) -> Result<(), Memory>
    ensures bytes { OnOk result (string_bytes text.new ≡ string_bytes text.old ++ escaped_byte byte) }
    ensures printable { ArePrintable (string_bytes text.old) → OnOk result (ArePrintable (string_bytes text.new)) }
{
    if is_printable(byte) {
        push_printable(text, byte)
    } else {
        push_escape(text, byte)
    }
}

/// The text with each byte outside 32 to 126 as `\xHH`, two lowercase hexadecimal digits; a backslash stays as it is.
pub fn escaped(alloc: Global, text: &[u8]) -> Result<String, Memory>
    ensures bytes { IfOk result (λ shown. string_bytes shown ≡ escaped text.now) }
    ensures printable { IfOk result (λ shown. ArePrintable (string_bytes shown)) }
{
    let mut shown = String::new(alloc);
    for byte in text {
        push_byte(&mut shown, *byte)?;
    }
    Ok(shown)
}
