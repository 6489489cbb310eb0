//! The value of a signal as text.
ghost use Rattle.std.specs.Prelude.{◌≡◌, ◌++◌, ◌∷◌, ◌+◌, ◌<◌, ◌^◌, [], length, decimal, OnOk};
ghost use Rattle.std.specs.List.{list_all};
ghost use Rattle.aig_signals.specs.Value as spec;
ghost use Rattle.aig_signals.specs.Value.{bit_letter, bit_at, bit_number, four_bits, hexadecimal_digit, hexadecimal};
ghost use Rattle.aig_signals.specs.Value.{binary, value_text, table_text};

use aig_base::{Memory, Tern};
use itoa::Buffer;

/// The letter of a bit, `?` where it is not meant.
fn bit_letter(bit: Option<Tern>) -> u8
    ensures { result ≡ bit_letter bit }
{
    match bit {
        None => b'?',
        Some(Tern::Zero) => b'0',
        Some(Tern::One) => b'1',
        Some(Tern::X) => b'x',
    }
}

/// Whether a bit is x.
fn is_unknown(bit: Option<Tern>) -> bool
    ensures { result ≡ spec.is_unknown bit }
{
    matches!(bit, Some(Tern::X))
}

/// Whether a bit is 0 or 1.
fn is_known(bit: Option<Tern>) -> bool
    ensures { result ≡ spec.is_known bit }
{
    matches!(bit, Some(Tern::Zero) | Some(Tern::One))
}

/// Whether all bits are x.
fn are_unknown(bits: &[Option<Tern>]) -> bool
    ensures { result ≡ list_all spec.is_unknown bits.now }
{
    bits.iter().all(|bit| is_unknown(*bit))
}

/// Whether all bits are 0 or 1.
fn are_known(bits: &[Option<Tern>]) -> bool
    ensures { result ≡ list_all spec.is_known bits.now }
{
    bits.iter().all(|bit| is_known(*bit))
}

/// The number that the bit at a place is; over the end it is 0.
fn number_at(bits: &[Option<Tern>], place: usize) -> u8
    ensures number { result ≡ bit_number (bit_at bits.now place) }
    ensures small { result < 2 }
{
    match bits.get(place) {
        Some(Some(Tern::One)) => 1,
        _ => 0,
    }
}

/// The digit of base 16 of four bits, from a place up.
fn digit_at(bits: &[Option<Tern>], place: usize) -> u8
    requires { place + 3 < 2 ^ 64 }
    ensures { result ≡ hexadecimal_digit (four_bits bits.now place) }
{
    let low = number_at(bits, place) + 2 * number_at(bits, place + 1);
    let high = number_at(bits, place + 2) + 2 * number_at(bits, place + 3);
    let digit = low + 4 * high;
    if digit < 10 { b'0' + digit } else { 87 + digit }
}

/// Adds the letters of bits, the last bit first.
pub(crate) fn push_binary(text: &mut Vec<u8>, bits: &[Option<Tern>]) -> Result<(), Memory>
    ensures { OnOk result (text.new.items ≡ text.old.items ++ binary bits.now) }
{
    let mut place = bits.len();
    while place > 0 {
        place -= 1;
        text.push(bit_letter(bits[place]))?;
    }
    Ok(())
}

/// Adds the digits of base 16, the last bits first.
fn push_hexadecimal(text: &mut Vec<u8>, bits: &[Option<Tern>]) -> Result<(), Memory>
    ensures { OnOk result (text.new.items ≡ text.old.items ++ hexadecimal bits.now) }
{
    let mut count = (bits.len() + 3) / 4;
    while count > 0 {
        count -= 1;
        text.push(digit_at(bits, count * 4))?;
    }
    Ok(())
}

/// Adds how many bits there are, and the letter of a base.
fn push_base(text: &mut Vec<u8>, count: usize, base: u8) -> Result<(), Memory>
    ensures { OnOk result (text.new.items ≡ text.old.items ++ (decimal count ++ (39 ∷ base ∷ []))) }
{
    let mut buffer = Buffer::new();
    text.extend_from_slice(buffer.format(count).as_bytes())?;
    text.push(b'\'')?;
    text.push(base)?;
    Ok(())
}

/// Adds the value of a signal, whose bits are given from bit 0 up; a bit that is not meant has no value. Of one bit it
/// is `0`, `1` or `x`. Of a vector it is `x` where all bits are x, else Verilog's `8'h0f`, or `4'b1??0` where some bits
/// are not meant or x.
pub fn push_value(text: &mut Vec<u8>, bits: &[Option<Tern>]) -> Result<(), Memory>
    ensures { OnOk result (text.new.items ≡ text.old.items ++ value_text bits.now) }
{
    if bits.len() == 1 {
        return push_binary(text, bits);
    }
    if are_unknown(bits) {
        text.push(b'x')?;
        return Ok(());
    }
    if are_known(bits) {
        push_base(text, bits.len(), b'h')?;
        return push_hexadecimal(text, bits);
    }
    push_base(text, bits.len(), b'b')?;
    push_binary(text, bits)
}

/// Adds the value of a signal as a table shows it, whose bits are given from bit 0 up: digits of base 16, or the
/// letters of the bits where some of them are x, or `x` where all are. Of one bit it is `0`, `1` or `x`.
pub fn push_table_value(text: &mut Vec<u8>, bits: &[Option<Tern>]) -> Result<(), Memory>
    ensures { OnOk result (text.new.items ≡ text.old.items ++ table_text bits.now) }
{
    if bits.len() == 1 {
        return push_binary(text, bits);
    }
    if are_unknown(bits) {
        text.push(b'x')?;
        return Ok(());
    }
    if are_known(bits) {
        return push_hexadecimal(text, bits);
    }
    push_binary(text, bits)
}
