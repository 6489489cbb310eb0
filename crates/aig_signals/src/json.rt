//! Lines that say why as JSON.
ghost use Rattle.std.specs.Prelude.{◌≡◌, ◌++◌, ◌<◌, ◌≤◌, length, take, drop, OnOk, Some, slice_get};
ghost use Rattle.aig_signals.specs.declared.signal.Signal.{Signal};
ghost use Rattle.aig_signals.specs.Json.{asked_start, latches_start, named_end, origin_start, signal_object};
ghost use Rattle.aig_signals.specs.Json.{signal_with, string_byte, string_text};
ghost use Rattle.aig_signals.specs.Text.{names_none};
ghost use Rattle.aig_signals.specs.Value.{hexadecimal_digit};
ghost use Rattle.aig_signals.specs.state.Json.{opened};

mod names;

use crate::naming::SectionNaming;
use crate::signal::Signal;
use crate::text::{Naming, Origin, push_number};
use crate::value::push_binary;
use aig_base::{Memory, Tern};
pub use names::write_name;

/// A digit of base 16.
fn digit(number: u8) -> u8
    requires { number < 16 }
    ensures { result ≡ hexadecimal_digit number }
{
    if number < 10 {
        b'0' + number
    } else {
        87 + number
    }
}

/// Adds a byte of a string.
fn push_byte(text: &mut Vec<u8>, byte: u8) -> Result<(), Memory>
    ensures { OnOk result (text.new.items ≡ text.old.items ++ string_byte byte) }
{
    if byte == b'"' || byte == b'\\' {
        text.extend_from_slice(&[b'\\', byte])?;
    } else if byte < 32 {
        let code = [b'\\', b'u', b'0', b'0', digit(byte / 16), digit(byte % 16)];
        text.extend_from_slice(&code)?;
    } else {
        text.push(byte)?;
    }
    Ok(())
}

/// Adds a string.
pub(crate) fn push_string(text: &mut Vec<u8>, bytes: &[u8]) -> Result<(), Memory>
    ensures { OnOk result (text.new.items ≡ text.old.items ++ string_text bytes.now) }
{
    text.push(b'"')?;
    for byte in bytes {
        push_byte(text, *byte)?;
    }
    text.push(b'"')?;
    Ok(())
}

/// Adds an object of a signal with these bits.
pub(crate) fn push_signal(
    text: &mut Vec<u8>,
    signal: &Signal,
    bits: &[Option<Tern>],
) -> Result<(), Memory>
    ensures { OnOk result (text.new.items ≡ text.old.items ++ signal_with bits.now signal.now) }
{
    text.extend_from_slice(b"{\"letter\":\"")?;
    text.push(signal.kind.letter())?;
    text.extend_from_slice(b"\",\"position\":")?;
    push_number(text, signal.first)?;
    text.extend_from_slice(b",\"name\":")?;
    push_string(text, signal.name.as_slice())?;
    text.extend_from_slice(b",\"value\":\"")?;
    push_binary(text, bits)?;
    text.extend_from_slice(b"\"}")?;
    Ok(())
}

/// Turns the comma before the first element into the bracket of an array, or adds it where there are no elements.
fn open_array(text: &mut Vec<u8>, before: usize) -> Result<(), Memory>
    requires { before ≤ length text.old.items }
    ensures { OnOk result (text.new.items ≡ take before text.old.items ++ opened (drop before text.old.items)) }
{
    if text.len() == before {
        text.push(b'[')?;
    } else {
        text[before] = b'[';
    }
    Ok(())
}

/// Ends a line whose start is written: adds the array of what is named, and closes the object. Names nothing from then
/// on.
pub(crate) fn end_line(naming: &mut Naming, text: &mut Vec<u8>) -> Result<(), Memory>
    ensures text { OnOk result (text.new.items ≡ text.old.items ++ named_end naming.old) }
    ensures none { OnOk result (naming.new ≡ names_none naming.old) }
{
    let before = text.len();
    naming.inputs.push_objects(text)?;
    naming.latches.push_objects(text)?;
    open_array(text, before)?;
    text.extend_from_slice(b"]}\n")?;
    naming.inputs.clear();
    naming.latches.clear();
    Ok(())
}

/// Adds the start of a line of the literals that were asked for by this name.
pub(crate) fn push_asked_start(
    text: &mut Vec<u8>,
    name: &[u8],
    bits: &[Option<Tern>],
    frame: u32,
) -> Result<(), Memory>
    ensures { OnOk result (text.new.items ≡ text.old.items ++ asked_start name.now bits.now frame) }
{
    text.extend_from_slice(b"{\"line\":\"asked\",\"frame\":")?;
    push_number(text, frame)?;
    text.extend_from_slice(b",\"name\":")?;
    push_string(text, name)?;
    text.extend_from_slice(b",\"value\":\"")?;
    push_binary(text, bits)?;
    text.extend_from_slice(b"\",\"by\":")?;
    push_number(text, frame)?;
    text.extend_from_slice(b",\"causes\":")?;
    Ok(())
}

/// Adds the start of a line of latches of a signal.
pub(crate) fn push_latches_start(
    text: &mut Vec<u8>,
    latches: &SectionNaming,
    number: usize,
    frame: u32,
) -> Result<(), Memory>
    requires number { number < length latches.now.signals }
    requires frame { 0 < frame }
    ensures { (signal : Signal) × (slice_get latches.now.signals number ≡ Some signal)
        × OnOk result (text.new.items ≡ text.old.items ++ latches_start (signal_object latches.now.values signal) frame) }
{
    text.extend_from_slice(b"{\"line\":\"latches\",\"frame\":")?;
    push_number(text, frame)?;
    text.extend_from_slice(b",\"signal\":")?;
    latches.push_object(text, number)?;
    text.extend_from_slice(b",\"by\":")?;
    push_number(text, frame - 1)?;
    text.extend_from_slice(b",\"causes\":")?;
    Ok(())
}

/// Adds the start of a line of latches that nothing explains.
fn push_open_start(text: &mut Vec<u8>, frame: u32) -> Result<(), Memory>
    ensures { OnOk result (text.new.items ≡ text.old.items ++ origin_start (Origin.NotExplained frame)) }
{
    text.extend_from_slice(b"{\"line\":\"not explained\",\"frame\":")?;
    push_number(text, frame)?;
    text.extend_from_slice(b",\"latches\":")?;
    Ok(())
}

/// Adds the start of a line of the latches that are named at the last frame.
pub(crate) fn push_origin_start(text: &mut Vec<u8>, origin: Origin) -> Result<(), Memory>
    ensures { OnOk result (text.new.items ≡ text.old.items ++ origin_start origin) }
{
    match origin {
        Origin::NotExplained(frame) => push_open_start(text, frame)?,
        Origin::Reset => text.extend_from_slice(b"{\"line\":\"reset\",\"frame\":0,\"latches\":")?,
        Origin::Start => text.extend_from_slice(b"{\"line\":\"start\",\"frame\":0,\"latches\":")?,
    }
    Ok(())
}
