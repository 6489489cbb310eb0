//! Names of entries.
ghost use Rattle.std.specs.Prelude.{◌≡◌, ◌++◌, map, IfOk, OnOk};
ghost use Rattle.std.specs.List.{list_any};
ghost use Rattle.std.specs.Str.{bytes_eq};
ghost use Rattle.aig_names.specs.Names.{words};
ghost use Rattle.aig_signals.specs.Names as spec;
ghost use Rattle.aig_signals.specs.Names.{readable, first_name, further_names};

use aig_base::{Circuit, Kind, Memory};
use aig_names::{first_word, push_position, symbol_at};

/// A byte of a symbol as a terminal shows it.
fn readable_byte(byte: u8) -> u8
    ensures { result ≡ spec.readable_byte byte }
{
    if byte < 33 || byte > 126 { b'_' } else { byte }
}

/// Adds a word of a symbol as a terminal shows it.
pub fn push_readable(text: &mut Vec<u8>, word: &[u8]) -> Result<(), Memory>
    ensures { OnOk result (text.new.items ≡ text.old.items ++ readable word.now) }
{
    for byte in word {
        text.push(readable_byte(*byte))?;
    }
    Ok(())
}

/// Adds the first name of an entry: the first word of its symbol; without one, the letter of its section and its
/// position.
pub fn push_first_name(
    text: &mut Vec<u8>,
    circuit: &Circuit,
    kind: Kind,
    position: u32,
) -> Result<(), Memory>
    ensures { OnOk result (text.new.items ≡ text.old.items ++ first_name circuit.now kind position) }
{
    circuit.facts();
    match first_word(symbol_at(circuit.symbols(), kind, position)) {
        Some(first) => push_readable(text, first.word),
        None => push_position(text, kind, position),
    }
}

/// Whether a word of a text reads as a name.
fn has_word(buffer: &mut Vec<u8>, text: &[u8], name: &[u8]) -> Result<bool, Memory>
    ensures { IfOk result (λ has. has ≡ list_any (λ word. bytes_eq word name.now) (map readable (words text.now))) }
{
    let mut rest = text;
    while let Some(first) = first_word(rest) {
        buffer.clear();
        push_readable(buffer, first.word)?;
        if buffer.as_slice() == name {
            return Ok(true);
        }
        rest = first.rest;
    }
    Ok(false)
}

/// Whether a word after the first of an entry's symbol reads as a name.
pub(crate) fn has_further_name(
    buffer: &mut Vec<u8>,
    circuit: &Circuit,
    kind: Kind,
    position: u32,
    name: &[u8],
) -> Result<bool, Memory>
    ensures { IfOk result (λ has. has
        ≡ list_any (λ word. bytes_eq word name.now) (further_names circuit.now kind position)) }
{
    circuit.facts();
    match first_word(symbol_at(circuit.symbols(), kind, position)) {
        Some(first) => has_word(buffer, first.rest, name),
        None => Ok(false),
    }
}
