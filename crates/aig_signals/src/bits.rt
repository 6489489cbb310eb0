//! Names X by the words X[n] of any entries.
ghost use Rattle.std.specs.Prelude.{◌≡◌, ◌++◌, ◌+◌, ◌<◌, ◌≤◌, [], ◌∷◌, All, IfOk, OnOk, filter_map, flat_map, length};
ghost use Rattle.std.specs.Prelude.{map};
ghost use Rattle.std.specs.List.{range_with_len};
ghost use Rattle.aig_names.specs.Names.{words};
ghost use Rattle.aig_names.specs.Vectors as vectors;
ghost use Rattle.aig_signals.specs.Bits as spec;
ghost use Rattle.aig_signals.specs.Bits.{bit_literal, bits_named, entry_bits, word_bit};
ghost use Rattle.aig_signals.specs.Names.{literals_of, readable};

use crate::names::push_readable;
use crate::section::{SECTIONS, count_of, literal_at};
use aig_base::{Circuit, Kind, List, Lit, Memory};
use aig_names::{bit_of, first_word, symbol_at};
use std::alloc::Global;

/// A word X[n] of an entry: n, and the literal of the entry.
#[derive(Clone, Copy, Drop)]
pub(crate) struct WordBit {
    pub(crate) index: u64,
    pub(crate) literal: Lit,
}

/// n, where a word is X[n].
fn index_in(word: &[u8], name: &[u8]) -> Option<u64>
    ensures { result ≡ spec.index_in name.now (vectors.bit_of word.now) }
{
    let bit = bit_of(word)?;
    if bit.vector == name {
        Some(bit.index)
    } else {
        None
    }
}

/// Adds a word X[n] of an entry with this literal, where it is one.
fn push_word(bits: &mut Vec<WordBit>, word: &[u8], name: &[u8], literal: Lit) -> Result<(), Memory>
    ensures { OnOk result (bits.new.items ≡ bits.old.items ++ filter_map (word_bit name.now literal) (word.now ∷ [])) }
{
    if let Some(index) = index_in(word, name) {
        bits.push(WordBit { index, literal })?;
    }
    Ok(())
}

/// Adds the words X[n] of the symbol of an entry with this literal.
fn push_words(
    bits: &mut Vec<WordBit>,
    buffer: &mut Vec<u8>,
    symbol: &[u8],
    name: &[u8],
    literal: Lit,
) -> Result<(), Memory>
    ensures { OnOk result (bits.new.items
        ≡ bits.old.items ++ filter_map (word_bit name.now literal) (map readable (words symbol.now))) }
{
    let mut rest = symbol;
    while let Some(first) = first_word(rest) {
        buffer.clear();
        push_readable(buffer, first.word)?;
        push_word(bits, buffer.as_slice(), name, literal)?;
        rest = first.rest;
    }
    Ok(())
}

/// Adds the words X[n] of a section.
fn push_section(
    bits: &mut Vec<WordBit>,
    buffer: &mut Vec<u8>,
    circuit: &Circuit,
    name: &[u8],
    kind: Kind,
) -> Result<(), Memory>
    ensures { OnOk result (bits.new.items ≡ bits.old.items ++ spec.section_bits circuit.now name.now kind) }
{
    circuit.facts();
    for position in 0..count_of(circuit, kind) {
        let symbol = symbol_at(circuit.symbols(), kind, position);
        let literal = literal_at(circuit, kind, position);
        push_words(bits, buffer, symbol, name, literal)?;
    }
    Ok(())
}

/// The words X[n] of these sections.
fn word_bits(
    alloc: Global,
    circuit: &Circuit,
    name: &[u8],
    kinds: &[Kind],
) -> Result<Vec<WordBit>, Memory>
    ensures { IfOk result (λ bits. bits.items ≡ flat_map (spec.section_bits circuit.now name.now) kinds.now) }
{
    let mut bits = Vec::new(alloc);
    let mut buffer = Vec::new(alloc);
    for kind in kinds {
        push_section(&mut bits, &mut buffer, circuit, name, *kind)?;
    }
    Ok(bits)
}

/// The least index.
fn least_index(first: WordBit, more: &[WordBit]) -> u64
    ensures { result ≡ spec.least_index first more.now }
{
    let mut least = first.index;
    for bit in more {
        least = least.min(bit.index);
    }
    least
}

/// The greatest index.
fn greatest_index(first: WordBit, more: &[WordBit]) -> u64
    ensures { result ≡ spec.greatest_index first more.now }
{
    let mut greatest = first.index;
    for bit in more {
        greatest = greatest.max(bit.index);
    }
    greatest
}

/// The literals of so many bits, from an index up.
fn table_of(
    alloc: Global,
    bits: &[WordBit],
    first: u64,
    size: usize,
) -> Result<Vec<Option<Lit>>, Memory>
    requires { All (λ bit. (first ≤ bit.index) × (bit.index < first + size)) bits.now }
    ensures { IfOk result (λ table. table.items ≡ map (bit_literal bits.now) (range_with_len first size)) }
{
    let mut table = vec![in alloc; None; size]?;
    for bit in bits {
        let place = (bit.index - first) as usize;
        table[place] = table[place].or(Some(bit.literal));
    }
    Ok(table)
}

/// All of these literals, unless one is missing.
fn all_there(alloc: Global, table: &[Option<Lit>]) -> Result<Option<List<Lit>>, Memory>
    ensures { IfOk result (λ found. found ≡ spec.all_there table.now) }
{
    let mut literals = List::new(alloc);
    for literal in table {
        let Some(literal) = literal else {
            return Ok(None);
        };
        literals.push(*literal)?;
    }
    Ok(Some(literals))
}

/// The literals of all bits from one index to another, unless one is missing.
fn bits_between(
    alloc: Global,
    bits: &[WordBit],
    first: u64,
    last: u64,
) -> Result<Option<List<Lit>>, Memory>
    requires order { first ≤ last }
    requires within { All (λ bit. (first ≤ bit.index) × (bit.index ≤ last)) bits.now }
    ensures { IfOk result (λ found. found ≡ spec.bits_between bits.now first last) }
{
    // There are too few words for them.
    if last - first >= bits.len() as u64 {
        return Ok(None);
    }
    let size = (last - first) as usize + 1;
    let table = table_of(alloc, bits, first, size)?;
    all_there(alloc, table.as_slice())
}

/// The literals of all bits from the least index to the greatest, unless one is missing.
pub(crate) fn all_bits(alloc: Global, bits: &[WordBit]) -> Result<Option<List<Lit>>, Memory>
    ensures { IfOk result (λ found. found ≡ spec.all_bits bits.now) }
{
    match bits.split_first() {
        Some((bit, more)) => {
            let first = least_index(*bit, more);
            let last = greatest_index(*bit, more);
            bits_between(alloc, bits, first, last)
        }
        None => Ok(None),
    }
}

/// The literals of the words X[n] to X[m] of any entries, from bit n up, where none is missing between the least and
/// the greatest. Linear in the circuit and its names.
pub(crate) fn literals_of_words(
    alloc: Global,
    circuit: &Circuit,
    name: &[u8],
) -> Result<Option<List<Lit>>, Memory>
    ensures { IfOk result (λ found. found ≡ bits_named circuit.now name.now) }
{
    let bits = word_bits(alloc, circuit, name, &SECTIONS)?;
    all_bits(alloc, bits.as_slice())
}
