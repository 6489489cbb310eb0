//! A table of the words X[n] of any entries, by X.
ghost use Rattle.std.specs.Prelude.{◌≡◌, ◌∷◌, ℕ, List, [], Some, IfOk, IfSome, OnOk, filter_map, flat_map, map};
ghost use Rattle.std.specs.Prelude.{if◌then◌else◌};
ghost use Rattle.std.specs.Str.{bytes_eq};
ghost use Rattle.indexmap.specs.IndexMap.{get_by};
ghost use Rattle.aig_parts.specs.declared.raw.Raw.{Raw};
ghost use Rattle.aig_names.specs.Names.{words};
ghost use Rattle.aig_signals.specs.Bits as bits_spec;
ghost use Rattle.aig_signals.specs.Bits.{word_bit};
ghost use Rattle.aig_signals.specs.Names.{readable};
ghost use Rattle.aig_signals.specs.state.Called.{AreByWords, AreWords, emptied, with_words};

use crate::bits::{WordBit, all_bits};
use crate::called::table;
use crate::called::table::{LiteralTable, hash_of};
use crate::hash::NameHash;
use crate::lookup::without_not;
use crate::names::push_readable;
use crate::section::{SECTIONS, count_of, literal_at};
use aig_base::{Circuit, Kind, List, Lit, Memory};
use aig_names::{bit_of, first_word, symbol_at};
use indexmap::IndexMap;
use std::alloc::Global;

/// Texts X, with the words X[n] that were found of each.
pub(crate) type WordTable = IndexMap<Vec<u8>, List<WordBit>, NameHash>;

/// Keeps the words X[n] of a text X.
fn put(alloc: Global, table: &mut WordTable, name: &[u8], bits: List<WordBit>) -> Result<(), Memory>
    ensures { OnOk result ((x : List ℕ) → get_by (λ key. bytes_eq x key.items) table.new
        ≡ (if bytes_eq x name.now then Some bits else get_by (λ key. bytes_eq x key.items) table.old)) }
{
    table.insert(Vec::from_slice(alloc, name)?, bits)?;
    Ok(())
}

/// Puts a text X into the table, of which no word X[n] was found yet.
fn put_wanted(alloc: Global, table: &mut WordTable, name: &[u8]) -> Result<(), Memory>
    ensures { OnOk result ((x : List ℕ) → get_by (λ key. bytes_eq x key.items) table.new
        ≡ (if bytes_eq x name.now then Some [] else get_by (λ key. bytes_eq x key.items) table.old)) }
{
    put(alloc, table, name, List::new(alloc))
}

/// A table of these texts, with and without a `!` in front, of which no word was found yet.
pub(crate) fn table_of(alloc: Global, texts: &[&[u8]]) -> Result<WordTable, Memory>
    ensures { IfOk result (λ table. (x : List ℕ) → IfSome (get_by (λ key. bytes_eq x key.items) table)
        (λ bits. bits ≡ [])) }
{
    let mut table = IndexMap::with_hasher(alloc, hash_of(texts));
    for wanted in texts {
        put_wanted(alloc, &mut table, wanted)?;
        put_wanted(alloc, &mut table, without_not(wanted))?;
    }
    Ok(table)
}

/// The words of a text that is in the table; those that it has there are none then.
fn taken(alloc: Global, table: &mut WordTable, name: &[u8]) -> Result<Option<List<WordBit>>, Memory>
    ensures taken { IfOk result (λ bits. bits ≡ get_by (λ key. bytes_eq name.now key.items) table.old) }
    ensures table { OnOk result ((x : List ℕ) → get_by (λ key. bytes_eq x key.items) table.new
        ≡ emptied (bytes_eq name.now x) (get_by (λ key. bytes_eq x key.items) table.old)) }
{
    if !table.contains_key(name) {
        return Ok(None);
    }
    Ok(table.insert(Vec::from_slice(alloc, name)?, List::new(alloc))?)
}

/// Notes a bit of X.
fn note(alloc: Global, table: &mut WordTable, vector: &[u8], bit: WordBit) -> Result<(), Memory>
    ensures { OnOk result ((x : List ℕ) → get_by (λ key. bytes_eq x key.items) table.new
        ≡ with_words (if bytes_eq vector.now x then bit ∷ [] else []) (get_by (λ key. bytes_eq x key.items) table.old)) }
{
    let Some(mut bits) = taken(alloc, table, vector)? else {
        return Ok(());
    };
    bits.push(bit)?;
    put(alloc, table, vector, bits)
}

/// Notes a word of an entry with this literal, where it is X[n].
fn note_word(alloc: Global, table: &mut WordTable, word: &[u8], literal: Lit) -> Result<(), Memory>
    ensures { OnOk result ((x : List ℕ) → get_by (λ key. bytes_eq x key.items) table.new
        ≡ with_words (filter_map (word_bit x literal) (word.now ∷ [])) (get_by (λ key. bytes_eq x key.items) table.old)) }
{
    match bit_of(word) {
        Some(bit) => {
            let index = bit.index;
            note(alloc, table, bit.vector, WordBit { index, literal })
        }
        None => Ok(()),
    }
}

/// Notes the words of a symbol of an entry with this literal.
fn note_words(
    alloc: Global,
    table: &mut WordTable,
    buffer: &mut Vec<u8>,
    symbol: &[u8],
    literal: Lit,
) -> Result<(), Memory>
    ensures { OnOk result ((x : List ℕ) → get_by (λ key. bytes_eq x key.items) table.new
        ≡ with_words (filter_map (word_bit x literal) (map readable (words symbol.now)))
        (get_by (λ key. bytes_eq x key.items) table.old)) }
{
    let mut rest = symbol;
    while let Some(first) = first_word(rest) {
        buffer.clear();
        push_readable(buffer, first.word)?;
        note_word(alloc, table, buffer.as_slice(), literal)?;
        rest = first.rest;
    }
    Ok(())
}

/// Notes the words of a section.
fn note_section(
    alloc: Global,
    table: &mut WordTable,
    buffer: &mut Vec<u8>,
    circuit: &Circuit,
    kind: Kind,
) -> Result<(), Memory>
    ensures { OnOk result ((x : List ℕ) → get_by (λ key. bytes_eq x key.items) table.new
        ≡ with_words (bits_spec.section_bits circuit.now x kind) (get_by (λ key. bytes_eq x key.items) table.old)) }
{
    circuit.facts();
    for position in 0..count_of(circuit, kind) {
        let symbol = symbol_at(circuit.symbols(), kind, position);
        let literal = literal_at(circuit, kind, position);
        note_words(alloc, table, buffer, symbol, literal)?;
    }
    Ok(())
}

/// Notes the words of these sections.
fn note_sections(
    alloc: Global,
    table: &mut WordTable,
    circuit: &Circuit,
    kinds: &[Kind],
) -> Result<(), Memory>
    ensures { OnOk result ((x : List ℕ) → get_by (λ key. bytes_eq x key.items) table.new
        ≡ with_words (flat_map (bits_spec.section_bits circuit.now x) kinds.now)
        (get_by (λ key. bytes_eq x key.items) table.old)) }
{
    let mut buffer = Vec::new(alloc);
    for kind in kinds {
        note_section(alloc, table, &mut buffer, circuit, *kind)?;
    }
    Ok(())
}

/// Notes all words.
pub(crate) fn note_all(
    alloc: Global,
    table: &mut WordTable,
    circuit: &Circuit,
) -> Result<(), Memory>
    ensures { OnOk result ((x : List ℕ) → get_by (λ key. bytes_eq x key.items) table.new
        ≡ with_words (bits_spec.word_bits circuit.now x) (get_by (λ key. bytes_eq x key.items) table.old)) }
{
    note_sections(alloc, table, circuit, &SECTIONS)
}

/// Keeps what a text X is that of by its words X[n], if they are in the table and it was not kept before.
fn keep_bits(
    alloc: Global,
    found: &mut LiteralTable,
    words: &WordTable,
    name: &[u8],
) -> Result<(), Memory>
    ensures { (raw : Raw) → AreWords raw (λ x. get_by (λ key. bytes_eq x key.items) words.now)
        → AreByWords raw (λ x. get_by (λ key. bytes_eq x key.items) found.old)
        → OnOk result (AreByWords raw (λ x. get_by (λ key. bytes_eq x key.items) found.new)) }
{
    if found.contains_key(name) {
        return Ok(());
    }
    match words.get(name) {
        Some(bits) => {
            let literals = all_bits(alloc, bits.as_slice())?;
            table::put(alloc, found, name, literals)
        }
        None => Ok(()),
    }
}

/// Keeps what these texts X are that of by their words X[n], with and without a `!` in front.
pub(crate) fn keep_all(
    alloc: Global,
    found: &mut LiteralTable,
    words: &WordTable,
    texts: &[&[u8]],
) -> Result<(), Memory>
    ensures { (raw : Raw) → AreWords raw (λ x. get_by (λ key. bytes_eq x key.items) words.now)
        → AreByWords raw (λ x. get_by (λ key. bytes_eq x key.items) found.old)
        → OnOk result (AreByWords raw (λ x. get_by (λ key. bytes_eq x key.items) found.new)) }
{
    for wanted in texts {
        keep_bits(alloc, found, words, wanted)?;
        keep_bits(alloc, found, words, without_not(wanted))?;
    }
    Ok(())
}
