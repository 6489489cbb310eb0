//! Tables of the literals that names are those of.
ghost use Rattle.std.specs.Prelude.{◌≡◌, ◌<◌, ◌≤◌, ℕ, List, None, Some, IfOk, IfSome, OnOk, length, map, option_map};
ghost use Rattle.std.specs.Prelude.{if◌then◌else◌};
ghost use Rattle.std.specs.List.{list_any};
ghost use Rattle.std.specs.Str.{bytes_eq};
ghost use Rattle.indexmap.specs.IndexMap.{get_by};
ghost use Rattle.aig_names.specs.Names.{words};
ghost use Rattle.aig_signals.specs.Lookup as lookup;
ghost use Rattle.aig_signals.specs.Lookup.{alone, entry_literal, in_sections, least, literals_by, signal_literals};
ghost use Rattle.aig_signals.specs.Names.{literal_of, literals_of, readable};
ghost use Rattle.aig_signals.specs.Signals as signals_spec;
ghost use Rattle.aig_signals.specs.state.Called as spec;
ghost use Rattle.aig_signals.specs.state.Called.{if_named, or_found};

use crate::hash::NameHash;
use crate::lookup::{Rule, list_of, literals_between, without_not};
use crate::names::{push_first_name, push_readable};
use crate::section::{SECTIONS, count_of, literal_at};
use crate::signal::Signal;
use aig_base::{Circuit, Kind, List, Lit, Memory};
use aig_names::{first_word, push_position, symbol_at};
use indexmap::IndexMap;
use std::alloc::Global;

/// Texts, with the literals that were found of each.
pub(crate) type LiteralTable = IndexMap<Vec<u8>, Option<List<Lit>>, NameHash>;

/// Hashes after all these texts.
pub(crate) fn hash_of(texts: &[&[u8]]) -> NameHash {
    let mut hash = NameHash::new();
    for text in texts {
        hash.mix(text);
    }
    hash
}

/// Keeps what was found of a text.
pub(crate) fn put(
    alloc: Global,
    table: &mut LiteralTable,
    name: &[u8],
    found: Option<List<Lit>>,
) -> Result<(), Memory>
    ensures { OnOk result ((x : List ℕ) → get_by (λ key. bytes_eq x key.items) table.new
        ≡ (if bytes_eq x name.now then Some found else get_by (λ key. bytes_eq x key.items) table.old)) }
{
    table.insert(Vec::from_slice(alloc, name)?, found)?;
    Ok(())
}

/// A table of these texts, with and without a `!` in front, of which nothing was found yet.
pub(crate) fn table_of(alloc: Global, texts: &[&[u8]]) -> Result<LiteralTable, Memory>
    ensures { IfOk result (λ table. (x : List ℕ) → IfSome (get_by (λ key. bytes_eq x key.items) table)
        (λ found. found ≡ None)) }
{
    let mut table = IndexMap::with_hasher(alloc, hash_of(texts));
    for wanted in texts {
        put(alloc, &mut table, wanted, None)?;
        put(alloc, &mut table, without_not(wanted), None)?;
    }
    Ok(table)
}

/// Whether a text is in the table, and nothing was found of it.
fn wants(table: &LiteralTable, name: &[u8]) -> bool
    ensures { result ≡ spec.wants (get_by (λ key. bytes_eq name.now key.items) table.now) }
{
    match table.get(name) {
        Some(found) => found.is_none(),
        None => false,
    }
}

/// Notes a name of an entry with this literal.
fn note(alloc: Global, table: &mut LiteralTable, name: &[u8], literal: Lit) -> Result<(), Memory>
    ensures { OnOk result ((x : List ℕ) → get_by (λ key. bytes_eq x key.items) table.new
        ≡ or_found (if_named (bytes_eq name.now x) literal) (get_by (λ key. bytes_eq x key.items) table.old)) }
{
    if !wants(table, name) {
        return Ok(());
    }
    let literals = list_of(alloc, Some(literal))?;
    put(alloc, table, name, literals)
}

/// Notes the words of a text, which are names of an entry with this literal.
fn note_words(
    alloc: Global,
    table: &mut LiteralTable,
    buffer: &mut Vec<u8>,
    text: &[u8],
    literal: Lit,
) -> Result<(), Memory>
    ensures { OnOk result ((x : List ℕ) → get_by (λ key. bytes_eq x key.items) table.new
        ≡ or_found (if_named (list_any (λ word. bytes_eq word x) (map readable (words text.now))) literal)
        (get_by (λ key. bytes_eq x key.items) table.old)) }
{
    let mut rest = text;
    while let Some(first) = first_word(rest) {
        buffer.clear();
        push_readable(buffer, first.word)?;
        note(alloc, table, buffer.as_slice(), literal)?;
        rest = first.rest;
    }
    Ok(())
}

/// Notes the words after the first of an entry's symbol.
fn note_further(
    alloc: Global,
    table: &mut LiteralTable,
    buffer: &mut Vec<u8>,
    circuit: &Circuit,
    kind: Kind,
    position: u32,
) -> Result<(), Memory>
    requires { position < length (literals_of circuit.now kind) }
    ensures { OnOk result ((x : List ℕ) → get_by (λ key. bytes_eq x key.items) table.new
        ≡ or_found (if_named (lookup.has_name circuit.now x Rule.FurtherWord kind position)
        (literal_of circuit.now kind position)) (get_by (λ key. bytes_eq x key.items) table.old)) }
{
    circuit.facts();
    let literal = literal_at(circuit, kind, position);
    match first_word(symbol_at(circuit.symbols(), kind, position)) {
        Some(first) => note_words(alloc, table, buffer, first.rest, literal),
        None => Ok(()),
    }
}

/// Notes the names that a rule gives an entry.
fn note_entry(
    alloc: Global,
    table: &mut LiteralTable,
    buffer: &mut Vec<u8>,
    circuit: &Circuit,
    rule: Rule,
    kind: Kind,
    position: u32,
) -> Result<(), Memory>
    requires { position < length (literals_of circuit.now kind) }
    ensures { OnOk result ((x : List ℕ) → get_by (λ key. bytes_eq x key.items) table.new
        ≡ or_found (if_named (lookup.has_name circuit.now x rule kind position) (literal_of circuit.now kind position))
        (get_by (λ key. bytes_eq x key.items) table.old)) }
{
    buffer.clear();
    match rule {
        Rule::FirstName => push_first_name(buffer, circuit, kind, position)?,
        Rule::FurtherWord => {
            return note_further(alloc, table, buffer, circuit, kind, position);
        }
        Rule::Position => push_position(buffer, kind, position)?,
    }
    let literal = literal_at(circuit, kind, position);
    note(alloc, table, buffer.as_slice(), literal)
}

/// Notes the names that a rule gives the entries of a section.
fn note_section(
    alloc: Global,
    table: &mut LiteralTable,
    buffer: &mut Vec<u8>,
    circuit: &Circuit,
    rule: Rule,
    kind: Kind,
) -> Result<(), Memory>
    ensures { OnOk result ((x : List ℕ) → get_by (λ key. bytes_eq x key.items) table.new
        ≡ or_found (option_map alone (option_map (literal_of circuit.now kind)
        (least (lookup.has_name circuit.now x rule kind) (length (literals_of circuit.now kind)))))
        (get_by (λ key. bytes_eq x key.items) table.old)) }
{
    for position in 0..count_of(circuit, kind) {
        note_entry(alloc, table, buffer, circuit, rule, kind, position)?;
    }
    Ok(())
}

/// Notes the names that a rule gives the entries of these sections.
fn note_sections(
    alloc: Global,
    table: &mut LiteralTable,
    circuit: &Circuit,
    rule: Rule,
    kinds: &[Kind],
) -> Result<(), Memory>
    ensures { OnOk result ((x : List ℕ) → get_by (λ key. bytes_eq x key.items) table.new
        ≡ or_found (option_map alone (option_map (entry_literal circuit.now) (in_sections circuit.now x rule kinds.now)))
        (get_by (λ key. bytes_eq x key.items) table.old)) }
{
    let mut buffer = Vec::new(alloc);
    for kind in kinds {
        note_section(alloc, table, &mut buffer, circuit, rule, *kind)?;
    }
    Ok(())
}

/// Notes the names that a rule gives all entries.
pub(crate) fn note_all(
    alloc: Global,
    table: &mut LiteralTable,
    circuit: &Circuit,
    rule: Rule,
) -> Result<(), Memory>
    ensures { OnOk result ((x : List ℕ) → get_by (λ key. bytes_eq x key.items) table.new
        ≡ or_found (literals_by circuit.now x rule) (get_by (λ key. bytes_eq x key.items) table.old)) }
{
    note_sections(alloc, table, circuit, rule, &SECTIONS)
}

/// Notes the name of a signal.
fn note_signal(
    alloc: Global,
    table: &mut LiteralTable,
    circuit: &Circuit,
    signal: &Signal,
) -> Result<(), Memory>
    requires ordered { signal.now.first ≤ signal.now.end }
    requires within { signal.now.end ≤ length (literals_of circuit.now signal.now.kind) }
    ensures { OnOk result ((x : List ℕ) → get_by (λ key. bytes_eq x key.items) table.new
        ≡ or_found (if bytes_eq signal.now.name x then Some (signal_literals circuit.now signal.now) else None)
        (get_by (λ key. bytes_eq x key.items) table.old)) }
{
    let name = signal.name.as_slice();
    if !wants(table, name) {
        return Ok(());
    }
    let literals = literals_between(alloc, circuit, signal.kind, signal.first, signal.end)?;
    put(alloc, table, name, Some(literals))
}

/// Notes the names of signals.
pub(crate) fn note_signals(
    alloc: Global,
    table: &mut LiteralTable,
    circuit: &Circuit,
    signals: &[Signal],
) -> Result<(), Memory>
    requires { signals.now ≡ signals_spec.signals_of circuit.now }
    ensures { OnOk result ((x : List ℕ) → get_by (λ key. bytes_eq x key.items) table.new
        ≡ or_found (option_map (signal_literals circuit.now) (lookup.signal_named circuit.now x))
        (get_by (λ key. bytes_eq x key.items) table.old)) }
{
    for signal in signals {
        note_signal(alloc, table, circuit, signal)?;
    }
    Ok(())
}
