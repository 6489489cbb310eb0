//! The names of a section's signals in the order of their lines.
ghost use Rattle.std.specs.Prelude.{◌≡◌, ◌≢◌, ◌+◌, ◌<◌, ◌^◌, [], length, map, IfOk, OnOk, AllPairs};
ghost use Rattle.std.specs.Map.{keys_of};
ghost use Rattle.aig_names.specs.Signals.{entries, columns, section_names};
ghost use Rattle.aig_names.specs.state.Naming.{named, entry_names, size_left, column_then};

use crate::names::{Name, Names, first_name, names_at};
use crate::vectors::push_turned;
use aig_bytes::Memory;
use aig_parts::{Kind, Symbols};
use std::alloc::Global;

/// A section of a circuit: its kind, the number of its first signal, and how many there are.
#[derive(Clone, Copy, Drop)]
pub struct Section {
    pub kind: Kind,
    pub first: u32,
    pub count: u32,
}

/// A signal with one of its names.
#[derive(Clone, Copy, Drop)]
pub struct NamedSignal<'a> {
    pub number: u32,
    pub name: Name<'a>,
}

/// A signal with its names that are not declared yet.
#[derive(Clone, Copy, Drop)]
pub struct Entry<'a> {
    pub number: u32,
    pub names: Names<'a>,
}

// The entries of a section, with all their names.
fn entries_of<'a>(
    alloc: Global,
    symbols: &'a Symbols,
    section: &Section,
) -> Result<Vec<Entry<'a>>, Memory>
    requires once { AllPairs (λ x y. x ≢ y) (keys_of symbols.now) }
    requires few { section.now.first + section.now.count < 2 ^ 32 }
    ensures { IfOk result (λ es. map entry_names es.items
        ≡ entries symbols.now section.now.kind section.now.first section.now.count) }
{
    let mut entries = Vec::with_capacity(alloc, section.count as usize)?;
    for position in 0..section.count {
        entries.push(Entry {
            number: section.first + position,
            names: names_at(symbols, section.kind, position),
        })?;
    }
    Ok(entries)
}

// Adds the first name of each entry that has one to a column, and answers what is left of these entries.
fn take_column<'a>(
    alloc: Global,
    column: &mut Vec<NamedSignal<'a>>,
    entries: &[Entry<'a>],
) -> Result<Vec<Entry<'a>>, Memory>
    requires empty { column.old.items ≡ [] }
    ensures columns { IfOk result (λ rest. columns (map entry_names entries.now)
        ≡ column_then (map named column.new.items) (columns (map entry_names rest.items))) }
    ensures none { IfOk result (λ rest. column.new.items ≡ [] → rest.items ≡ []) }
    ensures fewer { IfOk result (λ rest. 0 < length entries.now → size_left rest.items < size_left entries.now) }
{
    let mut rest = Vec::new(alloc);
    for entry in entries {
        if let Some(first) = first_name(entry.names) {
            column.push(NamedSignal {
                number: entry.number,
                name: first.name,
            })?;
            rest.push(Entry {
                number: entry.number,
                names: first.rest,
            })?;
        }
    }
    Ok(rest)
}

/// The names of a section's signals, in the order of their lines.
pub fn signals_of<'a>(
    alloc: Global,
    symbols: &'a Symbols,
    section: &Section,
) -> Result<Vec<NamedSignal<'a>>, Memory>
    requires once { AllPairs (λ x y. x ≢ y) (keys_of symbols.now) }
    requires few { section.now.first + section.now.count < 2 ^ 32 }
    ensures { IfOk result (λ signals. map named signals.items
        ≡ section_names symbols.now section.now.kind section.now.first section.now.count) }
{
    let mut signals = Vec::new(alloc);
    let mut entries = entries_of(alloc, symbols, section)?;
    'columns: while !entries.is_empty() {
        let mut column = Vec::new(alloc);
        entries = take_column(alloc, &mut column, &entries)?;
        push_turned(alloc, &mut signals, &column)?;
    }
    Ok(signals)
}
