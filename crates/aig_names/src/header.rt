//! The lines of the header.
ghost use Rattle.std.specs.Prelude.{◌≡◌, ◌≢◌, ◌++◌, ◌+◌, ◌<◌, ◌^◌, [], map, IfOk, OnOk, AllPairs};
ghost use Rattle.std.specs.Map.{keys_of};
ghost use Rattle.aig_names.specs.Header.{signal_line, moves, name_lines, section_scope, sections, header};
ghost use Rattle.aig_names.specs.Names.{identifier_code};
ghost use Rattle.aig_names.specs.Paths.{scopes_of, leaf_of};
ghost use Rattle.aig_names.specs.state.Naming.{named};
ghost use Rattle.aig_names.specs.state.Rows.{rows_size, rows_text};

use crate::names::show;
use crate::paths::{Path, push_closings, push_moves, push_scope};
use crate::signals::{NamedSignal, Section, signals_of};
use aig_bytes::Memory;
use aig_parts::{Kind, Symbols};
use std::alloc::Global;
use std::mem::swap;

/// How many bytes serve as digits of identifier codes, from `!` to `~`.
const BASE: u32 = 94;

/// How many signals a dump shows of each section.
#[derive(Clone, Copy, Drop)]
pub struct SignalCounts {
    pub inputs: u32,
    pub latches: u32,
    pub outputs: u32,
    pub bad: u32,
    pub constraints: u32,
}

/// A section in the table of scopes: its kind, how many signals it has, the name of its scope, and the type of its
/// signals.
type ScopeRow<'a> = (Kind, u32, &'a [u8], &'a [u8]);

// Adds the identifier code of a signal.
fn push_code(text: &mut Vec<u8>, signal: u32) -> Result<(), Memory>
    ensures { OnOk result (text.new.items ≡ text.old.items ++ identifier_code signal) }
{
    let mut rest = signal;
    while rest >= BASE {
        text.push(b'!' + (rest % BASE) as u8)?;
        rest /= BASE;
    }
    text.push(b'!' + rest as u8)?;
    Ok(())
}

// Adds the line that gives a signal a name.
fn push_signal(text: &mut Vec<u8>, shape: &[u8], number: u32, name: &[u8]) -> Result<(), Memory>
    ensures { OnOk result (text.new.items ≡ text.old.items ++ signal_line shape.now number name.now) }
{
    text.extend_from_slice(b"$var ")?;
    text.extend_from_slice(shape)?;
    text.extend_from_slice(b" 1 ")?;
    push_code(text, number)?;
    text.push(b' ')?;
    text.extend_from_slice(name)?;
    text.extend_from_slice(b" $end\n")?;
    Ok(())
}

// Adds the lines that lead to the scopes of a name from the ones of the name before it, and returns the name's last
// piece, its name there.
fn push_path<'a>(
    alloc: Global,
    text: &mut Vec<u8>,
    before: &[u8],
    name: &'a [u8],
) -> Result<&'a [u8], Memory>
    ensures text { OnOk result (text.new.items
        ≡ text.old.items ++ moves (scopes_of before.now) (scopes_of name.now)) }
    ensures leaf { IfOk result (λ leaf. leaf.now ≡ leaf_of name.now) }
{
    let open = Path::of(alloc, before)?;
    let path = Path::of(alloc, name)?;
    push_moves(text, &open.scopes, &path.scopes)?;
    Ok(path.leaf)
}

// Adds the lines of signals in their scopes.
fn push_signals(
    alloc: Global,
    text: &mut Vec<u8>,
    shape: &[u8],
    signals: &[NamedSignal<'_>],
) -> Result<(), Memory>
    ensures { OnOk result (text.new.items ≡ text.old.items ++ name_lines shape.now [] (map named signals.now)) }
{
    let mut before = Vec::new(alloc);
    let mut name = Vec::new(alloc);
    for signal in signals {
        show(&mut name, signal.name)?;
        let leaf = push_path(alloc, text, &before, &name)?;
        push_signal(text, shape, signal.number, leaf)?;
        swap(&mut before, &mut name);
    }
    let open = Path::of(alloc, &before)?;
    push_closings(text, open.scopes.len())
}

// Adds the scope of a section, whose signals are numbered from the first on; none where it has no entries.
fn push_section(
    alloc: Global,
    text: &mut Vec<u8>,
    symbols: &Symbols,
    row: &ScopeRow<'_>,
    first: u32,
) -> Result<(), Memory>
    requires once { AllPairs (λ x y. x ≢ y) (keys_of symbols.now) }
    requires few { first + row.now.1 < 2 ^ 32 }
    ensures { OnOk result (text.new.items ≡ text.old.items
        ++ section_scope symbols.now row.now.0 row.now.2.now row.now.3.now first row.now.1) }
{
    let (kind, count, scope, shape) = *row;
    if count == 0 {
        return Ok(());
    }
    let section = Section { kind, first, count };
    let signals = signals_of(alloc, symbols, &section)?;
    push_scope(text, scope)?;
    push_signals(alloc, text, shape, &signals)?;
    push_closings(text, 1)
}

// Adds the scopes of sections, whose signals are numbered from 0.
fn push_rows(
    alloc: Global,
    text: &mut Vec<u8>,
    symbols: &Symbols,
    rows: &[ScopeRow<'_>],
) -> Result<(), Memory>
    requires once { AllPairs (λ x y. x ≢ y) (keys_of symbols.now) }
    requires few { rows_size rows.now < 2 ^ 32 }
    ensures { OnOk result (text.new.items ≡ text.old.items ++ rows_text symbols.now 0 rows.now) }
{
    let mut first = 0;
    for row in rows {
        push_section(alloc, text, symbols, row, first)?;
        first += row.1;
    }
    Ok(())
}

// Adds the scopes of all sections.
fn push_sections(
    alloc: Global,
    text: &mut Vec<u8>,
    symbols: &Symbols,
    counts: &SignalCounts,
) -> Result<(), Memory>
    requires once { AllPairs (λ x y. x ≢ y) (keys_of symbols.now) }
    requires few { counts.now.inputs + counts.now.latches + counts.now.outputs + counts.now.bad + counts.now.constraints
        < 2 ^ 32 }
    ensures { OnOk result (text.new.items ≡ text.old.items ++ sections symbols.now counts.now) }
{
    let rows: [ScopeRow<'_>; 5] = [
        (Kind::Input, counts.inputs, b"inputs", b"wire"),
        (Kind::Latch, counts.latches, b"latches", b"reg"),
        (Kind::Output, counts.outputs, b"outputs", b"wire"),
        (Kind::Bad, counts.bad, b"bad", b"wire"),
        (
            Kind::Constraint,
            counts.constraints,
            b"constraints",
            b"wire",
        ),
    ];
    push_rows(alloc, text, symbols, &rows)
}

/// The text of a value change dump up to its first frame, for a circuit with these symbols and so many signals, of
/// which there are fewer than 2^32. Names and scopes are as docs/FORMATS.md has them (IEEE 1364). It refuses for memory
/// alone.
pub fn dump_header(
    alloc: Global,
    symbols: &Symbols,
    counts: &SignalCounts,
) -> Result<Vec<u8>, Memory>
    requires once { AllPairs (λ x y. x ≢ y) (keys_of symbols.now) }
    requires few { counts.now.inputs + counts.now.latches + counts.now.outputs + counts.now.bad + counts.now.constraints
        < 2 ^ 32 }
    ensures { IfOk result (λ text. text.items ≡ header symbols.now counts.now) }
{
    let mut text = Vec::from_slice(alloc, b"$version aig $end\n$timescale 1 ns $end\n")?;
    push_sections(alloc, &mut text, symbols, counts)?;
    text.extend_from_slice(b"$enddefinitions $end\n")?;
    Ok(text)
}
