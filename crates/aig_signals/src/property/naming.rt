//! A circuit whose properties have the names of a text.
ghost use Rattle.std.specs.Prelude.{◌≡◌, ◌≢◌, ◌∷◌, ◌++◌, length, All, AllPairs, IfOk, IfErr, IfSome, IfNone, OnOk};
ghost use Rattle.std.specs.Prelude.{Contains, option_copied};
ghost use Rattle.std.specs.Map.{keys_of};
ghost use Rattle.aig_base.specs.Selected as selected;
ghost use Rattle.aig_base.specs.Selected.{properties_in};
ghost use Rattle.aig_signals.specs.Named as spec;
ghost use Rattle.aig_signals.specs.Named.{IsNamed, RefusesNames, symbol_of, with_symbols};
ghost use Rattle.aig_signals.specs.state.PropertyNaming.{AddsNames, IsFreeFor, RefusesLines, other_symbols};

use crate::property::fault::NamesFault;
use aig_base::{
    Bytes, Circuit, Kind, List, Lit, Memory, PropertySection, Raw, SymbolList, Symbols, line_length,
};
use std::alloc::{AllocError, Global};

/// The section, as symbols name it.
pub(crate) fn kind_of(section: PropertySection) -> Kind
    ensures { result ≡ selected.kind_of section }
{
    match section {
        PropertySection::Bad => Kind::Bad,
        PropertySection::Outputs => Kind::Output,
    }
}

/// How many properties a section has.
fn count_of(circuit: &Circuit, section: PropertySection) -> u32
    ensures { result ≡ length (properties_in section circuit.now) }
{
    circuit.facts();
    match section {
        PropertySection::Bad => circuit.bad().len() as u32,
        PropertySection::Outputs => circuit.outputs().len() as u32,
    }
}

/// Whether an entry of this kind is in another section.
pub(crate) fn is_other(section: PropertySection, kind: Kind) -> bool
    ensures { result ≡ spec.is_other section kind }
{
    match section {
        PropertySection::Bad => !matches!(kind, Kind::Bad),
        PropertySection::Outputs => !matches!(kind, Kind::Output),
    }
}

/// The symbols of the other sections.
fn other_symbols(
    alloc: Global,
    circuit: &Circuit,
    section: PropertySection,
) -> Result<SymbolList, AllocError>
    ensures { IfOk result (λ list. list ≡ other_symbols section circuit.now.symbols) }
{
    // Its contract says that no entry has two names.
    circuit.facts();
    let mut list = SymbolList::new(alloc);
    for (entry, name) in circuit.symbols().iter() {
        if is_other(section, entry.0) {
            list.push(entry.0, entry.1, name)?;
        }
    }
    Ok(list)
}

/// Adds the name of a property. An empty line gives it none.
fn push_name(
    list: &mut SymbolList,
    kind: Kind,
    position: u32,
    name: &[u8],
) -> Result<(), AllocError>
    requires { Contains (keys_of list.old) (kind, position) → ⊥ }
    ensures { OnOk result (list.new ≡ list.old ++ symbol_of kind position name.now) }
{
    if name.is_empty() {
        return Ok(());
    }
    list.push(kind, position, name)
}

/// The first line of a text, without its LF, and what comes after it.
fn split_line(text: &[u8]) -> Option<(&[u8], &[u8])>
    ensures line { IfSome result (λ parts. All (λ b. b ≢ 10) parts.0.now) }
    ensures split { IfSome result (λ parts. text.now ≡ parts.0.now ++ 10 ∷ parts.1.now) }
    ensures none { IfNone result (All (λ b. b ≢ 10) text.now) }
{
    let end = line_length(text);
    if end == text.len() {
        None
    } else {
        Some((&text[..end], &text[end + 1..]))
    }
}

/// Adds the names of `count` properties, which a text has one per line.
fn push_names(
    list: &mut SymbolList,
    section: PropertySection,
    count: u32,
    text: &[u8],
) -> Result<(), NamesFault>
    requires { IsFreeFor (selected.kind_of section) list.old }
    ensures names { OnOk result (AddsNames (selected.kind_of section) count text.now list.old list.new) }
    ensures fault { IfErr result (RefusesLines count text.now) }
{
    let kind = kind_of(section);
    let mut rest = text;
    for position in 0..count {
        let Some((name, after)) = split_line(rest) else {
            return Err(NamesFault::Lines);
        };
        push_name(list, kind, position, name)?;
        rest = after;
    }
    if rest.is_empty() {
        Ok(())
    } else {
        Err(NamesFault::Lines)
    }
}

// A list of these items.
fn list_of<T: Copy>(alloc: Global, items: &[T]) -> Result<List<T>, Memory>
    ensures { IfOk result (λ list. list ≡ items.now) }
{
    Ok(List::from_vec(Vec::from_slice(alloc, items)?))
}

// The same of lists.
fn lists_of(alloc: Global, lists: &[List<Lit>]) -> Result<List<List<Lit>>, Memory>
    ensures { IfOk result (λ copies. copies ≡ lists.now) }
{
    let mut copies = List::new(alloc);
    for list in lists {
        copies.push(list_of(alloc, list.as_slice())?)?;
    }
    Ok(copies)
}

// The same of a comment.
fn comment_of(alloc: Global, comment: Option<&[u8]>) -> Result<Option<Bytes>, Memory>
    ensures { IfOk result (λ copy. copy ≡ option_copied comment.entry) }
{
    match comment {
        Some(bytes) => Ok(Some(list_of(alloc, bytes)?)),
        None => Ok(None),
    }
}

/// The parts of a circuit, with other symbols.
fn parts_with(alloc: Global, circuit: &Circuit, symbols: Symbols) -> Result<Raw, Memory>
    ensures { IfOk result (λ raw. raw ≡ with_symbols circuit.now symbols) }
{
    Ok(Raw {
        max_var: circuit.max_var(),
        inputs: list_of(alloc, circuit.inputs())?,
        latches: list_of(alloc, circuit.latches())?,
        outputs: list_of(alloc, circuit.outputs())?,
        bad: list_of(alloc, circuit.bad())?,
        constraints: list_of(alloc, circuit.constraints())?,
        justice: lists_of(alloc, circuit.justice())?,
        fairness: list_of(alloc, circuit.fairness())?,
        gates: list_of(alloc, circuit.gates())?,
        symbols,
        comment: comment_of(alloc, circuit.comment())?,
    })
}

/// No entry has two names. It does nothing: a function calls it for its contract.
fn names_once(symbols: &Symbols)
    ensures { AllPairs (λ x y. x ≢ y) (keys_of symbols.now) }
{
    let _entries = symbols.iter();
}

/// The symbols of a circuit where a section has these names.
fn symbols_with(
    alloc: Global,
    circuit: &Circuit,
    section: PropertySection,
    names: &[u8],
) -> Result<Symbols, NamesFault>
    ensures named { IfOk result (λ symbols. IsNamed circuit.now section names.now (with_symbols circuit.now symbols)) }
    ensures once { IfOk result (λ symbols. AllPairs (λ x y. x ≢ y) (keys_of symbols)) }
    ensures fault { IfErr result (RefusesNames circuit.now section names.now) }
{
    let mut list = other_symbols(alloc, circuit, section)?;
    push_names(&mut list, section, count_of(circuit, section), names)?;
    let symbols = list.into_symbols()?;
    names_once(&symbols);
    Ok(symbols)
}

/// The circuit whose properties of a section have the names of a text, and no others. The text has one line per
/// property, in their order, with an LF at its end. An empty line gives a property no name. All else stays. It takes
/// memory for a copy of the circuit, and is linear in it.
pub fn named(
    alloc: Global,
    circuit: &Circuit,
    section: PropertySection,
    names: &[u8],
) -> Result<Circuit, NamesFault>
    ensures named { IfOk result (IsNamed circuit.now section names.now) }
    ensures fault { IfErr result (RefusesNames circuit.now section names.now) }
{
    circuit.facts();
    let symbols = symbols_with(alloc, circuit, section, names)?;
    let parts = parts_with(alloc, circuit, symbols)?;
    match Circuit::check(alloc, parts) {
        Ok(named) => Ok(named),
        // Names do not make a circuit faulty, so memory is missing.
        Err(_) => Err(NamesFault::Memory),
    }
}
