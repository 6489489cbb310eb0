//! What a name means.
ghost use Rattle.std.specs.Prelude.{◌≡◌, ◌∷◌, ◌<◌, ◌≤◌, ◌-◌, ℕ, List, length, map, option_copied, option_map};
ghost use Rattle.std.specs.Prelude.{IfOk, IfSome, IfNone};
ghost use Rattle.std.specs.List.{range_with_len};
ghost use Rattle.aig_parts.specs.Literal.{negation};
ghost use Rattle.aig_signals.specs.Lookup as spec;
ghost use Rattle.aig_signals.specs.Lookup.{least, entry_literal, in_sections, signal_literals, signal_named};
ghost use Rattle.aig_signals.specs.Names.{literal_of, literals_of};
ghost use Rattle.aig_signals.specs.Signals as signals_spec;
ghost use Rattle.aig_signals.specs.state.Called.{by_names};

use crate::names::{has_further_name, push_first_name};
use crate::section::{SECTIONS, count_of, literal_at};
use crate::signal::Signal;
use aig_base::{Circuit, Kind, List, Lit, Memory};
use aig_names::push_position;
use std::alloc::Global;

/// What gives an entry a name.
#[derive(Clone, Copy, Drop)]
pub(crate) enum Rule {
    /// The first word of its symbol; without one, its letter and position.
    FirstName,
    /// A word after the first.
    FurtherWord,
    /// Its letter and position.
    Position,
}

/// A name, and the circuit in which entries of it are looked for.
#[derive(Clone, Copy, Drop)]
struct NameSearch<'a> {
    circuit: &'a Circuit,
    name: &'a [u8],
}

impl<'a> NameSearch<'a> {
    /// Whether a rule gives an entry the name.
    fn has_name(
        &self,
        buffer: &mut Vec<u8>,
        rule: Rule,
        kind: Kind,
        position: u32,
    ) -> Result<bool, Memory>
        ensures { IfOk result (λ has.
            has ≡ spec.has_name self.now.circuit.now self.now.name.now rule kind position) }
    {
        buffer.clear();
        match rule {
            Rule::FirstName => push_first_name(buffer, self.circuit, kind, position)?,
            Rule::FurtherWord => {
                return has_further_name(buffer, self.circuit, kind, position, self.name);
            }
            Rule::Position => push_position(buffer, kind, position)?,
        }
        Ok(buffer.as_slice() == self.name)
    }

    /// The earliest position of a section to which a rule gives the name.
    fn position_in(
        &self,
        buffer: &mut Vec<u8>,
        rule: Rule,
        kind: Kind,
    ) -> Result<Option<u32>, Memory>
        ensures named { IfOk result (λ found.
            found ≡ least (spec.has_name self.now.circuit.now self.now.name.now rule kind)
            (length (literals_of self.now.circuit.now kind))) }
        ensures within { IfOk result (λ found.
            IfSome found (λ p. p < length (literals_of self.now.circuit.now kind))) }
    {
        for position in 0..count_of(self.circuit, kind) {
            let has = self.has_name(buffer, rule, kind, position)?;
            if has {
                return Ok(Some(position));
            }
        }
        Ok(None)
    }

    /// The literal of the earliest entry of these sections to which a rule gives the name.
    fn literal_in(&self, alloc: Global, rule: Rule, kinds: &[Kind]) -> Result<Option<Lit>, Memory>
        ensures { IfOk result (λ found. found ≡ option_map (entry_literal self.now.circuit.now)
            (in_sections self.now.circuit.now self.now.name.now rule kinds.now)) }
    {
        let mut buffer = Vec::new(alloc);
        for kind in kinds {
            let found = self.position_in(&mut buffer, rule, *kind)?;
            if let Some(position) = found {
                return Ok(Some(literal_at(self.circuit, *kind, position)));
            }
        }
        Ok(None)
    }

    /// The literal of the earliest entry to which a rule gives the name.
    fn literal_by(&self, alloc: Global, rule: Rule) -> Result<Option<Lit>, Memory>
        ensures { IfOk result (λ found. found ≡ option_map (entry_literal self.now.circuit.now)
            (spec.entry_by self.now.circuit.now self.now.name.now rule)) }
    {
        self.literal_in(alloc, rule, &SECTIONS)
    }
}

/// The literals of neighbours of a section, from the first up to the end.
pub(crate) fn literals_between(
    alloc: Global,
    circuit: &Circuit,
    kind: Kind,
    first: u32,
    end: u32,
) -> Result<List<Lit>, Memory>
    requires ordered { first ≤ end }
    requires within { end ≤ length (literals_of circuit.now kind) }
    ensures { IfOk result (λ literals. literals
        ≡ map (literal_of circuit.now kind) (range_with_len first (end - first))) }
{
    let mut literals = List::new(alloc);
    for position in first..end {
        literals.push(literal_at(circuit, kind, position))?;
    }
    Ok(literals)
}

/// The earliest signal of a name.
fn signal_of<'a>(signals: &'a [Signal], name: &[u8]) -> Option<&'a Signal>
    ensures { option_copied result ≡ spec.named_in signals.now name.now }
{
    for signal in signals {
        if signal.name.as_slice() == name {
            return Some(signal);
        }
    }
    None
}

/// A list of one literal, where there is one.
pub(crate) fn list_of(alloc: Global, literal: Option<Lit>) -> Result<Option<List<Lit>>, Memory>
    ensures { IfOk result (λ list. list ≡ option_map spec.alone literal) }
{
    match literal {
        Some(literal) => {
            let mut list = List::new(alloc);
            list.push(literal)?;
            Ok(Some(list))
        }
        None => Ok(None),
    }
}

/// The literals of the earliest signal of a name.
fn signal_literals(
    alloc: Global,
    circuit: &Circuit,
    signals: &[Signal],
    name: &[u8],
) -> Result<Option<List<Lit>>, Memory>
    requires { signals.now ≡ signals_spec.signals_of circuit.now }
    ensures { IfOk result (λ found. found
        ≡ option_map (signal_literals circuit.now) (signal_named circuit.now name.now)) }
{
    match signal_of(signals, name) {
        Some(signal) => Ok(Some(literals_between(
            alloc,
            circuit,
            signal.kind,
            signal.first,
            signal.end,
        )?)),
        None => Ok(None),
    }
}

/// What a name is that of by first names, by vectors and by further words.
pub(crate) fn literals_by_names(
    alloc: Global,
    circuit: &Circuit,
    signals: &[Signal],
    name: &[u8],
) -> Result<Option<List<Lit>>, Memory>
    requires { signals.now ≡ signals_spec.signals_of circuit.now }
    ensures { IfOk result (λ found. found ≡ by_names circuit.now name.now) }
{
    let search = NameSearch { circuit, name };
    let first = search.literal_by(alloc, Rule::FirstName)?;
    if let Some(literal) = first {
        return list_of(alloc, Some(literal));
    }
    let called = signal_literals(alloc, circuit, signals, name)?;
    if let Some(literals) = called {
        return Ok(Some(literals));
    }
    let further = search.literal_by(alloc, Rule::FurtherWord)?;
    list_of(alloc, further)
}

/// What a name is that of by its letter and position.
pub(crate) fn literal_placed(
    alloc: Global,
    circuit: &Circuit,
    name: &[u8],
) -> Result<Option<List<Lit>>, Memory>
    ensures { IfOk result (λ found. found ≡ spec.literals_by circuit.now name.now Rule.Position) }
{
    let search = NameSearch { circuit, name };
    let found = search.literal_by(alloc, Rule::Position)?;
    list_of(alloc, found)
}

/// Each of these literals negated.
pub(crate) fn negated(alloc: Global, literals: &[Lit]) -> Result<List<Lit>, Memory>
    ensures { IfOk result (λ list. list ≡ map negation literals.now) }
{
    let mut list = List::new(alloc);
    for literal in literals {
        list.push(literal.not())?;
    }
    Ok(list)
}

/// What comes after a `!` in a name that begins with one.
pub(crate) fn after_not(name: &[u8]) -> Option<&[u8]>
    ensures some { IfSome result (λ rest. name.now ≡ 33 ∷ rest.now) }
    ensures none { IfNone result ((rest : List ℕ) → name.now ≡ 33 ∷ rest → ⊥) }
{
    match name.first() {
        Some(first) if *first == b'!' => Some(&name[1..]),
        _ => None,
    }
}

/// A name without a `!` in front.
pub(crate) fn without_not(name: &[u8]) -> &[u8] {
    match name.first() {
        Some(first) if *first == b'!' => &name[1..],
        _ => name,
    }
}

/// The position of the earliest entry of a section that has a name: by its first name, by a further word, or by its
/// letter and position, in this order. Linear in the section and its names.
pub fn entry_named(
    alloc: Global,
    circuit: &Circuit,
    kind: Kind,
    name: &[u8],
) -> Result<Option<u32>, Memory>
    ensures named { IfOk result (λ found. found ≡ spec.entry_in circuit.now name.now kind) }
    ensures within { IfOk result (λ found. IfSome found (λ p. p < length (literals_of circuit.now kind))) }
{
    let search = NameSearch { circuit, name };
    let mut buffer = Vec::new(alloc);
    let first = search.position_in(&mut buffer, Rule::FirstName, kind)?;
    if let Some(position) = first {
        return Ok(Some(position));
    }
    let further = search.position_in(&mut buffer, Rule::FurtherWord, kind)?;
    if let Some(position) = further {
        return Ok(Some(position));
    }
    search.position_in(&mut buffer, Rule::Position, kind)
}
