//! The names of a circuit, as lists and as proposals.
ghost use Rattle.std.specs.Prelude.{option_map};
ghost use Rattle.aig_shell.specs.Ends.{EndsQuery};
ghost use Rattle.aig_shell.specs.Request as request;

use crate::pieces::{Piece, push_pieces};
use crate::refusal::Refusal;
use crate::session::Session;
use aig_base::{Circuit, Kind, Memory};
use aig_names::{first_word, symbol_at};
use aig_prompt::{Folding, Near};
use aig_signals::{SECTIONS, Signal, count_of, push_first_name, push_readable};
use memchr::memmem;
use std::alloc::Global;
use std::collections::BTreeSet;

/// Names, in the order of the circuit.
type NameList = Vec<Vec<u8>>;

/// Adds the first name of an entry that has a symbol.
fn push_first(
    names: &mut NameList,
    alloc: Global,
    circuit: &Circuit,
    kind: Kind,
    position: u32,
) -> Result<(), Memory> {
    let mut name = Vec::new(alloc);
    push_first_name(&mut name, circuit, kind, position)?;
    names.push(name)?;
    Ok(())
}

/// Adds the words of an entry's symbol after the first.
fn push_further(
    names: &mut NameList,
    alloc: Global,
    circuit: &Circuit,
    kind: Kind,
    position: u32,
) -> Result<(), Memory> {
    circuit.facts();
    let Some(first) = first_word(symbol_at(circuit.symbols(), kind, position)) else {
        return Ok(());
    };
    let mut rest = first.rest;
    while let Some(next) = first_word(rest) {
        let mut name = Vec::new(alloc);
        push_readable(&mut name, next.word)?;
        names.push(name)?;
        rest = next.rest;
    }
    Ok(())
}

/// Adds the name of a signal, and where it is one entry the further words of that.
fn push_signal(
    names: &mut NameList,
    alloc: Global,
    circuit: &Circuit,
    signal: &Signal,
) -> Result<(), Memory> {
    names.push(Vec::from_slice(alloc, signal.name.as_slice())?)?;
    if signal.end.saturating_sub(signal.first) == 1 {
        push_further(names, alloc, circuit, signal.kind, signal.first)?;
    }
    Ok(())
}

/// Whether an entry has a symbol with a word.
fn has_word(circuit: &Circuit, kind: Kind, position: u32) -> bool {
    circuit.facts();
    first_word(symbol_at(circuit.symbols(), kind, position)).is_some()
}

/// Adds the words of the symbols of a section.
fn push_section(
    names: &mut NameList,
    alloc: Global,
    circuit: &Circuit,
    kind: Kind,
) -> Result<(), Memory> {
    for position in 0..count_of(circuit, kind) {
        if has_word(circuit, kind, position) {
            push_first(names, alloc, circuit, kind, position)?;
            push_further(names, alloc, circuit, kind, position)?;
        }
    }
    Ok(())
}

/// Takes names away that came before.
fn without_twins(alloc: Global, names: NameList) -> Result<NameList, Memory> {
    let mut seen = BTreeSet::new(alloc);
    let mut kept = Vec::new(alloc);
    for name in names {
        let copy = Vec::from_slice(alloc, name.as_slice())?;
        let is_new = seen.insert(copy)?;
        if is_new {
            kept.push(name)?;
        }
    }
    Ok(kept)
}

/// Adds a name that may be meant.
fn push_proposal(text: &mut Vec<u8>, name: &[u8]) -> Result<(), Memory> {
    let question = [
        Piece::Text(b"; do you mean "),
        Piece::Text(name),
        Piece::Text(b"?"),
    ];
    push_pieces(text, &question)
}

impl Session {
    /// The signals that contain a text, and the further words of those that are one entry, each once.
    fn listed(&self, part: &[u8]) -> Result<NameList, Memory> {
        let mut names = Vec::new(self.alloc);
        for signal in self.signals.as_slice() {
            push_signal(&mut names, self.alloc, self.circuit(), signal)?;
        }
        let names = without_twins(self.alloc, names)?;
        let mut listed = Vec::new(self.alloc);
        for name in names {
            if memmem::find(name.as_slice(), part).is_some() {
                listed.push(name)?;
            }
        }
        Ok(listed)
    }

    /// How many names `names` lists for a text.
    pub(crate) fn count_listed(&self, part: &[u8]) -> Result<usize, Memory> {
        let listed = self.listed(part)?;
        Ok(listed.len())
    }

    /// Adds the name that is nearest to a word; none where no name is near. Names by letter and position are none.
    pub(crate) fn push_near(&self, text: &mut Vec<u8>, word: &[u8]) -> Result<bool, Memory> {
        let circuit = self.circuit();
        let mut names = Vec::new(self.alloc);
        for kind in SECTIONS {
            push_section(&mut names, self.alloc, circuit, kind)?;
        }
        let mut near = Near::new(self.alloc, word);
        for name in names.as_slice() {
            near.look_at(name.as_slice())?;
        }
        for signal in self.signals.as_slice() {
            if has_word(circuit, signal.kind, signal.first) {
                near.look_at(signal.name.as_slice())?;
            }
        }
        match near.name() {
            Some(name) => {
                push_proposal(text, name)?;
                Ok(true)
            }
            None => Ok(false),
        }
    }

    /// Adds the names that contain a text, folded; all where there is no text.
    pub(crate) fn names<'a>(
        &self,
        text: &mut Vec<u8>,
        part: Option<&'a [u8]>,
    ) -> Result<(), Refusal<'a>>
        ensures { EndsQuery self.now (request.list_names (option_map (λ w. w.now) part.entry)) result text.new.items }
    {
        let listed = self.listed(part.unwrap_or(b""))?;
        if listed.is_empty() {
            if let Some(part) = part {
                return Err(Refusal::NoneContains(part));
            }
            text.extend_from_slice(b"the circuit has no names\n")?;
            return Ok(());
        }
        let mut folding = Folding::new(0);
        for name in listed.as_slice() {
            folding.push_word(text, name.as_slice())?;
        }
        text.push(b'\n')?;
        Ok(())
    }
}
