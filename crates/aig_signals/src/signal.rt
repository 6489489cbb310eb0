//! Signals and their names.
ghost use Rattle.std.specs.Prelude.{◌≡◌, ◌++◌, ◌==◌, ◌-◌, ◌<◌, ◌≤◌, ◌^◌, ℕ, List, Bool, length, map, All, IfOk, IfSome};
ghost use Rattle.std.specs.Prelude.{OnOk, option_map};
ghost use Rattle.std.specs.List.{flat_map};
ghost use Rattle.std.specs.Str.{bytes_eq};
ghost use Rattle.indexmap.specs.IndexMap.{get_by, hasher_of};
ghost use Rattle.aig_signals.specs.Signals as spec;
ghost use Rattle.aig_signals.specs.Signals.{name_by, is_called, vector_name, section_signals, signal_of, count_called};
ghost use Rattle.aig_signals.specs.Signals.{bit_in, size_of};
ghost use Rattle.aig_signals.specs.Names.{first_name};
ghost use Rattle.aig_signals.specs.state.NameHash.{hash_by};
ghost use Rattle.aig_signals.specs.state.Seen.{seen, noted, is_once};

use crate::hash::NameHash;
use crate::names::push_first_name;
use crate::run::{Run, runs_of};
use crate::section::SECTIONS;
use aig_base::{Bytes, Circuit, Kind, List, Memory};
use aig_names::{Bit, bit_of};
use indexmap::IndexMap;
use itoa::Buffer;
use std::alloc::Global;

/// A vector, or an entry that is in none: its entries in its section are those from the first up to the end.
pub struct Signal {
    pub kind: Kind,
    pub first: u32,
    pub end: u32,
    pub name: Bytes,
}

// By hand: a value then ends in one call, which is one step of a proof (docs/PROOFS.md, Habits).
impl Drop for Signal {
    fn drop(self) {
        let Signal {
            kind: _,
            first: _,
            end: _,
            name: _,
        } = self;
    }
}

/// Notes a vector by its name: each name is kept with whether it is that of only one.
fn note(
    alloc: Global,
    known: &mut IndexMap<Vec<u8>, bool, NameHash>,
    name: &[u8],
) -> Result<(), Memory>
    ensures noted { OnOk result ((x : List ℕ) → get_by (λ key. bytes_eq x key.items) known.new
        ≡ noted (bytes_eq x name.now) (get_by (λ key. bytes_eq x key.items) known.old)) }
    ensures hash { hasher_of known.new ≡ hasher_of known.old }
{
    let is_new = !known.contains_key(name);
    known.insert(Vec::from_slice(alloc, name)?, is_new)?;
    Ok(())
}

/// The first bit of a run of so many entries, where it is a vector; the first entry has this name.
fn first_bit(name: &[u8], size: u32) -> Option<Bit<'_>>
    ensures bit { option_map (λ bit. (bit.vector.now, bit.index)) result ≡ spec.first_bit name.now size }
    ensures small { IfSome result (λ bit. bit.index < 10 ^ 19) }
    ensures some { IfSome result (λ bit. 0 < size) }
{
    if size > 1 { bit_of(name) } else { None }
}

/// Notes a run of so many entries, the first of which has this name, where it is a vector.
fn see(
    alloc: Global,
    known: &mut IndexMap<Vec<u8>, bool, NameHash>,
    name: &[u8],
    size: u32,
) -> Result<(), Memory>
    ensures noted { OnOk result ((x : List ℕ) → get_by (λ key. bytes_eq x key.items) known.new
        ≡ noted (is_called x (spec.first_bit name.now size)) (get_by (λ key. bytes_eq x key.items) known.old)) }
    ensures hash { hasher_of known.new ≡ hasher_of known.old }
{
    match first_bit(name, size) {
        Some(bit) => note(alloc, known, bit.vector),
        None => Ok(()),
    }
}

/// The name of a vector of so many bits, from bit n up.
fn vector_name(
    alloc: Global,
    vector: &[u8],
    index: u64,
    size: u32,
    only: bool,
) -> Result<Bytes, Memory>
    requires small { index < 10 ^ 19 }
    requires some { 0 < size }
    ensures { IfOk result (λ name. name ≡ vector_name vector.now index size only) }
{
    let mut name = Vec::from_slice(alloc, vector)?;
    if only && index == 0 {
        return Ok(List::from_vec(name));
    }
    let mut buffer = Buffer::new();
    name.push(b'[')?;
    name.extend_from_slice(buffer.format(index + u64::from(size - 1)).as_bytes())?;
    name.push(b':')?;
    name.extend_from_slice(buffer.format(index).as_bytes())?;
    name.push(b']')?;
    Ok(List::from_vec(name))
}

/// Whether a name is that of only one vector.
fn is_only(known: &IndexMap<Vec<u8>, bool, NameHash>, name: &[u8]) -> bool
    ensures { result ≡ is_once (get_by (λ key. bytes_eq name.now key.items) known.now) }
{
    matches!(known.get(name), Some(true))
}

/// The runs of a section.
#[derive(Clone, Copy, Drop)]
struct SectionRuns<'a> {
    circuit: &'a Circuit,
    kind: Kind,
    runs: &'a [Run],
}

impl<'a> SectionRuns<'a> {
    /// Hashers that have taken in the first names of all runs.
    fn hash_of(&self, alloc: Global) -> Result<NameHash, Memory>
        ensures { IfOk result (λ hash. hash
            ≡ hash_by (map (λ run. first_name self.now.circuit.now self.now.kind run.first) self.now.runs.now)) }
    {
        let mut hash = NameHash::new();
        let mut name = Vec::new(alloc);
        for run in self.runs {
            name.clear();
            push_first_name(&mut name, self.circuit, self.kind, run.first)?;
            hash.mix(name.as_slice());
        }
        Ok(hash)
    }

    /// The names of the vectors among the runs, each with whether it is that of only one.
    fn names_seen(&self, alloc: Global) -> Result<IndexMap<Vec<u8>, bool, NameHash>, Memory>
        requires { All (λ run. run.first ≤ run.end) self.now.runs.now }
        ensures seen { IfOk result (λ map. (x : List ℕ) → get_by (λ key. bytes_eq x key.items) map
            ≡ seen (count_called self.now.circuit.now self.now.kind x self.now.runs.now)) }
        ensures hash { IfOk result (λ known. hasher_of known
            ≡ hash_by (map (λ run. first_name self.now.circuit.now self.now.kind run.first) self.now.runs.now)) }
    {
        let hash = self.hash_of(alloc)?;
        let mut map = IndexMap::with_hasher(alloc, hash);
        let mut name = Vec::new(alloc);
        for run in self.runs {
            name.clear();
            push_first_name(&mut name, self.circuit, self.kind, run.first)?;
            see(alloc, &mut map, name.as_slice(), run.end - run.first)?;
        }
        Ok(map)
    }

    /// The name of a run, where the names of all vectors of the section have been seen.
    fn name_of(
        &self,
        alloc: Global,
        known: &IndexMap<Vec<u8>, bool, NameHash>,
        run: Run,
    ) -> Result<Bytes, Memory>
        requires { run.first < run.end }
        ensures { IfOk result (λ name. name ≡ name_by (first_name self.now.circuit.now self.now.kind run.first)
            (bit_in self.now.circuit.now self.now.kind run) (size_of run)
            (λ x. is_once (get_by (λ key. bytes_eq x key.items) known.now))) }
    {
        let mut name = Vec::new(alloc);
        push_first_name(&mut name, self.circuit, self.kind, run.first)?;
        let size = run.end - run.first;
        if let Some(bit) = first_bit(name.as_slice(), size) {
            let only = is_only(known, bit.vector);
            return vector_name(alloc, bit.vector, bit.index, size, only);
        }
        Ok(List::from_vec(name))
    }

    /// Adds the signals of the runs, where the names of all vectors of the section have been seen.
    fn push_runs(
        &self,
        alloc: Global,
        signals: &mut Vec<Signal>,
        known: &IndexMap<Vec<u8>, bool, NameHash>,
    ) -> Result<(), Memory>
        requires some { All (λ run. run.first < run.end) self.now.runs.now }
        requires known { (x : List ℕ) → get_by (λ key. bytes_eq x key.items) known.now
            ≡ seen (count_called self.now.circuit.now self.now.kind x self.now.runs.now) }
        ensures { OnOk result (signals.new.items ≡ signals.old.items
            ++ map (signal_of self.now.circuit.now self.now.kind self.now.runs.now) self.now.runs.now) }
    {
        for run in self.runs {
            signals.push(Signal {
                kind: self.kind,
                first: run.first,
                end: run.end,
                name: self.name_of(alloc, known, *run)?,
            })?;
        }
        Ok(())
    }
}

/// Adds the signals of a section.
fn push_section(
    alloc: Global,
    signals: &mut Vec<Signal>,
    circuit: &Circuit,
    kind: Kind,
) -> Result<(), Memory>
    ensures { OnOk result (signals.new.items ≡ signals.old.items ++ section_signals circuit.now kind) }
{
    let runs = runs_of(alloc, circuit, kind)?;
    let section = SectionRuns {
        circuit,
        kind,
        runs: runs.as_slice(),
    };
    let known = section.names_seen(alloc)?;
    section.push_runs(alloc, signals, &known)
}

/// The signals of a section.
pub(crate) fn section_signals(
    alloc: Global,
    circuit: &Circuit,
    kind: Kind,
) -> Result<Vec<Signal>, Memory>
    ensures { IfOk result (λ signals. signals.items ≡ section_signals circuit.now kind) }
{
    let mut signals = Vec::new(alloc);
    push_section(alloc, &mut signals, circuit, kind)?;
    Ok(signals)
}

/// Adds the signals of these sections.
fn push_sections(
    alloc: Global,
    signals: &mut Vec<Signal>,
    circuit: &Circuit,
    kinds: &[Kind],
) -> Result<(), Memory>
    ensures { OnOk result (signals.new.items ≡ signals.old.items ++ flat_map (section_signals circuit.now) kinds.now) }
{
    for kind in kinds {
        push_section(alloc, signals, circuit, *kind)?;
    }
    Ok(())
}

/// The signals of a circuit, in its order: inputs first, then latches, outputs, bad states and constraints. Linear in
/// the sections and their names.
pub fn signals_of(alloc: Global, circuit: &Circuit) -> Result<Vec<Signal>, Memory>
    ensures { IfOk result (λ signals. signals.items ≡ spec.signals_of circuit.now) }
{
    let mut signals = Vec::new(alloc);
    push_sections(alloc, &mut signals, circuit, &SECTIONS)?;
    Ok(signals)
}
