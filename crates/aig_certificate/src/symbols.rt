//! The names of the strengthened circuit.
ghost use Rattle.std.specs.Prelude.{◌≡◌, ◌≤◌, ◌<◌, ◌+◌, ◌++◌, length, IfOk, OnOk, IfErr};
ghost use Rattle.aig_parts.specs.Formed.{limit, section_length};
ghost use Rattle.aig_certificate.specs.Strengthened as spec;
ghost use Rattle.aig_certificate.specs.Strengthened.{renamed};
ghost use Rattle.aig_certificate.specs.Shared.{AreMeanings};
ghost use Rattle.aig_certificate.specs.state.Marks.{meanings_of};
ghost use Rattle.aig_certificate.specs.state.Names as names;
ghost use Rattle.aig_certificate.specs.state.Names.{AreNames, RefusesNames, new_names, strengthened_symbols, with_name};

use crate::fault::StrengthenFault;
use crate::shared::SharedEntries;
use crate::translation::next_after;
use aig_base::{Circuit, Kind, Lit, Memory, SymbolList, Symbols};
use std::alloc::Global;

// Adds the name of an entry, if there is one. That no entry gets two names is tested here, as all limits are.
fn add_name(
    list: &mut SymbolList,
    entry: Option<(Kind, u32)>,
    name: &[u8],
) -> Result<(), StrengthenFault>
    ensures added { OnOk result (list.new ≡ list.old ++ with_name entry name.now) }
    ensures refused { IfErr result (RefusesNames (list.old ++ with_name entry name.now)) }
{
    let Some((kind, position)) = entry else {
        return Ok(());
    };
    if list.contains(kind, position) {
        return Err(StrengthenFault::Limit);
    }
    list.push(kind, position, name)?;
    Ok(())
}

// The entry that an entry of the model is, of which this property is asked.
fn model_entry(property: u32, kind: Kind, position: u32) -> Option<(Kind, u32)>
    ensures { result ≡ spec.model_entry property kind position }
{
    match kind {
        Kind::Input | Kind::Latch | Kind::Constraint => Some((kind, position)),
        Kind::Bad => {
            if position == property {
                Some((Kind::Output, 0))
            } else {
                None
            }
        }
        Kind::Output | Kind::Justice | Kind::Fairness => None,
    }
}

// Adds the names of the model.
fn add_model_names(
    list: &mut SymbolList,
    model: &Circuit,
    property: u32,
) -> Result<(), StrengthenFault>
    ensures added { OnOk result (list.new ≡ list.old ++ renamed (spec.model_entry property) model.now.symbols) }
    ensures refused { IfErr result (RefusesNames (list.old ++ renamed (spec.model_entry property) model.now.symbols)) }
{
    for (entry, name) in model.symbols().iter() {
        add_name(list, model_entry(property, entry.0, entry.1), name)?;
    }
    Ok(())
}

// The new positions of the own entries of a section, where the model has so many entries.
fn own_positions(alloc: Global, first: usize, meanings: &[Option<Lit>]) -> Result<Vec<u32>, Memory>
    requires { first + length meanings.now ≤ limit + limit }
    ensures { IfOk result (λ positions. positions.items ≡ names.own_positions first meanings.now) }
{
    let mut positions = Vec::new(alloc);
    let mut next = first as u32;
    for meaning in meanings {
        positions.push(next)?;
        next = next_after(next, *meaning);
    }
    Ok(positions)
}

// An own entry of a section at its new position; a shared entry is gone.
fn own_entry(
    kind: Kind,
    meanings: &[Option<Lit>],
    positions: &[u32],
    position: u32,
) -> Option<(Kind, u32)>
    requires { length positions.now ≡ length meanings.now }
    ensures { result ≡ names.entry_by kind meanings.now positions.now position }
{
    match meanings.get(position as usize) {
        Some(None) => Some((kind, positions[position as usize])),
        _ => None,
    }
}

/// The certificate's properties: its bad literals, or its outputs where it has none.
pub(crate) fn properties(certificate: &Circuit) -> &[Lit]
    ensures { result.now ≡ spec.properties certificate.now }
{
    if certificate.bad().is_empty() {
        certificate.outputs()
    } else {
        certificate.bad()
    }
}

/// A certificate's entries, with the new positions of its own inputs and latches.
struct Names<'a> {
    model: &'a Circuit,
    certificate: &'a Circuit,
    shared: &'a SharedEntries,
    inputs: Vec<u32>,
    latches: Vec<u32>,
}

// By hand: a value then ends in one call, which is one step of a proof (docs/PROOFS.md, Habits).
impl Drop for Names<'_> {
    fn drop(self) {
        let Names {
            model: _,
            certificate: _,
            shared: _,
            inputs: _,
            latches: _,
        } = self;
    }
}

impl<'a> Names<'a> {
    fn of(
        alloc: Global,
        model: &'a Circuit,
        certificate: &'a Circuit,
        shared: &'a SharedEntries,
    ) -> Result<Names<'a>, Memory>
        requires { AreMeanings model.now certificate.now (meanings_of shared.now) }
        ensures names { IfOk result AreNames }
        ensures model { IfOk result (λ names. names.model.now ≡ model.now) }
        ensures certificate { IfOk result (λ names. names.certificate.now ≡ certificate.now) }
        ensures shared { IfOk result (λ names. names.shared.now ≡ shared.now) }
    {
        model.facts();
        certificate.facts();
        let inputs = own_positions(alloc, model.inputs().len(), shared.inputs.as_slice())?;
        let latches = own_positions(alloc, model.latches().len(), shared.latches.as_slice())?;
        Ok(Names {
            model,
            certificate,
            shared,
            inputs,
            latches,
        })
    }

    /// The entry that an entry of the certificate is.
    fn entry(&self, kind: Kind, position: u32) -> Option<(Kind, u32)>
        requires names { AreNames self.now }
        requires there { position < section_length self.now.certificate.now kind }
        ensures { result ≡ spec.certificate_entry self.now.model.now self.now.certificate.now
            (meanings_of self.now.shared.now) kind position }
    {
        self.certificate.facts();
        match kind {
            Kind::Input => {
                own_entry(kind, self.shared.inputs.as_slice(), &self.inputs, position)
            }
            Kind::Latch => {
                own_entry(
                    kind,
                    self.shared.latches.as_slice(),
                    &self.latches,
                    position,
                )
            }
            Kind::Bad => Some((Kind::Output, 1 + position)),
            Kind::Output => {
                if self.certificate.bad().is_empty() {
                    Some((Kind::Output, 1 + position))
                } else {
                    None
                }
            }
            Kind::Constraint => {
                let properties = properties(self.certificate).len() as u32;
                Some((Kind::Output, 1 + properties + position))
            }
            Kind::Justice | Kind::Fairness => None,
        }
    }
}

// Adds the names of the certificate.
fn add_certificate_names(list: &mut SymbolList, names: &Names) -> Result<(), StrengthenFault>
    requires { AreNames names.now }
    ensures added { OnOk result (list.new ≡ list.old ++ new_names names.now) }
    ensures refused { IfErr result (RefusesNames (list.old ++ new_names names.now)) }
{
    names.certificate.facts();
    for (entry, name) in names.certificate.symbols().iter() {
        add_name(list, names.entry(entry.0, entry.1), name)?;
    }
    Ok(())
}

/// The names of the strengthened circuit.
pub(crate) fn strengthened_symbols(
    alloc: Global,
    model: &Circuit,
    property: u32,
    certificate: &Circuit,
    shared: &SharedEntries,
) -> Result<Symbols, StrengthenFault>
    requires { AreMeanings model.now certificate.now (meanings_of shared.now) }
    ensures symbols { IfOk result (λ symbols. symbols
        ≡ strengthened_symbols model.now property certificate.now (meanings_of shared.now)) }
    ensures refused { IfErr result
        (RefusesNames (strengthened_symbols model.now property certificate.now (meanings_of shared.now))) }
{
    let names = Names::of(alloc, model, certificate, shared)?;
    let mut list = SymbolList::new(alloc);
    add_model_names(&mut list, model, property)?;
    add_certificate_names(&mut list, &names)?;
    Ok(list.into_symbols()?)
}
