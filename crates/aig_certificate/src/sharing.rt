//! How a certificate says which of its inputs and latches are shared with the model.
ghost use Rattle.std.specs.Prelude.{◌≡◌, ◌∷◌, ◌+◌, ◌<◌, ℕ, [], length, slice_get, Some, None, All, option_copied};
ghost use Rattle.std.specs.Prelude.{IfSome, IfNone, IfOk, OnOk, IfErr};
ghost use Rattle.aig_parts.specs.Literal.{variable, with_sign};
ghost use Rattle.aig_base.specs.Sound.{StandsTwice};
ghost use Rattle.aig_certificate.specs.Mapping.{mapping_lines};
ghost use Rattle.aig_certificate.specs.Shared as spec;
ghost use Rattle.aig_certificate.specs.Shared.{IsMeaning, IsNamed, IsSource, IsWrong};
ghost use Rattle.aig_certificate.specs.declared.fault.StrengthenFault.TheVariants as faults;
ghost use Rattle.aig_certificate.specs.state.Lines.{lines_of};
ghost use Rattle.aig_certificate.specs.state.Said as state;
ghost use Rattle.aig_certificate.specs.state.Said.{AreSaid, IsSharingOf, RefusesSaid, RefusesSharing, own_variables};

use crate::fault::StrengthenFault;
use crate::mapping::{Pair, count_of, mapping_of, pairs_of};
use crate::mark::{is_named, named_literal};
use aig_base::{Circuit, Kind, List, Lit};
use std::alloc::Global;

/// How a certificate says what its inputs and latches stand for.
pub(crate) enum Sharing {
    /// Symbols do that begin with `= `.
    Symbols,
    /// The pairs of a mapping do. The table has what they say of each variable of the certificate; contracts name the
    /// pairs.
    Pairs {
        pairs: List<Pair>,
        said: List<Option<Lit>>,
    },
    /// Nothing does: they stand for those at their positions.
    Positions,
}

// By hand: a value then ends in one call, which is one step of a proof (docs/PROOFS.md, Habits).
impl Drop for Sharing {
    fn drop(self) {
        match self {
            Sharing::Symbols | Sharing::Positions => {}
            Sharing::Pairs { pairs: _, said: _ } => {}
        }
    }
}

// What a literal's variable is, where the literal is this one of the model.
fn of_variable(literal: Lit, model: Lit) -> Lit
    ensures { result ≡ with_sign literal model }
{
    if literal.is_neg() { model.not() } else { model }
}

// What the pairs say of each of so many variables. No two of them are of one variable.
fn said_by(
    alloc: Global,
    pairs: &[Pair],
    variables: usize,
) -> Result<List<Option<Lit>>, StrengthenFault>
    requires { All (λ pair. variable pair.certificate < variables) pairs.now }
    ensures size { IfOk result (λ said. length said ≡ variables) }
    ensures said { IfOk result (AreSaid pairs.now) }
    ensures once { OnOk result ((v : ℕ) → StandsTwice (own_variables pairs.now) v → ⊥) }
    ensures refused { IfErr result (RefusesSaid pairs.now) }
{
    let mut said = List::from_vec(vec![in alloc; None; variables]?);
    for pair in pairs {
        let variable = pair.certificate.var() as usize;
        if said[variable].is_some() {
            return Err(StrengthenFault::Comment);
        }
        said.set(variable, Some(of_variable(pair.certificate, pair.model)));
    }
    Ok(said)
}

// The literal of a circuit's input or latch at a position.
fn literal_at(circuit: &Circuit, kind: Kind, position: u32) -> Option<Lit>
    ensures { result ≡ spec.literal_at circuit.now kind position }
{
    match kind {
        Kind::Input => circuit.inputs().get(position as usize).copied(),
        Kind::Latch => circuit
            .latches()
            .get(position as usize)
            .map(|latch| latch.lit),
        _ => None,
    }
}

// What the pairs of a mapping say of an input or a latch, by the table of all variables.
fn said_at(
    certificate: &Circuit,
    said: &List<Option<Lit>>,
    kind: Kind,
    position: u32,
) -> Option<Lit>
    requires { length said.now ≡ certificate.now.max_var + 1 }
    ensures some { (own : ℕ) → spec.literal_at certificate.now kind position ≡ Some own
        → slice_get said.now (variable own) ≡ Some result }
    ensures none { spec.literal_at certificate.now kind position ≡ None → result ≡ None }
{
    certificate.facts();
    let own = literal_at(certificate, kind, position)?;
    said[own.var() as usize]
}

// The sharing of a mapping with this first line, and the lines of this text after it.
fn sharing_by(
    alloc: Global,
    model: &Circuit,
    certificate: &Circuit,
    first: &[u8],
    lines: Option<&[u8]>,
) -> Result<Sharing, StrengthenFault>
    requires named { IsNamed certificate.now → ⊥ }
    requires lines { mapping_lines certificate.now.comment ≡ first.now ∷ lines_of (option_copied lines) }
    ensures sharing { IfOk result (IsSharingOf model.now certificate.now) }
    ensures refused { IfErr result (RefusesSharing model.now certificate.now) }
{
    model.facts();
    certificate.facts();
    let Some(count) = count_of(first) else {
        return Err(StrengthenFault::Comment);
    };
    let pairs = pairs_of(alloc, model, certificate, lines, count)?;
    let said = said_by(alloc, pairs.as_slice(), certificate.max_var() as usize + 1)?;
    Ok(Sharing::Pairs { pairs, said })
}

// The first line of the mapping in the comment, and the text of the lines after it.
fn mapping_in(certificate: &Circuit) -> Option<(&[u8], Option<&[u8]>)>
    ensures some { IfSome result (λ found.
        mapping_lines certificate.now.comment ≡ found.0.now ∷ lines_of (option_copied found.1)) }
    ensures none { IfNone result (mapping_lines certificate.now.comment ≡ []) }
{
    mapping_of(certificate.comment()?)
}

impl Sharing {
    /// How the certificate says it.
    pub fn of(
        alloc: Global,
        model: &Circuit,
        certificate: &Circuit,
    ) -> Result<Sharing, StrengthenFault>
        ensures sharing { IfOk result (IsSharingOf model.now certificate.now) }
        ensures refused { IfErr result (RefusesSharing model.now certificate.now) }
    {
        if is_named(certificate) {
            return Ok(Sharing::Symbols);
        }
        match mapping_in(certificate) {
            Some((first, lines)) => sharing_by(alloc, model, certificate, first, lines),
            None => Ok(Sharing::Positions),
        }
    }

    /// What an entry of the certificate stands for.
    pub fn meaning(
        &self,
        model: &Circuit,
        certificate: &Circuit,
        kind: Kind,
        position: u32,
    ) -> Result<Option<Lit>, StrengthenFault>
        requires source { IsSource kind }
        requires sharing { IsSharingOf model.now certificate.now self.now }
        ensures meaning { IfOk result
            (IsMeaning model.now certificate.now (state.sharing_of self.now) (kind, position)) }
        ensures right { OnOk result (IsWrong model.now certificate.now (kind, position) → ⊥) }
        ensures fault { IfErr result (λ fault. fault ≡ faults.Symbol kind position) }
        ensures wrong { IfErr result (λ fault. IsWrong model.now certificate.now (kind, position)) }
    {
        match self {
            Sharing::Symbols => named_literal(model, certificate, kind, position),
            Sharing::Pairs {
                pairs: _pairs,
                said,
            } => Ok(said_at(certificate, said, kind, position)),
            Sharing::Positions => Ok(literal_at(model, kind, position)),
        }
    }
}
