//! The model that is strengthened by a certificate.
ghost use Rattle.std.specs.Prelude.{◌≡◌, ℕ, IfErr, IfOk, OnOk, Some, slice_get};
ghost use Rattle.aig_parts.specs.Formed.{IsFormed};
ghost use Rattle.aig_certificate.specs.Answers.{CanStrengthen, RefusesStrengthening};
ghost use Rattle.aig_certificate.specs.Extension.{IsExtension};
ghost use Rattle.aig_certificate.specs.Strengthened.{IsStrengthened};
ghost use Rattle.aig_certificate.specs.state.Table.{RefusesCircuit};

use crate::fault::StrengthenFault;
use crate::parts::Sources;
use crate::shared::SharedEntries;
use crate::translation::Translation;
use aig_base::{Circuit, Fault, Lit, Raw};
use std::alloc::Global;

// The circuit of these parts, where they are within the limits.
fn circuit_of(alloc: Global, parts: Raw) -> Result<Circuit, StrengthenFault>
    ensures parts { IfOk result (λ circuit. circuit ≡ parts) }
    ensures formed { OnOk result (IsFormed parts) }
    ensures refused { IfErr result (RefusesCircuit parts) }
{
    if !parts.is_formed() {
        return Err(StrengthenFault::Limit);
    }
    match Circuit::check(alloc, parts) {
        Ok(circuit) => Ok(circuit),
        Err(Fault::Memory) => Err(StrengthenFault::Memory),
        Err(fault) => Err(StrengthenFault::Circuit(fault)),
    }
}

// The bad literal at a position.
fn bad_at(model: &Circuit, property: u32) -> Option<Lit>
    ensures { result ≡ slice_get model.now.bad property }
{
    model.bad().get(property as usize).copied()
}

/// The model with the own inputs and latches of a certificate, all its gates, and one bad state property: the model's
/// property at this position is 1, or a claim of the certificate is broken. Its outputs are these parts. The
/// certificate claims that none of its bad literals (outputs where it has none) is ever 1, and that each of its
/// constraints always is. Where a symbol of an input or latch of the certificate begins with `= `, those that are
/// shared say `= LIT`, a literal of the model; else those of a mapping in its comment are shared, and without one the
/// first inputs and latches. Nothing of the certificate is believed: the result extends the model, whatever it is.
pub fn strengthened(
    alloc: Global,
    model: &Circuit,
    property: u32,
    certificate: &Circuit,
) -> Result<Circuit, StrengthenFault>
    ensures strengthened { IfOk result (IsStrengthened model.now property certificate.now) }
    ensures extension { IfOk result
        (λ x. (b : ℕ) × (slice_get model.now.bad property ≡ Some b) × IsExtension model.now x b) }
    ensures accepted { OnOk result (CanStrengthen model.now property certificate.now) }
    ensures refused { IfErr result (RefusesStrengthening model.now property certificate.now) }
{
    let shared = SharedEntries::of(alloc, model, certificate)?;
    let Some(bad) = bad_at(model, property) else {
        return Err(StrengthenFault::Property);
    };
    let translation = Translation::of(alloc, model, certificate, &shared)?;
    let sources = Sources {
        model,
        certificate,
        shared,
        translation,
    };
    let parts = sources.parts(alloc, property, bad)?;
    circuit_of(alloc, parts)
}
