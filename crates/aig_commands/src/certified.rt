//! A circuit, and a certificate for one of its bad state properties.
ghost use Rattle.std.specs.Prelude.{◌≡◌, ℕ, IfErr, IfOk, Some, slice_get};
ghost use Rattle.aig_parts.specs.declared.raw.Raw.{Raw};
ghost use Rattle.aig_certificate.specs.Answers.{RefusesStrengthening};
ghost use Rattle.aig_certificate.specs.Extension.{IsExtension};
ghost use Rattle.aig_command.specs.Command.{IsFileOf, RefusesCircuit};
ghost use Rattle.aig_commands.specs.Certified.{IsCertified, RefusesCertified, strengthening_fault};
ghost use Rattle.aig_commands.specs.state.Extended.{IsExtensionOf};

use aig_base::{Circuit, Fault};
use aig_certificate::{StrengthenFault, strengthened};
use aig_cnf::CnfFault;
use aig_command::{RunFault, read_circuit};
use std::alloc::Global;

/// A circuit's file, the position of one of its bad state properties, and the file of a certificate for it.
#[derive(Clone, Copy)]
pub struct Certified<'a> {
    pub circuit: &'a [u8],
    /// Counted from 0.
    pub property: u32,
    pub certificate: &'a [u8],
}

/// What the strengthened circuit is for.
#[derive(Clone, Copy, PartialEq, Eq, Debug)]
pub enum Purpose {
    /// It is written.
    Circuit,
    /// A formula is made of it.
    Formula,
}

impl Purpose {
    /// The part that is said to refuse a strengthening.
    fn fault(self, fault: StrengthenFault) -> RunFault
        ensures { result ≡ strengthening_fault self fault }
    {
        match (self, fault) {
            (Purpose::Formula, StrengthenFault::Property) => RunFault::Cnf(CnfFault::Property),
            (Purpose::Formula, StrengthenFault::Limit) => RunFault::Cnf(CnfFault::Limit),
            (Purpose::Formula, StrengthenFault::Memory) => RunFault::Cnf(CnfFault::Memory),
            (_, fault) => RunFault::Strengthen(fault),
        }
    }
}

/// Reads a certificate's file.
fn read_certificate(alloc: Global, certificate: &[u8]) -> Result<Circuit, RunFault>
    ensures certificate { IfOk result (IsFileOf certificate.now) }
    ensures refused { IfErr result (λ part. (fault : Fault) × (part ≡ RunFault.Certificate fault)
        × RefusesCircuit certificate.now fault) }
{
    match read_circuit(alloc, certificate) {
        Ok(certificate) => Ok(certificate),
        Err(fault) => Err(RunFault::Certificate(fault)),
    }
}

impl Certified<'_> {
    /// The circuit, strengthened by the certificate.
    pub(crate) fn strengthened(&self, alloc: Global, purpose: Purpose) -> Result<Circuit, RunFault>
        ensures certified { IfOk result (IsCertified self.now.circuit.now self.now.property self.now.certificate.now) }
        ensures extension { IfOk result (IsExtensionOf self.now.circuit.now self.now.property) }
        ensures refused { IfErr result (RefusesCertified purpose self.now.circuit.now self.now.property
            self.now.certificate.now) }
    {
        let circuit = read_circuit(alloc, self.circuit)?;
        let certificate = read_certificate(alloc, self.certificate)?;
        match strengthened(alloc, &circuit, self.property, &certificate) {
            Ok(circuit) => Ok(circuit),
            Err(fault) => Err(purpose.fault(fault)),
        }
    }
}
