//! Which inputs and latches of a certificate stand for a literal of the model.
ghost use Rattle.std.specs.Prelude.{◌≡◌, ◌≤◌, length};
ghost use Rattle.std.specs.Prelude.{IfOk, OnOk, IfErr};
ghost use Rattle.aig_parts.specs.Formed.{limit};
ghost use Rattle.aig_certificate.specs.Answers.{IsReadable};
ghost use Rattle.aig_certificate.specs.Shared.{AreMeanings, IsSource};
ghost use Rattle.aig_certificate.specs.state.Marks.{AreMeaningsOf, AreRight, IsFirstWrong, RefusesReading, meanings_of};
ghost use Rattle.aig_certificate.specs.state.Said.{IsSharingOf, sharing_of};

use crate::fault::StrengthenFault;
use crate::sharing::Sharing;
use aig_base::{Circuit, Kind, List, Lit};
use std::alloc::Global;

/// What each input and each latch of a certificate stands for, or none where it is the certificate's own.
pub(crate) struct SharedEntries {
    pub inputs: List<Option<Lit>>,
    pub latches: List<Option<Lit>>,
}

// By hand: a value then ends in one call, which is one step of a proof (docs/PROOFS.md, Habits).
impl Drop for SharedEntries {
    fn drop(self) {
        let SharedEntries {
            inputs: _,
            latches: _,
        } = self;
    }
}

/// A certificate of a model, and how it says what is shared.
struct Reading<'a> {
    model: &'a Circuit,
    certificate: &'a Circuit,
    sharing: Sharing,
}

// By hand: a value then ends in one call, which is one step of a proof (docs/PROOFS.md, Habits).
impl Drop for Reading<'_> {
    fn drop(self) {
        let Reading {
            model: _,
            certificate: _,
            sharing: _,
        } = self;
    }
}

impl<'a> Reading<'a> {
    /// What the entries of a section stand for, of which there are so many.
    fn meanings(
        &self,
        alloc: Global,
        kind: Kind,
        count: usize,
    ) -> Result<List<Option<Lit>>, StrengthenFault>
        requires source { IsSource kind }
        requires sharing { IsSharingOf self.now.model.now self.now.certificate.now self.now.sharing }
        requires few { count ≤ limit }
        ensures count { IfOk result (λ meanings. length meanings ≡ count) }
        ensures meanings { IfOk result
            (AreMeaningsOf self.now.model.now self.now.certificate.now (sharing_of self.now.sharing) kind) }
        ensures right { OnOk result (AreRight self.now.model.now self.now.certificate.now kind count) }
        ensures wrong { IfErr result (IsFirstWrong self.now.model.now self.now.certificate.now kind) }
    {
        let mut meanings = List::new(alloc);
        for position in 0..count as u32 {
            let meaning = self
                .sharing
                .meaning(self.model, self.certificate, kind, position)?;
            meanings.push(meaning)?;
        }
        Ok(meanings)
    }
}

impl SharedEntries {
    /// What the entries of the certificate stand for in the model.
    pub fn of(
        alloc: Global,
        model: &Circuit,
        certificate: &Circuit,
    ) -> Result<SharedEntries, StrengthenFault>
        ensures meanings { IfOk result (λ shared. AreMeanings model.now certificate.now (meanings_of shared)) }
        ensures readable { OnOk result (IsReadable model.now certificate.now) }
        ensures refused { IfErr result (RefusesReading model.now certificate.now) }
    {
        certificate.facts();
        let sharing = Sharing::of(alloc, model, certificate)?;
        let reading = Reading {
            model,
            certificate,
            sharing,
        };
        let inputs = reading.meanings(alloc, Kind::Input, certificate.inputs().len())?;
        let latches = reading.meanings(alloc, Kind::Latch, certificate.latches().len())?;
        Ok(SharedEntries { inputs, latches })
    }
}
