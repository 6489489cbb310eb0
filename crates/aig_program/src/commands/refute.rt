//! `refute`: the check of a proof about the formula of a question.
ghost use Rattle.std.specs.Prelude.{IfOk, OnOk, codes};
ghost use Rattle.aig_program.specs.ChosenFiles.{HoldsStep};
ghost use Rattle.aig_program.specs.Commands.{Opens};
ghost use Rattle.aig_program.specs.Ends.{seen};
ghost use Rattle.aig_program.specs.Refute.{EndsRefute, GoodRefute};

use crate::chosen::named_files::{open_certificate, open_named};
use crate::chosen::properties::{open_circuit_and_property, open_circuit_and_runs};
use crate::commands::Command;
use crate::ended::ended;
use crate::questions::read_claims;
use aig_base::{Std, Write};
use aig_cli::text_of;
use aig_command::RunFault;
use aig_commands::question::Question;
use aig_commands::refute;
use aig_commands::refute::Proofs;
use aig_files::{Exit, FileSource, Opened, Part, read_whole};
use clap::ArgMatches;
use std::alloc::Global;
use std::fs::Files;
use std::io::Read;

/// `refute`: the check of a proof about a question's formula. The proof of a step is an empty file where none is asked
/// for.
#[derive(Drop)]
pub struct Refute<F> {
    pub question: Question<F>,
    pub circuit: F,
    pub proof: F,
    pub step: F,
}

/// Opens the files of `refute`.
pub fn open<'m, R: Files + AllocGlobal>(
    rt: &R,
    matches: &'m ArgMatches<'_>,
) -> Result<Command<'m, Opened<'m, R>>, Exit>
    ensures opens { IfOk result (Opens (codes "refute") matches.now) }
{
    if text_of(matches, "certificate").is_some() {
        return open_certified(rt, matches);
    }
    let by_step = text_of(matches, "step").is_some();
    let (circuit, question) = open_circuit_and_runs(rt, matches, by_step)?;
    let proof = open_named(rt, matches, "PROOF", Part::Proof)?;
    let step = open_step(rt, matches)?;
    Ok(Command::Refute(Refute {
        question,
        circuit,
        proof,
        step,
    }))
}

/// The certificate stands among the options, so it is opened after the proof.
fn open_certified<'m, R: Files + AllocGlobal>(
    rt: &R,
    matches: &'m ArgMatches<'_>,
) -> Result<Command<'m, Opened<'m, R>>, Exit>
    ensures opens { IfOk result (Opens (codes "refute") matches.now) }
{
    let (circuit, property) = open_circuit_and_property(rt, matches)?;
    let proof = open_named(rt, matches, "PROOF", Part::Proof)?;
    let certificate = open_certificate(rt, matches)?;
    let step = open_step(rt, matches)?;
    let question = Question::Certified {
        certificate,
        property,
    };
    Ok(Command::Refute(Refute {
        question,
        circuit,
        proof,
        step,
    }))
}

/// Opens the proof of a step, if one is named.
fn open_step<'m, R: Files + AllocGlobal>(
    rt: &R,
    matches: &'m ArgMatches<'_>,
) -> Result<Opened<'m, R>, Exit>
    ensures held { IfOk result (HoldsStep matches.now) }
{
    match text_of(matches, "step") {
        Some(step) => aig_files::open(rt, step, Part::StepProof),
        None => Ok(FileSource::none(rt.alloc())),
    }
}

/// Checks a proof about the question's formula, and writes the answer. The file `step` has the proof of the step of an
/// induction.
pub fn run<F: Read + Drop, W: Write>(alloc: Global, it: Refute<F>, out: &mut W) -> Result<(), Exit>
    ensures says { OnOk result (GoodRefute F.remaining it) }
    ensures ends { EndsRefute (seen W.written W.failures out.old out.new) F.remaining it result }
{
    let circuit = read_whole(alloc, it.circuit, Part::Circuit)?;
    let shape = it.question.with(());
    let claims = read_claims(alloc, it.question)?;
    let file = circuit.as_slice();
    let bytes = claims.as_slice();
    let asked = shape.with(bytes);
    let mut proofs = Proofs {
        proof: Std::new(it.proof),
        step: Std::new(it.step),
    };
    let done = refute::refute(alloc, file, asked, &mut proofs, out);
    ended(done, out, RunFault::Output)
}
