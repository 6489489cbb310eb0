//! `witness`: the witness of a run over a stimulus, or of the run that a solver's model names.
ghost use Rattle.std.specs.Prelude.{IfOk, codes};
ghost use Rattle.aig_program.specs.Commands.{Opens};
ghost use Rattle.aig_program.specs.Ends.{seen};
ghost use Rattle.aig_program.specs.Witness.{EndsModelWitness, EndsWitness};

use crate::chosen::named_files::open_named;
use crate::chosen::properties::{open_circuit_and_question, open_circuit_and_reached};
use crate::commands::Command;
use crate::ended::ended;
use crate::questions::read_claims;
use aig_base::Write;
use aig_cli::{has_flag, text_of};
use aig_command::RunFault;
use aig_commands::question::Question;
use aig_commands::{model_witness, witness};
use aig_files::{Exit, Opened, Part, read_whole};
use clap::ArgMatches;
use std::alloc::Global;
use std::fs::Files;
use std::io::Read;

/// `witness`: the witness of a run over a stimulus.
#[derive(Drop)]
pub struct StimulusWitness<F> {
    pub property: Option<u32>,
    pub circuit: F,
    pub stimulus: F,
}

/// `witness --model`: that of a solver's model of a question's formula.
#[derive(Drop)]
pub struct ModelWitness<F> {
    pub question: Question<F>,
    pub circuit: F,
    pub model: F,
}

/// Opens the files of `witness`: a stimulus, or the model of a solver.
pub fn open<'m, R: Files + AllocGlobal>(
    rt: &R,
    matches: &'m ArgMatches<'_>,
) -> Result<Command<'m, Opened<'m, R>>, Exit>
    ensures opens { IfOk result (Opens (codes "witness") matches.now) }
{
    if text_of(matches, "model").is_some() {
        return open_model(rt, matches);
    }
    let (circuit, property) = open_circuit_and_reached(rt, matches)?;
    let stimulus = open_named(rt, matches, "STIM", Part::Stimulus)?;
    Ok(Command::Witness(StimulusWitness {
        property,
        circuit,
        stimulus,
    }))
}

/// Opens the files of `witness --model`.
fn open_model<'m, R: Files + AllocGlobal>(
    rt: &R,
    matches: &'m ArgMatches<'_>,
) -> Result<Command<'m, Opened<'m, R>>, Exit>
    ensures opens { IfOk result (Opens (codes "witness") matches.now) }
{
    let step = has_flag(matches, "step");
    let (circuit, question) = open_circuit_and_question(rt, matches, step)?;
    let model = open_named(rt, matches, "model", Part::Model)?;
    Ok(Command::ModelWitness(ModelWitness {
        question,
        circuit,
        model,
    }))
}

/// Writes the witness that the run over a stimulus reaches a property.
pub fn run<F: Read + Drop, W: Write>(
    alloc: Global,
    it: StimulusWitness<F>,
    out: &mut W,
) -> Result<(), Exit>
    ensures ends { EndsWitness (seen W.written W.failures out.old out.new) F.remaining it result }
{
    let circuit = read_whole(alloc, it.circuit, Part::Circuit)?;
    let stimulus = read_whole(alloc, it.stimulus, Part::Stimulus)?;
    let file = circuit.as_slice();
    let text = stimulus.as_slice();
    let done = witness::witness(alloc, file, text, it.property, out);
    ended(done, out, RunFault::Output)
}

/// Writes the witness of the run that a solver's model of the question's formula names.
pub fn run_model<F: Read + Drop, W: Write>(
    alloc: Global,
    it: ModelWitness<F>,
    out: &mut W,
) -> Result<(), Exit>
    ensures ends { EndsModelWitness (seen W.written W.failures out.old out.new) F.remaining it result }
{
    let circuit = read_whole(alloc, it.circuit, Part::Circuit)?;
    let shape = it.question.with(());
    let claims = read_claims(alloc, it.question)?;
    let model = read_whole(alloc, it.model, Part::Model)?;
    let file = circuit.as_slice();
    let bytes = claims.as_slice();
    let asked = shape.with(bytes);
    let text = model.as_slice();
    let done = model_witness::model_witness(alloc, file, asked, text, out);
    ended(done, out, RunFault::Output)
}
