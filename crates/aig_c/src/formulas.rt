//! Formulas for SAT solvers, and the witnesses that their models name.
ghost use Rattle.aig_cnf.specs.Query.{induction};
ghost use Rattle.aig_command.specs.Command.{OfFile};
ghost use Rattle.aig_commands.specs.Alive.{WritesAlive};
ghost use Rattle.aig_commands.specs.Certified.{OfCertified};
ghost use Rattle.aig_commands.specs.Cnf.{WritesCertified, WritesFormula};
ghost use Rattle.aig_commands.specs.ModelWitness.{WritesModel};
ghost use Rattle.aig_commands.specs.Questions.{NamesQuestion, WritesQuestion, asked_of};
ghost use Rattle.aig_commands.specs.declared.certified.Purpose.TheVariants as purposes;
ghost use Rattle.aig_c.specs.Answers.{Returns, query_of};

use crate::answer::{NO_MEMORY, answer, refuse, writer};
use crate::asked::{Asked, question};
use aig_commands::cnf::cnf;
use aig_commands::model_witness::model_witness;
use aig_commands::question::Question;
use std::alloc::Global;

/// Writes the formula of a question.
fn write_formula(alloc: Global, asked: Asked<'_>, room: &mut [u8], written: &mut usize) -> u8
    ensures returns { Returns (WritesQuestion (asked_of asked.entry.question) asked.entry.circuit.now)
        result room.old room.new written.old written.new }
{
    let Ok(mut out) = writer(alloc, room) else {
        return NO_MEMORY;
    };
    match cnf(alloc, asked.circuit, asked.question, &mut out) {
        Ok(()) => answer(out.bytes(), room, written),
        Err(fault) => refuse(alloc, fault, out.bytes(), room, written),
    }
}

/// Writes the witness that a model of the formula of a question names.
fn write_named(
    alloc: Global,
    asked: Asked<'_>,
    model: &[u8],
    room: &mut [u8],
    written: &mut usize,
) -> u8
    ensures returns { Returns (NamesQuestion (asked_of asked.entry.question) model.now asked.entry.circuit.now)
        result room.old room.new written.old written.new }
{
    let Ok(mut out) = writer(alloc, room) else {
        return NO_MEMORY;
    };
    match model_witness(alloc, asked.circuit, asked.question, model, &mut out) {
        Ok(()) => answer(out.bytes(), room, written),
        Err(fault) => refuse(alloc, fault, out.bytes(), room, written),
    }
}

/// Writes the formula that a run reaches a property within some frames, or with `step` that of an induction step.
#[unsafe(no_mangle)]
pub extern "C" fn aig_cnf(
    alloc: Global,
    circuit: &[u8],
    frames: u32,
    property: u32,
    step: bool,
    room: &mut [u8],
    written: &mut usize,
) -> u8
    ensures returns { Returns (OfFile circuit.now (WritesFormula (query_of step frames property)))
        result room.old room.new written.old written.new }
{
    let question = question(step, frames, property);
    write_formula(alloc, Asked { circuit, question }, room, written)
}

/// Writes the formula that a run keeps all constraints for some frames.
#[unsafe(no_mangle)]
pub extern "C" fn aig_cnf_alive(
    alloc: Global,
    circuit: &[u8],
    frames: u32,
    room: &mut [u8],
    written: &mut usize,
) -> u8
    ensures returns { Returns (OfFile circuit.now (WritesAlive frames))
        result room.old room.new written.old written.new }
{
    let question = Question::Alive { frames };
    write_formula(alloc, Asked { circuit, question }, room, written)
}

/// Writes the formula of the induction for a circuit that is strengthened by a certificate.
#[unsafe(no_mangle)]
pub extern "C" fn aig_cnf_certified(
    alloc: Global,
    circuit: &[u8],
    certificate: &[u8],
    property: u32,
    room: &mut [u8],
    written: &mut usize,
) -> u8
    ensures returns { Returns (OfCertified purposes.Formula circuit.now property certificate.now
        (WritesCertified property)) result room.old room.new written.old written.new }
{
    let question = Question::Certified {
        certificate,
        property,
    };
    write_formula(alloc, Asked { circuit, question }, room, written)
}

/// Writes the witness of the run that a model of the formula of `aig_cnf` names.
#[unsafe(no_mangle)]
pub extern "C" fn aig_model_witness(
    alloc: Global,
    circuit: &[u8],
    model: &[u8],
    frames: u32,
    property: u32,
    step: bool,
    room: &mut [u8],
    written: &mut usize,
) -> u8
    ensures returns { Returns (OfFile circuit.now (WritesModel (query_of step frames property) model.now))
        result room.old room.new written.old written.new }
{
    let asked = Asked {
        circuit,
        question: question(step, frames, property),
    };
    write_named(alloc, asked, model, room, written)
}

/// Writes the witness of the run by which a certificate fails, that a model of the formula of `aig_cnf_certified`
/// names.
#[unsafe(no_mangle)]
pub extern "C" fn aig_model_witness_certified(
    alloc: Global,
    circuit: &[u8],
    certificate: &[u8],
    model: &[u8],
    property: u32,
    room: &mut [u8],
    written: &mut usize,
) -> u8
    ensures returns { Returns (OfCertified purposes.Formula circuit.now property certificate.now
        (WritesModel (induction 1 0) model.now)) result room.old room.new written.old written.new }
{
    let question = Question::Certified {
        certificate,
        property,
    };
    write_named(alloc, Asked { circuit, question }, model, room, written)
}
