//! `cnf`: the formula of a question about a circuit.
ghost use Rattle.std.specs.Prelude.{◌≡◌, IfErr};
ghost use Rattle.aig_bytes.specs.Bytes.{Writes};
ghost use Rattle.aig_bytes.specs.Flow.{flow};
ghost use Rattle.aig_cnf.specs.CnfText.{read_text};
ghost use Rattle.aig_command.specs.Command.{CommandEnds};
ghost use Rattle.aig_commands.specs.Questions.{WritesFor, WritesQuestion, asked_of, heading_of};

use crate::question::{Question, circuit_of, formula_of, heading_of};
use aig_base::{Circuit, Io, Write};
use aig_cnf::{Heading, ReadFormula};
use aig_command::RunFault;
use std::alloc::Global;

/// Writes a formula, and what its variables are.
fn write_text<W: Write>(
    read: &ReadFormula,
    circuit: &Circuit,
    asked: Heading,
    out: &mut W,
) -> Result<(), RunFault>
    ensures written { Writes W.written W.failures out.old out.new (read_text circuit.now asked read.now) result }
    ensures output { IfErr result (λ fault. fault ≡ RunFault.Output) }
{
    match read.write(circuit, asked, out) {
        Ok(()) => Ok(()),
        Err(Io) => Err(RunFault::Output),
    }
}

/// Makes the formula of a question about a circuit, and writes it.
fn make_and_write<W: Write>(
    alloc: Global,
    circuit: &mut Circuit,
    question: Question<&[u8]>,
    out: &mut W,
) -> Result<(), RunFault>
    ensures { CommandEnds (flow W.written W.failures out.old out.new) RunFault.Output
        (WritesFor (heading_of (asked_of question.entry)) circuit.old) result }
{
    let read = formula_of(alloc, question, circuit)?;
    write_text(&read, circuit, heading_of(question), out)
}

/// The command `cnf`: reads a circuit and writes the formula of a question about it in DIMACS, with comment lines that
/// say what was asked for and what its variables are. The formula is over the part of the circuit that the property and
/// the constraints read. If a file is rejected, or there is no such formula, nothing is
/// written. Justice and fairness are ignored.
///
/// - Some assignment satisfies the formula of `Question::Within` exactly where there is a confirmed witness of at most
///   so many frames (`law_of_read_formula` of `aig_refute`).
/// - Where neither it nor the one of `Question::Step` has such an assignment, no run of any length reaches the property
///   (`law_of_read_refutation` of `aig_refute`).
/// - Some assignment satisfies the one of `Question::Alive` exactly where some run from a start that the resets allow
///   keeps all constraints at each of the first so many frames (`law_of_read_formula` of `aig_refute`). Properties are ignored.
/// - Where none satisfies the one of `Question::Certified`, no run of any length of the circuit reaches the property
///   (`law_of_read_refutation` and `law_of_extension` of `aig_refute`).
pub fn cnf<W: Write>(
    alloc: Global,
    file: &[u8],
    question: Question<&[u8]>,
    out: &mut W,
) -> Result<(), RunFault>
    ensures ends { CommandEnds (flow W.written W.failures out.old out.new) RunFault.Output
        (WritesQuestion (asked_of question.entry) file.now) result }
{
    let mut circuit = circuit_of(alloc, question, file)?;
    make_and_write(alloc, &mut circuit, question, out)
}
