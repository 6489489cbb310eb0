//! `cnf`: the formula of a question.
ghost use Rattle.std.specs.Prelude.{IfOk, codes};
ghost use Rattle.aig_program.specs.Commands.{Opens};
ghost use Rattle.aig_program.specs.Ends.{seen};
ghost use Rattle.aig_program.specs.Cnf.{EndsCnf};

use crate::chosen::properties::open_circuit_and_question;
use crate::commands::Command;
use crate::ended::ended;
use crate::questions::read_claims;
use aig_base::Write;
use aig_cli::has_flag;
use aig_command::RunFault;
use aig_commands::cnf;
use aig_commands::question::Question;
use aig_files::{Exit, Opened, Part, read_whole};
use clap::ArgMatches;
use std::alloc::Global;
use std::fs::Files;
use std::io::Read;

/// `cnf`: the formula of a question.
#[derive(Drop)]
pub struct Cnf<F> {
    pub question: Question<F>,
    pub circuit: F,
}

/// Opens the files of `cnf`.
pub fn open<'m, R: Files + AllocGlobal>(
    rt: &R,
    matches: &'m ArgMatches<'_>,
) -> Result<Command<'m, Opened<'m, R>>, Exit>
    ensures opens { IfOk result (Opens (codes "cnf") matches.now) }
{
    let step = has_flag(matches, "step");
    let (circuit, question) = open_circuit_and_question(rt, matches, step)?;
    Ok(Command::Cnf(Cnf { question, circuit }))
}

/// Writes the formula of a question.
pub fn run<F: Read + Drop, W: Write>(alloc: Global, it: Cnf<F>, out: &mut W) -> Result<(), Exit>
    ensures ends { EndsCnf (seen W.written W.failures out.old out.new) F.remaining it result }
{
    let circuit = read_whole(alloc, it.circuit, Part::Circuit)?;
    let shape = it.question.with(());
    let claims = read_claims(alloc, it.question)?;
    let file = circuit.as_slice();
    let bytes = claims.as_slice();
    let asked = shape.with(bytes);
    let done = cnf::cnf(alloc, file, asked, out);
    ended(done, out, RunFault::Output)
}
