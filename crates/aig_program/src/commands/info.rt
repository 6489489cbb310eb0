//! `info`: facts about a circuit, or its entries.
ghost use Rattle.std.specs.Prelude.{IfOk, codes};
ghost use Rattle.aig_program.specs.Commands.{Opens};
ghost use Rattle.aig_program.specs.Ends.{seen};
ghost use Rattle.aig_program.specs.Info.{EndsInfo, EndsInfoNames};

use crate::chosen::named_files::open_circuit;
use crate::chosen::options::form_of;
use crate::commands::Command;
use crate::ended::streamed;
use aig_base::Write;
use aig_cli::has_flag;
use aig_command::RunFault;
use aig_commands::info;
use aig_files::{Exit, KnownReader, Opened};
use aig_signals::Form;
use clap::ArgMatches;
use std::alloc::Global;
use std::fs::Files;
use std::io::Read;

/// `info`: facts about a circuit.
#[derive(Drop)]
pub struct Info<F> {
    pub circuit: F,
}

/// `info --names`: its entries.
#[derive(Drop)]
pub struct InfoNames<F> {
    pub form: Form,
    pub circuit: F,
}

/// Opens the circuit of `info`.
pub fn open<'m, R: Files>(
    rt: &R,
    matches: &'m ArgMatches<'_>,
) -> Result<Command<'m, Opened<'m, R>>, Exit>
    ensures opens { IfOk result (Opens (codes "info") matches.now) }
{
    let circuit = open_circuit(rt, matches)?;
    if has_flag(matches, "names") {
        let form = form_of(matches);
        Ok(Command::InfoNames(InfoNames { form, circuit }))
    } else {
        Ok(Command::Info(Info { circuit }))
    }
}

/// Writes facts about a circuit.
pub fn run<F: Read + Drop, W: Write>(alloc: Global, it: Info<F>, out: &mut W) -> Result<(), Exit>
    ensures ends { EndsInfo (seen W.written W.failures out.old out.new) F.remaining it result }
{
    let mut circuit = KnownReader::new(it.circuit);
    let done = info::info(alloc, &mut circuit, out);
    streamed(done, out, RunFault::Output)
}

/// Writes the entries of a circuit with their names.
pub fn run_names<F: Read + Drop, W: Write>(
    alloc: Global,
    it: InfoNames<F>,
    out: &mut W,
) -> Result<(), Exit>
    ensures ends { EndsInfoNames (seen W.written W.failures out.old out.new) F.remaining it result }
{
    let mut circuit = KnownReader::new(it.circuit);
    let done = info::info_names_as(alloc, &mut circuit, it.form, out);
    streamed(done, out, RunFault::Output)
}
