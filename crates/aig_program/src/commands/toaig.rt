//! `toaig`: a circuit in a format.
ghost use Rattle.std.specs.Prelude.{IfOk, codes};
ghost use Rattle.aig_program.specs.Commands.{Opens};
ghost use Rattle.aig_program.specs.Ends.{seen};
ghost use Rattle.aig_program.specs.Toaig.{EndsToaig};

use crate::chosen::named_files::open_circuit;
use crate::chosen::options::format_of;
use crate::commands::Command;
use crate::ended::streamed;
use aig_base::Write;
use aig_command::RunFault;
use aig_commands::convert_from;
use aig_files::{Exit, KnownReader, Opened};
use aig_format::Format;
use clap::ArgMatches;
use std::alloc::Global;
use std::fs::Files;
use std::io::Read;

/// `toaig`: a circuit in a format.
#[derive(Drop)]
pub struct Toaig<F> {
    pub to: Format,
    pub circuit: F,
}

/// Opens the circuit of `toaig`.
pub fn open<'m, R: Files>(
    rt: &R,
    matches: &'m ArgMatches<'_>,
) -> Result<Command<'m, Opened<'m, R>>, Exit>
    ensures opens { IfOk result (Opens (codes "toaig") matches.now) }
{
    let to = format_of(matches)?;
    let circuit = open_circuit(rt, matches)?;
    Ok(Command::Toaig(Toaig { to, circuit }))
}

/// Writes a circuit in a format.
pub fn run<F: Read + Drop, W: Write>(alloc: Global, it: Toaig<F>, out: &mut W) -> Result<(), Exit>
    ensures ends { EndsToaig (seen W.written W.failures out.old out.new) F.remaining it result }
{
    let mut circuit = KnownReader::new(it.circuit);
    let done = convert_from(alloc, &mut circuit, it.to, out);
    streamed(done, out, RunFault::Output)
}
