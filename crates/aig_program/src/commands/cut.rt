//! `cut`: a circuit in which some parts may be anything.
ghost use Rattle.std.specs.Prelude.{IfOk, codes};
ghost use Rattle.aig_program.specs.Commands.{Opens};
ghost use Rattle.aig_program.specs.Cut.{EndsCut};
ghost use Rattle.aig_program.specs.Ends.{seen};

use crate::chosen::named_files::{open_circuit, open_named};
use crate::chosen::options::format_of;
use crate::commands::Command;
use crate::ended::streamed;
use aig_base::Write;
use aig_command::RunFault;
use aig_commands::cut;
use aig_files::{Exit, KnownReader, Opened, Part, read_whole};
use aig_format::Format;
use clap::ArgMatches;
use std::alloc::Global;
use std::fs::Files;
use std::io::Read;

/// `cut`: a circuit in which the parts that a text names may be anything.
#[derive(Drop)]
pub struct CutCircuit<F> {
    pub to: Format,
    pub circuit: F,
    pub cuts: F,
}

/// Opens the files of `cut`.
pub fn open<'m, R: Files>(
    rt: &R,
    matches: &'m ArgMatches<'_>,
) -> Result<Command<'m, Opened<'m, R>>, Exit>
    ensures opens { IfOk result (Opens (codes "cut") matches.now) }
{
    let to = format_of(matches)?;
    let circuit = open_circuit(rt, matches)?;
    let cuts = open_named(rt, matches, "cuts", Part::Cuts)?;
    Ok(Command::Cut(CutCircuit { to, circuit, cuts }))
}

/// Writes a circuit in which the parts that a text names may be anything.
pub fn run<F: Read + Drop, W: Write>(
    alloc: Global,
    it: CutCircuit<F>,
    out: &mut W,
) -> Result<(), Exit>
    ensures ends { EndsCut (seen W.written W.failures out.old out.new) F.remaining it result }
{
    let cuts = read_whole(alloc, it.cuts, Part::Cuts)?;
    let mut circuit = KnownReader::new(it.circuit);
    let text = cuts.as_slice();
    let done = cut::cut(alloc, &mut circuit, text, it.to, out);
    streamed(done, out, RunFault::Output)
}
