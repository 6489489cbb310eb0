//! `sim`: the trace of a stimulus.
ghost use Rattle.std.specs.Prelude.{IfOk, codes};
ghost use Rattle.aig_program.specs.Commands.{Opens};
ghost use Rattle.aig_program.specs.Ends.{seen};
ghost use Rattle.aig_program.specs.Sim.{EndsSim};

use crate::chosen::named_files::{open_circuit, open_named};
use crate::commands::Command;
use crate::ended::streamed;
use aig_base::Write;
use aig_command::RunFault;
use aig_commands::sim;
use aig_files::{Exit, KnownReader, Opened, Part};
use aig_sim::StimFault;
use clap::ArgMatches;
use std::alloc::Global;
use std::fs::Files;
use std::io::Read;

/// `sim`: the trace of a stimulus.
#[derive(Drop)]
pub struct Sim<F> {
    pub circuit: F,
    pub stimulus: F,
}

/// Opens the files of `sim`.
pub fn open<'m, R: Files>(
    rt: &R,
    matches: &'m ArgMatches<'_>,
) -> Result<Command<'m, Opened<'m, R>>, Exit>
    ensures opens { IfOk result (Opens (codes "sim") matches.now) }
{
    let circuit = open_circuit(rt, matches)?;
    let stimulus = open_named(rt, matches, "STIM", Part::Stimulus)?;
    Ok(Command::Sim(Sim { circuit, stimulus }))
}

/// Writes the trace of a stimulus.
pub fn run<F: Read + Drop, W: Write>(alloc: Global, it: Sim<F>, out: &mut W) -> Result<(), Exit>
    ensures ends { EndsSim (seen W.written W.failures out.old out.new) F.remaining it result }
{
    let mut circuit = KnownReader::new(it.circuit);
    let mut stimulus = KnownReader::new(it.stimulus);
    let done = sim::sim(alloc, &mut circuit, &mut stimulus, out);
    streamed(done, out, RunFault::Stimulus(StimFault::Io))
}
