//! `reduce`: a witness with x where its failure needs no value.
ghost use Rattle.std.specs.Prelude.{IfOk, codes};
ghost use Rattle.aig_program.specs.Commands.{Opens};
ghost use Rattle.aig_program.specs.Ends.{seen};
ghost use Rattle.aig_program.specs.Reduce.{EndsReduce};

use crate::chosen::named_files::{open_circuit, open_named};
use crate::commands::Command;
use crate::ended::confirmed;
use aig_base::Write;
use aig_commands::reduce;
use aig_files::{Exit, Opened, Part, read_whole};
use clap::ArgMatches;
use std::alloc::Global;
use std::fs::Files;
use std::io::Read;

/// `reduce`: a witness with x where its failure needs no value.
#[derive(Drop)]
pub struct Reduce<F> {
    pub circuit: F,
    pub witness: F,
}

/// Opens the files of `reduce`.
pub fn open<'m, R: Files>(
    rt: &R,
    matches: &'m ArgMatches<'_>,
) -> Result<Command<'m, Opened<'m, R>>, Exit>
    ensures opens { IfOk result (Opens (codes "reduce") matches.now) }
{
    let circuit = open_circuit(rt, matches)?;
    let witness = open_named(rt, matches, "WITNESS", Part::Witness)?;
    Ok(Command::Reduce(Reduce { circuit, witness }))
}

/// Writes a confirmed witness with x in place of each value that it does not need, or another verdict.
pub fn run<F: Read + Drop, W: Write>(alloc: Global, it: Reduce<F>, out: &mut W) -> Result<(), Exit>
    ensures ends { EndsReduce (seen W.written W.failures out.old out.new) F.remaining it result }
{
    let circuit = read_whole(alloc, it.circuit, Part::Circuit)?;
    let witness = read_whole(alloc, it.witness, Part::Witness)?;
    let file = circuit.as_slice();
    let text = witness.as_slice();
    let done = reduce::reduce(alloc, file, text, out);
    confirmed(done, out)
}
