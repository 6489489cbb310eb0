//! `shell`: a session at a prompt. The program alone runs it.
ghost use Rattle.std.specs.Prelude.{IfOk};
ghost use Rattle.aig_program.specs.Shell.{OpensShell};

use crate::chosen::named_files::{open_circuit, open_given};
use aig_command::Given;
use aig_files::{Exit, Opened};
use clap::ArgMatches;
use std::fs::Files;

/// `shell`: the answers to the lines of standard input. It is no `Command`: who has these files answers the lines.
#[derive(Drop)]
pub struct Shell<F> {
    pub circuit: F,
    pub given: Given<F>,
}

/// Opens the files of `shell`.
pub fn open<'m, R: Files>(rt: &R, matches: &'m ArgMatches<'_>) -> Result<Shell<Opened<'m, R>>, Exit>
    ensures opens { IfOk result (OpensShell matches.now) }
{
    let circuit = open_circuit(rt, matches)?;
    let given = open_given(rt, matches)?;
    Ok(Shell { circuit, given })
}
