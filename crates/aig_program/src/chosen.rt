//! What the arguments choose. The parser has accepted them, so what a command needs is there.
ghost use Rattle.std.specs.Prelude.{IfOk};
ghost use Rattle.aig_program.specs.Choice.{Chooses};

pub mod named_files;
pub mod options;
pub mod properties;

use crate::arguments::with_fault;
use crate::commands::shell::{self, Shell};
use crate::commands::{self, Command};
use aig_cli::subcommand_of;
use aig_files::{Exit, Opened};
use clap::ArgMatches;
use std::fs::Files;

/// What the arguments choose: a command, or a session.
pub enum Chosen<'a, F> {
    /// A command, which reads its files and ends.
    Command(Command<'a, F>),
    /// `shell`, which also reads the lines of a person.
    Session(Shell<F>),
}

/// Returns what the arguments choose, unless one of its numbers is not written as numbers are.
pub fn command_for<'m, R: Files + AllocGlobal + Eprint>(
    rt: &R,
    matches: &'m ArgMatches<'_>,
) -> Result<Chosen<'m, Opened<'m, R>>, Exit>
    ensures chosen { IfOk result (Chooses matches.now) }
{
    match with_fault(rt, matches) {
        Some(exit) => Err(exit),
        None => open_chosen(rt, matches),
    }
}

/// Returns what the arguments choose, with its options, and opens its files in the order of the arguments.
fn open_chosen<'m, R: Files + AllocGlobal>(
    rt: &R,
    matches: &'m ArgMatches<'_>,
) -> Result<Chosen<'m, Opened<'m, R>>, Exit>
    ensures chosen { IfOk result (Chooses matches.now) }
{
    let Some((name, matches)) = subcommand_of(matches) else {
        return Err(Exit::NoCommand);
    };
    match name {
        "shell" => Ok(Chosen::Session(shell::open(rt, matches)?)),
        _ => Ok(Chosen::Command(commands::open(rt, name, matches)?)),
    }
}
