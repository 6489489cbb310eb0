//! `check`: the verdict on a witness, and its run.
ghost use Rattle.std.specs.Prelude.{IfOk, OnOk, codes, true};
ghost use Rattle.aig_cli.specs.Held.{HoldsFlag};
ghost use Rattle.aig_command.specs.Command.{OfFile};
ghost use Rattle.aig_commands.specs.CheckAlive.{ChecksRun};
ghost use Rattle.aig_program.specs.Commands.{Opens};
ghost use Rattle.aig_program.specs.Ends.{ChecksWitness, Ends, end_of_alive, end_of_verdict, seen};
ghost use Rattle.aig_program.specs.Check.{EndsCheck, EndsCheckAlive, GoodCheck, GoodCheckAlive};

use crate::chosen::named_files::{open_circuit, open_named};
use crate::chosen::options::shown_of;
use crate::chosen::properties::open_circuit_and_reached;
use crate::commands::Command;
use crate::ended::{alive, confirmed};
use aig_base::Write;
use aig_cli::{has_flag, number_of};
use aig_command::RunFault;
use aig_commands::check::Shown;
use aig_commands::{alive, check};
use aig_files::{Exit, Opened, Part, read_whole};
use clap::ArgMatches;
use std::alloc::Global;
use std::fs::Files;
use std::io::Read;

/// `check`: the verdict on a witness, of a property if one is asked for; with `--trace` after its run, which is shown so.
#[derive(Drop)]
pub struct Check<F> {
    pub shown: Option<Shown>,
    pub property: Option<u32>,
    pub circuit: F,
    pub witness: F,
}

/// `check --alive`: whether the run of a witness keeps all constraints for some frames, or for all that it has.
#[derive(Drop)]
pub struct CheckAlive<F> {
    pub frames: Option<u32>,
    pub circuit: F,
    pub witness: F,
}

/// Opens the files of `check`.
pub fn open<'m, R: Files + AllocGlobal>(
    rt: &R,
    matches: &'m ArgMatches<'_>,
) -> Result<Command<'m, Opened<'m, R>>, Exit>
    ensures opens { IfOk result (Opens (codes "check") matches.now) }
{
    if has_flag(matches, "alive") {
        return open_alive(rt, matches);
    }
    let (circuit, property) = open_circuit_and_reached(rt, matches)?;
    let witness = open_named(rt, matches, "WITNESS", Part::Witness)?;
    Ok(Command::Check(Check {
        shown: shown_of(matches),
        property,
        circuit,
        witness,
    }))
}

/// Opens the files of `check --alive`.
fn open_alive<'m, R: Files>(
    rt: &R,
    matches: &'m ArgMatches<'_>,
) -> Result<Command<'m, Opened<'m, R>>, Exit>
    requires flag { HoldsFlag matches.now (codes "alive") true }
    ensures opens { IfOk result (Opens (codes "check") matches.now) }
{
    let frames = number_of(matches, "K");
    let circuit = open_circuit(rt, matches)?;
    let witness = open_named(rt, matches, "WITNESS", Part::Witness)?;
    Ok(Command::CheckAlive(CheckAlive {
        frames,
        circuit,
        witness,
    }))
}

/// Writes the verdict on a witness, and before it the trace of its run if asked for. If a property is asked for, a
/// witness of another one is rejected.
pub fn run<F: Read + Drop, W: Write>(alloc: Global, it: Check<F>, out: &mut W) -> Result<(), Exit>
    ensures confirmed { OnOk result (GoodCheck F.remaining it) }
    ensures ends { EndsCheck (seen W.written W.failures out.old out.new) F.remaining it result }
{
    let circuit = read_whole(alloc, it.circuit, Part::Circuit)?;
    let witness = read_whole(alloc, it.witness, Part::Witness)?;
    let file = circuit.as_slice();
    let text = witness.as_slice();
    let read = Check {
        shown: it.shown,
        property: it.property,
        circuit: file,
        witness: text,
    };
    write_verdict(alloc, read, out)
}

fn write_verdict<W: Write>(alloc: Global, it: Check<&[u8]>, out: &mut W) -> Result<(), Exit>
    ensures { Ends (seen W.written W.failures out.old out.new) RunFault.Output end_of_verdict
        (OfFile it.entry.circuit.now
        (ChecksWitness it.entry.shown it.entry.property it.entry.witness.now)) result }
{
    match it.shown {
        Some(shown) => {
            let done = check::check_and_trace(
                alloc,
                it.circuit,
                it.witness,
                it.property,
                shown,
                out,
            );
            confirmed(done, out)
        }
        None => {
            let done = check::check(alloc, it.circuit, it.witness, it.property, out);
            confirmed(done, out)
        }
    }
}

/// Writes whether the run of a witness keeps all constraints at its first frames, or what breaks it.
pub fn run_alive<F: Read + Drop, W: Write>(
    alloc: Global,
    it: CheckAlive<F>,
    out: &mut W,
) -> Result<(), Exit>
    ensures alive { OnOk result (GoodCheckAlive F.remaining it) }
    ensures ends { EndsCheckAlive (seen W.written W.failures out.old out.new) F.remaining it result }
{
    let circuit = read_whole(alloc, it.circuit, Part::Circuit)?;
    let witness = read_whole(alloc, it.witness, Part::Witness)?;
    let file = circuit.as_slice();
    let text = witness.as_slice();
    let read = CheckAlive {
        frames: it.frames,
        circuit: file,
        witness: text,
    };
    write_alive(alloc, read, out)
}

fn write_alive<W: Write>(alloc: Global, it: CheckAlive<&[u8]>, out: &mut W) -> Result<(), Exit>
    ensures { Ends (seen W.written W.failures out.old out.new) RunFault.Output end_of_alive
        (OfFile it.entry.circuit.now (ChecksRun it.entry.frames it.entry.witness.now)) result }
{
    let done = alive::check_alive(alloc, it.circuit, it.witness, it.frames, out);
    alive(done, out)
}
