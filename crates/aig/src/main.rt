//! The program `aig`: converts, simulates and unrolls and-inverter graphs, checks witnesses and runs scripts.
#![tactic(auto)]

ghost use Rattle.std.specs.Prelude.{◌≡◌, ℕ, List, Ok, map};
ghost use Rattle.aig_bytes.specs.Flow.{Flow};
ghost use Rattle.aig_program.specs.Ends.{Seen, seen};
ghost use Rattle.aig.specs.Program.{EndsAsOpened, Runs, RunsAsMeant, status_of_end, words_of};

mod sessions;

use aig_base::Write;
use aig_files::{Exit, Terminals, output, reserve};
use aig_program::arguments::{self, parsed};
use aig_program::{Chosen, command_for};
use clap::ArgMatches;
use sessions::shell;
use std::env::{self, Args, Env};
use std::fs::Files;
use std::io::{self, IsTerminal, Read};
use std::os::fd::AsFd;
use std::process::ExitCode;

fn main(rt: HostRuntime) -> ExitCode {
    let terminals = Terminals {
        input: rt.stdin().is_terminal(),
        output: rt.stdout().is_terminal(),
    };
    ExitCode::from(status_of(run(&rt, terminals)))
}

/// Returns the exit status of a run: 0 for a good end, and only for that.
fn status_of(done: Result<(), Exit>) -> u8
    ensures status { result ≡ status_of_end done }
    ensures good { result ≡ 0 → done ≡ Ok tt }
{
    match done {
        Ok(()) => 0,
        Err(exit) => exit.status(),
    }
}

/// Runs what the arguments ask for, and writes to standard output: nothing below can print there by itself. If that
/// fails, the reason is printed already.
fn run<R: Env + Files + AllocGlobal + Print + Eprint + Input>(
    rt: &R,
    terminals: Terminals,
) -> Result<(), Exit>
where
    R::File: AsFd,
    ensures ends { (words : List (List ℕ)) × ((out : Flow Seen) × Runs out R.File.remaining words result) }
{
    let _reserved = reported(rt, reserve(rt))?;
    let mut out = output(terminals, io::writer(rt));
    run_given(rt, terminals, env::args(rt), &mut out)
}

/// The same for the arguments that the system gave, and for a writer.
fn run_given<R: Files + AllocGlobal + Eprint + Input, W: Write>(
    rt: &R,
    terminals: Terminals,
    given: io::Result<Args>,
    out: &mut W,
) -> Result<(), Exit>
where
    R::File: AsFd,
    ensures ends { Runs (seen W.written W.failures out.old out.new) R.File.remaining (words_of given) result }
{
    let words = reported(rt, arguments::all(rt.alloc(), given))?;
    run_words(rt, terminals, words.as_slice(), out)
}

fn run_words<R: Files + AllocGlobal + Eprint + Input, W: Write>(
    rt: &R,
    terminals: Terminals,
    words: &[String],
    out: &mut W,
) -> Result<(), Exit>
where
    R::File: AsFd,
    ensures ends { Runs (seen W.written W.failures out.old out.new) R.File.remaining
        (map (λ word. word.bytes.items) words.now) result }
{
    let matches = reported(rt, parsed(rt, words))?;
    reported(rt, run_command(rt, terminals, &matches, out))
}

/// Runs the command that the arguments choose.
fn run_command<R: Files + AllocGlobal + Eprint + Input, W: Write>(
    rt: &R,
    terminals: Terminals,
    matches: &ArgMatches<'_>,
    out: &mut W,
) -> Result<(), Exit>
where
    R::File: AsFd,
    ensures ends { RunsAsMeant (seen W.written W.failures out.old out.new) R.File.remaining matches.now result }
{
    run_opened(rt, terminals, command_for(rt, matches), out)
}

/// Runs what was opened: a command or a session, if one was.
fn run_opened<R: Files + AllocGlobal + Input, F: Read + Drop, W: Write>(
    rt: &R,
    terminals: Terminals,
    opened: Result<Chosen<'_, F>, Exit>,
    out: &mut W,
) -> Result<(), Exit>
where
    R::File: AsFd,
    ensures ends { EndsAsOpened (seen W.written W.failures out.old out.new) F.remaining opened.entry result }
{
    match opened {
        Ok(Chosen::Command(command)) => command.run(rt, out),
        Ok(Chosen::Session(session)) => shell(rt, terminals, session, out),
        Err(exit) => Err(exit),
    }
}

/// Prints why there is no result, if there is none.
fn reported<T: Drop>(rt: &impl Eprint, found: Result<T, Exit>) -> Result<T, Exit>
    ensures { result ≡ found }
{
    match found {
        Ok(value) => Ok(value),
        Err(exit) => Err(exit.report(rt)),
    }
}
