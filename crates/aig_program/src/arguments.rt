//! The arguments of the command line.
ghost use Rattle.std.specs.Prelude.{◌≡◌, IfErr, IfOk, map};
ghost use Rattle.std.specs.Result.{IsOkAnd};
ghost use Rattle.std.specs.Vec.Iter.{into_iter_items};
ghost use Rattle.aig_cli.specs.Table.{HoldsWords};
ghost use Rattle.aig_program.specs.Arguments.{IsUnparsed};

use aig_base::Memory;
use aig_cli::{matches_of, missing_formula, negative_number, odd_number, subcommand_of};
use aig_command::RunFault;
use aig_files::{Exit, escaped};
use clap::ArgMatches;
use clap::error::ErrorKind;
use std::alloc::Global;
use std::env::Args;
use std::{fmt, io};

/// Returns the arguments that the system gave, all and in their order, the program's name first.
pub fn all(alloc: Global, given: io::Result<Args>) -> Result<Vec<String>, Exit>
    ensures words { IfOk result (λ list. IsOkAnd given (λ args. list.items ≡ into_iter_items args)) }
    ensures fails { IfErr result IsUnparsed }
{
    match given {
        Ok(args) => collected(alloc, args),
        Err(error) => match error.kind() {
            io::ErrorKind::OutOfMemory => Err(Exit::Run(RunFault::Memory)),
            _ => Err(Exit::NotText),
        },
    }
}

fn collected(alloc: Global, args: Args) -> Result<Vec<String>, Exit>
    ensures words { IfOk result (λ list. list.items ≡ into_iter_items args) }
    ensures fails { IfErr result IsUnparsed }
{
    match args.collect(alloc) {
        Ok(list) => Ok(list),
        Err(_) => Err(Exit::Run(RunFault::Memory)),
    }
}

/// Parses the arguments. If they are wrong, prints clap's text on standard error.
pub fn parsed<'a, R: AllocGlobal + Eprint>(
    rt: &R,
    words: &'a [String],
) -> Result<ArgMatches<'a>, Exit>
    ensures words { IfOk result (HoldsWords (map (λ word. word.bytes.items) words.now)) }
    ensures fails { IfErr result IsUnparsed }
{
    match matches_of(rt.alloc(), words) {
        Ok(matches) => Ok(matches),
        Err(error) => Err(refused(rt, words, &error)),
    }
}

/// Rejects what the parser accepts: a number with a sign or a leading zero, and a command that needs a number of frames
/// or a certificate and has neither.
pub(crate) fn with_fault(rt: &impl Eprint, matches: &ArgMatches<'_>) -> Option<Exit> {
    if let Some(missing) = missing_formula(matches) {
        return Some(told(rt, &missing));
    }
    let (_, matches) = subcommand_of(matches)?;
    Some(told(rt, &odd_number(matches)?))
}

/// Says what is wrong with the arguments, in the words of clap's messages, and returns how the program ends.
fn told(rt: &impl Eprint, fault: &impl fmt::Display) -> Exit
    ensures { IsUnparsed result }
{
    // There is no place left to report that standard error fails.
    let _ = eprintln!(rt; "error: {fault}\n\nFor more information, try '--help'.");
    Exit::Reported
}

/// Prints clap's text. It names arguments, which may have bytes that a terminal obeys. It is then the text for the
/// escaped arguments. They have the same fault, because no name of a command or an option and no number has such bytes.
fn refused<R: AllocGlobal + Eprint>(rt: &R, words: &[String], error: &clap::Error) -> Exit
    ensures { IsUnparsed result }
{
    if error.kind() == ErrorKind::UnknownArgument {
        if let Some(number) = negative_number(words) {
            return told(rt, &number);
        }
    }
    let is_memory = error.kind() == ErrorKind::OutOfMemory;
    if is_memory || words.iter().all(|word| is_shown(word.as_str())) {
        return print(rt, error);
    }
    match all_escaped(rt.alloc(), words) {
        Ok(shown) => refused_escaped(rt, shown.as_slice(), error.kind()),
        Err(Memory) => Exit::Run(RunFault::Memory),
    }
}

fn refused_escaped<R: AllocGlobal + Eprint>(rt: &R, words: &[String], kind: ErrorKind) -> Exit
    ensures { IsUnparsed result }
{
    match matches_of(rt.alloc(), words) {
        Ok(_) => {
            let _ = eprintln!(rt; "error: {kind}");
            Exit::Reported
        }
        Err(error) => print(rt, &error),
    }
}

/// Prints clap's text, and returns how the program ends.
fn print(rt: &impl Eprint, error: &clap::Error) -> Exit
    ensures { IsUnparsed result }
{
    if error.kind() == ErrorKind::OutOfMemory {
        return Exit::Run(RunFault::Memory);
    }
    // There is no place left to report that standard error fails.
    let _ = rt.eprint(error);
    Exit::Reported
}

/// Whether a terminal shows each byte of the text as it is.
fn is_shown(text: &str) -> bool {
    text.as_bytes().iter().all(|byte| (32..=126).contains(byte))
}

fn all_escaped(alloc: Global, words: &[String]) -> Result<Vec<String>, Memory> {
    let mut all = Vec::new(alloc);
    for word in words {
        all.push(escaped(alloc, word.as_str().as_bytes())?)?;
    }
    Ok(all)
}
