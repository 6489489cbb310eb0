//! Tests in one program: the programs of docs/CALLING.md, calls that no command makes, and what scripts of tests ask.
#![tactic(auto)]

mod calling;
mod calls;
mod edits;
mod input;
mod steps;

use std::env;
use std::io::{self, ErrorKind};
use steps::CaseText;

/// Prints a line for each case of standard input, by the word that says of what.
fn serve(rt: HostRuntime, word: &str) -> io::Result<()> {
    match word {
        "steps" => steps::run(rt, CaseText::Marks),
        "names" => steps::run(rt, CaseText::Names),
        "edits" => edits::run(rt),
        _ => Err(ErrorKind::InvalidInput.into()),
    }
}

/// With a word it reads cases from standard input. Without one it runs the programs of docs/CALLING.md, which read a
/// circuit, then the calls, and then a sample of proofs.
fn main(rt: HostRuntime) -> io::Result<()> {
    if let Some(word) = env::args(&rt)?.nth(1) {
        return serve(rt, word.as_str());
    }
    calling::run(rt)?;
    calls::run(rt)?;
    steps::run_sample(rt)
}
