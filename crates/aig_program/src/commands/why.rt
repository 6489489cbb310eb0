//! `why`: why literals have their values in a run.
ghost use Rattle.std.specs.Prelude.{◌≡◌, IfOk, codes, option_copied};
ghost use Rattle.aig_program.specs.Commands.{Opens};
ghost use Rattle.aig_program.specs.Ends.{seen};
ghost use Rattle.aig_program.specs.Why.{EndsWhy};

use crate::chosen::named_files::{open_circuit, open_given};
use crate::chosen::options::{form_of, span_of};
use crate::commands::Command;
use crate::ended::ended;
use crate::given_file::{is_witness, read_given_file, text_of_given};
use aig_base::Write;
use aig_cli::text_of;
use aig_command::{Given, RunFault};
use aig_files::{Exit, Opened, Part, read_whole};
use aig_signals::Form;
use aig_why::{Asked, Span};
use clap::ArgMatches;
use std::alloc::Global;
use std::fs::Files;
use std::io::Read;

/// `why`: why literals have their values in the run that is given, by default those of the property of its witness.
#[derive(Drop)]
pub struct Why<'a, F> {
    pub name: Option<&'a str>,
    pub span: Span,
    pub form: Form,
    pub circuit: F,
    pub given: Given<F>,
}

/// Opens the files of `why`. Without a name it explains the property of a witness, so a witness has to be there.
pub fn open<'m, R: Files>(
    rt: &R,
    matches: &'m ArgMatches<'_>,
) -> Result<Command<'m, Opened<'m, R>>, Exit>
    ensures opens { IfOk result (Opens (codes "why") matches.now) }
{
    let name = text_of(matches, "of");
    let span = span_of(matches);
    let form = form_of(matches);
    let circuit = open_circuit(rt, matches)?;
    let given = open_given(rt, matches)?;
    if name.is_none() && !is_witness(&given) {
        return Err(Exit::NoCommand);
    }
    Ok(Command::Why(Why {
        name,
        span,
        form,
        circuit,
        given,
    }))
}

/// Writes why the literals that a name means have their values in the run that is given; without a name, those of the
/// property of its witness.
pub fn run<F: Read + Drop, W: Write>(alloc: Global, it: Why<'_, F>, out: &mut W) -> Result<(), Exit>
    ensures ends { EndsWhy (seen W.written W.failures out.old out.new) F.remaining it.entry result }
{
    let circuit = read_whole(alloc, it.circuit, Part::Circuit)?;
    let given = read_given_file(alloc, it.given)?;
    let file = circuit.as_slice();
    let run = text_of_given(&given);
    let asked = Asked {
        name: bytes_of(it.name),
        span: it.span,
        form: it.form,
    };
    let done = aig_why::why(alloc, file, run, asked, out);
    ended(done, out, RunFault::Output)
}

/// Returns the bytes of a name if there is one.
fn bytes_of(name: Option<&str>) -> Option<&[u8]>
    ensures { option_copied result ≡ option_copied name.entry }
{
    match name {
        Some(name) => Some(name.as_bytes()),
        None => None,
    }
}
