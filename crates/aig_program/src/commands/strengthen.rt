//! `strengthen`: a circuit that is strengthened by a certificate.
ghost use Rattle.std.specs.Prelude.{IfOk, codes};
ghost use Rattle.aig_program.specs.Commands.{Opens};
ghost use Rattle.aig_program.specs.Ends.{seen};
ghost use Rattle.aig_program.specs.Strengthen.{EndsStrengthen};

use crate::chosen::named_files::open_certificate;
use crate::chosen::options::format_of;
use crate::chosen::properties::open_circuit_and_property;
use crate::commands::Command;
use crate::ended::ended;
use aig_base::Write;
use aig_command::RunFault;
use aig_commands::certified::Certified;
use aig_commands::strengthen;
use aig_files::{Exit, Opened, Part, read_whole};
use aig_format::Format;
use clap::ArgMatches;
use std::alloc::Global;
use std::fs::Files;
use std::io::Read;

/// `strengthen`: a circuit that is strengthened by a certificate.
#[derive(Drop)]
pub struct Strengthen<F> {
    pub property: u32,
    pub to: Format,
    pub circuit: F,
    pub certificate: F,
}

/// Opens the files of `strengthen`.
pub fn open<'m, R: Files + AllocGlobal>(
    rt: &R,
    matches: &'m ArgMatches<'_>,
) -> Result<Command<'m, Opened<'m, R>>, Exit>
    ensures opens { IfOk result (Opens (codes "strengthen") matches.now) }
{
    let to = format_of(matches)?;
    let (circuit, property) = open_circuit_and_property(rt, matches)?;
    let certificate = open_certificate(rt, matches)?;
    Ok(Command::Strengthen(Strengthen {
        property,
        to,
        circuit,
        certificate,
    }))
}

/// Writes a circuit that is strengthened by a certificate.
pub fn run<F: Read + Drop, W: Write>(
    alloc: Global,
    it: Strengthen<F>,
    out: &mut W,
) -> Result<(), Exit>
    ensures ends { EndsStrengthen (seen W.written W.failures out.old out.new) F.remaining it result }
{
    let circuit = read_whole(alloc, it.circuit, Part::Circuit)?;
    let certificate = read_whole(alloc, it.certificate, Part::Certificate)?;
    let file = circuit.as_slice();
    let claims = certificate.as_slice();
    let certified = Certified {
        circuit: file,
        property: it.property,
        certificate: claims,
    };
    let done = strengthen::strengthen(alloc, certified, it.to, out);
    ended(done, out, RunFault::Output)
}
