//! `unroll`: a circuit unrolled for some frames, and what its inputs are.
ghost use Rattle.std.specs.Prelude.{IfOk, codes};
ghost use Rattle.aig_command.specs.Command.{OfFile};
ghost use Rattle.aig_commands.specs.Unroll.{UnrollsKept};
ghost use Rattle.aig_program.specs.Commands.{Opens};
ghost use Rattle.aig_program.specs.Ends.{EndsKeeping, seen};
ghost use Rattle.aig_program.specs.Unroll.{EndsUnroll, EndsUnrollAndMap};

use crate::chosen::named_files::open_circuit;
use crate::chosen::options::{format_of, frames_of};
use crate::commands::Command;
use crate::ended::{ended, written};
use crate::kept::{FileText, KeptFiles, begin_map};
use aig_base::Write;
use aig_cli::text_of;
use aig_command::{RunFault, flushed};
use aig_commands::unroll;
use aig_files::{Exit, Opened, Part, metadata_of, read_whole};
use aig_format::Format;
use clap::ArgMatches;
use std::alloc::Global;
use std::fs::{Files, Metadata};
use std::io::Read;
use std::os::fd::AsFd;

/// `unroll`: a circuit unrolled for some frames.
#[derive(Drop)]
pub struct Unroll<F> {
    pub frames: u32,
    pub to: Format,
    pub circuit: F,
}

/// `unroll --map`: the same, and the map of its inputs. It must not replace the circuit's file, which is this one.
#[derive(Drop)]
pub struct UnrollAndMap<'a, F> {
    pub frames: u32,
    pub to: Format,
    pub circuit: F,
    pub file: Metadata,
    pub map: &'a str,
}

/// Opens the circuit of `unroll`, which the map must not replace.
pub fn open<'m, R: Files>(
    rt: &R,
    matches: &'m ArgMatches<'_>,
) -> Result<Command<'m, Opened<'m, R>>, Exit>
    ensures opens { IfOk result (Opens (codes "unroll") matches.now) }
{
    let frames = frames_of(matches)?;
    let to = format_of(matches)?;
    let circuit = open_circuit(rt, matches)?;
    let Some(map) = text_of(matches, "map") else {
        return Ok(Command::Unroll(Unroll {
            frames,
            to,
            circuit,
        }));
    };
    let Ok(file) = metadata_of(&circuit) else {
        return Err(Exit::Unread(Part::Circuit));
    };
    Ok(Command::UnrollAndMap(UnrollAndMap {
        frames,
        to,
        circuit,
        file,
        map,
    }))
}

/// Writes a circuit unrolled for some frames.
pub fn run<F: Read + Drop, W: Write>(alloc: Global, it: Unroll<F>, out: &mut W) -> Result<(), Exit>
    ensures ends { EndsUnroll (seen W.written W.failures out.old out.new) F.remaining it result }
{
    let circuit = read_whole(alloc, it.circuit, Part::Circuit)?;
    let file = circuit.as_slice();
    let done = unroll::unroll(alloc, file, it.frames, it.to, out);
    ended(done, out, RunFault::Output)
}

/// Writes it, and to a file what its inputs are.
pub fn run_and_map<R: Files + AllocGlobal, F: Read + Drop, W: Write>(
    rt: &R,
    it: UnrollAndMap<'_, F>,
    out: &mut W,
) -> Result<(), Exit>
where
    R::File: AsFd,
    ensures ends { EndsUnrollAndMap (seen W.written W.failures out.old out.new) F.remaining it.entry result }
{
    let circuit = read_whole(rt.alloc(), it.circuit, Part::Circuit)?;
    let file = circuit.as_slice();
    let mut map = written(begin_map(rt, it.map, &it.file))?;
    let unroll = Unroll {
        frames: it.frames,
        to: it.to,
        circuit: file,
    };
    write_unrolled_and_map(rt, unroll, &mut map, out)
}

fn write_unrolled_and_map<R: Files + AllocGlobal, W: Write>(
    rt: &R,
    it: Unroll<&[u8]>,
    map: &mut KeptFiles<R::File>,
    out: &mut W,
) -> Result<(), Exit>
where
    R::File: AsFd,
    ensures ends { EndsKeeping (seen W.written W.failures out.old out.new) RunFault.Output
        (OfFile it.entry.circuit.now (UnrollsKept it.entry.frames it.entry.to)) result }
{
    let done = unroll::unroll(rt.alloc(), it.circuit, it.frames, it.to, out);
    match flushed(done, out, RunFault::Output) {
        Ok(circuit) => {
            let inputs = FileText::Inputs(&circuit, it.frames);
            written(map.write(rt, inputs, inputs))
        }
        Err(fault) => Err(Exit::Run(fault)),
    }
}
