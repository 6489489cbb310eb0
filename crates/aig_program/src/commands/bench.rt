//! `bench`: the replies to a script, and the files that keep what it leaves.
ghost use Rattle.std.specs.Prelude.{IfOk, IfSome, codes};
ghost use Rattle.aig_script.specs.Bench.{LeavesBench};
ghost use Rattle.aig_program.specs.Commands.{Opens};
ghost use Rattle.aig_program.specs.Ends.{EndsKeeping, OfText, seen};
ghost use Rattle.aig_program.specs.Bench.{EndsBench};

use crate::chosen::named_files::{open_circuit, open_named};
use crate::chosen::options::kept_of;
use crate::commands::Command;
use crate::ended::written;
use crate::kept::{FileText, KeptFiles};
use aig_base::Write;
use aig_command::{RunFault, ScriptFault, flushed};
use aig_files::{Exit, KeptFileNames, KnownReader, Opened, Part, read_whole};
use aig_script::bench;
use clap::ArgMatches;
use std::fs::Files;
use std::io::Read;
use std::os::fd::AsFd;

/// `bench`: the replies to a script, and the files that keep what it leaves.
#[derive(Drop)]
pub struct BenchReplies<'a, F> {
    pub circuit: F,
    pub stimulus: F,
    pub script: F,
    pub kept: KeptFileNames<'a>,
}

/// Opens the files that `bench` reads.
pub fn open<'m, R: Files>(
    rt: &R,
    matches: &'m ArgMatches<'_>,
) -> Result<Command<'m, Opened<'m, R>>, Exit>
    ensures opens { IfOk result (Opens (codes "bench") matches.now) }
{
    let circuit = open_circuit(rt, matches)?;
    let stimulus = open_named(rt, matches, "STIM", Part::Stimulus)?;
    let script = open_named(rt, matches, "SCRIPT", Part::Script)?;
    Ok(Command::Bench(BenchReplies {
        circuit,
        stimulus,
        script,
        kept: kept_of(matches),
    }))
}

/// Writes the replies to a script, and the files of `--circuit-out` and `--stimulus-out`.
pub fn run<R: Files + AllocGlobal, F: Read + Drop, W: Write>(
    rt: &R,
    it: BenchReplies<'_, F>,
    out: &mut W,
) -> Result<(), Exit>
where
    R::File: AsFd,
    ensures ends { EndsBench (seen W.written W.failures out.old out.new) F.remaining it.entry result }
{
    let circuit = read_whole(rt.alloc(), it.circuit, Part::Circuit)?;
    let stimulus = read_whole(rt.alloc(), it.stimulus, Part::Stimulus)?;
    let file = circuit.as_slice();
    let rows = stimulus.as_slice();
    let mut files = written(KeptFiles::begin(rt, it.kept))?;
    let texts = BenchTexts {
        circuit: file,
        stimulus: rows,
    };
    write_replies(rt, texts, it.script, &mut files, out)
}

/// The bytes of a circuit's file, and of a stimulus.
#[derive(Clone, Copy)]
struct BenchTexts<'a> {
    circuit: &'a [u8],
    stimulus: &'a [u8],
}

fn write_replies<R: Files + AllocGlobal, F: Read + Drop, W: Write>(
    rt: &R,
    texts: BenchTexts<'_>,
    script: F,
    files: &mut KeptFiles<R::File>,
    out: &mut W,
) -> Result<(), Exit>
where
    R::File: AsFd,
    ensures ends { IfSome (F.remaining script) (λ lines.
        EndsKeeping (seen W.written W.failures out.old out.new) (RunFault.Script ScriptFault.Io)
        (OfText lines (LeavesBench texts.entry.circuit.now texts.entry.stimulus.now)) result) }
{
    let mut script = KnownReader::new(script);
    let done = bench::bench(rt.alloc(), texts.circuit, texts.stimulus, &mut script, out);
    match flushed(done, out, RunFault::Script(ScriptFault::Io)) {
        Ok(bench) => written(files.write(
            rt,
            FileText::Circuit(&bench),
            FileText::Stimulus(&bench),
        )),
        Err(fault) => Err(Exit::Run(fault)),
    }
}
