//! `wave`: the value change dump of a stimulus or of a witness.
ghost use Rattle.std.specs.Prelude.{IfOk, codes};
ghost use Rattle.aig_program.specs.Commands.{Opens};
ghost use Rattle.aig_program.specs.Ends.{seen};
ghost use Rattle.aig_program.specs.Wave.{EndsWave, EndsWaveWitness};

use crate::chosen::named_files::{open_circuit, open_named};
use crate::commands::Command;
use crate::ended::{ended, streamed};
use aig_base::Write;
use aig_cli::has_flag;
use aig_command::RunFault;
use aig_commands::wave;
use aig_files::{Exit, KnownReader, Opened, Part, read_whole};
use aig_sim::StimFault;
use clap::ArgMatches;
use std::alloc::Global;
use std::fs::Files;
use std::io::Read;

/// `wave`: the value change dump of a stimulus.
#[derive(Drop)]
pub struct Wave<F> {
    pub circuit: F,
    pub stimulus: F,
}

/// `wave --witness`: that of a witness.
#[derive(Drop)]
pub struct WaveWitness<F> {
    pub circuit: F,
    pub witness: F,
}

/// Opens the files of `wave`, whose run is given by a stimulus or by a witness.
pub fn open<'m, R: Files>(
    rt: &R,
    matches: &'m ArgMatches<'_>,
) -> Result<Command<'m, Opened<'m, R>>, Exit>
    ensures opens { IfOk result (Opens (codes "wave") matches.now) }
{
    let circuit = open_circuit(rt, matches)?;
    if has_flag(matches, "witness") {
        let witness = open_named(rt, matches, "STIM", Part::Witness)?;
        Ok(Command::WaveWitness(WaveWitness { circuit, witness }))
    } else {
        let stimulus = open_named(rt, matches, "STIM", Part::Stimulus)?;
        Ok(Command::Wave(Wave { circuit, stimulus }))
    }
}

/// Writes the value change dump of a stimulus.
pub fn run<F: Read + Drop, W: Write>(alloc: Global, it: Wave<F>, out: &mut W) -> Result<(), Exit>
    ensures ends { EndsWave (seen W.written W.failures out.old out.new) F.remaining it result }
{
    let mut circuit = KnownReader::new(it.circuit);
    let mut stimulus = KnownReader::new(it.stimulus);
    let done = wave::wave(alloc, &mut circuit, &mut stimulus, out);
    streamed(done, out, RunFault::Stimulus(StimFault::Io))
}

/// Writes the value change dump of a witness's run.
pub fn run_witness<F: Read + Drop, W: Write>(
    alloc: Global,
    it: WaveWitness<F>,
    out: &mut W,
) -> Result<(), Exit>
    ensures ends { EndsWaveWitness (seen W.written W.failures out.old out.new) F.remaining it result }
{
    let circuit = read_whole(alloc, it.circuit, Part::Circuit)?;
    let witness = read_whole(alloc, it.witness, Part::Witness)?;
    let file = circuit.as_slice();
    let text = witness.as_slice();
    let done = wave::wave_witness(alloc, file, text, out);
    ended(done, out, RunFault::Output)
}
