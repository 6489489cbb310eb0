//! The commands, a file each: its options and open files, what opens these, and what runs it.
ghost use Rattle.std.specs.Prelude.{IfOk, OnOk};
ghost use Rattle.aig_program.specs.Commands.{EndsAsMeant, MeansGood, Opens};
ghost use Rattle.aig_program.specs.Ends.{seen};

mod bench;
mod check;
mod cnf;
mod cut;
mod info;
mod reduce;
mod refute;
mod select;
pub mod shell;
mod sim;
mod strengthen;
mod toaig;
mod unroll;
mod wave;
mod why;
mod witness;

use aig_base::Write;
use aig_files::{Exit, Opened};
use bench::BenchReplies;
use check::{Check, CheckAlive};
use clap::ArgMatches;
use cnf::Cnf;
use cut::CutCircuit;
use info::{Info, InfoNames};
use reduce::Reduce;
use refute::Refute;
use select::{Select, SelectNamed};
use sim::Sim;
use std::fs::Files;
use std::io::Read;
use std::os::fd::AsFd;
use strengthen::Strengthen;
use toaig::Toaig;
use unroll::{Unroll, UnrollAndMap};
use wave::{Wave, WaveWitness};
use why::Why;
use witness::{ModelWitness, StimulusWitness};

/// A command with its options and its open files.
pub enum Command<'a, F> {
    Toaig(Toaig<F>),
    Info(Info<F>),
    InfoNames(InfoNames<F>),
    Select(Select<F>),
    SelectNamed(SelectNamed<F>),
    Cut(CutCircuit<F>),
    Unroll(Unroll<F>),
    UnrollAndMap(UnrollAndMap<'a, F>),
    Sim(Sim<F>),
    Wave(Wave<F>),
    WaveWitness(WaveWitness<F>),
    Bench(BenchReplies<'a, F>),
    Check(Check<F>),
    CheckAlive(CheckAlive<F>),
    Witness(StimulusWitness<F>),
    ModelWitness(ModelWitness<F>),
    Reduce(Reduce<F>),
    Why(Why<'a, F>),
    Cnf(Cnf<F>),
    Refute(Refute<F>),
    Strengthen(Strengthen<F>),
}

/// Opens the files of the command of a name, in the order of the arguments. Its options are those that its own matches
/// hold.
pub fn open<'m, R: Files + AllocGlobal>(
    rt: &R,
    name: &str,
    matches: &'m ArgMatches<'_>,
) -> Result<Command<'m, Opened<'m, R>>, Exit>
    ensures opens { IfOk result (Opens name.now matches.now) }
{
    match name {
        "toaig" => toaig::open(rt, matches),
        "info" => info::open(rt, matches),
        "select" => select::open(rt, matches),
        "cut" => cut::open(rt, matches),
        "unroll" => unroll::open(rt, matches),
        "sim" => sim::open(rt, matches),
        "wave" => wave::open(rt, matches),
        "bench" => bench::open(rt, matches),
        "check" => check::open(rt, matches),
        "witness" => witness::open(rt, matches),
        "reduce" => reduce::open(rt, matches),
        "why" => why::open(rt, matches),
        "cnf" => cnf::open(rt, matches),
        "refute" => refute::open(rt, matches),
        "strengthen" => strengthen::open(rt, matches),
        _ => Err(Exit::NoCommand),
    }
}

impl<F: Read + Drop> Command<'_, F> {
    /// Runs the command, and writes its results.
    pub fn run<R: Files + AllocGlobal, W: Write>(self, rt: &R, out: &mut W) -> Result<(), Exit>
    where
        R::File: AsFd,
        ensures ends { EndsAsMeant (seen W.written W.failures out.old out.new) F.remaining self.entry result }
        ensures good { OnOk result (MeansGood F.remaining self.entry) }
    {
        let alloc = rt.alloc();
        match self {
            Command::Toaig(it) => toaig::run(alloc, it, out),
            Command::Info(it) => info::run(alloc, it, out),
            Command::InfoNames(it) => info::run_names(alloc, it, out),
            Command::Select(it) => select::run(alloc, it, out),
            Command::SelectNamed(it) => select::run_named(alloc, it, out),
            Command::Cut(it) => cut::run(alloc, it, out),
            Command::Unroll(it) => unroll::run(alloc, it, out),
            Command::UnrollAndMap(it) => unroll::run_and_map(rt, it, out),
            Command::Sim(it) => sim::run(alloc, it, out),
            Command::Wave(it) => wave::run(alloc, it, out),
            Command::WaveWitness(it) => wave::run_witness(alloc, it, out),
            Command::Bench(it) => bench::run(rt, it, out),
            Command::Check(it) => check::run(alloc, it, out),
            Command::CheckAlive(it) => check::run_alive(alloc, it, out),
            Command::Witness(it) => witness::run(alloc, it, out),
            Command::ModelWitness(it) => witness::run_model(alloc, it, out),
            Command::Reduce(it) => reduce::run(alloc, it, out),
            Command::Why(it) => why::run(alloc, it, out),
            Command::Cnf(it) => cnf::run(alloc, it, out),
            Command::Refute(it) => refute::run(alloc, it, out),
            Command::Strengthen(it) => strengthen::run(alloc, it, out),
        }
    }
}
