//! The files that arguments name, open.
ghost use Rattle.std.specs.Prelude.{◌≡◌, IfOk, codes, true};
ghost use Rattle.aig_program.specs.Chosen.{is_given};
ghost use Rattle.aig_program.specs.ChosenFiles.{HoldsGiven, IsCircuitOf, IsNamedBy};

use aig_cli::{has_flag, text_of};
use aig_command::Given;
use aig_files::{Exit, Opened, Part, open};
use clap::ArgMatches;
use std::fs::Files;

/// Opens the file that an argument names.
pub fn open_named<'m, R: Files>(
    rt: &R,
    matches: &'m ArgMatches<'_>,
    name: &str,
    part: Part,
) -> Result<Opened<'m, R>, Exit>
    ensures named { IfOk result (IsNamedBy matches.now name.now) }
    ensures given { IfOk result (λ file. is_given matches.now name.now ≡ true) }
{
    match text_of(matches, name) {
        Some(file) => open(rt, file, part),
        None => Err(Exit::NoCommand),
    }
}

pub fn open_circuit<'m, R: Files>(
    rt: &R,
    matches: &'m ArgMatches<'_>,
) -> Result<Opened<'m, R>, Exit>
    ensures named { IfOk result (IsCircuitOf matches.now) }
{
    open_named(rt, matches, "CIRCUIT", Part::Circuit)
}

pub fn open_certificate<'m, R: Files>(
    rt: &R,
    matches: &'m ArgMatches<'_>,
) -> Result<Opened<'m, R>, Exit>
    ensures named { IfOk result (IsNamedBy matches.now (codes "certificate")) }
    ensures given { IfOk result (λ file. is_given matches.now (codes "certificate") ≡ true) }
{
    open_named(rt, matches, "certificate", Part::Certificate)
}

/// Opens the file of the run that is given with a circuit, if one is named.
pub fn open_given<'m, R: Files>(
    rt: &R,
    matches: &'m ArgMatches<'_>,
) -> Result<Given<Opened<'m, R>>, Exit>
    ensures held { IfOk result (HoldsGiven matches.now) }
{
    if text_of(matches, "STIM").is_none() {
        return Ok(Given::Nothing);
    }
    if has_flag(matches, "witness") {
        let witness = open_named(rt, matches, "STIM", Part::Witness)?;
        Ok(Given::Witness(witness))
    } else {
        let stimulus = open_named(rt, matches, "STIM", Part::Stimulus)?;
        Ok(Given::Stimulus(stimulus))
    }
}
