//! The circuit of a command, and the properties of it that texts name.
ghost use Rattle.std.specs.Prelude.{◌≡◌, IfOk, IfSome, false, map};
ghost use Rattle.aig_signals.specs.Property.{IsNumbered};
ghost use Rattle.aig_command.specs.Position.{IsPositionIn};
ghost use Rattle.aig_program.specs.Chosen.{AreEach, AreNamedIn, HoldsAsked, HoldsCertificate, HoldsProperty, HoldsReached};
ghost use Rattle.aig_program.specs.Chosen.{NamesProperty, is_certified, property_texts};
ghost use Rattle.aig_program.specs.ChosenFiles.{HoldsClaimed, IsCircuitOf};

use crate::chosen::named_files::{open_certificate, open_circuit};
use crate::chosen::options::{frames_of, property_text};
use aig_base::PropertySection;
use aig_cli::{has_flag, text_of, texts_of};
use aig_command::{RunFault, position_in, read_circuit};
use aig_commands::question::Question;
use aig_files::{Exit, Opened, Part};
use aig_signals::{PropertyNames, number_of as number_in};
use clap::ArgMatches;
use std::alloc::Global;
use std::fs::Files;

/// Opens the circuit, and finds the bad state property that a text names. The circuit is read for that only if the text
/// is a name: the command then has its bytes.
fn open_circuit_for<'m, R: Files + AllocGlobal>(
    rt: &R,
    matches: &'m ArgMatches<'_>,
    property: &str,
) -> Result<(Opened<'m, R>, u32), Exit>
    ensures circuit { IfOk result (λ r. IsCircuitOf matches.now r.0) }
    ensures named { IfOk result (λ r. NamesProperty property.now r.0 r.1) }
{
    let circuit = open_circuit(rt, matches)?;
    let text = property.as_bytes();
    if let Some(position) = number_in(PropertySection::Bad, text) {
        return Ok((circuit, position));
    }
    let file = circuit.read_whole(rt.alloc(), Part::Circuit)?;
    let position = position_in(rt.alloc(), file.bytes(), PropertySection::Bad, text)?;
    Ok((file.into_source(), position))
}

/// Opens the circuit, and finds its property.
pub fn open_circuit_and_property<'m, R: Files + AllocGlobal>(
    rt: &R,
    matches: &'m ArgMatches<'_>,
) -> Result<(Opened<'m, R>, u32), Exit>
    ensures circuit { IfOk result (λ r. IsCircuitOf matches.now r.0) }
    ensures named { IfOk result (λ r. HoldsProperty matches.now r.0 r.1) }
{
    open_circuit_for(rt, matches, property_text(matches))
}

/// Opens the circuit, and returns what is asked of its runs: whether one keeps all constraints, or whether one reaches
/// its property, with `step` by that of an induction.
pub fn open_circuit_and_runs<'m, R: Files + AllocGlobal>(
    rt: &R,
    matches: &'m ArgMatches<'_>,
    step: bool,
) -> Result<(Opened<'m, R>, Question<Opened<'m, R>>), Exit>
    ensures circuit { IfOk result (λ r. IsCircuitOf matches.now r.0) }
    ensures held { IfOk result (λ r. HoldsAsked matches.now step r.0 r.1) }
    ensures plain { IfOk result (λ r. is_certified r.1 ≡ false) }
{
    let frames = frames_of(matches)?;
    if has_flag(matches, "alive") {
        let circuit = open_circuit(rt, matches)?;
        return Ok((circuit, Question::Alive { frames }));
    }
    let (circuit, property) = open_circuit_and_property(rt, matches)?;
    if step {
        Ok((circuit, Question::Step { frames, property }))
    } else {
        Ok((circuit, Question::Within { frames, property }))
    }
}

/// The same, or whether a run reaches its property by the certificate, which is opened.
pub fn open_circuit_and_question<'m, R: Files + AllocGlobal>(
    rt: &R,
    matches: &'m ArgMatches<'_>,
    step: bool,
) -> Result<(Opened<'m, R>, Question<Opened<'m, R>>), Exit>
    ensures circuit { IfOk result (λ r. IsCircuitOf matches.now r.0) }
    ensures held { IfOk result (λ r. HoldsAsked matches.now step r.0 r.1) }
    ensures certificate { IfOk result (λ r. HoldsCertificate matches.now r.1) }
    ensures claimed { IfOk result (λ r. HoldsClaimed matches.now r.1) }
{
    if text_of(matches, "certificate").is_none() {
        return open_circuit_and_runs(rt, matches, step);
    }
    let (circuit, property) = open_circuit_and_property(rt, matches)?;
    let certificate = open_certificate(rt, matches)?;
    let question = Question::Certified {
        certificate,
        property,
    };
    Ok((circuit, question))
}

/// Opens the circuit, and finds its property if one is named.
pub fn open_circuit_and_reached<'m, R: Files + AllocGlobal>(
    rt: &R,
    matches: &'m ArgMatches<'_>,
) -> Result<(Opened<'m, R>, Option<u32>), Exit>
    ensures circuit { IfOk result (λ r. IsCircuitOf matches.now r.0) }
    ensures named { IfOk result (λ r. HoldsReached matches.now r.0 r.1) }
{
    let Some(text) = text_of(matches, "P") else {
        return Ok((open_circuit(rt, matches)?, None));
    };
    let (circuit, property) = open_circuit_for(rt, matches, text)?;
    Ok((circuit, Some(property)))
}

/// Returns the positions that texts name by their numbers, or nothing if one of them is no number.
fn numbers_in(
    alloc: Global,
    section: PropertySection,
    texts: &[&str],
) -> Result<Option<Vec<u32>>, RunFault>
    ensures numbered { IfOk result (λ found. IfSome found (λ positions.
        AreEach (IsNumbered section) (map (λ text. text.now) texts.now) positions.items)) }
{
    let mut positions = Vec::new(alloc);
    for text in texts {
        let Some(position) = number_in(section, text.as_bytes()) else {
            return Ok(None);
        };
        if positions.push(position).is_err() {
            return Err(RunFault::Memory);
        }
    }
    Ok(Some(positions))
}

/// Returns the positions of the properties of a circuit's file that texts name.
fn positions_in(
    alloc: Global,
    file: &[u8],
    section: PropertySection,
    texts: &[&str],
) -> Result<Vec<u32>, RunFault>
    ensures named { IfOk result (λ positions.
        AreEach (IsPositionIn file.now section) (map (λ text. text.now) texts.now) positions.items) }
{
    let circuit = read_circuit(alloc, file)?;
    let names = PropertyNames::among(alloc, &circuit, section, texts)?;
    let mut positions = Vec::new(alloc);
    for text in texts {
        let position = names.position_of(text.as_bytes())?;
        if positions.push(position).is_err() {
            return Err(RunFault::Memory);
        }
    }
    Ok(positions)
}

/// Opens the circuit, and finds the properties of a section that are named. The circuit is read for that only if one of
/// the texts is a name: the command then has its bytes.
pub fn open_circuit_and_properties<'m, R: Files + AllocGlobal>(
    rt: &R,
    matches: &'m ArgMatches<'_>,
    section: PropertySection,
) -> Result<(Opened<'m, R>, Vec<u32>), Exit>
    ensures circuit { IfOk result (λ r. IsCircuitOf matches.now r.0) }
    ensures named { IfOk result (λ r. AreNamedIn section (property_texts matches.now) r.0 r.1.items) }
{
    let circuit = open_circuit(rt, matches)?;
    let texts = texts_of(matches, "P").unwrap_or(&[]);
    if let Some(numbers) = numbers_in(rt.alloc(), section, texts)? {
        return Ok((circuit, numbers));
    }
    let file = circuit.read_whole(rt.alloc(), Part::Circuit)?;
    let positions = positions_in(rt.alloc(), file.bytes(), section, texts)?;
    Ok((file.into_source(), positions))
}
