//! The options of a command, as the parser found them.
ghost use Rattle.std.specs.Prelude.{◌≡◌, IfOk, Some, codes};
ghost use Rattle.aig_cli.specs.Held.{HoldsNumber};
ghost use Rattle.aig_program.specs.Chosen.{HoldsForm, HoldsFormat, HoldsSection, HoldsShown, HoldsSpan, property_text};
ghost use Rattle.aig_program.specs.ChosenFiles.{HoldsKept};

use aig_base::PropertySection;
use aig_cli::{has_flag, number_of, text_of};
use aig_commands::check::Shown;
use aig_files::{Exit, KeptFileNames};
use aig_format::Format;
use aig_signals::Form;
use aig_why::Span;
use clap::ArgMatches;

/// Returns the format to write.
pub fn format_of(matches: &ArgMatches<'_>) -> Result<Format, Exit>
    ensures held { IfOk result (HoldsFormat matches.now) }
{
    match text_of(matches, "FORMAT") {
        Some("aag") => Ok(Format::Ascii),
        Some("aig") => Ok(Format::Binary),
        _ => Err(Exit::NoCommand),
    }
}

/// Returns the number of frames.
pub fn frames_of(matches: &ArgMatches<'_>) -> Result<u32, Exit>
    ensures held { IfOk result (λ frames. HoldsNumber matches.now (codes "K") (Some frames)) }
{
    match number_of(matches, "K") {
        Some(frames) => Ok(frames),
        None => Err(Exit::NoCommand),
    }
}

/// Returns the text of the property, `0` if it is left out.
pub fn property_text<'a>(matches: &ArgMatches<'a>) -> &'a str
    ensures held { result.now ≡ property_text matches.now }
{
    text_of(matches, "P").unwrap_or("0")
}

/// Returns the section that an option names; bad state properties if it is left out.
pub fn section_of(matches: &ArgMatches<'_>, name: &str) -> PropertySection
    ensures held { HoldsSection matches.now name.now result }
{
    match text_of(matches, name) {
        Some("outputs") => PropertySection::Outputs,
        _ => PropertySection::Bad,
    }
}

/// Returns the frame to explain, and how many frames to go back, if they are given.
pub fn span_of(matches: &ArgMatches<'_>) -> Span
    ensures held { HoldsSpan matches.now result }
{
    Span {
        frame: number_of(matches, "T"),
        depth: number_of(matches, "D"),
    }
}

/// Returns the form of the lines: JSON if it is asked for.
pub fn form_of(matches: &ArgMatches<'_>) -> Form
    ensures held { HoldsForm matches.now result }
{
    if has_flag(matches, "json") {
        Form::Json
    } else {
        Form::Text
    }
}

/// Returns what the trace shows, if there is one: also the properties, if they are asked for.
pub fn shown_of(matches: &ArgMatches<'_>) -> Option<Shown>
    ensures held { HoldsShown matches.now result }
{
    if !has_flag(matches, "trace") {
        return None;
    }
    if has_flag(matches, "properties") {
        Some(Shown::Properties)
    } else {
        Some(Shown::Trace)
    }
}

/// Returns the files of `--circuit-out` and `--stimulus-out`.
pub fn kept_of<'a>(matches: &ArgMatches<'a>) -> KeptFileNames<'a>
    ensures held { HoldsKept matches.now result }
{
    KeptFileNames {
        circuit: text_of(matches, "circuit-out"),
        stimulus: text_of(matches, "stimulus-out"),
    }
}
