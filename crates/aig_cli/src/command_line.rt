//! The command line: the parser of its words, and what it found.
ghost use Rattle.std.specs.Prelude.{◌≡◌, [], IfOk, IfSome, None, false, is_some, true, map, option_map, slice_index};
ghost use Rattle.clap.specs.Matches.{first_value, found_of, matched_of, raw_values};
ghost use Rattle.clap.specs.Words.{app_of, is_simple, subcommand_rows_of, with_subcommand};
ghost use Rattle.aig_cli.specs.Held.{HoldsFlag, HoldsNumber, HoldsSubcommand, LacksFormula, is_plain_number};
ghost use Rattle.aig_cli.specs.Held.{names_formula, needs_formula};
ghost use Rattle.aig_cli.specs.Table.{HoldsWords, IsCommandLine, program_of, shape_of_row, with_rows};

use crate::arguments::NUMBERS;
use crate::help::{self, usages};
use crate::subcommands::{Subcommand, built_subcommand, files, refutations, runs, witnesses};
use clap::{ArgMatches, Command};
use std::alloc::{AllocError, Global};
use std::fmt;

/// The program's version. A program does not know how it was built: `rt ci` proves what it builds, and
/// `tools/build_unproved.sh` replaces this text in a program that was not proved.
static VERSION: &str = "0.4.0 (proved where rt ci built it)";

fn program<'a>(alloc: Global) -> Command<'a>
    ensures app { app_of result ≡ program_of [] }
{
    Command::new(alloc, "aig")
        .version(VERSION)
        .override_help(help::ALL)
        .subcommand_required(true)
}

// Alone here, where a failure drops the program's command.
fn with_subcommand<'a>(
    program: Command<'a>,
    alloc: Global,
    row: &'static Subcommand,
) -> Result<Command<'a>, AllocError>
    ensures app { IfOk result (λ c. app_of c ≡ with_subcommand (app_of program.entry) (shape_of_row row.now)) }
{
    program.subcommand(built_subcommand(alloc, row)?)
}

fn with_subcommands<'a>(
    program: Command<'a>,
    alloc: Global,
    rows: &'static [Subcommand],
) -> Result<Command<'a>, AllocError>
    ensures app { IfOk result (λ c. app_of c ≡ with_rows (app_of program.entry) rows.now) }
{
    let mut program = program;
    for row in rows {
        program = with_subcommand(program, alloc, row)?;
    }
    Ok(program)
}

fn command_line<'a>(alloc: Global) -> Result<Command<'a>, AllocError>
    ensures commands { IfOk result (λ c. IsCommandLine (app_of c) × (is_simple (app_of c) ≡ true)) }
{
    let program = with_subcommands(program(alloc), alloc, files())?;
    let program = with_subcommands(program, alloc, runs())?;
    let program = with_subcommands(program, alloc, witnesses())?;
    with_subcommands(program, alloc, refutations())
}

/// Parses the arguments; the first is the program's name. The matches are those that the commands give these words.
pub fn matches_of<'a>(alloc: Global, words: &'a [String]) -> Result<ArgMatches<'a>, clap::Error>
    ensures words { IfOk result (HoldsWords (map (λ word. word.bytes.items) words.now)) }
{
    command_line(alloc)?.try_get_matches_from(words)
}

/// Returns the subcommand with its own matches.
pub fn subcommand_of<'m, 'a>(matches: &'m ArgMatches<'a>) -> Option<(&'a str, &'m ArgMatches<'a>)>
    ensures held { IfSome result (λ sub. HoldsSubcommand matches.now sub.0.now sub.1.now) }
    ensures none { result ≡ None → subcommand_rows_of matches.now ≡ None }
{
    matches.subcommand()
}

/// Returns the text of an argument.
pub fn text_of<'a>(matches: &ArgMatches<'a>, name: &str) -> Option<&'a str>
    ensures held { option_map (λ text. text.now) result ≡ first_value (found_of matches.now) name.now }
{
    matches.get_str(name)
}

/// Returns the texts of all uses of an argument.
pub fn texts_of<'m, 'a>(matches: &'m ArgMatches<'a>, name: &str) -> Option<&'m [&'a str]>
    ensures held { option_map (λ texts. map (λ text. text.now) texts.now) result
        ≡ option_map raw_values (matched_of (found_of matches.now) name.now) }
{
    matches.get_strs(name)
}

/// Returns the number of an argument.
pub fn number_of(matches: &ArgMatches<'_>, name: &str) -> Option<u32>
    ensures held { HoldsNumber matches.now name.now result }
{
    matches.get_one::<u32>(name)
}

/// Returns whether a flag was given.
pub fn has_flag(matches: &ArgMatches<'_>, name: &str) -> bool
    ensures held { HoldsFlag matches.now name.now result }
{
    matches.get_flag(name)
}

/// One of two options is missing: the number of frames, or a certificate.
#[derive(Clone, Copy)]
pub struct MissingFormula {
    /// The usage of the command.
    pub usage: &'static str,
}

impl fmt::Display for MissingFormula {
    fn fmt<W: fmt::Write>(&self, f: &mut fmt::Formatter<W>) -> fmt::Result {
        write!(
            f,
            "the following required arguments were not provided:\n  <--frames <K>|--certificate <AIG>>\n\nUsage: {}",
            self.usage
        )
    }
}

/// Returns what is missing, if the arguments name no formula and need one: `cnf`, `refute` and a model do.
pub fn missing_formula(matches: &ArgMatches<'_>) -> Option<MissingFormula>
    ensures lacks { LacksFormula matches.now (is_some result) }
{
    let (name, own) = subcommand_of(matches)?;
    if needs_formula(name, own) && !names_formula(own) {
        Some(MissingFormula {
            usage: usage_of(name),
        })
    } else {
        None
    }
}

/// Whether a command is about a formula.
fn needs_formula(name: &str, own: &ArgMatches<'_>) -> bool
    ensures { result ≡ needs_formula name.now own.now }
{
    name == "cnf" || name == "refute" || (name == "witness" && text_of(own, "model").is_some())
}

/// Whether the arguments of a command name a formula, by its number of frames or by a certificate.
fn names_formula(own: &ArgMatches<'_>) -> bool
    ensures { result ≡ names_formula own.now }
{
    text_of(own, "K").is_some() || text_of(own, "certificate").is_some()
}

/// Returns the usage of a command that needs a formula.
fn usage_of(name: &str) -> &'static str {
    match name {
        "cnf" => usages::CNF,
        "refute" => usages::REFUTE,
        _ => usages::WITNESS,
    }
}

/// A number that has a sign, or a zero before another digit. The parser takes it, but no file and no script may have
/// it.
#[derive(Clone, Copy)]
pub struct OddNumber<'a> {
    /// The option and the name of its value, as help shows them.
    pub option: &'static str,
    /// The number as it was given.
    pub text: &'a str,
}

impl fmt::Display for OddNumber<'_> {
    fn fmt<W: fmt::Write>(&self, f: &mut fmt::Formatter<W>) -> fmt::Result {
        write!(
            f,
            "invalid value '{}' for '{}': a number has no sign and no leading zero",
            self.text, self.option
        )
    }
}

/// Returns the first number of a command that has a sign or a leading zero.
pub fn odd_number<'a>(matches: &ArgMatches<'a>) -> Option<OddNumber<'a>>
    ensures odd { IfSome result (λ number. is_plain_number number.text.now ≡ false) }
{
    for option in &NUMBERS {
        for text in texts_of(matches, option.name).unwrap_or(&[]) {
            if !is_plain_number(text) {
                return Some(OddNumber {
                    option: option.shown,
                    text,
                });
            }
        }
    }
    None
}

/// Returns the first number that has a minus sign and stands in a word of its own, after its option. The parser takes
/// that word for an option.
pub fn negative_number<'a>(words: &'a [String]) -> Option<OddNumber<'a>>
    ensures odd { IfSome result (λ number. is_plain_number number.text.now ≡ false) }
{
    for (word, text) in words.iter().zip(words.iter().skip(1)) {
        let text = text.as_str();
        if let Some(option) = numbered(word.as_str()) {
            if is_negative(text) {
                return Some(OddNumber { option, text });
            }
        }
    }
    None
}

/// Whether a text is a minus sign and digits.
fn is_negative(text: &str) -> bool
    ensures odd { result ≡ true → is_plain_number text.now ≡ false }
{
    let bytes = text.as_bytes();
    first_byte(text) == b'-'
        && bytes.len() > 1
        && bytes[1..].iter().all(|byte| byte.is_ascii_digit())
}

/// Returns the option with a number that a word is, as messages show it.
fn numbered(word: &str) -> Option<&'static str> {
    for option in &NUMBERS {
        if option.word == word {
            return Some(option.shown);
        }
    }
    None
}

/// Returns the first byte of a text, 0 if it has none.
fn first_byte(text: &str) -> u8
    ensures { result ≡ slice_index text.now 0 }
{
    let bytes = text.as_bytes();
    if bytes.is_empty() { 0 } else { bytes[0] }
}

/// Whether a number has neither a sign nor a leading zero.
fn is_plain_number(text: &str) -> bool
    ensures plain { result ≡ is_plain_number text.now }
{
    let first = first_byte(text);
    text == "0" || (b'1' <= first && first <= b'9')
}
