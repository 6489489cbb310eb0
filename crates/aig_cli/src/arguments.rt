//! The arguments and options of the commands, a row each.
ghost use Rattle.std.specs.Prelude.{◌≡◌, IfOk};
ghost use Rattle.clap.specs.Walk.{rule_of};
ghost use Rattle.aig_cli.specs.Table.{rule_of_argument, with_kind, with_need, with_number};

use clap::builder::ValueParser;
use clap::{Arg, ArgAction};
use std::alloc::{AllocError, Global};

/// An argument or option of a command.
pub struct Argument {
    /// The name by which its value is found. Help shows it, and a flag has it as its word.
    pub name: &'static str,
    /// What help says of it.
    pub help: &'static str,
    pub kind: Kind,
    pub need: Need,
}

/// How an argument is given, and what it takes.
pub enum Kind {
    /// Text, by its place.
    Text,
    /// A flag, which takes nothing.
    Flag,
    /// An option whose word is its name, with text that help shows by this name.
    Named(&'static str),
    /// An option of this word, with a number.
    Number(&'static str),
    /// An option of this word, with text that help shows by its name.
    Worded(&'static str),
    /// The same, any number of times.
    WordedEach(&'static str),
    /// An option of this word, with one of these words, which help shows by a name.
    OneOf(&'static str, &'static str, &'static [&'static str]),
}

/// When an argument has to be given.
pub enum Need {
    Always,
    Never,
    /// Never, and with none of these.
    But(&'static [&'static str]),
    /// Only if this option is, and with none of these.
    With(&'static str, &'static [&'static str]),
    /// Unless this option is, and with none of these.
    Without(&'static str, &'static [&'static str]),
}

const FORMATS: &[&str] = &["aag", "aig"];

const SECTIONS: &[&str] = &["bad", "outputs"];

pub const FORMAT: Argument = Argument {
    name: "FORMAT",
    help: "Format to write: aag (text) or aig (binary)",
    kind: Kind::OneOf("to", "FORMAT", FORMATS),
    need: Need::Always,
};

pub const FROM: Argument = Argument {
    name: "from",
    help: "Section to choose from: bad (the default) or outputs",
    kind: Kind::OneOf("from", "SECTION", SECTIONS),
    need: Need::Never,
};

pub const AS: Argument = Argument {
    name: "as",
    help: "Section to write: bad (the default) or outputs",
    kind: Kind::OneOf("as", "SECTION", SECTIONS),
    need: Need::Never,
};

pub const CIRCUIT: Argument = Argument {
    name: "CIRCUIT",
    help: "File of the circuit, in the format aag or aig",
    kind: Kind::Text,
    need: Need::Always,
};

pub const STIMULUS: Argument = Argument {
    name: "STIM",
    help: "File of the stimulus: one line per frame,\none 0, 1 or x (unknown) per input",
    kind: Kind::Text,
    need: Need::Always,
};

/// The stimulus of `witness`: a model may be given in its place, with the options of a model.
pub const ROWS: Argument = Argument {
    name: "STIM",
    help: "File of the stimulus: one line per frame,\none 0, 1 or x (unknown) per input",
    kind: Kind::Text,
    need: Need::Without("model", &["model", "K", "step", "certificate", "alive"]),
};

pub const RUN: Argument = Argument {
    name: "STIM",
    help: "File of the stimulus: one line per frame,\none 0, 1 or x (unknown) per input;\nwith --witness, file of the witness",
    kind: Kind::Text,
    need: Need::Always,
};

pub const SCRIPT: Argument = Argument {
    name: "SCRIPT",
    help: "File of the script: one edit or query per line",
    kind: Kind::Text,
    need: Need::Always,
};

pub const WITNESS: Argument = Argument {
    name: "WITNESS",
    help: "File of the witness: a run that should reach a bad state",
    kind: Kind::Text,
    need: Need::Always,
};

pub const PROOF: Argument = Argument {
    name: "PROOF",
    help: "File of the proof that a SAT solver wrote: DRAT as\ntext or binary, or LRAT as text",
    kind: Kind::Text,
    need: Need::Always,
};

pub const STEP_PROOF: Argument = Argument {
    name: "step",
    help: "File of the proof of the induction step, for\nruns of any length",
    kind: Kind::Named("FILE"),
    need: Need::Never,
};

pub const STEP: Argument = Argument {
    name: "step",
    help: "Print the formula of the induction step instead",
    kind: Kind::Flag,
    need: Need::Never,
};

pub const ALIVE: Argument = Argument {
    name: "alive",
    help: "Ask instead whether a run keeps all constraints\nfor K frames",
    kind: Kind::Flag,
    need: Need::But(&["P", "step", "certificate"]),
};

/// The flag of `witness --model`.
pub const MODEL_ALIVE: Argument = Argument {
    name: "alive",
    help: "MODEL is of the formula of cnf --alive",
    kind: Kind::Flag,
    need: Need::With("model", &["P", "step", "certificate"]),
};

/// The flag of `check`.
pub const CHECKS_ALIVE: Argument = Argument {
    name: "alive",
    help: "Check instead that the run keeps all constraints",
    kind: Kind::Flag,
    need: Need::But(&["P", "trace"]),
};

pub const CHECKED_FRAMES: Argument = Argument {
    name: "K",
    help: "With --alive, for how many frames (default: all of\nthe witness)",
    kind: Kind::Number("frames"),
    need: Need::With("alive", &["P", "trace"]),
};

pub const FRAMES: Argument = Argument {
    name: "K",
    help: "Number of frames, from 1 to 65536",
    kind: Kind::Number("frames"),
    need: Need::Always,
};

/// The number of frames of `cnf` and `refute`: a certificate may be given in its place.
pub const FRAMES_OR_CERTIFICATE: Argument = Argument {
    name: "K",
    help: "Number of frames, from 1 to 65536",
    kind: Kind::Number("frames"),
    need: Need::Never,
};

pub const CERTIFICATE: Argument = Argument {
    name: "certificate",
    help: "File of a certificate of the property, in the\nplace of --frames",
    kind: Kind::Named("AIG"),
    need: Need::But(&["K", "step"]),
};

pub const MODEL_CERTIFICATE: Argument = Argument {
    name: "certificate",
    help: "File of the certificate, if MODEL is of the\nformula of cnf --certificate",
    kind: Kind::Named("AIG"),
    need: Need::With("model", &["K", "step"]),
};

pub const STRENGTHENING: Argument = Argument {
    name: "certificate",
    help: "File of a certificate of the property, in the\nformat aag or aig",
    kind: Kind::Named("AIG"),
    need: Need::Always,
};

pub const PROPERTY: Argument = Argument {
    name: "P",
    help: "Bad state property, by its position, counted from 0\n(3 or b3), or by its name (0 if it is omitted)",
    kind: Kind::Worded("property"),
    need: Need::Never,
};

pub const REACHED: Argument = Argument {
    name: "P",
    help: "Bad state property, by its position, counted from 0\n(3 or b3), or by its name (default: the first that\nis reached; 0 with --model)",
    kind: Kind::Worded("property"),
    need: Need::Never,
};

pub const CHECKED: Argument = Argument {
    name: "P",
    help: "Bad state property that the witness has to be of, by\nits position, counted from 0 (3 or b3), or by its\nname (default: any)",
    kind: Kind::Worded("property"),
    need: Need::Never,
};

pub const PROPERTIES: Argument = Argument {
    name: "P",
    help: "Property to keep, by its position, counted from 0\n(3 or b3), or by its name; once for each property\n(default: all)",
    kind: Kind::WordedEach("property"),
    need: Need::Never,
};

pub const MODEL: Argument = Argument {
    name: "model",
    help: "File of a SAT solver's model of the formula of\ncnf, in the place of STIM",
    kind: Kind::Named("MODEL"),
    need: Need::Never,
};

pub const MODEL_STEP: Argument = Argument {
    name: "step",
    help: "MODEL is of the formula of cnf --step",
    kind: Kind::Flag,
    need: Need::Never,
};

pub const MODEL_FRAMES: Argument = Argument {
    name: "K",
    help: "Number of frames of the formula",
    kind: Kind::Number("frames"),
    need: Need::With("model", &[]),
};

pub const MAP: Argument = Argument {
    name: "map",
    help: "Write to FILE what each input of the\nunrolled circuit is, one line per input",
    kind: Kind::Named("FILE"),
    need: Need::Never,
};

pub const CIRCUIT_OUT: Argument = Argument {
    name: "circuit-out",
    help: "Write the edited circuit to FILE, as text",
    kind: Kind::Named("FILE"),
    need: Need::Never,
};

pub const STIMULUS_OUT: Argument = Argument {
    name: "stimulus-out",
    help: "Write the edited rows to FILE, as a stimulus",
    kind: Kind::Named("FILE"),
    need: Need::Never,
};

/// What `why` explains. Only a witness has a property to explain by default.
pub const OF: Argument = Argument {
    name: "of",
    help: "Signal, vector, entry or literal to explain, such as\ncount or o0 (default: the witness's property)",
    kind: Kind::Named("NAME"),
    need: Need::Without("witness", &[]),
};

pub const FRAME: Argument = Argument {
    name: "T",
    help: "Frame to explain, counted from 0 (default: the last)",
    kind: Kind::Number("frame"),
    need: Need::Never,
};

pub const DEPTH: Argument = Argument {
    name: "D",
    help: "How many frames to go back (default: to frame 0)",
    kind: Kind::Number("depth"),
    need: Need::Never,
};

pub const EXPLAINS_WITNESS: Argument = Argument {
    name: "witness",
    help: "Explain the run of a witness instead of a stimulus",
    kind: Kind::Flag,
    need: Need::Never,
};

pub const IS_WITNESS: Argument = Argument {
    name: "witness",
    help: "Dump the run of a witness instead of a stimulus",
    kind: Kind::Flag,
    need: Need::Never,
};

/// The flag of a session that begins with the run of a witness, which is then given.
pub const BEGINS_WITH_WITNESS: Argument = Argument {
    name: "witness",
    help: "Begin with the run of a witness instead of a stimulus",
    kind: Kind::Flag,
    need: Need::With("STIM", &[]),
};

pub const BEGINNING: Argument = Argument {
    name: "STIM",
    help: "File of the stimulus to begin with (default: no\nframes); with --witness, file of the witness",
    kind: Kind::Text,
    need: Need::Never,
};

pub const TRACE: Argument = Argument {
    name: "trace",
    help: "Print the trace of the run before the verdict",
    kind: Kind::Flag,
    need: Need::Never,
};

/// The fields that `check --trace` shows beside those of `sim`.
pub const TRACED_PROPERTIES: Argument = Argument {
    name: "properties",
    help: "With --trace, show bad states and constraints too",
    kind: Kind::Flag,
    need: Need::With("trace", &["alive", "K"]),
};

pub const NAMES: Argument = Argument {
    name: "names",
    help: "Print the entries with their names instead",
    kind: Kind::Flag,
    need: Need::Never,
};

/// The form of the names of `info`, which prints facts without `--names`.
pub const NAMES_JSON: Argument = Argument {
    name: "json",
    help: "Print each entry as an object of JSON",
    kind: Kind::Flag,
    need: Need::With("names", &[]),
};

/// The form of the lines of `why`.
pub const JSON: Argument = Argument {
    name: "json",
    help: "Print each line as an object of JSON",
    kind: Kind::Flag,
    need: Need::Never,
};

pub const CUTS: Argument = Argument {
    name: "cuts",
    help: "File of the parts that may be anything, one line\nper part",
    kind: Kind::Named("FILE"),
    need: Need::Always,
};

pub const NAMES_FILE: Argument = Argument {
    name: "names",
    help: "Name the properties that are written, by the\nlines of FILE: one name per line, in their order",
    kind: Kind::Named("FILE"),
    need: Need::Never,
};

/// An option with a number.
#[derive(Clone, Copy)]
pub struct NumberOption {
    /// The name by which the value is found.
    pub name: &'static str,
    /// The option's word.
    pub word: &'static str,
    /// How messages show the option.
    pub shown: &'static str,
}

/// The options with a number.
pub static NUMBERS: [NumberOption; 3] = [
    NumberOption {
        name: "K",
        word: "--frames",
        shown: "--frames <K>",
    },
    NumberOption {
        name: "T",
        word: "--frame",
        shown: "--frame <T>",
    },
    NumberOption {
        name: "D",
        word: "--depth",
        shown: "--depth <D>",
    },
];

fn number<'a>(argument: Arg<'a>, word: &'a str) -> Arg<'a>
    ensures rule { rule_of result ≡ with_number word.entry.now (rule_of argument.entry) }
{
    argument
        .long(word)
        .value_parser(ValueParser::Signed(0, 4_294_967_295))
}

fn of_kind<'a>(argument: Arg<'a>, kind: &'static Kind, name: &'static str) -> Arg<'a>
    ensures rule { rule_of result ≡ with_kind kind.now name.entry.now (rule_of argument.entry) }
{
    match kind {
        Kind::Text => argument,
        Kind::Flag => argument.long(name).action(ArgAction::SetTrue),
        Kind::Named(value) => argument.long(name).value_name(value),
        Kind::Number(word) => number(argument, word),
        Kind::Worded(word) => argument.long(word),
        Kind::WordedEach(word) => argument.long(word).action(ArgAction::Append),
        Kind::OneOf(word, value, words) => argument
            .long(word)
            .value_name(value)
            .value_parser(ValueParser::Names(words))
            .hide_possible_values(true),
    }
}

fn of_need<'a>(argument: Arg<'a>, need: &'static Need) -> Result<Arg<'a>, AllocError>
    ensures rule { IfOk result (λ built. rule_of built ≡ with_need need.now (rule_of argument.entry)) }
{
    match need {
        Need::Always => Ok(argument.required(true)),
        Need::Never => Ok(argument),
        Need::But(options) => argument.conflicts_with_all(options),
        Need::With(option, options) => argument.requires_arg(option)?.conflicts_with_all(options),
        Need::Without(option, options) => argument
            .required_unless_present(option)?
            .conflicts_with_all(options),
    }
}

/// The argument as the parser takes it.
pub fn built<'a>(alloc: Global, row: &'static Argument) -> Result<Arg<'a>, AllocError>
    ensures rule { IfOk result (λ built. rule_of built ≡ rule_of_argument row.now) }
{
    let argument = Arg::new(alloc, row.name).help(row.help);
    of_need(of_kind(argument, &row.kind, row.name), &row.need)
}
