//! The commands, a row each, with their arguments.
ghost use Rattle.std.specs.Prelude.{◌≡◌, IfOk, map};
ghost use Rattle.clap.specs.Simple.{new_app, shape_of};
ghost use Rattle.clap.specs.Words.{app_of, with_rule};
ghost use Rattle.aig_cli.specs.Table.{on_files, on_proofs, on_runs, on_witnesses, plain};
ghost use Rattle.aig_cli.specs.Table.{rule_of_argument, shape_of_row, with_rules};

use crate::arguments::{self, Argument, built};
use crate::help::{self, usages};
use clap::Command;
use std::alloc::{AllocError, Global};

/// A command of the program.
pub struct Subcommand {
    pub name: &'static str,
    pub about: &'static str,
    /// What follows the options in its help.
    pub help: &'static str,
    /// Its usage, where one of two options is needed: the parser knows no such need, so it would leave it out.
    pub usage: Option<&'static str>,
    pub arguments: &'static [Argument],
}

// The commands in the order of the help. A check takes a table as one term, and stops at a larger one, so those on
// verdicts are in two.
static FILES: [Subcommand; 5] = [
    Subcommand {
        name: "toaig",
        about: "Convert a circuit between the text and the binary format",
        help: help::TOAIG,
        usage: None,
        arguments: &[arguments::FORMAT, arguments::CIRCUIT],
    },
    Subcommand {
        name: "info",
        about: "Print facts about a circuit, one per line",
        help: help::INFO,
        usage: None,
        arguments: &[arguments::NAMES, arguments::NAMES_JSON, arguments::CIRCUIT],
    },
    Subcommand {
        name: "select",
        about: "Write a circuit with some of its properties",
        help: help::SELECT,
        usage: None,
        arguments: &[
            arguments::FORMAT,
            arguments::FROM,
            arguments::AS,
            arguments::PROPERTIES,
            arguments::NAMES_FILE,
            arguments::CIRCUIT,
        ],
    },
    Subcommand {
        name: "cut",
        about: "Write a circuit in which some parts may be anything",
        help: help::CUT,
        usage: None,
        arguments: &[arguments::FORMAT, arguments::CUTS, arguments::CIRCUIT],
    },
    Subcommand {
        name: "unroll",
        about: "Unroll a circuit for K frames into a circuit without latches",
        help: help::UNROLL,
        usage: None,
        arguments: &[
            arguments::FRAMES,
            arguments::FORMAT,
            arguments::MAP,
            arguments::CIRCUIT,
        ],
    },
];

static RUNS: [Subcommand; 4] = [
    Subcommand {
        name: "sim",
        about: "Simulate a circuit and print one line per frame",
        help: help::SIM,
        usage: None,
        arguments: &[arguments::CIRCUIT, arguments::STIMULUS],
    },
    Subcommand {
        name: "wave",
        about: "Simulate a circuit and print a dump for waveform viewers",
        help: help::WAVE,
        usage: None,
        arguments: &[arguments::IS_WITNESS, arguments::CIRCUIT, arguments::RUN],
    },
    Subcommand {
        name: "bench",
        about: "Run a script of edits and queries on a simulation",
        help: help::BENCH,
        usage: None,
        arguments: &[
            arguments::CIRCUIT_OUT,
            arguments::STIMULUS_OUT,
            arguments::CIRCUIT,
            arguments::STIMULUS,
            arguments::SCRIPT,
        ],
    },
    Subcommand {
        name: "shell",
        about: "Edit and query a simulation at a prompt, with names",
        help: help::SHELL,
        usage: None,
        arguments: &[
            arguments::BEGINS_WITH_WITNESS,
            arguments::CIRCUIT,
            arguments::BEGINNING,
        ],
    },
];

static WITNESSES: [Subcommand; 4] = [
    Subcommand {
        name: "check",
        about: "Check that a witness reaches a bad state, and print the verdict",
        help: help::CHECK,
        usage: None,
        arguments: &[
            arguments::TRACE,
            arguments::TRACED_PROPERTIES,
            arguments::CHECKED,
            arguments::CHECKS_ALIVE,
            arguments::CHECKED_FRAMES,
            arguments::CIRCUIT,
            arguments::WITNESS,
        ],
    },
    Subcommand {
        name: "witness",
        about: "Write the witness that a run reaches a bad state",
        help: help::WITNESS,
        usage: None,
        arguments: &[
            arguments::MODEL,
            arguments::MODEL_FRAMES,
            arguments::MODEL_STEP,
            arguments::MODEL_CERTIFICATE,
            arguments::MODEL_ALIVE,
            arguments::REACHED,
            arguments::CIRCUIT,
            arguments::ROWS,
        ],
    },
    Subcommand {
        name: "reduce",
        about: "Write a witness with x at each value that it does not need",
        help: help::REDUCE,
        usage: None,
        arguments: &[arguments::CIRCUIT, arguments::WITNESS],
    },
    Subcommand {
        name: "why",
        about: "Explain a value of a run by inputs and latches, frame by frame",
        help: help::WHY,
        usage: None,
        arguments: &[
            arguments::OF,
            arguments::FRAME,
            arguments::DEPTH,
            arguments::EXPLAINS_WITNESS,
            arguments::JSON,
            arguments::CIRCUIT,
            arguments::RUN,
        ],
    },
];

static REFUTATIONS: [Subcommand; 3] = [
    Subcommand {
        name: "cnf",
        about: "Print a formula for SAT solvers: a bad state within K frames",
        help: help::CNF,
        usage: Some(usages::CNF),
        arguments: &[
            arguments::FRAMES_OR_CERTIFICATE,
            arguments::PROPERTY,
            arguments::STEP,
            arguments::CERTIFICATE,
            arguments::ALIVE,
            arguments::CIRCUIT,
        ],
    },
    Subcommand {
        name: "refute",
        about: "Check a SAT solver's proof that no run reaches a bad state",
        help: help::REFUTE,
        usage: Some(usages::REFUTE),
        arguments: &[
            arguments::FRAMES_OR_CERTIFICATE,
            arguments::PROPERTY,
            arguments::STEP_PROOF,
            arguments::CERTIFICATE,
            arguments::ALIVE,
            arguments::CIRCUIT,
            arguments::PROOF,
        ],
    },
    Subcommand {
        name: "strengthen",
        about: "Write a circuit that is strengthened by a certificate",
        help: help::STRENGTHEN,
        usage: None,
        arguments: &[
            arguments::FORMAT,
            arguments::STRENGTHENING,
            arguments::PROPERTY,
            arguments::CIRCUIT,
        ],
    },
];

/// The commands on files of circuits.
pub fn files() -> &'static [Subcommand]
    ensures rows { map plain (map shape_of_row result.now) ≡ on_files }
{
    FILES.as_slice()
}

/// Those on runs.
pub fn runs() -> &'static [Subcommand]
    ensures rows { map plain (map shape_of_row result.now) ≡ on_runs }
{
    RUNS.as_slice()
}

/// Those on the verdict that a run reaches a bad state.
pub fn witnesses() -> &'static [Subcommand]
    ensures rows { map plain (map shape_of_row result.now) ≡ on_witnesses }
{
    WITNESSES.as_slice()
}

/// Those on the verdict that none does.
pub fn refutations() -> &'static [Subcommand]
    ensures rows { map plain (map shape_of_row result.now) ≡ on_proofs }
{
    REFUTATIONS.as_slice()
}

fn with_argument<'a>(
    command: Command<'a>,
    alloc: Global,
    row: &'static Argument,
) -> Result<Command<'a>, AllocError>
    ensures app { IfOk result (λ c. app_of c ≡ with_rule (app_of command.entry) (rule_of_argument row.now)) }
{
    command.arg(built(alloc, row)?)
}

fn bare<'a>(alloc: Global, row: &'static Subcommand) -> Command<'a>
    ensures app { app_of result ≡ new_app row.now.name.now }
{
    let command = Command::new(alloc, row.name)
        .about(row.about)
        .after_help(row.help);
    match row.usage {
        Some(usage) => command.override_usage(usage),
        None => command,
    }
}

fn with_arguments<'a>(
    command: Command<'a>,
    alloc: Global,
    rows: &'static [Argument],
) -> Result<Command<'a>, AllocError>
    ensures app { IfOk result (λ c. app_of c ≡ with_rules (app_of command.entry) (map rule_of_argument rows.now)) }
{
    let mut command = command;
    for row in rows {
        command = with_argument(command, alloc, row)?;
    }
    Ok(command)
}

/// The command as the parser takes it.
pub fn built_subcommand<'a>(
    alloc: Global,
    row: &'static Subcommand,
) -> Result<Command<'a>, AllocError>
    ensures shape { IfOk result (λ c. shape_of c ≡ shape_of_row row.now) }
{
    with_arguments(bare(alloc, row), alloc, row.arguments)
}
