//! The command line of the program `aig`: its subcommands, their arguments and help, over the parser `clap`.
#![tactic(auto)]

mod arguments;
mod command_line;
mod help;
mod subcommands;

pub use command_line::{
    MissingFormula, OddNumber, has_flag, matches_of, missing_formula, negative_number, number_of,
    odd_number, subcommand_of, text_of, texts_of,
};
