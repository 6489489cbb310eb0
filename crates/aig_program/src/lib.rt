//! What the program does with its arguments: which command they choose, which files it opens, and how it ends.
#![tactic(auto)]

pub mod arguments;
mod chosen;
pub mod commands;
pub mod ended;
mod given_file;
mod kept;
mod questions;

pub use chosen::{Chosen, command_for};
pub use given_file::{read_given_file, text_of_given};
pub use kept::{Failure, keep_texts};
