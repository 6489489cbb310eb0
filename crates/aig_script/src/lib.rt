//! Scripts that drive a bench: their language, what runs them, and what they mean.
#![tactic(auto)]

pub mod bench;
mod command;
mod reply;
mod script;
mod script_laws;
mod script_line;

pub use bench::{keep_circuit, keep_stimulus, law_of_kept_files, open_bench, run_bench};
pub use script::run_script;
pub use script_laws::{law_of_lines, law_of_one_meaning};
