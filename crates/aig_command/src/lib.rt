//! What every run of a command has: the files of a circuit and of the run that is given with it, an answer after a
//! flush, and why it is refused.
#![tactic(auto)]

mod circuit_file;
mod given;
mod output;
mod property;
mod run_fault;
mod script_fault;
mod stimulus_file;
mod why_fault;

pub use circuit_file::read_circuit;
pub use given::{Given, GivenRun, read_given};
pub use output::{as_output, flushed};
pub use property::position_in;
pub use run_fault::RunFault;
pub use script_fault::ScriptFault;
pub use stimulus_file::read_rows;
pub use why_fault::WhyFault;
