//! The workbench: a simulation that stays current while circuit and stimulus change.
#![tactic(auto)]

mod bench;
mod edit;
mod engine;
mod propagate;

pub use bench::Bench;
pub use bench::fault::BenchFault;
pub use edit::laws::law_of_counts;
pub use edit::{EditFault, EditReport};
