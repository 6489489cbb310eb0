//! Formulas of bad states: what a SAT solver is asked about a circuit, as its text, and for the checker of its proofs.
//! What their models and their refutations say is a law of `aig_refute`.
#![tactic(auto)]

mod any_state;
mod checked;
mod cone;
mod dimacs;
mod fault;
mod formula;
mod heading;
mod laws;
mod part;
mod query;
mod read_formula;
mod resets;

pub use fault::CnfFault;
pub use formula::Formula;
pub use heading::Heading;
pub use laws::{law_of_dimacs, law_of_read_map};
pub use query::{Goal, Query};
pub use read_formula::ReadFormula;
