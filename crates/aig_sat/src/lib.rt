//! What passes between a SAT solver and us: models, proofs, and the checker of proofs. It knows no circuit.
#![tactic(auto)]

mod checker;
mod model;
mod proof;

pub use checker::Refutation;
pub use model::{Assignment, ModelFault, Phase, law_of_model_text, read_model};
pub use proof::{ProofFault, ProofReader, ReadFault, Spelling, StepKind};
