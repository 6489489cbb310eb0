//! Proofs that a formula has no satisfying assignment, as SAT solvers write them (DRAT, and LRAT as text): their steps,
//! read one by one. The crate knows no formula: whether a step follows is not its affair.

mod binary;
mod bytes;
mod either;
mod fault;
mod hinted;
mod literal;
mod names;
mod reader;
mod spelling;
mod step;
mod text;

pub use fault::{ProofFault, ReadFault};
pub use reader::ProofReader;
pub use spelling::Spelling;
pub use step::StepKind;
