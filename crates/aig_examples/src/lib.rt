//! The examples at the heads of the files in `specs/`, worked out by the prover. It has no code.
#![tactic(auto)]
