//! Reduced witnesses: x in place of each value that the failure does not need.
#![tactic(auto)]

mod fault;
mod looks;
mod needed;
mod pace;
mod place;
mod reducer;
mod reduction;
mod reduction_laws;
mod spread;
mod starts;

pub use fault::ReduceFault;
pub use reduction::{ReducedWitness, Reduction, reduce_witness};
pub use reduction_laws::law_of_reduction;
