//! Cut circuits: parts of a circuit that may be anything, so that a proof cannot need them.
#![tactic(auto)]

mod fault;
mod laws;
mod line;
mod marks;
mod parts;

pub use fault::CutFault;
pub use laws::law_of_what_is_written;
pub use parts::cut;
