//! Circuits unrolled over frames: time-frame expansion.
#![tactic(auto)]

mod fault;
mod input_map;
mod symbol;
mod unrolling;

pub use fault::UnrollFault;
pub use input_map::{write_input_lines, write_input_map};
pub use symbol::write_symbol;
pub use unrolling::laws::{law_of_frame_literals, law_of_guards, law_of_input_map};
pub use unrolling::limits::fits_limits;
pub use unrolling::plan::uninitialised;
pub use unrolling::{unroll, unrolled_circuit};
