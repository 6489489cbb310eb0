//! The values of a circuit frame by frame: grids of cells, stimuli, what latches begin with, the order of gates, the
//! lines of a trace.
#![tactic(auto)]

// What is public here and not exported below is for the crate that simulates row by row.
pub mod code;
pub mod gate_order;
mod grid;
pub mod row;
mod stimulus;
pub mod trace_line;

pub use gate_order::stand_in_order;
pub use grid::Grid;
pub use grid::plane_grid::PlaneGrid;
pub use grid::row_grid::ByteGrid;
pub use stimulus::reset::first_value;
pub use stimulus::{FRAMES, Stimulus};
pub use trace_line::write_trace;
