//! A bench that stays open between calls: a circuit and its rows, with current values.

mod change;
mod edits;
mod handle;
mod many;
mod opening;
mod parts;
mod questions;
mod rows;
mod status;
mod texts;

pub use change::AigReport;
pub use edits::{
    aig_live_append_gate, aig_live_drop_frame, aig_live_output, aig_live_reset, aig_live_rewire,
    aig_live_set,
};
pub use handle::AigLive;
pub use many::{AigEdit, aig_live_edits};
pub use opening::{aig_live_close, aig_live_open};
pub use questions::{
    AigCell, AigSizes, aig_live_row, aig_live_sizes, aig_live_value, aig_live_values,
};
pub use rows::{aig_live_add_frame, aig_live_replace_rows};
pub use texts::{aig_live_circuit, aig_live_stimulus, aig_live_trace, aig_live_unrolled};
