//! The calls for C, as `include/aig.h` declares them. Those from bytes to bytes keep no state: each writes what its
//! command prints, or why an input is rejected, to the front of a room that the caller passes, and returns a status. The
//! others are edits of a bench that stays open, and questions to it.
#![tactic(auto)]

mod answer;
mod asked;
mod circuits;
mod formulas;
mod live;
mod refutations;
mod runs;
mod version;

pub use circuits::{aig_cut, aig_info, aig_names, aig_strengthen, aig_toaig, aig_unroll};
pub use formulas::{
    aig_cnf, aig_cnf_alive, aig_cnf_certified, aig_model_witness, aig_model_witness_certified,
};
pub use live::{
    AigCell, AigEdit, AigLive, AigReport, AigSizes, aig_live_add_frame, aig_live_append_gate,
    aig_live_circuit, aig_live_close, aig_live_drop_frame, aig_live_edits, aig_live_open,
    aig_live_output, aig_live_replace_rows, aig_live_reset, aig_live_rewire, aig_live_row,
    aig_live_set, aig_live_sizes, aig_live_stimulus, aig_live_trace, aig_live_unrolled,
    aig_live_value, aig_live_values,
};
pub use refutations::{aig_refute, aig_refute_alive, aig_refute_certified, aig_refute_step};
pub use runs::{aig_bench, aig_check, aig_reduce, aig_wave_witness, aig_witness};
pub use version::aig_version;
