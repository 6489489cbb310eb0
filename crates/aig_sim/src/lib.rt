//! Simulation row by row: stimulus text, traces, dumps and witnesses. It exports what stands below it again.
#![tactic(auto)]

mod dumps;
mod simulation;
mod stimulus;
mod text_laws;
mod witness;

pub use aig_names::law_of_dump_header;
pub use aig_values::{
    ByteGrid, FRAMES, Grid, PlaneGrid, Stimulus, first_value, stand_in_order, write_trace,
};
pub use dumps::dumping::dump;
pub use simulation::machine::first_states;
pub use simulation::simulate;
pub use stimulus::fault::StimFault;
pub use stimulus::row_parser::{RowParser, Shape};
pub use stimulus::text::read_stimulus;
pub use stimulus::writer::write_stimulus;
pub use text_laws::{law_of_dump, law_of_stimulus_text, law_of_witness_text};
pub use witness::breaks::{Break, first_break};
pub use witness::check_witness;
pub use witness::fault::WitnessFault;
pub use witness::reach_fault::ReachFault;
pub use witness::reached::{Reached, first_reached};
pub use witness::reader::{Witness, read_witness, witness_property};
pub use witness::replay::{dump_witness, trace_properties, trace_witness};
pub use witness::replay_fault::ReplayFault;
pub use witness::run::{Run, read_run};
pub use witness::verdict::Verdict;
pub use witness::writer::write_witness;
