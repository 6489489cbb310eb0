//! The header of a value change dump: identifier codes, the names of signals, vectors and scopes. It knows no circuit.
#![tactic(auto)]

mod header;
mod header_laws;
mod names;
mod paths;
mod signals;
mod vectors;

pub use header::{SignalCounts, dump_header};
pub use header_laws::law_of_dump_header;
pub use names::{FirstWord, first_word, push_position, symbol_at};
pub use vectors::{Bit, bit_of, show_next};
