//! Circuits as bytes: the ASCII and the binary format.
#![tactic(auto)]

mod format_laws;
mod reader;
mod writer;

pub use format_laws::{law_of_deltas, law_of_one_reading, law_of_round_trip};
pub use reader::header::{Counts, Format};
pub use reader::{read, read_from, read_with_format};
pub use writer::ascii::{write_ascii, write_ascii_with};
pub use writer::binary::write_binary;
