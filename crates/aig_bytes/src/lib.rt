//! Bytes on their way in and out: readers, writers, what gathers small pieces, and counts of failed calls.
#![tactic(auto)]

mod block;
mod buffered;
mod bytes;
mod count;
mod digits;
mod fault;
mod line;
mod memory_bytes;
mod std_bytes;
mod term;
mod write;

pub use block::{Block, ByteBlock};
pub use buffered::Buffered;
pub use bytes::{Failed, Read, Write};
pub use count::Count;
pub use fault::{Io, Memory};
pub use line::line_length;
pub use memory_bytes::{MemReader, MemWriter};
pub use std_bytes::Std;
pub use term::Term;
pub use write::{write_all, write_number};
