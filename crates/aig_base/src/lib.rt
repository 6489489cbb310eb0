//! Circuits: the check, levels, fan-outs, renumbering. It exports what stands below it again.
#![tactic(auto)]

mod change;
mod check;
mod circuit;
mod level;
mod part;
mod readers;
mod renumbering;
mod select;

pub use aig_bytes::{
    Block, Buffered, Count, Failed, Io, MemReader, MemWriter, Memory, Read, Std, Term, Write,
    line_length, write_all, write_number,
};
pub use aig_parts::{
    Bytes, Fault, Gate, Kind, LIMIT, Latch, List, Lit, Raw, SymbolIter, SymbolList, Symbols, Tern,
    WouldCycle,
};
pub use change::append::append_gate;
pub use change::start::start_at;
pub use check::binary_ready::is_binary_ready;
pub use circuit::Circuit;
pub use circuit::definition::Definition;
pub use circuit::laws::{law_of_completion, law_of_faults, law_of_levels, law_of_one_value};
pub use level::Levels;
pub use level::cycle::would_cycle;
pub use level::greatest::greatest_fan_out;
pub use level::level_copy::LevelCopy;
pub use level::order::{canonical_order, sorted_gates};
pub use part::read_marks;
pub use readers::Readers;
pub use renumbering::laws::law_of_renumbering;
pub use renumbering::renumber;
pub use renumbering::table::renumbered_variables;
pub use select::{PropertySection, SelectFault};
