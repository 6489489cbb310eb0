//! What circuits are made of: literals, three-valued logic, lists, names, gates, latches, parts, and their faults.
#![tactic(auto)]

mod bits;
mod fault;
mod gate;
mod latch;
mod list;
mod literal;
mod raw;
mod symbols;
mod ternary;

pub use fault::{Fault, WouldCycle};
pub use gate::Gate;
pub use latch::Latch;
pub use list::{Bytes, List};
pub use literal::Lit;
pub use raw::{LIMIT, Raw};
pub use symbols::list::SymbolList;
pub use symbols::{Kind, SymbolIter, Symbols};
pub use ternary::Tern;
