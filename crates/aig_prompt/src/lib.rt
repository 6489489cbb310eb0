//! What people type and read at a prompt: words, values, names that are nearly right, tables and folded lines. It knows
//! no circuit.
#![tactic(auto)]

mod fold;
mod near;
mod shown;
mod table;
mod texts;
mod value;
mod words;

pub use fold::{Folding, push_folded};
pub use near::Near;
pub use shown::push_shown;
pub use table::{Row, Table};
pub use texts::Texts;
pub use value::{ValueFault, is_binary, value_of};
pub use words::{spaced, words_of};
