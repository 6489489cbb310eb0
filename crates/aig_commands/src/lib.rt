//! The commands, from bytes to bytes: a module each, with the call that has its name.
#![tactic(auto)]

pub mod alive;
mod alive_witness;
pub mod certified;
pub mod check;
pub mod cnf;
pub mod cut;
mod entries;
pub mod info;
pub mod model_witness;
mod named_run;
pub mod question;
pub mod reduce;
pub mod refute;
pub mod select;
pub mod sim;
mod spread;
pub mod strengthen;
pub mod toaig;
pub mod unroll;
pub mod wave;
pub mod witness;

pub use check::check_bytes;
pub use toaig::{convert, convert_from};
pub use unroll::unroll_bytes;
