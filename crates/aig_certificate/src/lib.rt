//! Certificates: a model that is strengthened by the claims of a second circuit.
#![tactic(auto)]

mod fault;
mod mapping;
mod mark;
mod parts;
mod shared;
mod sharing;
mod strengthen;
mod symbols;
mod translation;

pub use fault::StrengthenFault;
pub use mark::literal_of;
pub use strengthen::strengthened;
