//! Value change dumps of simulations.

pub(crate) mod dumping;
pub(crate) mod header;
pub(crate) mod recorder;
mod text;
