//! The names of a circuit's properties: they are given one per line, and looked up.
pub(crate) mod fault;
pub(crate) mod lookup;
pub(crate) mod naming;
pub(crate) mod number;
pub(crate) mod wanted;
