//! Texts of stimuli: read, and written.

pub(crate) mod fault;
pub(crate) mod row_parser;
pub(crate) mod text;
pub(crate) mod writer;
